ghost use Rattle.std.specs.Prelude.{◌≡◌, IfOk};
ghost use Rattle.std.specs.Str.{IsUtf8};

use names::{Items, Text};
use std::alloc::{AllocError, Global};

/// A path and its content.
pub(crate) type File = (Text, Items<u8>);

/// A file with copies of these.
pub(crate) fn file_of(alloc: Global, path: &str, content: &[u8]) -> Result<File, AllocError>
    ensures file { IfOk result (λ file. file ≡ (path.now, content.now)) }
    ensures utf8 { IfOk result (λ file. IsUtf8 file.0) }
{
    let path = String::from_str(alloc, path)?;
    let content = Vec::from_slice(alloc, content)?;
    Ok((Text::new(path), Items::new(content)))
}

/// Copies of the files.
pub(crate) fn copy_files(alloc: Global, files: &[File]) -> Result<Vec<File>, AllocError>
    ensures { IfOk result (λ copies. copies.items ≡ files.now) }
{
    let mut copies = Vec::with_capacity(alloc, files.len())?;
    for (path, content) in files {
        copies.push(file_of(alloc, path.as_str(), content.as_slice())?)?;
    }
    Ok(copies)
}
