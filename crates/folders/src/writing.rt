//! Writing folder bytes.
ghost use Rattle.std.specs.Prelude.{◌≡◌, ◌<◌, ◌^◌, ◌++◌, length, OnOk};
ghost use Rattle.folders.specs.Files.{sized, file_bytes, folder_bytes};

use super::file::File;
use std::alloc::AllocError;

/// Appends bytes behind their length.
fn push_sized(out: &mut Vec<u8>, bytes: &[u8]) -> Result<(), AllocError>
    requires { length bytes.now < 2 ^ 32 }
    ensures { OnOk result (out.new.items ≡ out.old.items ++ sized bytes.now) }
{
    let len = bytes.len() as u32;
    out.extend_from_slice(&len.to_be_bytes())?;
    out.extend_from_slice(bytes)
}

/// Appends a file.
pub(crate) fn push_file(out: &mut Vec<u8>, path: &str, content: &[u8]) -> Result<(), AllocError>
    requires { length (file_bytes (path.now, content.now)) < 2 ^ 32 }
    ensures { OnOk result (out.new.items ≡ out.old.items ++ file_bytes (path.now, content.now)) }
{
    push_sized(out, path.as_bytes())?;
    push_sized(out, content)
}

/// Appends the files, one after the other.
pub(crate) fn push_files(out: &mut Vec<u8>, files: &[File]) -> Result<(), AllocError>
    requires { length (folder_bytes files.now) < 2 ^ 32 }
    ensures { OnOk result (out.new.items ≡ out.old.items ++ folder_bytes files.now) }
{
    for (path, content) in files {
        push_file(out, path.as_str(), content.as_slice())?;
    }
    Ok(())
}
