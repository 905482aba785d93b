//! Reading folder bytes from the left.
ghost use Rattle.std.specs.Prelude.{◌≡◌, None, length};
ghost use Rattle.std.specs.Option.{option_copied};
ghost use Rattle.codec.specs.Steps.{result_map};
ghost use Rattle.folders.specs.Reading.{Gives, number_at, sized_at, is_above, path_at, file_at, files_in, folder_of};

use super::file::{File, file_of};
use super::refusal::FolderRefusal;
use std::alloc::Global;

/// The greatest size of folder bytes: 16 MiB.
pub(crate) const MOST_BYTES: usize = 16 << 20;

/// The number at the front, and what follows it.
fn first_number(bytes: &[u8]) -> Result<(usize, &[u8]), FolderRefusal>
    ensures { result_map (λ x. (x.0, x.1.now)) result ≡ number_at bytes.now }
{
    if bytes.len() < 4 {
        return Err(FolderRefusal::Truncated);
    }
    let (front, rest) = bytes.split_at(4);
    let number = u32::from_be_bytes([front[0], front[1], front[2], front[3]]);
    Ok((number as usize, rest))
}

/// The bytes at the front, behind their length, and what follows them.
#[tactic(auto, unfolding(crate::specs::Reading::sized_at))]
fn first_sized(bytes: &[u8]) -> Result<(&[u8], &[u8]), FolderRefusal>
    ensures { result_map (λ x. (x.0.now, x.1.now)) result ≡ sized_at bytes.now }
{
    let (len, rest) = first_number(bytes)?;
    if rest.len() < len {
        return Err(FolderRefusal::Truncated);
    }
    Ok(rest.split_at(len))
}

/// Whether a path is above the one before it, if there is one.
fn is_above(last: Option<&str>, path: &str) -> bool
    ensures { result ≡ is_above (option_copied last.entry) path.now }
{
    match last {
        None => true,
        Some(last) => last.cmp(path).is_lt(),
    }
}

/// The path at the front, and what follows it.
#[tactic(auto, unfolding(crate::specs::Reading::path_at))]
fn first_path<'a>(last: Option<&str>, bytes: &'a [u8]) -> Result<(&'a str, &'a [u8]), FolderRefusal>
    ensures { result_map (λ x. (x.0.now, x.1.now)) result ≡ path_at (option_copied last.entry) bytes.now }
{
    let (path, rest) = first_sized(bytes)?;
    let Ok(path) = str::from_utf8(path) else {
        return Err(FolderRefusal::NotUtf8);
    };
    if !is_above(last, path) {
        return Err(FolderRefusal::PathOrder);
    }
    Ok((path, rest))
}

/// The path and the content of the file at the front, and what follows it.
#[tactic(auto, unfolding(crate::specs::Reading::file_at))]
fn first_file<'a>(
    last: Option<&str>,
    bytes: &'a [u8],
) -> Result<(&'a str, &'a [u8], &'a [u8]), FolderRefusal>
    ensures { result_map (λ x. ((x.0.now, x.1.now), x.2.now)) result ≡ file_at (option_copied last.entry) bytes.now }
{
    let (path, rest) = first_path(last, bytes)?;
    let (content, rest) = first_sized(rest)?;
    Ok((path, content, rest))
}

/// All files of the bytes.
fn files_of(alloc: Global, bytes: &[u8]) -> Result<Vec<File>, FolderRefusal>
    ensures { Gives (λ v. v.items) result (files_in (length bytes.now) None bytes.now) }
{
    let mut files = Vec::new(alloc);
    let mut last = None;
    let mut rest = bytes;
    while !rest.is_empty() {
        let (path, content, after) = first_file(last, rest)?;
        files.push(file_of(alloc, path, content)?)?;
        last = Some(path);
        rest = after;
    }
    Ok(files)
}

/// The files of the folder that the bytes spell.
#[tactic(auto, unfolding(crate::specs::Reading::folder_of))]
pub(crate) fn read_files(alloc: Global, bytes: &[u8]) -> Result<Vec<File>, FolderRefusal>
    ensures { Gives (λ v. v.items) result (folder_of bytes.now) }
{
    if bytes.len() > MOST_BYTES {
        return Err(FolderRefusal::TooLarge);
    }
    files_of(alloc, bytes)
}
