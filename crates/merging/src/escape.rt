//! How a path is spelled.
ghost use Rattle.std.specs.Prelude.{◌≡◌, ◌≢◌, ℕ, List, ◌++◌, map, IfOk, OnOk};
ghost use Rattle.names.specs.Digests.{IsBytes};
ghost use Rattle.names.specs.Escapes.{escaped};
ghost use Rattle.merging.specs.Texts.{swapped, path_text};

use super::refusal::ListingRefusal;
use names::FolderRefusal;
use names::escape::{bytes_of, digit, is_plain};
use std::alloc::{AllocError, Global};

/// Adds the spelling of a byte.
#[tactic(auto, using(names::proofs::EscapeLemmas::escaped_plain), unfolding(names::specs::Escapes::escaped))]
fn push_escaped(text: &mut Vec<u8>, byte: u8) -> Result<(), AllocError>
    ensures { OnOk result (text.new.items ≡ text.old.items ++ escaped byte) }
{
    if is_plain(byte) {
        text.push(byte)?;
    } else {
        text.push(b'%')?;
        text.push(digit(byte / 16))?;
        text.push(digit(byte % 16))?;
    }
    Ok(())
}

/// The byte that is written for a byte of a path, and back.
fn swapped(byte: u8) -> u8
    ensures { result ≡ swapped byte }
{
    match byte {
        0 => b'/',
        b'/' => 0,
        other => other,
    }
}

/// Adds the spelling of a path.
pub(crate) fn push_path(text: &mut Vec<u8>, path: &[u8]) -> Result<(), AllocError>
    ensures { OnOk result (text.new.items ≡ text.old.items ++ path_text path.now) }
{
    for byte in path {
        push_escaped(text, swapped(*byte))?;
    }
    Ok(())
}

/// Each byte as it is written, and back.
fn swapped_all(alloc: Global, bytes: &[u8]) -> Result<Vec<u8>, AllocError>
    ensures { IfOk result (λ path. path.items ≡ map swapped bytes.now) }
{
    let mut path = Vec::with_capacity(alloc, bytes.len())?;
    for byte in bytes {
        path.push(swapped(*byte))?;
    }
    Ok(path)
}

/// The path that a text spells.
pub(crate) fn path_of(alloc: Global, text: &[u8]) -> Result<Vec<u8>, ListingRefusal>
    ensures spelled { IfOk result (λ path. text.now ≡ path_text path.items) }
    ensures bytes { IfOk result (λ path. IsBytes path.items) }
    ensures only { result ≡ Err ListingRefusal.BadForm → (path : List ℕ) → IsBytes path → text.now ≢ path_text path }
    ensures short { result ≢ Err ListingRefusal.TooLong }
{
    let bytes = match bytes_of(alloc, text) {
        Ok(bytes) => bytes,
        Err(FolderRefusal::BadFolder) => return Err(ListingRefusal::BadForm),
        Err(FolderRefusal::OutOfMemory) => return Err(ListingRefusal::OutOfMemory),
    };
    Ok(swapped_all(alloc, bytes.as_slice())?)
}
