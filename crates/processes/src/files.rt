//! Keys, locks and the bytes of files.
ghost use Rattle.std.specs.Prelude.{◌≡◌, ◌⊎◌, ◌++◌, ◌∷◌, [], true};
ghost use Rattle.names.specs.Digests.{key_text};
ghost use Rattle.names.specs.declared.digest.Key.{Key};

use super::fault::{Cause, ProcessFault};
use farmwire::{FarmKey, KeyRefusal};
use names::Key;
use std::alloc::Global;
use std::fs::{self, File, OpenOptions, TryLockError};
use std::io::{self, ErrorKind, Read};
use std::rt::Files;

/// The bytes of a file.
fn bytes_of<R: Files + AllocGlobal>(rt: &R, path: &str) -> io::Result<Vec<u8>> {
    let mut bytes = Vec::new(rt.alloc());
    let mut file = fs::open(rt, path)?;
    file.read_to_end(&mut bytes)?;
    Ok(bytes)
}

/// The bytes of a file, and of one that has more than `most` of them one more than these.
pub(crate) fn most_bytes_of<R: Files + AllocGlobal>(
    rt: &R,
    path: &str,
    most: usize,
) -> io::Result<Vec<u8>> {
    let mut bytes = Vec::new(rt.alloc());
    let file = fs::open(rt, path)?;
    let mut part = file.take((most as u64).saturating_add(1));
    part.read_to_end(&mut bytes)?;
    Ok(bytes)
}

/// The bytes of a file, none where there is no file.
pub(crate) fn bytes_if_there<R: Files + AllocGlobal>(rt: &R, path: &str) -> io::Result<Vec<u8>> {
    match bytes_of(rt, path) {
        Err(error) if error.kind() == ErrorKind::NotFound => Ok(Vec::new(rt.alloc())),
        read => read,
    }
}

/// The key of a file with these bytes.
fn key_in(alloc: Global, path: &str, bytes: &[u8]) -> Result<FarmKey, ProcessFault> {
    match FarmKey::of(alloc, bytes) {
        Ok(key) => Ok(key),
        Err(KeyRefusal::KeyTooShort) => Err(ProcessFault::of(alloc, path, Cause::KeyTooShort)),
        Err(KeyRefusal::OutOfMemory) => Err(ProcessFault::out_of_memory(alloc)),
    }
}

/// The farm's key, from this file.
pub fn key_of<R: Files + AllocGlobal>(rt: &R, path: &str) -> Result<FarmKey, ProcessFault> {
    let alloc = rt.alloc();
    match bytes_of(rt, path) {
        Ok(bytes) => key_in(alloc, path, bytes.as_slice()),
        Err(error) => Err(ProcessFault::of_file(alloc, path, error)),
    }
}

/// The bytes of a file without a last LF.
fn without_end(file: &[u8]) -> &[u8]
    ensures { (result.now ≡ file.now) ⊎ (file.now ≡ result.now ++ 10 ∷ []) }
{
    match file {
        [digits @ .., b'\n'] => digits,
        _ => file,
    }
}

/// Whether these bytes are spelled as a node's key: 64 lower-case hexadecimal digits.
fn is_node_key(bytes: &[u8]) -> bool
    ensures { result ≡ true → (key : Key) × (bytes.now ≡ key_text key) }
{
    match str::from_utf8(bytes) {
        Ok(text) => Key::parse(text).is_ok(),
        Err(_) => false,
    }
}

/// The key of a node, from this file. One with other bytes, as the farm's own key, would leave the node unheard.
pub fn node_key_of<R: Files + AllocGlobal>(rt: &R, path: &str) -> Result<FarmKey, ProcessFault> {
    let alloc = rt.alloc();
    let bytes = match bytes_of(rt, path) {
        Ok(bytes) => bytes,
        Err(error) => return Err(ProcessFault::of_file(alloc, path, error)),
    };
    if !is_node_key(without_end(bytes.as_slice())) {
        return Err(ProcessFault::of(alloc, path, Cause::BadKey));
    }
    key_in(alloc, path, bytes.as_slice())
}

/// The file of this path, under a lock that no other process has. It is let go with the file.
fn locked<R: Files<File = File>>(rt: &R, path: &str) -> Result<File, TryLockError> {
    let opened = OpenOptions::new().write(true).create(true).open(rt, path);
    let file = opened.map_err(TryLockError::Error)?;
    file.try_lock()?;
    Ok(file)
}

/// The lock of this path's files: the file with `.lock` behind the path, which is made where it isn't there.
pub fn lock_of<R: Files<File = File> + AllocGlobal>(
    rt: &R,
    path: &str,
) -> Result<File, ProcessFault> {
    let alloc = rt.alloc();
    let Ok(path) = format!(in alloc; "{path}.lock") else {
        return Err(ProcessFault::out_of_memory(alloc));
    };
    match locked(rt, path.as_str()) {
        Ok(file) => Ok(file),
        Err(TryLockError::WouldBlock) => Err(ProcessFault::of(alloc, path.as_str(), Cause::Locked)),
        Err(TryLockError::Error(error)) => Err(ProcessFault::of_file(alloc, path.as_str(), error)),
    }
}
