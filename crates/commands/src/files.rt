//! Reading the files that the words name.

use answers::{Failure, whole_of};
use std::alloc::Global;
use std::io::{ErrorKind, Read};
use std::rt::Files;
use std::{fs, io};

/// How many bytes are read at once.
const PART: usize = 65_536;

/// Room for the bytes of a file of this length, at most `most` of them, and no room where memory hasn't that much.
fn room_for(alloc: Global, length: u64, most: usize) -> Vec<u8> {
    let bytes = usize::try_from(length).unwrap_or(most).min(most);
    match Vec::with_capacity(alloc, bytes.saturating_add(PART)) {
        Ok(room) => room,
        Err(_) => Vec::new(alloc),
    }
}

/// The bytes of a reader, at most `most` of them, in this room.
fn bytes_of<R: Read>(room: Vec<u8>, reader: &mut R, most: usize) -> io::Result<Vec<u8>> {
    let mut bytes = room;
    let mut part = [0u8; PART];
    for _ in 0..u64::MAX {
        let read = reader.read(&mut part)?;
        if read == 0 || bytes.len() >= most {
            break;
        }
        bytes.extend_from_slice(&part[..read])?;
    }
    bytes.truncate(most);
    Ok(bytes)
}

/// At most `most` bytes of the file of this name, or of the standard input for `-`.
pub fn contents<R: Files + Input + AllocGlobal>(
    rt: &R,
    name: &str,
    most: usize,
) -> io::Result<Vec<u8>> {
    if name == "-" {
        return bytes_of(Vec::new(rt.alloc()), &mut rt.reader(), most);
    }
    let mut file = fs::open(rt, name)?;
    // Where the length isn't known, the room grows.
    let length = fs::metadata(rt, name).map_or(0, |found| found.len());
    bytes_of(room_for(rt.alloc(), length, most), &mut file, most)
}

/// The bytes of the log beside the record of this name, none where there is no log.
fn log_beside<R: Files + Input + AllocGlobal>(rt: &R, name: &str) -> io::Result<Vec<u8>> {
    let log = format!(in rt.alloc(); "{name}.log")?;
    match contents(rt, log.as_str(), usize::MAX) {
        Err(error) if error.kind() == ErrorKind::NotFound => Ok(Vec::new(rt.alloc())),
        read => read,
    }
}

/// The bytes of a record beside this log, as they were read: none where there is a log, and no whole record was saved yet.
fn whole_beside(alloc: Global, log: &[u8], read: io::Result<Vec<u8>>) -> io::Result<Vec<u8>> {
    match read {
        Err(error) if error.kind() == ErrorKind::NotFound && !log.is_empty() => Ok(Vec::new(alloc)),
        read => read,
    }
}

/// What the record of this name holds with the log beside it, as one whole record, or why it is refused. Of the standard input it is
/// what stands there.
pub(crate) fn kept<R: Files + Input + AllocGlobal>(
    rt: &R,
    name: &str,
) -> io::Result<Result<Vec<u8>, Failure>> {
    let read = contents(rt, name, usize::MAX);
    if name == "-" {
        return Ok(Ok(read?));
    }
    let log = log_beside(rt, name)?;
    let whole = whole_beside(rt.alloc(), log.as_slice(), read)?;
    match whole_of(rt.alloc(), whole, log.as_slice()) {
        Err(Failure::Memory) => Err(io::Error::from(ErrorKind::OutOfMemory)),
        kept => Ok(kept),
    }
}
