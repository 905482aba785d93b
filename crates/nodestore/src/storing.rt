//! A folder as a store.
ghost use Rattle.std.specs.Prelude.{◌≡◌, ◌≢◌, ◌<◌, ◌≤◌, length, IfOk, Err};

use super::file_store::FileStore;
use super::store::{CONTENT_LIMIT, FileFault, Store, StoreFault};
use names::{Content, Digest, Life};
use std::alloc::Global;
use std::io::{self, ErrorKind};
use std::rt::Files;

/// Why a file of the agent's can't be used.
fn file_fault(error: io::Error) -> FileFault
    ensures { result ≢ FileFault.TooLarge }
{
    match error.kind() {
        ErrorKind::OutOfMemory => FileFault::OutOfMemory,
        _ => FileFault::Unusable,
    }
}

/// These bytes as a content, if a line can carry it.
fn small(bytes: Vec<u8>) -> Result<Content, FileFault>
    ensures content { IfOk result (λ content. (content ≡ bytes.items) × (length bytes.items ≤ CONTENT_LIMIT)) }
    ensures large { result ≡ Err FileFault.TooLarge → CONTENT_LIMIT < length bytes.items }
{
    if bytes.len() > CONTENT_LIMIT {
        return Err(FileFault::TooLarge);
    }
    Ok(Content::of(bytes))
}

impl<'a, R: Files> Store for FileStore<'a, R> {
    ghost use Rattle.nodestore.specs.Stores.{has_digest, any_bytes};

    ghost kept = { has_digest };

    ghost last_life = { λ s. s.last.0 };

    ghost had = { any_bytes };

    fn keep(&mut self, content: &Content) -> Result<(), StoreFault> {
        if self.has(content.digest()) {
            return Ok(());
        }
        if self.write_content(content).is_err() {
            return Err(StoreFault);
        }
        Ok(())
    }

    fn keep_life(&mut self, life: Life) -> Result<(), StoreFault> {
        if self.write_life(life).is_err() {
            return Err(StoreFault);
        }
        Ok(())
    }

    fn forget(&mut self, digest: Digest) -> Result<(), StoreFault> {
        if self.remove_content(digest).is_err() {
            return Err(StoreFault);
        }
        Ok(())
    }

    fn read(&self, alloc: Global, file: &str) -> Result<Content, FileFault> {
        match self.read_bytes(alloc, file) {
            Ok(Some(bytes)) => small(bytes),
            Ok(None) => Err(FileFault::Unusable),
            Err(error) => Err(file_fault(error)),
        }
    }

    fn write(&self, file: &str, bytes: &[u8]) -> Result<(), FileFault> {
        match self.write_bytes(file, bytes) {
            Ok(()) => Ok(()),
            Err(error) => Err(file_fault(error)),
        }
    }
}
