//! What lasts of a node's process, and the files of its agent.
ghost use Rattle.std.specs.Prelude.{◌≡◌, ◌⊎◌, Bool, true, false, ℕ, List, IfOk, OnOk, OnErr, Some, None, Err};
ghost use Rattle.names.specs.declared.digest.Digest.{Digest};
ghost use Rattle.names.specs.Contents.{content_digest};
ghost use Rattle.nodestore.specs.declared.store.FileFault.TheVariants as faults;
ghost use Rattle.nodestore.specs.Stores.{StayKept, HasContent, IsTooLarge};

use names::{Content, Digest, Life};
use std::alloc::{AllocError, AllocFailed, Global};
use thiserror::Error;

/// What the process needs could not be kept, or what it forgot not be removed.
#[derive(Clone, Copy, Debug, PartialEq, Eq, Error)]
#[error("the store failed")]
pub struct StoreFault;

/// How many bytes a content of the agent's has at most, so that a line can carry it.
pub const CONTENT_LIMIT: usize = 16 << 20;

/// Why a file of the agent's can't be used.
#[derive(Clone, Copy, Debug, PartialEq, Eq, Error)]
pub enum FileFault {
    #[error("the file can't be read or written")]
    Unusable,
    /// It has more bytes than a content may have.
    #[error("the file has more than 16 MiB")]
    TooLarge,
    #[error("out of memory")]
    OutOfMemory,
}

impl From<AllocError> for FileFault {
    ghost from_gives = { λ _ fault. fault ≡ faults.OutOfMemory };

    fn from(_error: AllocError) -> FileFault {
        FileFault::OutOfMemory
    }
}

impl<T: Drop> From<AllocFailed<T>> for FileFault {
    ghost from_gives = { λ _ fault. fault ≡ faults.OutOfMemory };

    fn from(_error: AllocFailed<T>) -> FileFault {
        FileFault::OutOfMemory
    }
}

/// Keeps the contents of a node and its last life, and reaches the files of its agent. That what is kept lasts, whenever the
/// process ends, is the device's promise.
pub trait Store: Drop {
    /// Whether the process after this one finds the content of this digest.
    ghost kept: { Self → Digest → Bool };

    /// The life that the process after this one finds.
    ghost last_life: { Self → ℕ };

    /// The agent's file of this path had these bytes, when it was read or written.
    ghost had: { Self → List ℕ → List ℕ → Type 0 };

    /// Keeps a content: it lasts from this answer on.
    fn keep(&mut self, content: &Content) -> Result<(), StoreFault>
        ensures kept { OnOk result (kept self.new (content_digest content.now) ≡ true) }
        ensures others { StayKept kept None self.old self.new }
        ensures life { last_life self.new ≡ last_life self.old };

    /// Keeps a life: it lasts from this answer on.
    fn keep_life(&mut self, life: Life) -> Result<(), StoreFault>
        ensures life { OnOk result (last_life self.new ≡ life.0) }
        ensures err { OnErr result ((last_life self.new ≡ last_life self.old) ⊎ (last_life self.new ≡ life.0)) }
        ensures contents { StayKept kept None self.old self.new };

    /// Keeps the content of this digest no longer: from this answer on it isn't found again. Where that fails it may be.
    fn forget(&mut self, digest: Digest) -> Result<(), StoreFault>
        ensures gone { OnOk result (kept self.new digest ≡ false) }
        ensures others { StayKept kept (Some digest) self.old self.new }
        ensures life { last_life self.new ≡ last_life self.old };

    /// The content of a file of the agent's.
    fn read(&self, alloc: Global, file: &str) -> Result<Content, FileFault>
        ensures content { IfOk result (λ content. HasContent (had self.now) file.now content) }
        ensures large { result ≡ Err faults.TooLarge → IsTooLarge (had self.now) file.now };

    /// Puts bytes in a file of the agent's.
    fn write(&self, file: &str, bytes: &[u8]) -> Result<(), FileFault>
        ensures { OnOk result (had self.now file.now bytes.now) };
}
