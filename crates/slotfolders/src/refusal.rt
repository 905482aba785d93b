ghost use Rattle.std.specs.Prelude.{◌≡◌};
ghost use Rattle.slotfolders.specs.declared.refusal.RunRefusal.TheVariants.{OutOfMemory};

use farm_base::Slot;
use std::alloc::{AllocError, AllocFailed};
use thiserror::Error;

/// Why an execution has no answer that counts.
#[derive(Debug, Drop, Error)]
pub enum RunRefusal {
    /// The first slot of the lease whose content isn't folder bytes. The executor wasn't called.
    #[error("a content that is not folder bytes")]
    BadContents(Slot),
    /// The executor's edits of a folder that isn't in the task, isn't writable, or is named twice; or of one that would
    /// have more than 16 MiB of folder bytes.
    #[error("edits that cannot be made")]
    BadEdits,
    /// Here, or as the executor's answer.
    #[error("out of memory")]
    OutOfMemory,
}

impl From<AllocError> for RunRefusal {
    ghost from_gives = { λ _ e. e ≡ OutOfMemory };

    fn from(_error: AllocError) -> RunRefusal {
        RunRefusal::OutOfMemory
    }
}

impl<T: Drop> From<AllocFailed<T>> for RunRefusal {
    ghost from_gives = { λ _ e. e ≡ OutOfMemory };

    fn from(_error: AllocFailed<T>) -> RunRefusal {
        RunRefusal::OutOfMemory
    }
}
