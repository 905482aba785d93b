ghost use Rattle.std.specs.Prelude.{◌≡◌};
ghost use Rattle.farmend.specs.declared.refusal.EndRefusal.TheVariants.{OutOfMemory};

use std::alloc::{AllocError, AllocFailed};
use thiserror::Error;

/// Why a run doesn't end with its answers.
#[derive(Clone, Copy, Debug, PartialEq, Eq, Error)]
pub enum EndRefusal {
    /// The farm, the calls, the receipts and the answers don't agree.
    #[error("what the run left doesn't agree")]
    Disagrees,
    #[error("out of memory")]
    OutOfMemory,
}

impl From<AllocError> for EndRefusal {
    ghost from_gives = { λ _ refusal. refusal ≡ OutOfMemory };

    fn from(_error: AllocError) -> EndRefusal {
        EndRefusal::OutOfMemory
    }
}

impl<T: Drop> From<AllocFailed<T>> for EndRefusal {
    ghost from_gives = { λ _ refusal. refusal ≡ OutOfMemory };

    fn from(_error: AllocFailed<T>) -> EndRefusal {
        EndRefusal::OutOfMemory
    }
}
