ghost use Rattle.std.specs.Prelude.{◌≡◌};
ghost use Rattle.opsproto.specs.declared.refusal.OpRefusal.TheVariants as refusal;
ghost use Rattle.opsproto.specs.Refusals.{wire_refusal};

use protowire::WireRefusal;
use std::alloc::{AllocError, AllocFailed};
use thiserror::Error;

/// Why bytes are not a definition, or not an op.
#[derive(Clone, Copy, Debug, PartialEq, Eq, Error)]
pub enum OpRefusal {
    /// A message's own form is broken: the message itself, or one that it holds.
    #[error("{0}")]
    Wire(WireRefusal),
    /// The string of this field number is not UTF-8.
    #[error("field {0} is not UTF-8")]
    NotUtf8(u32),
    /// More than 16 MiB, or more than 65,536 entries.
    #[error("too large")]
    TooLarge,
    #[error("out of memory")]
    OutOfMemory,
}

impl From<WireRefusal> for OpRefusal {
    ghost from_gives = { λ wire e. e ≡ wire_refusal wire };

    fn from(wire: WireRefusal) -> OpRefusal {
        match wire {
            WireRefusal::OutOfMemory => OpRefusal::OutOfMemory,
            _ => OpRefusal::Wire(wire),
        }
    }
}

impl From<AllocError> for OpRefusal {
    ghost from_gives = { λ _ e. e ≡ refusal.OutOfMemory };

    fn from(_error: AllocError) -> OpRefusal {
        OpRefusal::OutOfMemory
    }
}

impl<T: Drop> From<AllocFailed<T>> for OpRefusal {
    ghost from_gives = { λ _ e. e ≡ refusal.OutOfMemory };

    fn from(_error: AllocFailed<T>) -> OpRefusal {
        OpRefusal::OutOfMemory
    }
}
