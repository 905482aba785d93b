ghost use Rattle.std.specs.Prelude.{◌≡◌};
ghost use Rattle.ordering.specs.declared.refusal.OrderRefusal.TheVariants as order;

use std::alloc::{AllocError, AllocFailed};
use thiserror::Error;

/// Why there is no order.
#[derive(Clone, Copy, Debug, PartialEq, Eq, Error)]
pub enum OrderRefusal {
    #[error("no entry has the digest of an input of the entry at place {0}")]
    MissingInput(usize),
    #[error("an entry needs itself")]
    Cycle,
    #[error("out of memory")]
    OutOfMemory,
}

impl From<AllocError> for OrderRefusal {
    ghost from_gives = { λ _ e. e ≡ order.OutOfMemory };

    fn from(_error: AllocError) -> OrderRefusal {
        OrderRefusal::OutOfMemory
    }
}

impl<T: Drop> From<AllocFailed<T>> for OrderRefusal {
    ghost from_gives = { λ _ e. e ≡ order.OutOfMemory };

    fn from(_error: AllocFailed<T>) -> OrderRefusal {
        OrderRefusal::OutOfMemory
    }
}
