ghost use Rattle.std.specs.Prelude.{◌≡◌};
ghost use Rattle.farmhistory.specs.declared.refusal.BoardRefusal.TheVariants as board;

use events::EventRefusal;
use std::alloc::AllocError;
use thiserror::Error;

/// Why a call of the board was refused.
#[derive(Clone, Copy, Debug, PartialEq, Eq, Error)]
pub enum BoardRefusal {
    /// The event was appended, and the world refused it.
    #[error("{0}")]
    Event(EventRefusal),
    #[error("the schedule has 65,536 events")]
    HistoryFull,
    #[error("an execution on the node has not ended")]
    TokenOut,
    #[error("out of memory")]
    OutOfMemory,
}

impl From<AllocError> for BoardRefusal {
    ghost from_gives = { λ _ e. e ≡ board.OutOfMemory };

    fn from(_error: AllocError) -> BoardRefusal {
        BoardRefusal::OutOfMemory
    }
}
