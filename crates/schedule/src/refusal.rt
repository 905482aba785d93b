ghost use Rattle.std.specs.Prelude.{◌≡◌};
ghost use Rattle.schedule.specs.Refusals.{refusal_at};
ghost use Rattle.schedule.specs.declared.refusal.ScheduleRefusal.TheVariants as schedule;

use std::alloc::AllocFailed;
use thiserror::Error;
use words::ReadRefusal;

/// Why a text is not a schedule. Of several faults it is the first from the top.
#[derive(Clone, Copy, Debug, PartialEq, Eq, Error)]
pub enum ScheduleRefusal {
    /// The line with this number can't be read. Lines are counted from 1.
    #[error("line {0} can't be read")]
    BadLine(u64),
    #[error("more than 65,536 events")]
    TooManyEvents,
    #[error("out of memory")]
    OutOfMemory,
    #[error("more than 16 MiB")]
    TooLarge,
}

impl<T: Drop> From<AllocFailed<T>> for ScheduleRefusal {
    ghost from_gives = { λ _ e. e ≡ schedule.OutOfMemory };

    fn from(_error: AllocFailed<T>) -> ScheduleRefusal {
        ScheduleRefusal::OutOfMemory
    }
}

/// The refusal of a schedule whose line of this number can't be read.
pub(crate) fn refusal_at(refusal: ReadRefusal, number: u64) -> ScheduleRefusal
    ensures { result ≡ refusal_at refusal number }
{
    match refusal {
        ReadRefusal::BadForm => ScheduleRefusal::BadLine(number),
        ReadRefusal::OutOfMemory => ScheduleRefusal::OutOfMemory,
    }
}
