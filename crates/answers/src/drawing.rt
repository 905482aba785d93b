//! What `draw` answers for a schedule.
ghost use Rattle.std.specs.Prelude.{IfOk, IfErr};
ghost use Rattle.std.specs.String.{string_bytes};
ghost use Rattle.answers.specs.Drawings.{IsDrawn};
ghost use Rattle.answers.specs.Replays.{IsUnread};

use super::failure::Failure;
use draw::{Range, draw};
use schedule::{ScheduleRefusal, read_schedule};
use std::alloc::Global;

/// The picture of a range of the events of the schedule that the bytes spell.
pub(crate) fn drawn(alloc: Global, bytes: &[u8], range: Range) -> Result<String, Failure>
    ensures printed { IfOk result (λ text. IsDrawn range bytes.now (string_bytes text)) }
    ensures refused { IfErr result (IsUnread bytes.now) }
{
    let (setup, events) = match read_schedule(alloc, bytes) {
        Err(ScheduleRefusal::OutOfMemory) => return Err(Failure::Memory),
        Err(refusal) => return Err(Failure::Schedule(refusal)),
        Ok(schedule) => schedule,
    };
    Ok(draw(alloc, setup, events.as_slice(), range)?)
}
