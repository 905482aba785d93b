//! What `replay` answers for a schedule.
ghost use Rattle.std.specs.Prelude.{◌≡◌, ◌++◌, IfOk, IfErr, OnOk};
ghost use Rattle.std.specs.String.{string_bytes};
ghost use Rattle.names.specs.Contents.{content_digest};
ghost use Rattle.protocol.specs.Farm.{farm_limits};
ghost use Rattle.schedule.specs.Printing.{outcome_text};
ghost use Rattle.protocol.specs.Replay.{run, step};
ghost use Rattle.world.specs.Shown.{shown};
ghost use Rattle.answers.specs.Replays.{events_text, refused_by, refused_events, AreRefusedIn, IsPrinted, IsReplayed, IsUnread, TellsHeadline};

use super::answered::{Answer, RefusedEvent};
use super::failure::Failure;
use schedule::{Event, ScheduleRefusal, read_schedule};
use std::alloc::{AllocError, Global};
use world::laws::every_replay_means;
use world::{EventRefusal, StartRefusal, World, print_lines, print_outcome};

/// Adds the line of an event, which the farm carries out, and the event where it is refused.
fn push_event(
    alloc: Global,
    answer: &mut Answer,
    world: &mut World,
    number: u64,
    event: Event,
) -> Result<(), AllocError>
    ensures text { OnOk result (string_bytes answer.new.text ≡ string_bytes answer.old.text ++ outcome_text number (step content_digest farm_limits (shown world.old) event).outcome) }
    ensures refused { OnOk result (answer.new.refused.items ≡ answer.old.refused.items ++ refused_by number (step content_digest farm_limits (shown world.old) event).outcome) }
    ensures farm { OnOk result (shown world.new ≡ (step content_digest farm_limits (shown world.old) event).farm) }
{
    let outcome = world.step(alloc, event);
    match &outcome {
        Ok(_) => {}
        Err(EventRefusal::OutOfMemory) => return Err(AllocError),
        Err(refusal) => answer.refused.push(RefusedEvent {
            number,
            refusal: *refusal,
        })?,
    }
    let line = print_outcome(alloc, number, &outcome)?;
    answer.text.push_str(line.as_str())
}

/// The lines of the events, numbered from 1, and those of them that the farm refuses.
fn event_lines(alloc: Global, world: &mut World, events: Vec<Event>) -> Result<Answer, AllocError>
    ensures text { IfOk result (λ answer. string_bytes answer.text ≡ events_text 1 events.items (shown world.old)) }
    ensures refused { IfOk result (λ answer. answer.refused.items ≡ refused_events 1 events.items (shown world.old)) }
    ensures farm { OnOk result (shown world.new ≡ run content_digest farm_limits events.items (shown world.old)) }
{
    let mut answer = Answer::of(alloc, String::new(alloc));
    let mut number = 1;
    for event in events {
        push_event(alloc, &mut answer, world, number, event)?;
        number += 1;
    }
    Ok(answer)
}

/// A line for each event, which the farm carries out, and one for each slot that has a version then.
fn printed(alloc: Global, world: &mut World, events: Vec<Event>) -> Result<Answer, AllocError>
    ensures text { IfOk result (λ answer. IsPrinted (shown world.old) events.items (string_bytes answer.text)) }
    ensures refused { IfOk result (λ answer. answer.refused.items ≡ refused_events 1 events.items (shown world.old)) }
{
    let mut answer = event_lines(alloc, world, events)?;
    let lines = print_lines(alloc, world)?;
    answer.text.push_str(lines.as_str())?;
    Ok(answer)
}

/// A line for each event of the schedule that the bytes spell, and one for each slot that has a version then; and the
/// events that the farm refuses. The schedule has a chronicle, in which each event means what is printed of it, and the
/// headline holds after each part.
pub fn replayed(alloc: Global, bytes: &[u8]) -> Result<Answer, Failure>
    ensures printed { IfOk result (λ answer. IsReplayed bytes.now (string_bytes answer.text)) }
    ensures refused_events { IfOk result (λ answer. AreRefusedIn bytes.now answer.refused.items) }
    ensures headline { OnOk result (TellsHeadline bytes.now) }
    ensures refused { IfErr result (IsUnread bytes.now) }
{
    let (setup, events) = match read_schedule(alloc, bytes) {
        Err(ScheduleRefusal::OutOfMemory) => return Err(Failure::Memory),
        Err(refusal) => return Err(Failure::Schedule(refusal)),
        Ok(schedule) => schedule,
    };
    let mut world = match World::start(alloc, setup) {
        Err(StartRefusal::BadSetup) => unreachable!(),
        Err(StartRefusal::OutOfMemory) => return Err(Failure::Memory),
        Ok(world) => world,
    };
    every_replay_means();
    let answer = printed(alloc, &mut world, events)?;
    Ok(answer)
}
