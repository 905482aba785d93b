//! The frames of a schedule.
ghost use Rattle.std.specs.Prelude.{◌≡◌, ◌+◌, ◌<◌, ◌^◌, IfOk, OnOk, length};
ghost use Rattle.names.specs.Contents.{content_digest};
ghost use Rattle.protocol.specs.Farm.{farm_limits};
ghost use Rattle.protocol.specs.Replay.{run, step, opening};
ghost use Rattle.world.specs.Setups.{IsSetup};
ghost use Rattle.world.specs.Shown.{shown};
ghost use Rattle.draw.specs.Pictures.{actor_of, sent_after, framed, frame_of, first_frame, frames_from};

use super::event::{addressee, done_of, held_of, taken_of};
use super::frame::{Done, Frame, Sent};
use events::{Event, EventRefusal, Outcome};
use farm_base::{Copied, Items, Text};
use schedule::{Setup, print_outcome};
use std::alloc::{AllocError, Global};
use world::{StartRefusal, World};

/// The lifeline where an event happens.
fn actor_of(world: &World, event: &Event) -> u32
    ensures { result ≡ actor_of (shown world.now).pool event.now }
{
    match event {
        Event::Ask(node, _)
        | Event::Tenure(node, _)
        | Event::Begin(node, _)
        | Event::Finish(node, _, _)
        | Event::Abort(node, _)
        | Event::Resend(node)
        | Event::RestartNode(node)
        | Event::Forge(node, _)
        | Event::Forget(node, _) => node.0,
        Event::Deliver(number) => addressee(world.message(*number)),
        Event::Nudge
        | Event::Withdraw(_)
        | Event::Prune(_)
        | Event::Retire(_)
        | Event::RestartCoordinator
        | Event::FailSave(_) => 0,
    }
}

/// The messages behind the first `before`.
fn sent_after(alloc: Global, world: &World, before: u64) -> Result<Items<Sent>, AllocError>
    ensures { IfOk result (λ sent. sent ≡ sent_after before (shown world.now).pool) }
{
    let mut sent = Vec::new(alloc);
    for place in before..world.pool_len() {
        let number = place + 1;
        let to = addressee(world.message(number));
        sent.push(Sent { number, to })?;
    }
    Ok(Items::new(sent))
}

/// The farm carries out a copy of an event.
fn carried_out(
    alloc: Global,
    world: &mut World,
    event: &Event,
) -> Result<Result<Outcome, EventRefusal>, AllocError>
    ensures outcome { IfOk result (λ outcome. outcome ≡ (step content_digest farm_limits (shown world.old) event.now).outcome) }
    ensures farm { OnOk result (shown world.new ≡ (step content_digest farm_limits (shown world.old) event.now).farm) }
{
    let outcome = world.step(alloc, event.copy(alloc)?);
    if matches!(outcome, Err(EventRefusal::OutOfMemory)) {
        return Err(AllocError);
    }
    Ok(outcome)
}

/// What is known of an event before it is carried out: its number, whose it is, and how many messages there are.
#[derive(Clone, Copy)]
struct Due {
    number: u64,
    actor: u32,
    messages: u64,
}

/// The frame of an event that was carried out.
fn framed(
    alloc: Global,
    world: &World,
    due: Due,
    event: &Event,
    outcome: &Result<Outcome, EventRefusal>,
) -> Result<Frame, AllocError>
    ensures { IfOk result (λ frame. frame ≡ framed due.number due.actor due.messages event.now outcome.now (shown world.now)) }
{
    let Due {
        number,
        actor,
        messages,
    } = due;
    let words = Text::new(print_outcome(alloc, number, outcome)?);
    let sent = sent_after(alloc, world, messages)?;
    let live = held_of(alloc, world.coordinator().leases())?;
    Ok(Frame {
        words,
        actor,
        done: done_of(outcome),
        taken: taken_of(event, outcome),
        sent,
        live,
    })
}

/// The frame of an event, which the farm carries out.
fn frame_of(
    alloc: Global,
    world: &mut World,
    number: u64,
    event: &Event,
) -> Result<Frame, AllocError>
    ensures frame { IfOk result (λ frame. frame ≡ frame_of number (shown world.old) event.now) }
    ensures farm { OnOk result (shown world.new ≡ (step content_digest farm_limits (shown world.old) event.now).farm) }
{
    let due = Due {
        number,
        actor: actor_of(world, event),
        messages: world.pool_len(),
    };
    let outcome = carried_out(alloc, world, event)?;
    framed(alloc, world, due, event, &outcome)
}

/// The frame of what was before the event of this number.
fn first_frame(alloc: Global, world: &World, number: u64) -> Result<Frame, AllocError>
    ensures { IfOk result (λ frame. frame ≡ first_frame number (shown world.now)) }
{
    let coordinator = world.coordinator();
    let done = if coordinator.is_down() {
        Done::SaveFailed
    } else {
        Done::Other
    };
    Ok(Frame {
        words: Text::new(format!(in alloc; "before {number}\n")?),
        actor: 0,
        done,
        taken: None,
        sent: Items::new(Vec::new(alloc)),
        live: held_of(alloc, coordinator.leases())?,
    })
}

/// The frames of events, which the farm carries out, behind that of what was before them.
pub(crate) fn frames_from(
    alloc: Global,
    world: &mut World,
    first: u64,
    events: &[Event],
) -> Result<Items<Frame>, AllocError>
    requires { first + length events.now < 2 ^ 64 }
    ensures frames { IfOk result (λ frames. frames ≡ frames_from first events.now (shown world.old)) }
    ensures farm { OnOk result (shown world.new ≡ run content_digest farm_limits events.now (shown world.old)) }
{
    let mut frames = Vec::new(alloc);
    frames.push(first_frame(alloc, world, first)?)?;
    let mut number = first;
    for event in events {
        frames.push(frame_of(alloc, world, number, event)?)?;
        number += 1;
    }
    Ok(Items::new(frames))
}

/// The farm carries out events that are not drawn.
pub(crate) fn skip(alloc: Global, world: &mut World, events: &[Event]) -> Result<(), AllocError>
    ensures { OnOk result (shown world.new ≡ run content_digest farm_limits events.now (shown world.old)) }
{
    for event in events {
        let _outcome = carried_out(alloc, world, event)?;
    }
    Ok(())
}

/// A farm where nothing happened.
pub(crate) fn started(alloc: Global, setup: Setup) -> Result<World, AllocError>
    requires { IsSetup setup }
    ensures { IfOk result (λ world. shown world ≡ opening content_digest setup.nodes) }
{
    match World::start(alloc, setup) {
        Ok(world) => Ok(world),
        Err(StartRefusal::BadSetup) => unreachable!(),
        Err(StartRefusal::OutOfMemory) => Err(AllocError),
    }
}
