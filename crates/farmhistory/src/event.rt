ghost use Rattle.std.specs.Prelude.{◌≡◌, IfOk, OnErr};
ghost use Rattle.names.specs.Contents.{content_digest};
ghost use Rattle.protocol.specs.Farm.{farm_limits};
ghost use Rattle.protocol.specs.Replay.{step};
ghost use Rattle.world.specs.Shown.{shown};
ghost use Rattle.farmhistory.specs.History.{answer_of, ask_told, ask_in};

use super::refusal::BoardRefusal;
use events::{Event, EventNote, EventRefusal, NodeNote, Outcome};
use farm_base::Ask;
use std::alloc::{AllocError, Global};
use world::World;

/// The outcome of one event of the world. Where memory ran out nothing is changed.
pub fn carry_out(
    world: &mut World,
    alloc: Global,
    event: Event,
) -> Result<Result<Outcome, EventRefusal>, AllocError>
    ensures ok { IfOk result (λ outcome. step content_digest farm_limits (shown world.old) event ≡ record { farm = shown world.new; outcome = outcome }) }
    ensures err { OnErr result (shown world.new ≡ shown world.old) }
{
    match world.step(alloc, event) {
        Ok(outcome) => Ok(Ok(outcome)),
        Err(EventRefusal::OutOfMemory) => Err(AllocError),
        Err(EventRefusal::NoSuchMessage) => Ok(Err(EventRefusal::NoSuchMessage)),
        Err(EventRefusal::NoSuchNode) => Ok(Err(EventRefusal::NoSuchNode)),
        Err(EventRefusal::Node(refusal)) => Ok(Err(EventRefusal::Node(refusal))),
        Err(EventRefusal::Coord(refusal)) => Ok(Err(EventRefusal::Coord(refusal))),
    }
}

/// The board's answer to an event with this outcome.
pub fn answer(outcome: Result<Outcome, EventRefusal>) -> Result<Outcome, BoardRefusal>
    ensures { result ≡ answer_of outcome }
{
    outcome.map_err(BoardRefusal::Event)
}

/// The number of the ask that a node made.
fn asked_by_node(note: &NodeNote) -> Option<Ask>
    ensures { result ≡ ask_told note.now }
{
    match note {
        NodeNote::Asked(ask) => Some(*ask),
        _ => None,
    }
}

/// The number of the ask that was made.
pub fn asked(note: &EventNote) -> Option<Ask>
    ensures { result ≡ ask_in note.now }
{
    match note {
        EventNote::Node(note) => asked_by_node(note),
        _ => None,
    }
}
