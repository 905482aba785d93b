//! What the picture shows of an event.
ghost use Rattle.std.specs.Prelude.{◌≡◌, IfOk, map};
ghost use Rattle.std.specs.Option.{option_copied};
ghost use Rattle.draw.specs.Events.{addressee, coord_done, node_done, note_done, done_of, taken_of, held_of};

use super::frame::{Done, Held};
use events::{CoordNote, CoordRefusal, Event, EventNote, EventRefusal, NodeNote, Outcome};
use farm_base::{Items, Lease, Message};
use std::alloc::{AllocError, Global};

/// The lifeline of whom a message is for.
pub(crate) fn addressee(message: Option<&Message>) -> u32
    ensures { result ≡ addressee (option_copied message.entry) }
{
    match message {
        Some(Message::ToNode(message)) => message.node().0,
        Some(Message::ToCoord(_)) | None => 0,
    }
}

/// What is shown of what the coordinator did.
fn coord_done(note: &CoordNote) -> Done
    ensures { result ≡ coord_done note.now }
{
    match note {
        CoordNote::Committed(ticket) => Done::Committed(ticket.0),
        CoordNote::Released(ticket) => Done::Released(ticket.0),
        CoordNote::Withdrawn(ticket) => Done::Withdrawn(ticket.0),
        _ => Done::Other,
    }
}

/// What is shown of what a node did.
fn node_done(note: &NodeNote) -> Done
    ensures { result ≡ node_done note.now }
{
    match note {
        NodeNote::Begun(ticket) => Done::Begun(ticket.0),
        NodeNote::Finished(ticket) => Done::Over(ticket.0),
        NodeNote::Aborted(ticket) => Done::Over(ticket.0),
        NodeNote::Life(_) => Done::Started,
        _ => Done::Other,
    }
}

/// What is shown of what an event did.
fn note_done(note: &EventNote) -> Done
    ensures { result ≡ note_done note.now }
{
    match note {
        EventNote::Coord(note) => coord_done(note),
        EventNote::Node(note) => node_done(note),
        EventNote::Restarted => Done::Started,
        EventNote::Armed => Done::Armed,
    }
}

/// What is shown of an outcome.
pub(crate) fn done_of(outcome: &Result<Outcome, EventRefusal>) -> Done
    ensures { result ≡ done_of outcome.now }
{
    match outcome {
        Ok(outcome) => note_done(&outcome.note),
        Err(EventRefusal::Coord(CoordRefusal::SaveFault)) => Done::SaveFailed,
        Err(_) => Done::Refused,
    }
}

/// The message that a delivery takes. What is refused takes none.
pub(crate) fn taken_of(event: &Event, outcome: &Result<Outcome, EventRefusal>) -> Option<u64>
    ensures { result ≡ taken_of event.now outcome.now }
{
    match (event, outcome) {
        (Event::Deliver(number), Ok(_)) => Some(*number),
        _ => None,
    }
}

/// What the picture shows of leases.
pub(crate) fn held_of(alloc: Global, leases: &[Lease]) -> Result<Items<Held>, AllocError>
    ensures { IfOk result (λ live. live ≡ map held_of leases.now) }
{
    let mut live = Vec::with_capacity(alloc, leases.len())?;
    for lease in leases {
        live.push(Held {
            ticket: lease.ticket.0,
            node: lease.node.0,
        })?;
    }
    Ok(Items::new(live))
}
