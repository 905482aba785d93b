ghost use Rattle.std.specs.Prelude.{◌≡◌, IfOk, OnOk, ◌++◌, codes, decimal};
ghost use Rattle.std.specs.List.{flat_map};
ghost use Rattle.std.specs.String.{string_bytes};
ghost use Rattle.words.specs.Words.{why_text};
ghost use Rattle.schedule.specs.Notes.{granted_text, grant_text, coord_note_text, node_note_text, note_text};

use events::{CoordNote, EventNote, NodeNote};
use farm_base::{Grant, GrantedSlot, Why};
use std::alloc::{AllocError, Global};
use words::why_name;

/// Adds some words and a number.
pub(crate) fn push_number(text: &mut String, word: &str, number: u64) -> Result<(), AllocError>
    ensures { OnOk result (string_bytes text.new ≡ string_bytes text.old ++ (word.now ++ decimal number)) }
{
    text.push_str(word)?;
    write!(text, "{number}")
}

/// Adds a slot of a grant.
fn push_granted(alloc: Global, text: &mut String, granted: &GrantedSlot) -> Result<(), AllocError>
    ensures { OnOk result (string_bytes text.new ≡ string_bytes text.old ++ granted_text granted.now) }
{
    let slot = granted.slot.to_text(alloc)?;
    text.push(' ')?;
    text.push_str(slot.as_str())?;
    push_number(text, "=", granted.base)
}

/// Adds the slots of a grant.
fn push_slots(alloc: Global, text: &mut String, slots: &[GrantedSlot]) -> Result<(), AllocError>
    ensures { OnOk result (string_bytes text.new ≡ string_bytes text.old ++ flat_map granted_text slots.now) }
{
    for granted in slots {
        push_granted(alloc, text, granted)?;
    }
    Ok(())
}

/// Adds some words and a grant.
fn push_grant(alloc: Global, text: &mut String, word: &str, grant: &Grant) -> Result<(), AllocError>
    ensures { OnOk result (string_bytes text.new ≡ string_bytes text.old ++ (word.now ++ grant_text grant.now)) }
{
    push_number(text, word, grant.ticket.0)?;
    push_slots(alloc, text, grant.slots.as_slice())
}

/// Adds why an ask was denied.
fn push_denied(text: &mut String, why: Why) -> Result<(), AllocError>
    ensures { OnOk result (string_bytes text.new ≡ string_bytes text.old ++ (codes "denied " ++ why_text why)) }
{
    text.push_str("denied ")?;
    text.push_str(why_name(why))
}

/// Adds what the coordinator did.
fn push_coord(alloc: Global, text: &mut String, note: &CoordNote) -> Result<(), AllocError>
    ensures { OnOk result (string_bytes text.new ≡ string_bytes text.old ++ coord_note_text note.now) }
{
    match note {
        CoordNote::Granted(grant) => push_grant(alloc, text, "granted ", grant),
        CoordNote::GrantedBefore(grant) => push_grant(alloc, text, "granted before ", grant),
        CoordNote::Parked => text.push_str("parked"),
        CoordNote::Committed(ticket) => push_number(text, "committed ", ticket.0),
        CoordNote::CommittedBefore(ticket) => push_number(text, "committed before ", ticket.0),
        CoordNote::Fenced(ticket) => push_number(text, "fenced ", ticket.0),
        CoordNote::Released(ticket) => push_number(text, "released ", ticket.0),
        CoordNote::Denied(why) => push_denied(text, *why),
        CoordNote::OldLife => text.push_str("old life"),
        CoordNote::NodeRetired => text.push_str("retired node"),
        CoordNote::Withdrawn(ticket) => push_number(text, "withdrawn ", ticket.0),
        CoordNote::Pruned(ticket) => push_number(text, "pruned ", ticket.0),
        CoordNote::Retired(node) => push_number(text, "retired ", node.0 as u64),
        CoordNote::Nudged => text.push_str("nudged"),
        CoordNote::Nothing => text.push_str("nothing"),
    }
}

/// Adds what a node did.
fn push_node(alloc: Global, text: &mut String, note: &NodeNote) -> Result<(), AllocError>
    ensures { OnOk result (string_bytes text.new ≡ string_bytes text.old ++ node_note_text note.now) }
{
    match note {
        NodeNote::Asked(ask) => push_number(text, "asked ", ask.0),
        NodeNote::Begun(ticket) => push_number(text, "begun ", ticket.0),
        NodeNote::Finished(ticket) => push_number(text, "finished ", ticket.0),
        NodeNote::Aborted(ticket) => push_number(text, "aborted ", ticket.0),
        NodeNote::Resent => text.push_str("resent"),
        NodeNote::Life(life) => push_number(text, "life ", life.0),
        NodeNote::Took(grant) => push_grant(alloc, text, "took ", grant),
        NodeNote::GaveBack(ticket) => push_number(text, "gave back ", ticket.0),
        NodeNote::Learned(ticket) => push_number(text, "learned ", ticket.0),
        NodeNote::Dropped(ticket) => push_number(text, "dropped ", ticket.0),
        NodeNote::Denied(why) => push_denied(text, *why),
        NodeNote::Recalled(ticket) => push_number(text, "recalled ", ticket.0),
        NodeNote::SentBlob => text.push_str("sent blob"),
        NodeNote::BlobTaken => text.push_str("blob taken"),
        NodeNote::Forgot => text.push_str("forgot"),
        NodeNote::OldLife => text.push_str("old life"),
        NodeNote::Nothing => text.push_str("nothing"),
    }
}

/// Adds what an event did.
pub(crate) fn push_note(
    alloc: Global,
    text: &mut String,
    note: &EventNote,
) -> Result<(), AllocError>
    ensures { OnOk result (string_bytes text.new ≡ string_bytes text.old ++ note_text note.now) }
{
    match note {
        EventNote::Coord(note) => push_coord(alloc, text, note),
        EventNote::Node(note) => push_node(alloc, text, note),
        EventNote::Restarted => text.push_str("restarted"),
        EventNote::Armed => text.push_str("armed"),
    }
}

/// The text of what an event did, without the number and the messages that `print_outcome` adds.
pub fn print_note(alloc: Global, note: &EventNote) -> Result<String, AllocError>
    ensures { IfOk result (λ text. string_bytes text ≡ note_text note.now) }
{
    let mut text = String::new(alloc);
    push_note(alloc, &mut text, note)?;
    Ok(text)
}
