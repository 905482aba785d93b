//! The text of an answer.
ghost use Rattle.std.specs.Prelude.{◌≡◌, ◌++◌, codes, decimal, map, IfOk, OnOk, Ok};
ghost use Rattle.std.specs.List.{flat_map};
ghost use Rattle.std.specs.String.{string_bytes};
ghost use Rattle.schedule.specs.RefusalNames.{coord_refusal_text};
ghost use Rattle.protocol.specs.Machine.{Told};
ghost use Rattle.coordinatorfilter.specs.Written.{restart_lines, ended_line, over_lines, fact_lines, note_line, IsAnswered, IsWritten};
ghost use Rattle.farmwire.specs.Sealed.{key_in};

use super::reply::{Ended, Over, Reply};
use coordinator::Handled;
use events::{CoordNote, CoordRefusal, EventNote, EventRefusal};
use farm_base::{FromCoord, Items, Message, ToNode};
use farmwire::Keyring;
use schedule::{print_note, refusal_name};
use services::push_messages;
use std::alloc::{AllocError, Global};

/// The messages of the farm that the coordinator sends.
fn told(alloc: Global, sends: Items<FromCoord>) -> Result<Items<Message>, AllocError>
    ensures { IfOk result (λ messages. messages ≡ map Told sends) }
{
    let mut messages = Vec::new(alloc);
    for message in sends.into_vec() {
        messages.push(Message::ToNode(ToNode::FromCoord(message)))?;
    }
    Ok(Items::new(messages))
}

/// Adds a front, the name of a refusal, and the end of the line.
fn push_refusal(text: &mut String, front: &str, refusal: CoordRefusal) -> Result<(), AllocError>
    ensures { OnOk result (string_bytes text.new ≡ string_bytes text.old ++ (front.now ++ (coord_refusal_text refusal ++ codes "\n"))) }
{
    text.push_str(front)?;
    text.push_str(refusal_name(EventRefusal::Coord(refusal)))?;
    text.push_str("\n")
}

/// Adds the fact of a restart, if there was one.
fn push_restart(
    text: &mut String,
    restart: Option<Result<(), CoordRefusal>>,
) -> Result<(), AllocError>
    ensures { OnOk result (string_bytes text.new ≡ string_bytes text.old ++ restart_lines restart) }
{
    match restart {
        None => Ok(()),
        Some(Ok(())) => text.push_str(": restarted\n"),
        Some(Err(refusal)) => push_refusal(text, ": down ", refusal),
    }
}

/// Adds some words and a number.
fn push_number(alloc: Global, text: &mut String, words: &str, number: u64) -> Result<(), AllocError>
    ensures { OnOk result (string_bytes text.new ≡ string_bytes text.old ++ (words.now ++ decimal number)) }
{
    let number = number.to_string(alloc)?;
    text.push_str(words)?;
    text.push_str(number.as_str())
}

/// Adds the fact of a lease that ended.
fn push_end(alloc: Global, text: &mut String, ended: &Ended) -> Result<(), AllocError>
    ensures { OnOk result (string_bytes text.new ≡ string_bytes text.old ++ ended_line ended.now) }
{
    push_number(alloc, text, ": ended ", ended.ticket.0)?;
    push_number(alloc, text, " ", ended.node.0 as u64)?;
    text.push_str("\n")
}

/// Adds the facts of the leases that ended.
fn push_ended(alloc: Global, text: &mut String, ended: &[Ended]) -> Result<(), AllocError>
    ensures { OnOk result (string_bytes text.new ≡ string_bytes text.old ++ flat_map ended_line ended.now) }
{
    for lease in ended {
        push_end(alloc, text, lease)?;
    }
    Ok(())
}

/// Adds the fact of a process that isn't heard, if there is one.
fn push_over(alloc: Global, text: &mut String, over: Option<Over>) -> Result<(), AllocError>
    ensures { OnOk result (string_bytes text.new ≡ string_bytes text.old ++ over_lines over) }
{
    match over {
        None => Ok(()),
        Some(Over::Outdated(node, life)) => {
            push_number(alloc, text, ": outdated ", node.0 as u64)?;
            push_number(alloc, text, " ", life.0)?;
            text.push_str("\n")
        }
        Some(Over::Gone(node)) => {
            push_number(alloc, text, ": gone ", node.0 as u64)?;
            text.push_str("\n")
        }
    }
}

/// Adds what was done.
fn push_note(alloc: Global, text: &mut String, note: CoordNote) -> Result<(), AllocError>
    ensures { OnOk result (string_bytes text.new ≡ string_bytes text.old ++ note_line note) }
{
    let note = print_note(alloc, &EventNote::Coord(note))?;
    text.push_str("= ")?;
    text.push_str(note.as_str())?;
    text.push_str("\n")
}

/// Adds the facts of a call.
fn push_facts(alloc: Global, text: &mut String, reply: &Reply) -> Result<(), AllocError>
    ensures { OnOk result (string_bytes text.new ≡ string_bytes text.old ++ fact_lines reply.now) }
{
    push_restart(text, reply.before)?;
    if reply.answer.is_ok() {
        push_ended(alloc, text, reply.ended.as_slice())?;
    }
    push_over(alloc, text, reply.over)?;
    push_restart(text, reply.after)
}

/// The text of what was done: the messages, these facts and the note.
fn print_handled(
    alloc: Global,
    keys: &Keyring,
    facts: &str,
    handled: Handled,
) -> Result<String, AllocError>
    ensures { IfOk result (λ text. IsAnswered (key_in keys.now) facts.now (Ok handled) (string_bytes text)) }
{
    let messages = told(alloc, handled.sends)?;
    let mut text = String::new(alloc);
    push_messages(alloc, keys, &mut text, messages.as_slice())?;
    text.push_str(facts)?;
    push_note(alloc, &mut text, handled.note)?;
    Ok(text)
}

/// The text of what came of a call: the messages, the facts and the note.
pub(crate) fn print_reply(alloc: Global, keys: &Keyring, reply: Reply) -> Result<String, AllocError>
    ensures { IfOk result (λ text. IsWritten (key_in keys.now) reply (string_bytes text)) }
{
    let mut facts = String::new(alloc);
    push_facts(alloc, &mut facts, &reply)?;
    let Reply { answer, .. } = reply;
    match answer {
        Ok(handled) => print_handled(alloc, keys, facts.as_str(), handled),
        Err(refusal) => {
            push_refusal(&mut facts, "= refused ", refusal)?;
            Ok(facts)
        }
    }
}
