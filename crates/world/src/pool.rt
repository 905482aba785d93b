//! The messages that were ever sent, in order of sending.
ghost use Rattle.std.specs.Prelude.{◌≡◌, ◌≤◌, ◌+◌, ◌++◌, ◌<◌, None, IfSome, IfNone, length, map, option_copied, vec_len};
ghost use Rattle.std.specs.Vec.{vec_capacity};
ghost use Rattle.protocol.specs.Machine.{Told};
ghost use Rattle.protocol.specs.Lists.{nth};
ghost use Rattle.world.specs.Turns.{first_number};
ghost use Rattle.events.specs.declared.answer.EventNote.TheVariants as note;

use coordinator::Handled;
use events::{EventNote, Outcome};
use farm_base::{FromCoord, Items};
use nodecore::{Message, NodeDone, ToNode};

/// The place of the message of a number.
pub(crate) fn place_in(pool: &[Message], number: u64) -> Option<usize>
    ensures found { IfSome result (λ place. number ≡ place + 1) }
    ensures inside { IfSome result (λ place. place < length pool.now) }
    ensures none { IfNone result (nth pool.now number ≡ None) }
{
    if 1 <= number && number <= pool.len() as u64 {
        Some(number as usize - 1)
    } else {
        None
    }
}

/// The message of a number.
pub(crate) fn message_at(pool: &[Message], number: u64) -> Option<&Message>
    ensures { option_copied result ≡ nth pool.now number }
{
    let place = place_in(pool, number)?;
    Some(&pool[place])
}

/// The number of the first of `count` messages that are sent next, 0 if `count` is 0.
fn first_number(pool: &[Message], count: usize) -> u64
    ensures { result ≡ first_number (length pool.now) count }
{
    if count == 0 { 0 } else { pool.len() as u64 + 1 }
}

/// Adds what the coordinator sends.
fn add_all(pool: &mut Vec<Message>, sends: Vec<FromCoord>)
    requires { vec_len pool.old + vec_len sends ≤ vec_capacity pool.old }
    ensures { pool.new.items ≡ pool.old.items ++ map Told sends.items }
{
    for message in sends {
        pool.push_reserved(Message::ToNode(ToNode::FromCoord(message)));
    }
}

/// Sends what a node sends, in the room that is there, and tells what it did.
pub(crate) fn send_node(pool: &mut Vec<Message>, done: NodeDone) -> Outcome
    requires { vec_len pool.old + length done.sends ≤ vec_capacity pool.old }
    ensures pool { pool.new.items ≡ pool.old.items ++ done.sends }
    ensures outcome { result ≡ record { note = note.Node done.note; first = first_number (length pool.old.items) (length done.sends); sent = length done.sends } }
{
    let NodeDone { note, sends } = done;
    let mut sends = sends.into_vec();
    let first = first_number(pool.as_slice(), sends.len());
    let sent = sends.len() as u64;
    pool.append(&mut sends).unwrap();
    Outcome {
        note: EventNote::Node(note),
        first,
        sent,
    }
}

/// Sends what the coordinator sends, in the room that is there, and tells what it did.
pub(crate) fn send_coordinator(pool: &mut Vec<Message>, handled: Handled) -> Outcome
    requires { vec_len pool.old + length handled.sends ≤ vec_capacity pool.old }
    ensures pool { pool.new.items ≡ pool.old.items ++ map Told handled.sends }
    ensures outcome { result ≡ record { note = note.Coord handled.note; first = first_number (length pool.old.items) (length handled.sends); sent = length handled.sends } }
{
    let Handled { sends, note } = handled;
    let sends = sends.into_vec();
    let first = first_number(pool.as_slice(), sends.len());
    let sent = sends.len() as u64;
    add_all(pool, sends);
    Outcome {
        note: EventNote::Coord(note),
        first,
        sent,
    }
}
