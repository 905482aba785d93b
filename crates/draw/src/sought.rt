//! A frame that is looked for.
ghost use Rattle.std.specs.Prelude.{◌≡◌};
ghost use Rattle.draw.specs.Frames.{is_live, ends_run, is_start, is_fault, is_among, takes, meets};

use super::frame::{Done, Frame, Held, Sent};

/// Which frame is looked for.
#[derive(Clone, Copy)]
pub enum Sought {
    /// After it no lease of this ticket is live.
    Ended(u64),
    /// On this lifeline the execution under this ticket is over.
    RunOver(u32, u64),
    /// A life of this lifeline is over.
    Stopped(u32),
    /// It sends the message of this number.
    Sends(u64),
    /// It takes the message of this number.
    Takes(u64),
}

/// Whether a lease of this ticket is among these.
pub(crate) fn is_live(ticket: u64, live: &[Held]) -> bool
    ensures { result ≡ is_live ticket live.now }
{
    for held in live {
        if held.ticket == ticket {
            return true;
        }
    }
    false
}

/// Whether the message of this number is among these.
fn is_among(number: u64, sent: &[Sent]) -> bool
    ensures { result ≡ is_among number sent.now }
{
    for message in sent {
        if message.number == number {
            return true;
        }
    }
    false
}

/// Whether the execution under this ticket is over.
fn ends_run(ticket: u64, done: Done) -> bool
    ensures { result ≡ ends_run ticket done }
{
    match done {
        Done::Over(over) => over == ticket,
        Done::Started => true,
        _ => false,
    }
}

/// Whether a life begins.
pub(crate) fn is_start(done: Done) -> bool
    ensures { result ≡ is_start done }
{
    matches!(done, Done::Started)
}

/// Whether the coordinator could not save.
pub(crate) fn is_fault(done: Done) -> bool
    ensures { result ≡ is_fault done }
{
    matches!(done, Done::SaveFailed)
}

fn takes(taken: Option<u64>, number: u64) -> bool
    ensures { result ≡ takes taken number }
{
    taken == Some(number)
}

/// Whether the frame is one that is looked for.
pub(crate) fn meets(sought: Sought, frame: &Frame) -> bool
    ensures { result ≡ meets sought frame.now }
{
    match sought {
        Sought::Ended(ticket) => !is_live(ticket, frame.live.as_slice()),
        Sought::RunOver(actor, ticket) => frame.actor == actor && ends_run(ticket, frame.done),
        Sought::Stopped(actor) => {
            frame.actor == actor && (is_start(frame.done) || is_fault(frame.done))
        }
        Sought::Sends(number) => is_among(number, frame.sent.as_slice()),
        Sought::Takes(number) => takes(frame.taken, number),
    }
}
