ghost use Rattle.std.specs.Prelude.{◌≡◌, IfOk, OnOk, ◌++◌};
ghost use Rattle.std.specs.String.{string_bytes};
ghost use Rattle.schedule.specs.Printing.{sent_text, answer_text, outcome_text};

use super::note::{push_note, push_number};
use super::refusal_names::refusal_name;
use events::{EventRefusal, Outcome};
use std::alloc::{AllocError, Global};

/// Most lines have no more bytes than this.
const LINE: usize = 48;

/// Adds the numbers of the messages that were sent. The last number may be above every `u64`.
fn push_sent(alloc: Global, text: &mut String, first: u64, sent: u64) -> Result<(), AllocError>
    ensures { OnOk result (string_bytes text.new ≡ string_bytes text.old ++ sent_text first sent) }
{
    if sent == 0 {
        return Ok(());
    }
    push_number(text, " -> ", first)?;
    if sent == 1 {
        return Ok(());
    }
    let last = (first as u128 + sent as u128 - 1).to_string(alloc)?;
    text.push_str("..")?;
    text.push_str(last.as_str())
}

/// Adds the result of an event.
fn push_answer(
    alloc: Global,
    text: &mut String,
    outcome: &Result<Outcome, EventRefusal>,
) -> Result<(), AllocError>
    ensures { OnOk result (string_bytes text.new ≡ string_bytes text.old ++ answer_text outcome.now) }
{
    match outcome {
        Ok(outcome) => {
            push_note(alloc, text, &outcome.note)?;
            push_sent(alloc, text, outcome.first, outcome.sent)
        }
        Err(refusal) => {
            text.push_str("refused ")?;
            text.push_str(refusal_name(*refusal))
        }
    }
}

/// The line that an event prints, with its end.
pub fn print_outcome(
    alloc: Global,
    number: u64,
    outcome: &Result<Outcome, EventRefusal>,
) -> Result<String, AllocError>
    ensures { IfOk result (λ text. string_bytes text ≡ outcome_text number outcome.now) }
{
    let mut text = String::with_capacity(alloc, LINE)?;
    push_number(&mut text, "", number)?;
    text.push(' ')?;
    push_answer(alloc, &mut text, outcome)?;
    text.push('\n')?;
    Ok(text)
}
