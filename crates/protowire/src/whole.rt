//! The bodies of one number straight from a message, without a list of its fields.

ghost use Rattle.std.specs.Prelude.{◌≡◌, ◌≤◌, ◌++◌, ◌∷◌, [], length, take, IfOk, IfSome, OnOk};
ghost use Rattle.std.specs.Option.{option_map};
ghost use Rattle.codec.specs.Steps.{result_map};
ghost use Rattle.protowire.specs.Reading.{Gives};
ghost use Rattle.protowire.specs.Seen.{payload};
ghost use Rattle.protowire.specs.BodyLists.{AreWithin, pieces};
ghost use Rattle.protowire.specs.Lookups.{body_in, bodies_of, at_most};

use super::body_list::{BodyList, Span};
use super::field::Value;
use super::reading::first_field;
use super::refusal::WireRefusal;
use std::alloc::{AllocError, Global};

/// The body of a field, if `found` is this number and the field has a body.
fn body_held<'a>(number: u32, found: u32, value: Value<'a>) -> Option<&'a [u8]>
    ensures { option_map (λ body. body.now) result ≡ body_in number (record { number = found; payload = payload value.entry }) }
{
    match value {
        Value::Bytes(body) if found == number => Some(body),
        _ => None,
    }
}

/// Adds a place, unless there are `most` already.
fn push_span(spans: &mut Vec<Span>, span: Span, most: usize) -> Result<(), AllocError>
    requires { length spans.old.items ≤ most }
    ensures { OnOk result (spans.new.items ≡ take most (spans.old.items ++ span ∷ [])) }
{
    if spans.len() < most {
        spans.push(span)?;
    }
    Ok(())
}

/// Where the bodies of this number stand, or None where there are more than `most`. The whole message is read in any
/// case.
fn body_spans(
    alloc: Global,
    message: &[u8],
    number: u32,
    most: usize,
) -> Result<Option<Vec<Span>>, WireRefusal>
    ensures value { Gives (option_map (λ spans. pieces message.now spans.items)) result (result_map (at_most most) (bodies_of number message.now)) }
    ensures within { IfOk result (λ found. IfSome found (λ spans. AreWithin (length message.now) spans.items)) }
{
    let mut spans = Vec::new(alloc);
    let mut count = 0;
    let mut rest = message;
    while !rest.is_empty() {
        let (found, value, after) = first_field(rest)?;
        if let Some(body) = body_held(number, found, value) {
            let end = message.len() - after.len();
            let start = end - body.len();
            push_span(&mut spans, Span { start, end }, most)?;
            count += 1;
        }
        rest = after;
    }
    spans.shrink_to_fit();
    if count > most {
        Ok(None)
    } else {
        Ok(Some(spans))
    }
}

/// The bodies of this number, in order, or None where there are more than `most`. The whole message is read in any case.
/// The bodies stay where they are in the message, so only the list of their places takes memory.
pub fn take_bodies(
    alloc: Global,
    message: Vec<u8>,
    number: u32,
    most: usize,
) -> Result<Option<BodyList>, WireRefusal>
    ensures { Gives (λ found. found) result (result_map (at_most most) (bodies_of number message.items)) }
{
    match body_spans(alloc, message.as_slice(), number, most)? {
        None => Ok(None),
        Some(spans) => Ok(Some(BodyList::at(message, spans))),
    }
}
