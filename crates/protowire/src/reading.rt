ghost use Rattle.std.specs.Prelude.{◌≡◌, List, length, IfOk, Ok};
ghost use Rattle.codec.specs.Steps.{result_map};
ghost use Rattle.protowire.specs.Reading.{front_at, payload_at, field_at, fields_of, Gives};
ghost use Rattle.protowire.specs.Fields.{Spelled, AreFields};
ghost use Rattle.protowire.specs.Seen.{payload, spelled_all, StandInRow};

use super::field::{Field, Value};
use super::refusal::WireRefusal;
use super::varint::varint;
use std::alloc::Global;

/// Field numbers are below this one.
const NUMBERS: u64 = 1 << 29;

/// Most messages have no more fields than this.
const ROOM: usize = 8;

/// The first `len` bytes, and what follows them.
#[inline(always)]
fn first_bytes(bytes: &[u8], len: u64) -> Result<(&[u8], &[u8]), WireRefusal>
    ensures { result_map (λ x. (x.0.now, x.1.now)) result ≡ front_at len bytes.now }
{
    if len > bytes.len() as u64 {
        return Err(WireRefusal::Truncated);
    }
    Ok(bytes.split_at(len as usize))
}

/// The value at the front, by its wire type, and what follows it.
#[tactic(auto, unfolding(crate::specs::Reading::payload_at))]
#[inline(always)]
fn first_value(wire_type: u64, bytes: &[u8]) -> Result<(Value<'_>, &[u8]), WireRefusal>
    ensures { result_map (λ x. (payload x.0, x.1.now)) result ≡ payload_at wire_type bytes.now }
{
    match wire_type {
        0 => {
            let (number, rest) = varint(bytes)?;
            Ok((Value::Varint(number), rest))
        }
        1 => {
            let (_, rest) = first_bytes(bytes, 8)?;
            Ok((Value::Eight, rest))
        }
        2 => {
            let (len, rest) = varint(bytes)?;
            let (body, rest) = first_bytes(rest, len)?;
            Ok((Value::Bytes(body), rest))
        }
        5 => {
            let (_, rest) = first_bytes(bytes, 4)?;
            Ok((Value::Four, rest))
        }
        _ => Err(WireRefusal::BadWireType),
    }
}

/// The number and the value of the field at the front, and what follows it.
#[tactic(auto, unfolding(crate::specs::Reading::field_at))]
#[inline(always)]
pub(crate) fn first_field(bytes: &[u8]) -> Result<(u32, Value<'_>, &[u8]), WireRefusal>
    ensures { result_map (λ x. (record { number = x.0; payload = payload x.1 }, x.2.now)) result ≡ field_at bytes.now }
{
    let (tag, rest) = varint(bytes)?;
    let number = tag / 8;
    if number == 0 || number >= NUMBERS {
        return Err(WireRefusal::BadFieldNumber);
    }
    let (value, rest) = first_value(tag % 8, rest)?;
    Ok((number as u32, value, rest))
}

fn all_fields(alloc: Global, bytes: &[u8]) -> Result<Vec<Field<'_>>, WireRefusal>
    ensures exact { Gives (λ v. spelled_all bytes.now v.items) result (fields_of bytes.now) }
    ensures placed { IfOk result (λ v. StandInRow 0 v.items (length bytes.now)) }
{
    let mut fields = Vec::with_capacity(alloc, ROOM)?;
    let mut rest = bytes;
    while !rest.is_empty() {
        let (number, value, after) = first_field(rest)?;
        let start = bytes.len() - rest.len();
        let end = bytes.len() - after.len();
        fields.push(Field {
            number,
            value,
            start,
            end,
        })?;
        rest = after;
    }
    Ok(fields)
}

/// The fields of a message, in order. Nothing but the list takes memory.
pub fn fields(alloc: Global, bytes: &[u8]) -> Result<Vec<Field<'_>>, WireRefusal>
    // The bytes are one spelling of each field, joined.
    ensures spelled { IfOk result (λ v. AreFields bytes.now (spelled_all bytes.now v.items)) }
    // Such bytes are read, unless memory runs out.
    ensures only { (fs : List Spelled) → AreFields bytes.now fs → Gives (λ v. spelled_all bytes.now v.items) result (Ok fs) }
    // A refusal is the first fault from the left.
    ensures exact { Gives (λ v. spelled_all bytes.now v.items) result (fields_of bytes.now) }
    ensures placed { IfOk result (λ v. StandInRow 0 v.items (length bytes.now)) }
{
    all_fields(alloc, bytes)
}
