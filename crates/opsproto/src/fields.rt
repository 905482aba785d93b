ghost use Rattle.std.specs.Prelude.{◌≡◌, IfOk};
ghost use Rattle.protowire.specs.Seen.{entries};
ghost use Rattle.protowire.specs.Reading.{Gives};
ghost use Rattle.protowire.specs.Lookups.{bodies};
ghost use Rattle.opsproto.specs.Scalars.{int64_in, int32_in, bool_in, text_in};
ghost use Rattle.opsproto.specs.Reading.{entries_of};

use super::lent::RawText;
use names::Items;
use protowire::{Field, Value, WireRefusal};
use std::alloc::{AllocError, Global};

/// The fields of a message.
#[tactic(auto, using(crate::proofs::ReadingLemmas::says_spelled), unfolding(crate::specs::Reading::entries_of))]
pub(crate) fn fields(alloc: Global, message: &[u8]) -> Result<Vec<Field<'_>>, WireRefusal>
    ensures { Gives (λ v. entries v.items) result (entries_of message.now) }
{
    protowire::fields(alloc, message)
}

pub(crate) fn int64_in(fields: &[Field<'_>], number: u32) -> i64
    ensures { result ≡ int64_in number (entries fields.now) }
{
    protowire::last_varint(fields, number)
        .unwrap_or(0)
        .cast_signed()
}

pub(crate) fn int32_in(fields: &[Field<'_>], number: u32) -> i32
    ensures { result ≡ int32_in number (entries fields.now) }
{
    let number = protowire::last_varint(fields, number).unwrap_or(0);
    ((number % (1 << 32)) as u32).cast_signed()
}

pub(crate) fn bool_in(fields: &[Field<'_>], number: u32) -> bool
    ensures { result ≡ bool_in number (entries fields.now) }
{
    protowire::last_varint(fields, number).unwrap_or(0) != 0
}

/// The last string of this number.
pub(crate) fn text_in<'a>(fields: &[Field<'a>], number: u32) -> RawText<'a>
    ensures { result ≡ text_in number (entries fields.now) }
{
    let mut last: &'a [u8] = &[];
    for field in fields {
        match field.value {
            Value::Bytes(body) if field.number == number => last = body,
            _ => {}
        }
    }
    RawText::new(last)
}

/// How many bodies have this number.
pub(crate) fn body_count(fields: &[Field<'_>], number: u32) -> usize {
    fields
        .iter()
        .filter(|field| protowire::body_in(field, number).is_some())
        .count()
}

/// The strings of this number.
pub(crate) fn texts_in<'a>(
    alloc: Global,
    fields: &[Field<'a>],
    number: u32,
) -> Result<Items<RawText<'a>>, AllocError>
    ensures { IfOk result (λ texts. texts ≡ bodies number (entries fields.now)) }
{
    let mut texts = Vec::with_capacity(alloc, body_count(fields, number))?;
    for field in fields {
        if let Some(body) = protowire::body_in(field, number) {
            texts.push(RawText::new(body))?;
        }
    }
    Ok(Items::new(texts))
}
