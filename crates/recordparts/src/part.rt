//! The small parts of a record: numbers, flags, digests and ids.
ghost use Rattle.std.specs.Int.{w32, w64};
ghost use Rattle.recordparts.specs.Parts.{Gives, front_at, number_at, flag_at, digest_at, text_of, id_at};

use super::refusal::{Flaw, RecordRefusal};
use names::{Digest, Text};
use std::alloc::Global;

/// The first `len` bytes, and what follows them.
#[tactic(auto, unfolding(crate::specs::Parts::front_at))]
fn take_front(bytes: &[u8], len: u64) -> Result<(&[u8], &[u8]), RecordRefusal>
    ensures { Gives (λ x. (x.0.now, x.1.now)) result (front_at len bytes.now) }
{
    if len > bytes.len() as u64 {
        return Err(RecordRefusal::Truncated);
    }
    Ok(bytes.split_at(len as usize))
}

/// A number of four bytes, from `low` to `high`.
#[tactic(auto, unfolding(crate::specs::Parts::front_at, crate::specs::Parts::number_at))]
pub fn take_u32(bytes: &[u8], low: u32, high: u32) -> Result<(u32, &[u8]), RecordRefusal>
    ensures { Gives (λ x. (x.0, x.1.now)) result (number_at w32 low high bytes.now) }
{
    let Some((front, rest)) = bytes.split_first_chunk::<4>() else {
        return Err(RecordRefusal::Truncated);
    };
    let number = u32::from_be_bytes(*front);
    if number < low || high < number {
        return Err(RecordRefusal::NotCanonical(Flaw::Range));
    }
    Ok((number, rest))
}

/// A number of eight bytes, from `low` to `high`.
#[tactic(auto, unfolding(crate::specs::Parts::front_at, crate::specs::Parts::number_at))]
pub fn take_u64(bytes: &[u8], low: u64, high: u64) -> Result<(u64, &[u8]), RecordRefusal>
    ensures { Gives (λ x. (x.0, x.1.now)) result (number_at w64 low high bytes.now) }
{
    let Some((front, rest)) = bytes.split_first_chunk::<8>() else {
        return Err(RecordRefusal::Truncated);
    };
    let number = u64::from_be_bytes(*front);
    if number < low || high < number {
        return Err(RecordRefusal::NotCanonical(Flaw::Range));
    }
    Ok((number, rest))
}

#[tactic(auto, unfolding(crate::specs::Parts::flag_at))]
pub fn take_flag(bytes: &[u8]) -> Result<(bool, &[u8]), RecordRefusal>
    ensures { Gives (λ x. (x.0, x.1.now)) result (flag_at bytes.now) }
{
    match bytes {
        [] => Err(RecordRefusal::Truncated),
        [0, rest @ ..] => Ok((false, rest)),
        [1, rest @ ..] => Ok((true, rest)),
        [_, ..] => Err(RecordRefusal::NotCanonical(Flaw::Range)),
    }
}

#[tactic(auto, unfolding(crate::specs::Parts::front_at, crate::specs::Parts::digest_at))]
pub fn take_digest(bytes: &[u8]) -> Result<(Digest, &[u8]), RecordRefusal>
    ensures { Gives (λ x. (x.0, x.1.now)) result (digest_at bytes.now) }
{
    let Some((front, rest)) = bytes.split_first_chunk::<32>() else {
        return Err(RecordRefusal::Truncated);
    };
    Ok((Digest(*front), rest))
}

fn text_of(alloc: Global, bytes: &[u8]) -> Result<Text, RecordRefusal>
    ensures { Gives (λ text. text) result (text_of bytes.now) }
{
    match str::from_utf8(bytes) {
        Ok(text) => Ok(Text::new(String::from_str(alloc, text)?)),
        Err(_) => Err(RecordRefusal::NotCanonical(Flaw::Utf8)),
    }
}

/// The id of a folder, behind its length.
#[tactic(auto, unfolding(crate::specs::Parts::id_at))]
pub(crate) fn take_id(alloc: Global, bytes: &[u8]) -> Result<(Text, &[u8]), RecordRefusal>
    ensures { Gives (λ x. (x.0, x.1.now)) result (id_at bytes.now) }
{
    let (len, rest) = take_u64(bytes, 0, u64::MAX)?;
    let (id, rest) = take_front(rest, len)?;
    let text = text_of(alloc, id)?;
    Ok((text, rest))
}
