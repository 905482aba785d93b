//! Appending fields of one kind to a message.

ghost use Rattle.std.specs.Prelude.{◌≡◌, ◌<◌, ◌≤◌, ◌^◌, ◌++◌, OnOk, FitsSigned};
ghost use Rattle.std.specs.Int.{w32, w64};
ghost use Rattle.std.specs.List.{AllByRecursion};
ghost use Rattle.protowire.specs.Fields.{message};
ghost use Rattle.protowire.specs.Writing.{bytes_field};
ghost use Rattle.opsproto.specs.Writing.{number_fields, int_fields, bool_fields, text_fields, each_fields};
ghost use Rattle.opsproto.specs.Written.{IsText};

use names::Text;
use std::alloc::AllocError;

/// Appends a number, unless it is 0.
#[tactic(auto, using(crate::proofs::PutLemmas::one_field), unfolding(crate::specs::Writing::number_fields))]
fn put_number(out: &mut Vec<u8>, number: u32, value: u64) -> Result<(), AllocError>
    requires first { 1 ≤ number }
    requires last { number < 2 ^ 29 }
    ensures { OnOk result (out.new.items ≡ out.old.items ++ message (number_fields number value)) }
{
    if value == 0 {
        return Ok(());
    }
    protowire::put_varint(out, number, value)
}

/// Appends an int64, unless it is 0.
pub(crate) fn put_int64(out: &mut Vec<u8>, number: u32, value: i64) -> Result<(), AllocError>
    requires first { 1 ≤ number }
    requires last { number < 2 ^ 29 }
    ensures ok { OnOk result (out.new.items ≡ out.old.items ++ message (int_fields number value)) }
    ensures range { FitsSigned w64 value }
{
    put_number(out, number, value.cast_unsigned())
}

/// Appends an int32 or an enum, unless it is 0.
pub(crate) fn put_int32(out: &mut Vec<u8>, number: u32, value: i32) -> Result<(), AllocError>
    requires first { 1 ≤ number }
    requires last { number < 2 ^ 29 }
    ensures ok { OnOk result (out.new.items ≡ out.old.items ++ message (int_fields number value)) }
    ensures range { FitsSigned w32 value }
{
    put_number(out, number, i64::from(value).cast_unsigned())
}

/// Appends a bool, unless it is false.
pub(crate) fn put_bool(out: &mut Vec<u8>, number: u32, value: bool) -> Result<(), AllocError>
    requires first { 1 ≤ number }
    requires last { number < 2 ^ 29 }
    ensures { OnOk result (out.new.items ≡ out.old.items ++ message (bool_fields number value)) }
{
    put_number(out, number, u64::from(value))
}

/// Appends a string, unless it is empty.
#[tactic(auto, using(crate::proofs::PutLemmas::one_field), unfolding(crate::specs::Writing::text_fields))]
pub(crate) fn put_text(out: &mut Vec<u8>, number: u32, text: &Text) -> Result<(), AllocError>
    requires first { 1 ≤ number }
    requires last { number < 2 ^ 29 }
    ensures ok { OnOk result (out.new.items ≡ out.old.items ++ message (text_fields number text.now)) }
    ensures valid { IsText text.now }
{
    let text = text.as_str();
    if text.is_empty() {
        return Ok(());
    }
    protowire::put_bytes(out, number, text.as_bytes())
}

/// Appends a string, also an empty one.
fn put_item(out: &mut Vec<u8>, number: u32, text: &Text) -> Result<(), AllocError>
    requires first { 1 ≤ number }
    requires last { number < 2 ^ 29 }
    ensures ok { OnOk result (out.new.items ≡ out.old.items ++ bytes_field number text.now) }
    ensures valid { IsText text.now }
{
    protowire::put_bytes(out, number, text.as_str().as_bytes())
}

/// Appends each string of a repeated field.
#[tactic(auto, unfolding(crate::specs::Writing::each_fields))]
pub(crate) fn put_texts(out: &mut Vec<u8>, number: u32, texts: &[Text]) -> Result<(), AllocError>
    requires first { 1 ≤ number }
    requires last { number < 2 ^ 29 }
    ensures ok { OnOk result (out.new.items ≡ out.old.items ++ message (each_fields number texts.now)) }
    ensures valid { OnOk result (AllByRecursion IsText texts.now) }
{
    for text in texts {
        put_item(out, number, text)?;
    }
    Ok(())
}
