//! Messages as lists of fields. Their bytes were spelled by hand from proto3's encoding.

use protowire::{
    Field, Value, WireRefusal, bodies, fields, joined_body, last_member, last_varint, put_bytes,
    put_message, put_varint,
};
use std::alloc::Global;
use std::test::Fail;

/// What is read: no field, or one with this number and value.
type Read = Result<Option<(u32, Value<'static>)>, WireRefusal>;

/// Bytes in hexadecimal, and what `fields` gives.
static ROWS: [(&str, Read); 24] = [
    ("", Ok(None)),
    ("089601", Ok(Some((1, Value::Varint(150))))),
    ("088000", Ok(Some((1, Value::Varint(0))))),
    ("0880808080808080808000", Ok(Some((1, Value::Varint(0))))),
    (
        "08ffffffffffffffffff01",
        Ok(Some((1, Value::Varint(u64::MAX)))),
    ),
    ("08ffffffffffffffffff02", Err(WireRefusal::VarintTooLong)),
    ("088080808080808080808000", Err(WireRefusal::VarintTooLong)),
    ("0880", Err(WireRefusal::Truncated)),
    ("0a0261", Err(WireRefusal::Truncated)),
    ("0affffffff0f", Err(WireRefusal::Truncated)),
    ("0affffffffffffffffff01", Err(WireRefusal::Truncated)),
    ("090011223344556677", Ok(Some((1, Value::Eight)))),
    ("0900112233445566", Err(WireRefusal::Truncated)),
    ("0d00112233", Ok(Some((1, Value::Four)))),
    ("0d001122", Err(WireRefusal::Truncated)),
    ("0b", Err(WireRefusal::BadWireType)),
    ("0c", Err(WireRefusal::BadWireType)),
    ("0e", Err(WireRefusal::BadWireType)),
    ("0f", Err(WireRefusal::BadWireType)),
    ("00", Err(WireRefusal::BadFieldNumber)),
    ("03", Err(WireRefusal::BadFieldNumber)),
    ("f8ffffff0f00", Ok(Some((536_870_911, Value::Varint(0))))),
    ("808080801000", Err(WireRefusal::BadFieldNumber)),
    ("888080808001", Err(WireRefusal::BadFieldNumber)),
];

/// The table is handed out by one function, since a proof pays for it wherever it stands.
fn rows() -> &'static [(&'static str, Read)] {
    &ROWS
}

/// Whether two values that own no bytes are the same.
fn is_value(value: Value<'_>, wanted: Value<'_>) -> bool {
    match (value, wanted) {
        (Value::Varint(value), Value::Varint(wanted)) => value == wanted,
        (Value::Eight, Value::Eight) => true,
        (Value::Four, Value::Four) => true,
        _ => false,
    }
}

/// Whether these fields are one with this number and value, or none.
fn are_fields(found: &[Field<'_>], wanted: Option<(u32, Value<'_>)>) -> bool {
    match (found, wanted) {
        ([field], Some((number, value))) => field.number == number && is_value(field.value, value),
        ([], None) => true,
        _ => false,
    }
}

/// Whether this is read of the bytes.
fn is_read(alloc: Global, bytes: &[u8], wanted: Read) -> bool {
    match fields(alloc, bytes) {
        Ok(found) => match wanted {
            Ok(wanted) => are_fields(&found, wanted),
            Err(_) => false,
        },
        Err(refusal) => matches!(wanted, Err(wanted) if wanted == refusal),
    }
}

/// Whether this is read of the bytes of the digits.
fn is_read_of_digits(alloc: Global, digits: &str, wanted: Read) -> Result<bool, Fail> {
    let bytes = hex::decode(alloc, digits)?;
    Ok(is_read(alloc, &bytes, wanted))
}

#[test]
fn messages_of_fields(rt: HostRuntime) -> Result<(), Fail> {
    for (digits, wanted) in rows() {
        assert!(rt;
            is_read_of_digits(rt.alloc(), *digits, *wanted)?,
            "{digits}"
        );
    }
    Ok(())
}

/// Whether all parts of these bytes, from the first byte on, are refused as cut.
fn are_cut(alloc: Global, bytes: &[u8]) -> bool {
    for len in 1..bytes.len() {
        if !is_read(alloc, &bytes[..len], Err(WireRefusal::Truncated)) {
            return false;
        }
    }
    true
}

/// Whether that is so of the bytes of the digits.
fn are_cut_digits(alloc: Global, digits: &str) -> Result<bool, Fail> {
    let bytes = hex::decode(alloc, digits)?;
    Ok(are_cut(alloc, bytes.as_slice()))
}

#[test]
fn fields_cut_at_every_byte(rt: HostRuntime) -> Result<(), Fail> {
    for (digits, wanted) in rows() {
        assert!(rt; wanted.is_err() || are_cut_digits(rt.alloc(), *digits)?);
    }
    Ok(())
}

/// Whether these are the joined bodies of the fields of number 2.
fn is_joined(alloc: Global, found: &[Field<'_>], wanted: &[u8]) -> Result<bool, Fail> {
    match joined_body(alloc, found, 2)? {
        Some(body) => Ok(body.as_slice() == wanted),
        None => Ok(false),
    }
}

/// Whether this is the last of the fields of some numbers, with its joined bodies.
fn is_last(
    alloc: Global,
    found: &[Field<'_>],
    numbers: &[u32],
    wanted: (u32, &[u8]),
) -> Result<bool, Fail> {
    match last_member(alloc, found, numbers)? {
        Some((number, body)) => Ok((number, body.as_slice()) == wanted),
        None => Ok(false),
    }
}

/// Whether looking up gives what it is to give.
fn are_looked_up(alloc: Global, found: &[Field<'_>]) -> Result<bool, Fail> {
    Ok(
        last_varint(found, 1) == Some(7)
            && last_varint(found, 2) == None
            && is_joined(alloc, found, b"bce")?
            && bodies(alloc, found, 2)?.len() == 3
            && is_last(alloc, found, &[2, 3], (2, b"e"))?
            && is_last(alloc, found, &[2, 4], (2, b"bce"))?
            && last_member(alloc, found, &[4])?.is_none(),
    )
}

/// Field 1 as 5, as `a` and as 7; field 2 as `b`; field 9 as 0; field 2 as `c`; field 3 as `d`; field 2 as `e`.
#[test]
fn what_is_looked_up(rt: HostRuntime) -> Result<(), Fail> {
    let bytes = hex::decode(rt.alloc(), "08050a0161080712016248001201631a0164120165")?;
    let found = fields(rt.alloc(), &bytes)?;
    assert!(rt; are_looked_up(rt.alloc(), &found)?);
    Ok(())
}

/// Two varints, at both ends of their ranges, some bytes and an empty message.
fn written(alloc: Global) -> Result<Vec<u8>, Fail> {
    let mut out = Vec::new(alloc);
    put_varint(&mut out, 1, 150)?;
    put_varint(&mut out, 536_870_911, u64::MAX)?;
    put_bytes(&mut out, 2, b"a")?;
    put_message(&mut out, 3, b"")?;
    Ok(out)
}

#[test]
fn what_is_written(rt: HostRuntime) -> Result<(), Fail> {
    let text = hex::encode(rt.alloc(), &written(rt.alloc())?)?;
    assert_eq!(rt;
        text.as_str(),
        "089601f8ffffff0fffffffffffffffffff011201611a00"
    );
    Ok(())
}
