ghost use Rattle.std.specs.Prelude.{◌≡◌, ◌<◌, ◌≤◌, ◌^◌, ◌++◌, take, length, OnOk, OnErr};
ghost use Rattle.protowire.specs.Writing.{minimal, varint_field, bytes_field};

use std::alloc::AllocError;

/// Appends the shortest spelling of a number. A failure may leave a part of it.
fn push_number(out: &mut Vec<u8>, number: u64) -> Result<(), AllocError>
    ensures ok { OnOk result (out.new.items ≡ out.old.items ++ minimal number) }
    ensures front { take (length out.old.items) out.new.items ≡ out.old.items }
{
    let mut rest = number;
    while rest >= 128 {
        out.push((rest % 128 + 128) as u8)?;
        rest /= 128;
    }
    out.push(rest as u8)?;
    Ok(())
}

/// Appends a field that holds a number. A failure may leave a part of it.
fn push_varint(out: &mut Vec<u8>, number: u32, value: u64) -> Result<(), AllocError>
    requires { number < 2 ^ 29 }
    ensures ok { OnOk result (out.new.items ≡ out.old.items ++ varint_field number value) }
    ensures front { take (length out.old.items) out.new.items ≡ out.old.items }
{
    push_number(out, 8 * u64::from(number))?;
    push_number(out, value)
}

/// Appends a field that holds bytes. A failure may leave a part of it.
fn push_bytes(out: &mut Vec<u8>, number: u32, body: &[u8]) -> Result<(), AllocError>
    requires { number < 2 ^ 29 }
    ensures ok { OnOk result (out.new.items ≡ out.old.items ++ bytes_field number body.now) }
    ensures front { take (length out.old.items) out.new.items ≡ out.old.items }
    ensures size { length body.now < 2 ^ 64 }
{
    let size = body.len() as u64;
    push_number(out, 8 * u64::from(number) + 2)?;
    push_number(out, size)?;
    out.extend_from_slice(body)
}

/// Appends a field that holds a number, in its shortest spelling.
pub fn put_varint(out: &mut Vec<u8>, number: u32, value: u64) -> Result<(), AllocError>
    requires first { 1 ≤ number }
    requires last { number < 2 ^ 29 }
    ensures ok { OnOk result (out.new.items ≡ out.old.items ++ varint_field number value) }
    ensures err { OnErr result (out.new.items ≡ out.old.items) }
{
    let len = out.len();
    let pushed = push_varint(out, number, value);
    if pushed.is_err() {
        out.truncate(len);
    }
    pushed
}

/// Appends a field that holds bytes, in its shortest spelling.
pub fn put_bytes(out: &mut Vec<u8>, number: u32, body: &[u8]) -> Result<(), AllocError>
    requires first { 1 ≤ number }
    requires last { number < 2 ^ 29 }
    ensures ok { OnOk result (out.new.items ≡ out.old.items ++ bytes_field number body.now) }
    ensures err { OnErr result (out.new.items ≡ out.old.items) }
    ensures size { length body.now < 2 ^ 64 }
{
    let len = out.len();
    let pushed = push_bytes(out, number, body);
    if pushed.is_err() {
        out.truncate(len);
    }
    pushed
}

/// Appends a field that holds a message, of which these are the bytes.
pub fn put_message(out: &mut Vec<u8>, number: u32, message: &[u8]) -> Result<(), AllocError>
    requires first { 1 ≤ number }
    requires last { number < 2 ^ 29 }
    ensures ok { OnOk result (out.new.items ≡ out.old.items ++ bytes_field number message.now) }
    ensures err { OnErr result (out.new.items ≡ out.old.items) }
    ensures size { length message.now < 2 ^ 64 }
{
    put_bytes(out, number, message)
}
