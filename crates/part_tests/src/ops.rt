//! Ops and definitions. Their bytes were spelled by hand from proto3's encoding.

use super::build::{CACHED, exec_op, text};
use opsproto::{
    Definition, ExecOp, Input, Kind, Meta, Mount, Op, OpRefusal, read_definition, read_op,
    write_definition, write_op,
};
use protowire::WireRefusal;
use std::alloc::{AllocError, Global};
use std::test::Fail;

/// Bytes in hexadecimal, and what `read_op` gives, shortened by `shown`.
const ROWS: [(&str, &str); 21] = [
    ("", "bare"),
    ("1a00", "opaque 3"),
    (CACHED, "exec x; mounts / /go/pkg/mod:3; network 0"),
    // `exec` given twice is joined; after another member the last run alone counts.
    (
        "12050a030a017812050a030a0179",
        "exec x y; mounts; network 0",
    ),
    (
        "12050a030a01781a0012050a030a0179",
        "exec y; mounts; network 0",
    ),
    ("12050a030a01781a00", "opaque 3"),
    // Fields of other numbers do not break a run, nor does the member's number with another wire type.
    (
        "12050a030a017852011012050a030a0179",
        "exec x y; mounts; network 0",
    ),
    (
        "12050a030a0178180112050a030a0179",
        "exec x y; mounts; network 0",
    ),
    // The body of a member that another one overtook is never read; that of the one that counts is.
    ("1201ff1a00", "opaque 3"),
    ("12010a", "Wire(Truncated)"),
    ("0a010a", "Wire(Truncated)"),
    ("12030a010a", "Wire(Truncated)"),
    // A known number with another wire type is skipped as unknown.
    ("1001", "bare"),
    ("0801", "bare"),
    // Two parts of a message that are broken alone may be whole when they are joined.
    ("120112120100", "exec; mounts ; network 0"),
    // The last of a scalar counts, by its low 32 bits.
    ("120418011802", "exec; mounts; network 2"),
    ("120618ffffffff0f", "exec; mounts; network -1"),
    // Text that counts is UTF-8. Wire faults come before.
    ("12050a030a01ff", "NotUtf8(1)"),
    ("0a030a01ff", "NotUtf8(1)"),
    ("0a030a01ff0a010a", "Wire(Truncated)"),
    ("5201ff", "bare"),
];

/// Adds the words of a command.
fn add_args(shown: &mut String, meta: &Meta) -> Result<(), AllocError> {
    for arg in meta.args.as_slice() {
        let arg = arg.as_str();
        write!(shown, " {arg}")?;
    }
    Ok(())
}

/// Adds where each mount is, and its sharing if it is a cache.
fn add_mounts(shown: &mut String, mounts: &[Mount]) -> Result<(), AllocError> {
    for mount in mounts {
        let dest = mount.dest.as_str();
        write!(shown, " {dest}")?;
        if let Some(cache) = &mount.cache {
            let sharing = cache.sharing;
            write!(shown, ":{sharing}")?;
        }
    }
    Ok(())
}

fn shown_exec(alloc: Global, exec: &ExecOp) -> Result<String, AllocError> {
    let mut shown = String::from_str(alloc, "exec")?;
    if let Some(meta) = &exec.meta {
        add_args(&mut shown, meta)?;
    }
    shown.push_str("; mounts")?;
    add_mounts(&mut shown, exec.mounts.as_slice())?;
    let network = exec.network;
    write!(shown, "; network {network}")?;
    Ok(shown)
}

fn shown_kind(alloc: Global, op: &Op) -> Result<String, AllocError> {
    match op.kind() {
        Kind::Bare => String::from_str(alloc, "bare"),
        Kind::Opaque(number) => format!(in alloc; "opaque {number}"),
        Kind::Exec(exec) => shown_exec(alloc, exec),
    }
}

fn shown(alloc: Global, bytes: &[u8]) -> Result<String, AllocError> {
    match read_op(alloc, bytes) {
        Err(refusal) => format!(in alloc; "{refusal:?}"),
        Ok(op) => shown_kind(alloc, &op),
    }
}

/// What an op of these hexadecimal digits is.
fn shown_op(alloc: Global, digits: &str) -> Result<String, Fail> {
    let bytes = hex::decode(alloc, digits)?;
    Ok(shown(alloc, &bytes)?)
}

#[test]
fn ops(rt: HostRuntime) -> Result<(), Fail> {
    for (digits, wanted) in &ROWS {
        let text = shown_op(rt.alloc(), *digits)?;
        assert!(rt; text.as_str() == *wanted, "{digits}");
    }
    Ok(())
}

/// Ops in hexadecimal, and the lengths of their prefixes that are ops.
const CUT: [(&str, &[usize]); 4] = [
    (CACHED, &[0, 67]),
    ("12050a030a01781a0012050a030a0179", &[0, 7, 9, 16]),
    ("120112120100", &[0, 6]),
    ("12050a030a017852011012050a030a0179", &[0, 7, 10, 17]),
];

/// Whether bytes are an op's. Fails where they are refused otherwise than as cut.
fn is_op(alloc: Global, bytes: &[u8]) -> Result<bool, Fail> {
    match read_op(alloc, bytes) {
        Ok(_) => Ok(true),
        Err(OpRefusal::Wire(WireRefusal::Truncated)) => Ok(false),
        Err(refusal) => Err(refusal.into()),
    }
}

/// Whether the prefixes of these lengths are ops, and no others.
fn are_cut_so(alloc: Global, bytes: &[u8], lengths: &[usize]) -> Result<bool, Fail> {
    for len in 0..=bytes.len() {
        if is_op(alloc, &bytes[..len])? != lengths.contains(&len) {
            return Ok(false);
        }
    }
    Ok(true)
}

/// Whether that is so of the bytes of the digits.
fn are_cut_digits(alloc: Global, digits: &str, lengths: &[usize]) -> Result<bool, Fail> {
    let bytes = hex::decode(alloc, digits)?;
    are_cut_so(alloc, bytes.as_slice(), lengths)
}

#[test]
fn ops_cut_at_every_byte(rt: HostRuntime) -> Result<(), Fail> {
    for (digits, lengths) in &CUT {
        assert!(rt; are_cut_digits(rt.alloc(), *digits, *lengths)?);
    }
    Ok(())
}

/// An exec op with a cache mount and an input.
fn op_with_input(alloc: Global) -> Result<Op, AllocError> {
    let input = Input {
        digest: text(alloc, "d")?,
        index: -1,
    };
    let inputs = vec![in alloc; input]?;
    exec_op(alloc, inputs)
}

/// The same as it is written.
fn written_op(alloc: Global) -> Result<Vec<u8>, AllocError> {
    let op = op_with_input(alloc)?;
    write_op(alloc, &op)
}

/// Its input as it is written.
const INPUT: &[u8] = b"\x0a\x0e\x0a\x01d\x10\xff\xff\xff\xff\xff\xff\xff\xff\xff\x01";

/// Whether it is the op that is read above, with its input.
fn is_cached_with_input(alloc: Global, bytes: &[u8]) -> Result<bool, Fail> {
    let cached = hex::decode(alloc, CACHED)?;
    Ok(bytes.strip_prefix(INPUT) == Some(cached.as_slice()))
}

#[test]
fn an_exec_op_is_written(rt: HostRuntime) -> Result<(), Fail> {
    let bytes = written_op(rt.alloc())?;
    assert!(rt; is_cached_with_input(rt.alloc(), &bytes)?);
    Ok(())
}

fn definition_of(alloc: Global, bytes: &[u8]) -> Result<Definition, OpRefusal> {
    read_definition(alloc, Vec::from_slice(alloc, bytes)?)
}

/// How many entries a definition has.
fn entries(alloc: Global, bytes: &[u8]) -> Result<usize, OpRefusal> {
    Ok(definition_of(alloc, bytes)?.def.len())
}

/// A definition, read and written again.
fn written_again(alloc: Global, bytes: &[u8]) -> Result<Vec<u8>, OpRefusal> {
    Ok(write_definition(alloc, &definition_of(alloc, bytes)?)?)
}

/// Definitions, and how many entries each has. Metadata and source are skipped.
const ENTRIES: [(&[u8], usize); 3] = [
    (b"", 0),
    (b"\x12\x00\x1a\x01\xff", 0),
    (b"\x0a\x00\x0a\x01\x0a", 2),
];

#[test]
fn definitions(rt: HostRuntime) -> Result<(), Fail> {
    for (bytes, wanted) in &ENTRIES {
        assert!(rt; entries(rt.alloc(), *bytes)? == *wanted);
    }
    Ok(())
}

/// Whether a definition is written as it was.
fn is_written_again(alloc: Global, bytes: &[u8]) -> Result<bool, OpRefusal> {
    Ok(written_again(alloc, bytes)?.as_slice() == bytes)
}

/// Two entries are written as they were, and one that is cut is refused.
#[test]
fn definitions_again(rt: HostRuntime) -> Result<(), Fail> {
    assert!(rt; is_written_again(rt.alloc(), b"\x0a\x00\x0a\x01\x0a")?);
    assert!(rt; matches!(entries(rt.alloc(), b"\x0a"), Err(OpRefusal::Wire(_))));
    Ok(())
}
