//! The ops and graphs that the tests are about.

use farm_base::{Digest, Items, Text};
use opsproto::{CacheOpt, ExecOp, Input, Meta, Mount, Op, read_definition};
use std::alloc::{AllocError, Global};
use std::test::Fail;
use vertices::Graph;

/// An exec op with the argument `x`, a root mount, and a cache mount at /go/pkg/mod with sharing 3.
pub const CACHED: &str =
    "12410a030a0178120e08ffffffffffffffffff011a012f122a08ffffffffffffffffff011a0b2f676f2f706b672f6d6f6420ffffffffffffffffff013003a201021003";

pub fn text(alloc: Global, text: &str) -> Result<Text, AllocError> {
    Ok(Text::new(String::from_str(alloc, text)?))
}

/// The digest that is 32 times this byte.
pub fn digest_of(byte: u8) -> Digest {
    Digest([byte; 32])
}

/// The digest of each byte.
pub fn digests(alloc: Global, bytes: &[u8]) -> Result<Vec<Digest>, AllocError> {
    let mut digests = Vec::with_capacity(alloc, bytes.len())?;
    for byte in bytes {
        digests.push(digest_of(*byte))?;
    }
    Ok(digests)
}

/// A mount at this place.
fn mount(alloc: Global, dest: &str, output: i64) -> Result<Mount, AllocError> {
    Ok(Mount {
        input: -1,
        selector: text(alloc, "")?,
        dest: text(alloc, dest)?,
        output,
        readonly: false,
        mount_type: 0,
        cache: None,
    })
}

/// The root mount, which gives output 0, and a cache mount.
fn mounts(alloc: Global) -> Result<Vec<Mount>, AllocError> {
    let root = mount(alloc, "/", 0)?;
    let mut mounts = vec![in alloc; root]?;
    let mut cache = mount(alloc, "/go/pkg/mod", -1)?;
    let id = text(alloc, "")?;
    cache.mount_type = 3;
    cache.cache = Some(CacheOpt { id, sharing: 3 });
    mounts.push(cache)?;
    Ok(mounts)
}

/// The command `x`.
fn meta(alloc: Global) -> Result<Meta, AllocError> {
    Ok(Meta {
        args: Items::new(vec![in alloc; text(alloc, "x")?]?),
        env: Items::new(Vec::new(alloc)),
        cwd: text(alloc, "")?,
        user: text(alloc, "")?,
    })
}

/// The exec op of `CACHED`.
fn exec(alloc: Global) -> Result<ExecOp, AllocError> {
    let mounts = mounts(alloc)?;
    Ok(ExecOp {
        meta: Some(meta(alloc)?),
        mounts: Items::new(mounts),
        network: 0,
        security: 0,
    })
}

/// An op of it with these inputs.
pub fn exec_op(alloc: Global, inputs: Vec<Input>) -> Result<Op, AllocError> {
    let exec = exec(alloc)?;
    Op::exec(alloc, inputs, &exec)
}

/// The graph that a definition's bytes spell, in a box: letting go of it is one step of a proof.
pub fn load(alloc: Global, bytes: Vec<u8>) -> Result<Box<Graph>, Fail> {
    let graph = vertices::load(alloc, read_definition(alloc, bytes)?)?;
    Ok(Box::new(alloc, graph)?)
}
