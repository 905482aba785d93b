//! What the bytes of a message mean, before its texts are checked.

ghost use Rattle.protowire.specs.Seen.{entries};
ghost use Rattle.protowire.specs.Reading.{Gives};
ghost use Rattle.protowire.specs.Lookups.{bodies, joined_body};
ghost use Rattle.opsproto.specs.Mounts.{exec_mounts_of};
ghost use Rattle.opsproto.specs.Reading.{each_of, optional_of, input_of, cache_of, mount_of, meta_of, exec_of};

use super::exec::{CacheOpt, ExecOp, Meta, Mount};
use super::fields::{body_count, bool_in, fields, int32_in, int64_in, text_in, texts_in};
use super::input::Input;
use super::lent::RawText;
use super::whole::whole_body;
use bumpalo::Bump;
use names::Items;
use protowire::{Field, WireRefusal};
use std::alloc::Global;

/// The field number of an op's inputs.
pub(crate) const INPUTS: u32 = 1;

/// The field number of an exec op's mounts.
const MOUNTS: u32 = 2;

#[tactic(auto, unfolding(crate::specs::Reading::input_of))]
fn input_of<'a>(alloc: Global, message: &'a [u8]) -> Result<Input<RawText<'a>>, WireRefusal>
    ensures { Gives (λ v. v) result (input_of message.now) }
{
    let fields = fields(alloc, message)?;
    Ok(Input {
        digest: text_in(&fields, 1),
        index: int64_in(&fields, 2),
    })
}

#[tactic(auto, unfolding(crate::specs::Reading::cache_of))]
fn cache_of<'a>(alloc: Global, message: &'a [u8]) -> Result<CacheOpt<RawText<'a>>, WireRefusal>
    ensures { Gives (λ v. v) result (cache_of message.now) }
{
    let fields = fields(alloc, message)?;
    Ok(CacheOpt {
        id: text_in(&fields, 1),
        sharing: int32_in(&fields, 2),
    })
}

fn cache_in<'a>(
    alloc: Global,
    arena: &'a Bump,
    fields: &[Field<'a>],
) -> Result<Option<CacheOpt<RawText<'a>>>, WireRefusal>
    ensures { Gives (λ v. v) result (optional_of cache_of (joined_body 20 (entries fields.now))) }
{
    match whole_body(alloc, arena, fields, 20)? {
        Some(body) => Ok(Some(cache_of(alloc, body)?)),
        None => Ok(None),
    }
}

#[tactic(auto, unfolding(crate::specs::Reading::mount_of))]
fn mount_of<'a>(
    alloc: Global,
    arena: &'a Bump,
    message: &'a [u8],
) -> Result<Mount<RawText<'a>>, WireRefusal>
    ensures { Gives (λ v. v) result (mount_of message.now) }
{
    let fields = fields(alloc, message)?;
    let cache = cache_in(alloc, arena, &fields)?;
    Ok(Mount {
        input: int64_in(&fields, 1),
        selector: text_in(&fields, 2),
        dest: text_in(&fields, 3),
        output: int64_in(&fields, 4),
        readonly: bool_in(&fields, 5),
        mount_type: int32_in(&fields, 6),
        cache,
    })
}

#[tactic(auto, unfolding(crate::specs::Reading::meta_of))]
fn meta_of<'a>(alloc: Global, message: &'a [u8]) -> Result<Meta<RawText<'a>>, WireRefusal>
    ensures { Gives (λ v. v) result (meta_of message.now) }
{
    let fields = fields(alloc, message)?;
    Ok(Meta {
        args: texts_in(alloc, &fields, 1)?,
        env: texts_in(alloc, &fields, 2)?,
        cwd: text_in(&fields, 3),
        user: text_in(&fields, 4),
    })
}

pub(crate) fn inputs_of<'a>(
    alloc: Global,
    fields: &[Field<'a>],
) -> Result<Items<Input<RawText<'a>>>, WireRefusal>
    ensures { Gives (λ v. v) result (each_of input_of (bodies 1 (entries fields.now))) }
{
    let mut inputs = Vec::with_capacity(alloc, body_count(fields, INPUTS))?;
    for field in fields {
        let Some(message) = protowire::body_in(field, INPUTS) else {
            continue;
        };
        inputs.push(input_of(alloc, message)?)?;
    }
    Ok(Items::new(inputs))
}

fn mounts_of<'a>(
    alloc: Global,
    arena: &'a Bump,
    fields: &[Field<'a>],
) -> Result<Items<Mount<RawText<'a>>>, WireRefusal>
    ensures { Gives (λ v. v) result (each_of mount_of (bodies 2 (entries fields.now))) }
{
    let mut mounts = Vec::with_capacity(alloc, body_count(fields, MOUNTS))?;
    for field in fields {
        let Some(message) = protowire::body_in(field, MOUNTS) else {
            continue;
        };
        mounts.push(mount_of(alloc, arena, message)?)?;
    }
    Ok(Items::new(mounts))
}

/// The mounts of an exec op alone.
pub(crate) fn exec_mounts_of<'a>(
    alloc: Global,
    arena: &'a Bump,
    message: &'a [u8],
) -> Result<Items<Mount<RawText<'a>>>, WireRefusal>
    ensures { Gives (λ v. v) result (exec_mounts_of message.now) }
{
    let fields = fields(alloc, message)?;
    mounts_of(alloc, arena, &fields)
}

fn meta_in<'a>(
    alloc: Global,
    arena: &'a Bump,
    fields: &[Field<'a>],
) -> Result<Option<Meta<RawText<'a>>>, WireRefusal>
    ensures { Gives (λ v. v) result (optional_of meta_of (joined_body 1 (entries fields.now))) }
{
    match whole_body(alloc, arena, fields, 1)? {
        Some(body) => Ok(Some(meta_of(alloc, body)?)),
        None => Ok(None),
    }
}

#[tactic(auto, unfolding(crate::specs::Reading::exec_of))]
pub(crate) fn exec_of<'a>(
    alloc: Global,
    arena: &'a Bump,
    message: &'a [u8],
) -> Result<ExecOp<RawText<'a>>, WireRefusal>
    ensures { Gives (λ v. v) result (exec_of message.now) }
{
    let fields = fields(alloc, message)?;
    let meta = meta_in(alloc, arena, &fields)?;
    let mounts = mounts_of(alloc, arena, &fields)?;
    Ok(ExecOp {
        meta,
        mounts,
        network: int32_in(&fields, 3),
        security: int32_in(&fields, 4),
    })
}
