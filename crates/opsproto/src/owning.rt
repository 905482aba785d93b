//! What is lent from a message, copied into memory of its own.
ghost use Rattle.std.specs.Prelude.{◌≡◌, IfOk};

use super::exec::{CacheOpt, ExecOp, Meta, Mount};
use super::input::Input;
use super::lent::{LentOp, LentText};
use super::op::{Kind, Op};
use names::{Items, Text};
use std::alloc::{AllocError, Global};

fn own_text(alloc: Global, lent: &LentText<'_>) -> Result<Text, AllocError>
    ensures { IfOk result (λ own. own ≡ lent.now) }
{
    Ok(Text::new(String::from_str(alloc, lent.as_str())?))
}

fn own_texts(alloc: Global, lent: &[LentText<'_>]) -> Result<Items<Text>, AllocError>
    ensures { IfOk result (λ own. own ≡ lent.now) }
{
    let mut own = Vec::with_capacity(alloc, lent.len())?;
    for text in lent {
        own.push(own_text(alloc, text)?)?;
    }
    Ok(Items::new(own))
}

fn own_input(alloc: Global, lent: &Input<LentText<'_>>) -> Result<Input, AllocError>
    ensures { IfOk result (λ own. own ≡ lent.now) }
{
    Ok(Input {
        digest: own_text(alloc, &lent.digest)?,
        index: lent.index,
    })
}

pub(crate) fn own_inputs(
    alloc: Global,
    lent: &[Input<LentText<'_>>],
) -> Result<Items<Input>, AllocError>
    ensures { IfOk result (λ own. own ≡ lent.now) }
{
    let mut own = Vec::with_capacity(alloc, lent.len())?;
    for input in lent {
        own.push(own_input(alloc, input)?)?;
    }
    Ok(Items::new(own))
}

fn own_cache(
    alloc: Global,
    lent: &Option<CacheOpt<LentText<'_>>>,
) -> Result<Option<CacheOpt>, AllocError>
    ensures { IfOk result (λ own. own ≡ lent.now) }
{
    match lent {
        Some(cache) => Ok(Some(CacheOpt {
            id: own_text(alloc, &cache.id)?,
            sharing: cache.sharing,
        })),
        None => Ok(None),
    }
}

fn own_mount(alloc: Global, lent: &Mount<LentText<'_>>) -> Result<Mount, AllocError>
    ensures { IfOk result (λ own. own ≡ lent.now) }
{
    let cache = own_cache(alloc, &lent.cache)?;
    Ok(Mount {
        input: lent.input,
        selector: own_text(alloc, &lent.selector)?,
        dest: own_text(alloc, &lent.dest)?,
        output: lent.output,
        readonly: lent.readonly,
        mount_type: lent.mount_type,
        cache,
    })
}

pub(crate) fn own_mounts(
    alloc: Global,
    lent: &[Mount<LentText<'_>>],
) -> Result<Items<Mount>, AllocError>
    ensures { IfOk result (λ own. own ≡ lent.now) }
{
    let mut own = Vec::with_capacity(alloc, lent.len())?;
    for mount in lent {
        own.push(own_mount(alloc, mount)?)?;
    }
    Ok(Items::new(own))
}

fn own_meta(alloc: Global, lent: &Option<Meta<LentText<'_>>>) -> Result<Option<Meta>, AllocError>
    ensures { IfOk result (λ own. own ≡ lent.now) }
{
    match lent {
        Some(meta) => Ok(Some(Meta {
            args: own_texts(alloc, meta.args.as_slice())?,
            env: own_texts(alloc, meta.env.as_slice())?,
            cwd: own_text(alloc, &meta.cwd)?,
            user: own_text(alloc, &meta.user)?,
        })),
        None => Ok(None),
    }
}

fn own_exec(alloc: Global, lent: &ExecOp<LentText<'_>>) -> Result<ExecOp, AllocError>
    ensures { IfOk result (λ own. own ≡ lent.now) }
{
    let meta = own_meta(alloc, &lent.meta)?;
    let mounts = own_mounts(alloc, lent.mounts.as_slice())?;
    Ok(ExecOp {
        meta,
        mounts,
        network: lent.network,
        security: lent.security,
    })
}

pub(crate) fn own_kind(alloc: Global, lent: &Kind<LentText<'_>>) -> Result<Kind, AllocError>
    ensures { IfOk result (λ own. own ≡ lent.now) }
{
    match lent {
        Kind::Exec(exec) => Ok(Kind::Exec(own_exec(alloc, exec)?)),
        Kind::Opaque(number) => Ok(Kind::Opaque(*number)),
        Kind::Bare => Ok(Kind::Bare),
    }
}

pub(crate) fn own_op(alloc: Global, lent: &LentOp<'_>) -> Result<Op, AllocError>
    ensures { IfOk result (λ own. own ≡ lent.now) }
{
    let inputs = lent.own_inputs(alloc)?;
    let kind = own_kind(alloc, lent.kind())?;
    let stripped = Vec::from_slice(alloc, lent.stripped())?;
    Ok(Op::new(inputs, kind, Items::new(stripped)))
}
