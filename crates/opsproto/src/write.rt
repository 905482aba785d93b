ghost use Rattle.std.specs.Prelude.{◌≡◌, ◌≤◌, ◌++◌, map, length, IfOk, OnOk, IfSome, Ok, FitsSigned};
ghost use Rattle.std.specs.Int.{w32, w64};
ghost use Rattle.std.specs.List.{AllByRecursion};
ghost use Rattle.std.specs.Option.{option_map};
ghost use Rattle.protowire.specs.Fields.{message};
ghost use Rattle.opsproto.specs.Writing.{end_fields, manner_fields, each_fields, optional_fields, input_text, cache_text, mount_text, meta_text, exec_text, op_text, definition_text};
ghost use Rattle.protowire.specs.Writing.{bytes_field};
ghost use Rattle.opsproto.specs.Ops.{limit, op_at, IsOp};
ghost use Rattle.opsproto.specs.Definitions.{most_entries, definition_at};
ghost use Rattle.opsproto.specs.Written.{IsBody, IsText, IsInput, IsCache, IsMount, IsMeta, IsExec};

use super::definition::Definition;
use super::exec::{CacheOpt, ExecOp, Meta, Mount};
use super::input::Input;
use super::op::{Kind, Op};
use super::put::{put_bool, put_int32, put_int64, put_text, put_texts};
use super::read::DEF;
use protowire::{BodyList, put_message};
use std::alloc::{AllocError, Global};

#[tactic(auto, using(crate::proofs::PutLemmas::writes))]
fn input_bytes(alloc: Global, input: &Input) -> Result<Vec<u8>, AllocError>
    ensures ok { IfOk result (λ v. v.items ≡ input_text input.now) }
    ensures valid { OnOk result (IsInput input.now) }
{
    let mut out = Vec::new(alloc);
    put_text(&mut out, 1, &input.digest)?;
    put_int64(&mut out, 2, input.index)?;
    Ok(out)
}

#[tactic(auto, using(crate::proofs::PutLemmas::writes))]
fn cache_bytes(alloc: Global, cache: &CacheOpt) -> Result<Vec<u8>, AllocError>
    ensures ok { IfOk result (λ v. v.items ≡ cache_text cache.now) }
    ensures valid { OnOk result (IsCache cache.now) }
{
    let mut out = Vec::new(alloc);
    put_text(&mut out, 1, &cache.id)?;
    put_int32(&mut out, 2, cache.sharing)?;
    Ok(out)
}

#[tactic(auto, using(crate::proofs::PutLemmas::one_field), unfolding(crate::specs::Writing::optional_fields))]
fn put_cache(alloc: Global, out: &mut Vec<u8>, cache: &Option<CacheOpt>) -> Result<(), AllocError>
    ensures ok { OnOk result (out.new.items ≡ out.old.items ++ message (optional_fields 20 (option_map cache_text cache.now))) }
    ensures valid { OnOk result (IfSome cache.now IsCache) }
{
    match cache {
        Some(cache) => put_message(out, 20, &cache_bytes(alloc, cache)?),
        None => Ok(()),
    }
}

/// Appends what is mounted, and where.
#[tactic(auto, using(crate::proofs::PutLemmas::writes))]
fn put_ends(out: &mut Vec<u8>, mount: &Mount) -> Result<(), AllocError>
    ensures ok { OnOk result (out.new.items ≡ out.old.items ++ message (end_fields mount.now)) }
    ensures input { OnOk result (FitsSigned w64 mount.now.input) }
    ensures selector { OnOk result (IsText mount.now.selector) }
    ensures dest { OnOk result (IsText mount.now.dest) }
{
    put_int64(out, 1, mount.input)?;
    put_text(out, 2, &mount.selector)?;
    put_text(out, 3, &mount.dest)
}

/// Appends how it is mounted.
#[tactic(auto, using(crate::proofs::PutLemmas::writes))]
fn put_manner(out: &mut Vec<u8>, mount: &Mount) -> Result<(), AllocError>
    ensures ok { OnOk result (out.new.items ≡ out.old.items ++ message (manner_fields mount.now)) }
    ensures output { OnOk result (FitsSigned w64 mount.now.output) }
    ensures mount_type { OnOk result (FitsSigned w32 mount.now.mount_type) }
{
    put_int64(out, 4, mount.output)?;
    put_bool(out, 5, mount.readonly)?;
    put_int32(out, 6, mount.mount_type)
}

#[tactic(auto, using(crate::proofs::PutLemmas::writes))]
fn mount_bytes(alloc: Global, mount: &Mount) -> Result<Vec<u8>, AllocError>
    ensures ok { IfOk result (λ v. v.items ≡ mount_text mount.now) }
    ensures valid { OnOk result (IsMount mount.now) }
{
    let mut out = Vec::new(alloc);
    put_ends(&mut out, mount)?;
    put_manner(&mut out, mount)?;
    put_cache(alloc, &mut out, &mount.cache)?;
    Ok(out)
}

#[tactic(auto, using(crate::proofs::PutLemmas::writes))]
fn meta_bytes(alloc: Global, meta: &Meta) -> Result<Vec<u8>, AllocError>
    ensures ok { IfOk result (λ v. v.items ≡ meta_text meta.now) }
    ensures valid { OnOk result (IsMeta meta.now) }
{
    let mut out = Vec::new(alloc);
    put_texts(&mut out, 1, meta.args.as_slice())?;
    put_texts(&mut out, 2, meta.env.as_slice())?;
    put_text(&mut out, 3, &meta.cwd)?;
    put_text(&mut out, 4, &meta.user)?;
    Ok(out)
}

#[tactic(auto, using(crate::proofs::PutLemmas::one_field), unfolding(crate::specs::Writing::optional_fields))]
fn put_meta(alloc: Global, out: &mut Vec<u8>, meta: &Option<Meta>) -> Result<(), AllocError>
    ensures ok { OnOk result (out.new.items ≡ out.old.items ++ message (optional_fields 1 (option_map meta_text meta.now))) }
    ensures valid { OnOk result (IfSome meta.now IsMeta) }
{
    match meta {
        Some(meta) => put_message(out, 1, &meta_bytes(alloc, meta)?),
        None => Ok(()),
    }
}

#[tactic(auto, unfolding(crate::specs::Writing::each_fields))]
fn put_mounts(alloc: Global, out: &mut Vec<u8>, mounts: &[Mount]) -> Result<(), AllocError>
    ensures ok { OnOk result (out.new.items ≡ out.old.items ++ message (each_fields 2 (map mount_text mounts.now))) }
    ensures valid { OnOk result (AllByRecursion IsMount mounts.now) }
{
    for mount in mounts {
        put_message(out, 2, &mount_bytes(alloc, mount)?)?;
    }
    Ok(())
}

#[tactic(auto, unfolding(crate::specs::Writing::each_fields))]
fn put_inputs(alloc: Global, out: &mut Vec<u8>, inputs: &[Input]) -> Result<(), AllocError>
    ensures ok { OnOk result (out.new.items ≡ out.old.items ++ message (each_fields 1 (map input_text inputs.now))) }
    ensures valid { OnOk result (AllByRecursion IsInput inputs.now) }
{
    for input in inputs {
        put_message(out, 1, &input_bytes(alloc, input)?)?;
    }
    Ok(())
}

#[tactic(auto, using(crate::proofs::PutLemmas::writes))]
fn exec_bytes(alloc: Global, exec: &ExecOp) -> Result<Vec<u8>, AllocError>
    ensures ok { IfOk result (λ v. v.items ≡ exec_text exec.now) }
    ensures valid { OnOk result (IsExec exec.now) }
{
    let mut out = Vec::new(alloc);
    put_meta(alloc, &mut out, &exec.meta)?;
    put_mounts(alloc, &mut out, exec.mounts.as_slice())?;
    put_int32(&mut out, 3, exec.network)?;
    put_int32(&mut out, 4, exec.security)?;
    Ok(out)
}

/// The body of an exec op: the known fields by rising number, in their shortest spellings, without
/// numbers, bools and strings at their default.
pub fn write_exec(alloc: Global, exec: &ExecOp) -> Result<Vec<u8>, AllocError>
    ensures spelled { IfOk result (λ v. v.items ≡ exec_text exec.now) }
    // As an op's field of this number it is read as the same exec op.
    ensures read { IfOk result (λ v. IsOp (bytes_field 2 v.items) (Kind.Exec exec.now)) }
{
    exec_bytes(alloc, exec)
}

/// An op's bytes: its inputs, and then its stripped bytes.
pub fn write_op(alloc: Global, op: &Op) -> Result<Vec<u8>, AllocError>
    ensures spelled { IfOk result (λ v. v.items ≡ op_text op.now) }
    ensures read { IfOk result (λ v. length v.items ≤ limit → op_at v.items ≡ Ok op.now) }
{
    let mut out = Vec::new(alloc);
    put_inputs(alloc, &mut out, op.inputs())?;
    out.extend_from_slice(op.stripped())?;
    Ok(out)
}

#[tactic(auto, unfolding(crate::specs::Writing::each_fields))]
fn put_entries(out: &mut Vec<u8>, entries: &BodyList) -> Result<(), AllocError>
    ensures ok { OnOk result (out.new.items ≡ out.old.items ++ message (each_fields 1 entries.now)) }
    ensures valid { OnOk result (AllByRecursion IsBody entries.now) }
{
    for place in 0..entries.len() {
        put_message(out, DEF, entries.body(place))?;
    }
    Ok(())
}

/// A definition's bytes: its entries.
pub fn write_definition(alloc: Global, definition: &Definition) -> Result<Vec<u8>, AllocError>
    ensures spelled { IfOk result (λ v. v.items ≡ definition_text definition.now) }
    ensures read { IfOk result (λ v. length v.items ≤ limit → length definition.now.def ≤ most_entries
        → definition_at v.items ≡ Ok definition.now) }
{
    let mut out = Vec::new(alloc);
    put_entries(&mut out, &definition.def)?;
    Ok(out)
}
