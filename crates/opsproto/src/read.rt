ghost use Rattle.std.specs.Prelude.{◌≡◌, ℕ, List, Ok};
ghost use Rattle.opsproto.specs.Refusals.{Gives};
ghost use Rattle.opsproto.specs.Ops.{kind_checked, kind_read, op_at, op_checked, op_of};
ghost use Rattle.opsproto.specs.RawOps.{parts};
ghost use Rattle.opsproto.specs.Mounts.{mounts_read};
ghost use Rattle.opsproto.specs.Definitions.{definition_at};

use super::definition::Definition;
use super::exec::Mount;
use super::fields::fields;
use super::lent::{LentOp, LentText, RawText};
use super::op::{Kind, Op};
use super::owning::{own_kind, own_mounts, own_op};
use super::raw::{RawOp, kind_of, mounts_in, raw_op};
use super::refusal::OpRefusal;
use super::texts::{exec_checked, inputs_checked, mounts_checked};
use bumpalo::Bump;
use names::Items;
use std::alloc::Global;

/// The greatest size of a definition or an op: 16 MiB.
pub const LIMIT: usize = 16 << 20;

/// The greatest number of entries of a definition.
pub const ENTRIES: usize = 65_536;

/// The field number of a definition's entries.
pub(crate) const DEF: u32 = 1;

fn kind_checked<'a>(alloc: Global, kind: Kind<RawText<'a>>) -> Result<Kind<LentText<'a>>, OpRefusal>
    ensures { Gives (λ v. v) result (kind_checked kind.entry) }
{
    match kind {
        Kind::Exec(exec) => Ok(Kind::Exec(exec_checked(alloc, exec)?)),
        Kind::Opaque(number) => Ok(Kind::Opaque(number)),
        Kind::Bare => Ok(Kind::Bare),
    }
}

/// An op of parts that some bytes spell, once its texts are checked.
#[tactic(auto, unfolding(crate::specs::Ops::op_checked))]
fn op_checked<'a>(alloc: Global, raw: RawOp<'a>) -> Result<LentOp<'a>, OpRefusal>
    requires { (text : List ℕ) × (op_of text ≡ Ok (parts raw)) }
    ensures { Gives (λ op. op) result (op_checked (parts raw.entry)) }
{
    let inputs = inputs_checked(alloc, raw.inputs)?;
    let kind = kind_checked(alloc, raw.kind)?;
    Ok(LentOp::new(inputs, kind, raw.stripped))
}

/// Reads an op, lent from its bytes. Its size is checked first, then the forms of all its messages, then its texts. What
/// stands in several parts is joined in the arena.
#[tactic(auto, unfolding(crate::specs::Ops::op_at, crate::specs::Ops::op_read))]
pub fn read_lent_op<'a>(
    alloc: Global,
    arena: &'a Bump,
    bytes: &'a [u8],
) -> Result<LentOp<'a>, OpRefusal>
    ensures { Gives (λ op. op) result (op_at bytes.now) }
{
    if bytes.len() > LIMIT {
        return Err(OpRefusal::TooLarge);
    }
    let raw = raw_op(alloc, arena, bytes)?;
    op_checked(alloc, raw)
}

/// Reads an op. Its size is checked first, then the forms of all its messages, then its texts.
pub fn read_op(alloc: Global, bytes: &[u8]) -> Result<Op, OpRefusal>
    ensures { Gives (λ op. op) result (op_at bytes.now) }
{
    let arena = Bump::new(alloc);
    let op = read_lent_op(alloc, &arena, bytes)?;
    Ok(own_op(alloc, &op)?)
}

/// Reads the kind of an op alone, lent from its bytes.
fn lent_kind<'a>(
    alloc: Global,
    arena: &'a Bump,
    bytes: &'a [u8],
) -> Result<Kind<LentText<'a>>, OpRefusal>
    ensures { Gives (λ kind. kind) result (kind_read bytes.now) }
{
    let fields = fields(alloc, bytes)?;
    let raw = kind_of(alloc, arena, &fields)?;
    kind_checked(alloc, raw)
}

/// Reads the kind of an op alone.
pub(crate) fn read_kind(alloc: Global, bytes: &[u8]) -> Result<Kind, OpRefusal>
    ensures { Gives (λ kind. kind) result (kind_read bytes.now) }
{
    let arena = Bump::new(alloc);
    let kind = lent_kind(alloc, &arena, bytes)?;
    Ok(own_kind(alloc, &kind)?)
}

/// Reads the mounts of an op alone, lent from its bytes.
fn lent_mounts<'a>(
    alloc: Global,
    arena: &'a Bump,
    bytes: &'a [u8],
) -> Result<Items<Mount<LentText<'a>>>, OpRefusal>
    ensures { Gives (λ mounts. mounts) result (mounts_read bytes.now) }
{
    let fields = fields(alloc, bytes)?;
    let raw = mounts_in(alloc, arena, &fields)?;
    mounts_checked(alloc, raw)
}

/// Reads the mounts of an op alone.
pub(crate) fn read_mounts(alloc: Global, bytes: &[u8]) -> Result<Items<Mount>, OpRefusal>
    ensures { Gives (λ mounts. mounts) result (mounts_read bytes.now) }
{
    let arena = Bump::new(alloc);
    let mounts = lent_mounts(alloc, &arena, bytes)?;
    Ok(own_mounts(alloc, mounts.as_slice())?)
}

/// Reads a definition. Its size is checked first, then its form, then the number of its entries. The definition keeps the
/// bytes, so only the list of the places of its entries takes memory.
#[tactic(auto, using(crate::proofs::ReadingLemmas::by_bodies))]
pub fn read_definition(alloc: Global, bytes: Vec<u8>) -> Result<Definition, OpRefusal>
    ensures { Gives (λ definition. definition) result (definition_at bytes.items) }
{
    if bytes.len() > LIMIT {
        return Err(OpRefusal::TooLarge);
    }
    let Some(def) = protowire::take_bodies(alloc, bytes, DEF, ENTRIES)? else {
        return Err(OpRefusal::TooLarge);
    };
    Ok(Definition { def })
}
