//! What the bytes of an op mean, before its texts are checked.

ghost use Rattle.std.specs.Prelude.{◌≡◌, ℕ, List, Some, IfOk, IfSome, Ok, length};
ghost use Rattle.protowire.specs.Fields.{message as joined};
ghost use Rattle.protowire.specs.Seen.{entries, spelled_all, StandInRow};
ghost use Rattle.protowire.specs.Reading.{Gives};
ghost use Rattle.protowire.specs.Lookups.{last_member};
ghost use Rattle.opsproto.specs.Ops.{members, kind_of, kept, stripped_of, op_of, StandsAt};
ghost use Rattle.opsproto.specs.RawOps.{parts, parts_in};
ghost use Rattle.opsproto.specs.Mounts.{member_mounts_of};

use super::exec::Mount;
use super::input::Input;
use super::lent::RawText;
use super::op::Kind;
use super::reading::{INPUTS, exec_mounts_of, exec_of, inputs_of};
use super::whole::whole_member;
use bumpalo::Bump;
use names::Items;
use protowire::{Field, Span, WireRefusal};
use std::alloc::{AllocError, Global};

/// The field number of an exec op.
pub(crate) const EXEC: u32 = 2;

/// The field numbers of what an op may be: an exec, source, file, build, merge or diff op.
const MEMBERS: [u32; 6] = [EXEC, 3, 4, 5, 6, 7];

/// An op whose texts may not be UTF-8.
#[derive(Drop)]
pub(crate) struct RawOp<'a> {
    pub inputs: Items<Input<RawText<'a>>>,
    pub kind: Kind<RawText<'a>>,
    pub stripped: &'a [u8],
}

fn member_kind<'a>(
    alloc: Global,
    arena: &'a Bump,
    number: u32,
    body: &'a [u8],
) -> Result<Kind<RawText<'a>>, WireRefusal>
    ensures { Gives (λ v. v) result (kind_of (Some (number, body.now))) }
{
    match number {
        EXEC => Ok(Kind::Exec(exec_of(alloc, arena, body)?)),
        _ => Ok(Kind::Opaque(number)),
    }
}

/// What an op does.
pub(crate) fn kind_of<'a>(
    alloc: Global,
    arena: &'a Bump,
    fields: &[Field<'a>],
) -> Result<Kind<RawText<'a>>, WireRefusal>
    ensures { Gives (λ v. v) result (kind_of (last_member members (entries fields.now))) }
{
    match whole_member(alloc, arena, fields, &MEMBERS)? {
        Some((number, body)) => member_kind(alloc, arena, number, body),
        None => Ok(Kind::Bare),
    }
}

fn member_mounts<'a>(
    alloc: Global,
    arena: &'a Bump,
    number: u32,
    body: &'a [u8],
) -> Result<Items<Mount<RawText<'a>>>, WireRefusal>
    ensures { Gives (λ v. v) result (member_mounts_of (Some (number, body.now))) }
{
    match number {
        EXEC => exec_mounts_of(alloc, arena, body),
        _ => Ok(Items::new(Vec::new(alloc))),
    }
}

/// The mounts of an op.
pub(crate) fn mounts_in<'a>(
    alloc: Global,
    arena: &'a Bump,
    fields: &[Field<'a>],
) -> Result<Items<Mount<RawText<'a>>>, WireRefusal>
    ensures { Gives (λ v. v) result (member_mounts_of (last_member members (entries fields.now))) }
{
    match whole_member(alloc, arena, fields, &MEMBERS)? {
        Some((number, body)) => member_mounts(alloc, arena, number, body),
        None => Ok(Items::new(Vec::new(alloc))),
    }
}

/// The bytes of all fields but the inputs, copied.
fn copied(alloc: Global, message: &[u8], fields: &[Field<'_>]) -> Result<Vec<u8>, AllocError>
    requires { StandInRow 0 fields.now (length message.now) }
    ensures { IfOk result (λ bytes. bytes.items ≡ joined (kept (spelled_all message.now fields.now))) }
{
    let mut bytes = Vec::new(alloc);
    for field in fields {
        if field.number != INPUTS {
            bytes.extend_from_slice(&message[field.start..field.end])?;
        }
    }
    Ok(bytes)
}

/// The bytes of all fields but the inputs. Where they stand in one piece they are lent.
fn stripped<'a>(
    alloc: Global,
    arena: &'a Bump,
    message: &'a [u8],
    fields: &[Field<'_>],
) -> Result<&'a [u8], AllocError>
    requires { StandInRow 0 fields.now (length message.now) }
    ensures { IfOk result (λ bytes. bytes.now ≡ joined (kept (spelled_all message.now fields.now))) }
{
    if let Some(place) = one_piece(fields) {
        return Ok(&message[place.start..place.end]);
    }
    let bytes = copied(alloc, message, fields)?;
    Ok(arena.try_alloc_slice_copy(&bytes)?)
}

/// Where all fields but the inputs stand, if they stand in one piece.
fn one_piece(fields: &[Field<'_>]) -> Option<Span>
    ensures { IfSome result (λ place. (message : List ℕ) → StandInRow 0 fields.now (length message)
        → StandsAt message (joined (kept (spelled_all message fields.now))) place.start place.end) }
{
    let mut start = 0;
    let mut end = 0;
    for field in fields {
        if field.number == INPUTS {
            continue;
        }
        if start == end {
            start = field.start;
        } else if field.start != end {
            return None;
        }
        end = field.end;
    }
    Some(Span { start, end })
}

/// What an op's fields mean.
fn parts_of<'a>(
    alloc: Global,
    arena: &'a Bump,
    message: &'a [u8],
    fields: &[Field<'a>],
) -> Result<RawOp<'a>, WireRefusal>
    requires { StandInRow 0 fields.now (length message.now) }
    ensures { Gives parts result (parts_in (entries fields.now) (joined (kept (spelled_all message.now fields.now)))) }
{
    let inputs = inputs_of(alloc, fields)?;
    let kind = kind_of(alloc, arena, fields)?;
    let stripped = stripped(alloc, arena, message, fields)?;
    Ok(RawOp {
        inputs,
        kind,
        stripped,
    })
}

#[tactic(auto, using(crate::proofs::ReadingLemmas::says_spelled), unfolding(crate::specs::Ops::op_of))]
pub(crate) fn raw_op<'a>(
    alloc: Global,
    arena: &'a Bump,
    message: &'a [u8],
) -> Result<RawOp<'a>, WireRefusal>
    ensures { Gives parts result (op_of message.now) }
{
    let fields = protowire::fields(alloc, message)?;
    parts_of(alloc, arena, message, &fields)
}

/// The stripped bytes alone.
#[tactic(auto, using(crate::proofs::ReadingLemmas::says_spelled))]
pub(crate) fn stripped_of(alloc: Global, message: &[u8]) -> Result<Vec<u8>, WireRefusal>
    ensures { Gives (λ v. v.items) result (stripped_of message.now) }
{
    let fields = protowire::fields(alloc, message)?;
    Ok(copied(alloc, message, &fields)?)
}

/// Where the stripped bytes stand in an op's bytes, if they stand in one piece.
#[tactic(auto, using(crate::proofs::ReadingLemmas::says_spelled))]
pub(crate) fn stripped_place(alloc: Global, message: &[u8]) -> Result<Option<Span>, WireRefusal>
    ensures { IfOk result (λ found. IfSome found (λ place. (stripped : List ℕ) → stripped_of message.now ≡ Ok stripped
        → StandsAt message.now stripped place.start place.end)) }
{
    let fields = protowire::fields(alloc, message)?;
    Ok(one_piece(&fields))
}
