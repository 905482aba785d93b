ghost use Rattle.std.specs.Prelude.{◌≡◌, IfOk, Ok};
ghost use Rattle.opsproto.specs.Ops.{OpParts, op_at};
ghost use Rattle.names.specs.Digests.{IsDigest};
ghost use Rattle.vertices.specs.Outcomes.{Meets};
ghost use Rattle.vertices.specs.Loading.{ReadCheck, digest_in};

use super::refusal::LoadRefusal;
use bumpalo::Bump;
use names::{Digest, Items};
use opsproto::{Input, LentOp, OpRefusal, read_lent_op};
use sha2::{Digest as Hasher, Sha256};
use std::alloc::Global;

/// The op of the entry at a place, lent from its bytes.
pub(crate) fn read_entry<'a>(
    alloc: Global,
    arena: &'a Bump,
    place: usize,
    bytes: &'a [u8],
) -> Result<LentOp<'a>, LoadRefusal>
    ensures check { Meets (ReadCheck place bytes.now) result }
    ensures op { IfOk result (λ op. op_at bytes.now ≡ Ok op) }
{
    match read_lent_op(alloc, arena, bytes) {
        Ok(op) => Ok(op),
        Err(OpRefusal::OutOfMemory) => Err(LoadRefusal::OutOfMemory),
        Err(_) => Err(LoadRefusal::BadOp(place)),
    }
}

/// The inputs of the op of the entry at a place.
pub(crate) fn read_inputs(
    alloc: Global,
    place: usize,
    bytes: &[u8],
) -> Result<Items<Input>, LoadRefusal>
    ensures check { Meets (ReadCheck place bytes.now) result }
    ensures inputs { IfOk result (λ inputs. (op : OpParts) × (op_at bytes.now ≡ Ok op) × (inputs ≡ op.inputs)) }
{
    let arena = Bump::new(alloc);
    let op = read_entry(alloc, &arena, place, bytes)?;
    Ok(op.own_inputs(alloc)?)
}

/// The SHA-256 of an entry's bytes.
pub(crate) fn digest_of(bytes: &[u8]) -> Digest
    ensures value { result ≡ digest_in bytes.now }
    ensures digest { IsDigest result }
{
    let digest = Digest(Sha256::digest(bytes));
    prove!(digest.bytes().len() == 32);
    digest
}

/// The SHA-256 of an op's stripped bytes. Without inputs these are the bytes of its entry, whose digest is there already.
#[tactic(auto, using(opsproto::proofs::OpLemmas::stripped_whole))]
pub(crate) fn stripped_digest(entry: &[u8], digest: Digest, op: &LentOp<'_>) -> Digest
    requires op { op_at entry.now ≡ Ok op.now }
    requires digest { digest ≡ digest_in entry.now }
    ensures { result ≡ digest_in op.now.stripped }
{
    let stripped = op.stripped();
    if stripped.len() == entry.len() {
        return digest;
    }
    digest_of(stripped)
}
