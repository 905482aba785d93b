ghost use Rattle.std.specs.Prelude.{◌≡◌, IfOk, IfSome, IsOk, Ok};
ghost use Rattle.opsproto.specs.Ops.{op_at, op_in, StandsAt};
ghost use Rattle.opsproto.specs.Mounts.{mounts_in};

use super::exec::Mount;
use super::op::{Kind, Op};
use super::raw::{self, stripped_of};
use super::read::{read_kind, read_mounts, read_op};
use names::Items;
use protowire::Span;
use std::alloc::{AllocError, Global};
use std::marker::Model;

/// An op as the bytes that spell it. A contract sees the op.
#[derive(Drop)]
pub struct WireOp<'a> {
    bytes: &'a [u8],
}

impl<'a> Model for WireOp<'a> {
    ghost use Rattle.std.specs.Prelude.{IsOk};
    ghost use Rattle.opsproto.specs.Ops.{OpParts, op_at, op_in};

    ghost Value = { OpParts };

    ghost view = { λ o. op_in o.bytes.now };

    ghost invariant = { λ o. IsOk (op_at o.bytes.now) };
}

impl<'a> WireOp<'a> {
    /// The op that these bytes spell, as the caller has checked.
    pub fn new(bytes: &'a [u8]) -> Self
        requires { IsOk (op_at bytes.now) }
        ensures { op_at bytes.now ≡ Ok result }
    {
        WireOp { bytes }
    }

    /// Its parts.
    pub fn read(&self, alloc: Global) -> Result<Op, AllocError>
        ensures { IfOk result (λ op. op ≡ self.now) }
    {
        // These bytes have no fault, so only memory can run out.
        read_op(alloc, self.bytes).map_err(|_| AllocError)
    }

    /// What it does, without a copy of its stripped bytes.
    pub fn kind(&self, alloc: Global) -> Result<Kind, AllocError>
        ensures { IfOk result (λ kind. kind ≡ self.now.kind) }
    {
        match read_kind(alloc, self.bytes) {
            Ok(kind) => Ok(kind),
            // These bytes have no fault, so only memory can run out.
            Err(_) => Err(AllocError),
        }
    }

    /// Its mounts alone, without a copy of its words.
    pub fn mounts(&self, alloc: Global) -> Result<Items<Mount>, AllocError>
        ensures { IfOk result (λ mounts. mounts ≡ mounts_in self.now.kind) }
    {
        match read_mounts(alloc, self.bytes) {
            Ok(mounts) => Ok(mounts),
            // These bytes have no fault, so only memory can run out.
            Err(_) => Err(AllocError),
        }
    }

    /// Its bytes without the fields of the inputs' number.
    pub fn stripped(&self, alloc: Global) -> Result<Vec<u8>, AllocError>
        ensures { IfOk result (λ bytes. bytes.items ≡ self.now.stripped) }
    {
        match stripped_of(alloc, self.bytes) {
            Ok(bytes) => Ok(bytes),
            Err(_) => Err(AllocError),
        }
    }
}

/// Where the stripped bytes of an op stand in the op's bytes, if they stand in one piece.
pub fn stripped_place(alloc: Global, bytes: &[u8]) -> Result<Option<Span>, AllocError>
    requires { IsOk (op_at bytes.now) }
    ensures { IfOk result (λ found. IfSome found (λ place. StandsAt bytes.now (op_in bytes.now).stripped place.start place.end)) }
{
    match raw::stripped_place(alloc, bytes) {
        Ok(found) => Ok(found),
        // These bytes have no fault, so only memory can run out.
        Err(_) => Err(AllocError),
    }
}
