ghost use Rattle.std.specs.Prelude.{◌≡◌, IfOk};

use super::exec::{ExecOp, Mount};
use super::input::Input;
use super::raw::EXEC;
use super::write::write_exec;
use names::{Copied, Items, Text};
use std::alloc::{AllocError, Global};
use std::marker::Model;

/// What an op does.
#[derive(Drop)]
pub enum Kind<T = Text> {
    Exec(ExecOp<T>),
    /// A member of the oneof that nothing reads, by its field number.
    Opaque(u32),
    /// None of the oneof's members.
    Bare,
}

/// A vertex of a build. Its kind is the one that its stripped bytes spell.
pub struct Op {
    inputs: Items<Input>,
    kind: Kind,
    stripped: Items<u8>,
}

// By hand, so that letting go of one is one step of a proof.
impl Drop for Op {
    fn drop(self) {
        let Self {
            inputs: _,
            kind: _,
            stripped: _,
        } = self;
    }
}

impl Model for Op {
    ghost use Rattle.opsproto.specs.Ops.{OpParts, IsOp};

    ghost Value = { OpParts };

    ghost view = { λ o. record { inputs = o.inputs; kind = o.kind; stripped = o.stripped } };

    ghost invariant = { λ o. IsOp o.stripped o.kind };
}

impl Op {
    ghost use Rattle.opsproto.specs.Ops.{IsOp};
    ghost use Rattle.opsproto.specs.Writing.{exec_text};
    ghost use Rattle.protowire.specs.Writing.{bytes_field};

    pub(crate) fn new(inputs: Items<Input>, kind: Kind, stripped: Items<u8>) -> Self
        requires { IsOp stripped kind }
        ensures { result ≡ record { inputs = inputs; kind = kind; stripped = stripped } }
    {
        Op {
            inputs,
            kind,
            stripped,
        }
    }

    /// An op that runs a command. Its stripped bytes are the exec op alone.
    pub fn exec(alloc: Global, inputs: Vec<Input>, exec: &ExecOp) -> Result<Self, AllocError>
        ensures inputs { IfOk result (λ op. op.inputs ≡ inputs.items) }
        ensures kind { IfOk result (λ op. op.kind ≡ Kind.Exec exec.now) }
        ensures stripped { IfOk result (λ op. op.stripped ≡ bytes_field 2 (exec_text exec.now)) }
    {
        let body = write_exec(alloc, exec)?;
        let mut stripped = Vec::new(alloc);
        protowire::put_message(&mut stripped, EXEC, &body)?;
        let kind = Kind::Exec(exec.copy(alloc)?);
        Ok(Op::new(Items::new(inputs), kind, Items::new(stripped)))
    }

    /// The outputs of other ops that it takes, in order.
    pub fn inputs(&self) -> &[Input]
        ensures { result.now ≡ self.now.inputs }
    {
        self.inputs.as_slice()
    }

    /// What it does: runs a command, or something that is not read further.
    pub fn kind(&self) -> &Kind
        ensures { result.now ≡ self.now.kind }
    {
        &self.kind
    }

    /// The op's bytes without the fields of the inputs' number.
    pub fn stripped(&self) -> &[u8]
        ensures value { result.now ≡ self.now.stripped }
        ensures kind { IsOp result.now self.now.kind }
    {
        self.stripped.as_slice()
    }
}

impl Kind {
    ghost use Rattle.opsproto.specs.Mounts.{mounts_in};

    /// The mounts of a command; nothing else has any.
    pub fn mounts(&self) -> &[Mount]
        ensures { result.now ≡ mounts_in self.now }
    {
        match self {
            Kind::Exec(exec) => exec.mounts.as_slice(),
            Kind::Opaque(_) | Kind::Bare => &[],
        }
    }
}

impl Copied for Kind {
    fn copy(&self, alloc: Global) -> Result<Self, AllocError> {
        match self {
            Kind::Exec(exec) => Ok(Kind::Exec(exec.copy(alloc)?)),
            Kind::Opaque(number) => Ok(Kind::Opaque(*number)),
            Kind::Bare => Ok(Kind::Bare),
        }
    }
}

pub(crate) fn copied_bytes(alloc: Global, bytes: &Items<u8>) -> Result<Items<u8>, AllocError>
    ensures { IfOk result (λ copy. copy ≡ bytes.now) }
{
    Ok(Items::new(Vec::from_slice(alloc, bytes.as_slice())?))
}

impl Copied for Op {
    fn copy(&self, alloc: Global) -> Result<Self, AllocError> {
        let inputs = self.inputs.copy(alloc)?;
        let kind = self.kind.copy(alloc)?;
        let stripped = copied_bytes(alloc, &self.stripped)?;
        Ok(Op {
            inputs,
            kind,
            stripped,
        })
    }
}
