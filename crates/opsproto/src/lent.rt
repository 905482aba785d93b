//! What is read of a message without a copy: its strings and stripped bytes are lent.
ghost use Rattle.std.specs.Prelude.{◌≡◌, IfOk};
ghost use Rattle.std.specs.Str.{IsUtf8};

use super::input::Input;
use super::op::Kind;
use super::owning::own_inputs;
use names::Items;
use std::alloc::{AllocError, Global};
use std::marker::Model;

/// A string as it is read, which may not be UTF-8. A contract sees its bytes.
#[derive(Drop)]
pub(crate) struct RawText<'a> {
    bytes: &'a [u8],
}

impl<'a> Model for RawText<'a> {
    ghost use Rattle.std.specs.Prelude.{ℕ, List};

    ghost Value = { List ℕ };

    ghost view = { λ t. t.bytes.now };
}

impl<'a> RawText<'a> {
    /// The string of these bytes.
    pub(crate) fn new(bytes: &'a [u8]) -> Self
        ensures { result ≡ bytes.now }
    {
        RawText { bytes }
    }

    /// Its bytes.
    pub(crate) fn as_slice(&self) -> &'a [u8]
        ensures { result.now ≡ self.now }
    {
        self.bytes
    }
}

/// A text that stands in the bytes of a message. A contract sees its bytes.
#[derive(Drop)]
pub struct LentText<'a> {
    text: &'a str,
}

impl<'a> Model for LentText<'a> {
    ghost use Rattle.std.specs.Prelude.{ℕ, List};

    ghost Value = { List ℕ };

    ghost view = { λ t. t.text.now };
}

impl<'a> LentText<'a> {
    /// The text of a string.
    pub(crate) fn new(text: &'a str) -> Self
        ensures { result ≡ text.now }
    {
        LentText { text }
    }

    /// The text itself.
    pub fn as_str(&self) -> &'a str
        ensures value { result.now ≡ self.now }
        ensures text { IsUtf8 self.now }
    {
        self.text
    }
}

/// An op whose texts and stripped bytes stand in the bytes that spell it. A contract sees the op.
pub struct LentOp<'a> {
    inputs: Items<Input<LentText<'a>>>,
    kind: Kind<LentText<'a>>,
    stripped: &'a [u8],
}

// By hand, so that letting go of one is one step of a proof.
impl<'a> Drop for LentOp<'a> {
    fn drop(self) {
        let Self {
            inputs: _,
            kind: _,
            stripped: _,
        } = self;
    }
}

impl<'a> Model for LentOp<'a> {
    ghost use Rattle.opsproto.specs.Ops.{OpParts, IsOp};

    ghost Value = { OpParts };

    ghost view = { λ o. record { inputs = o.inputs; kind = o.kind; stripped = o.stripped.now } };

    ghost invariant = { λ o. IsOp o.stripped.now o.kind };
}

impl<'a> LentOp<'a> {
    ghost use Rattle.opsproto.specs.Ops.{IsOp};

    pub(crate) fn new(
        inputs: Items<Input<LentText<'a>>>,
        kind: Kind<LentText<'a>>,
        stripped: &'a [u8],
    ) -> Self
        requires { IsOp stripped.now kind }
        ensures { result ≡ record { inputs = inputs.entry; kind = kind.entry; stripped = stripped.now } }
    {
        LentOp {
            inputs,
            kind,
            stripped,
        }
    }

    /// The outputs of other ops that it takes, in order.
    pub fn inputs(&self) -> &[Input<LentText<'a>>]
        ensures { result.now ≡ self.now.inputs }
    {
        self.inputs.as_slice()
    }

    /// A copy of the outputs of other ops that it takes.
    pub fn own_inputs(&self, alloc: Global) -> Result<Items<Input>, AllocError>
        ensures { IfOk result (λ inputs. inputs ≡ self.now.inputs) }
    {
        own_inputs(alloc, self.inputs.as_slice())
    }

    /// What it does: runs a command, or something that is not read further.
    pub fn kind(&self) -> &Kind<LentText<'a>>
        ensures { result.now ≡ self.now.kind }
    {
        &self.kind
    }

    /// The op's bytes without the fields of the inputs' number.
    pub fn stripped(&self) -> &'a [u8]
        ensures value { result.now ≡ self.now.stripped }
        ensures kind { IsOp result.now self.now.kind }
    {
        self.stripped
    }
}
