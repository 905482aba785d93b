ghost use Rattle.std.specs.Prelude.{◌≡◌};
ghost use Rattle.farmwire.specs.Refusals.{fault_of};
ghost use Rattle.farmwire.specs.declared.refusal.LineFault.TheVariants as line;
ghost use Rattle.farmwire.specs.declared.refusal.SealRefusal.TheVariants as seal;
ghost use Rattle.farmwire.specs.declared.refusal.WriteRefusal.TheVariants as write;

use std::alloc::AllocError;
use thiserror::Error;
use words::ReadRefusal;

/// Why a message is not written.
#[derive(Clone, Copy, Debug, PartialEq, Eq, Error)]
pub enum WriteRefusal {
    /// No message of the protocol is like this: a number is out of its range, or a tenure is not of one SHARED folder.
    #[error("a message that has no line")]
    Unlawful,
    #[error("out of memory")]
    OutOfMemory,
}

impl From<AllocError> for WriteRefusal {
    ghost from_gives = { λ _ e. e ≡ write.OutOfMemory };

    fn from(_error: AllocError) -> WriteRefusal {
        WriteRefusal::OutOfMemory
    }
}

/// Why a message is not sealed.
#[derive(Clone, Copy, Debug, PartialEq, Eq, Error)]
pub enum SealRefusal {
    /// No message of the protocol is like this: a number is out of its range, or a tenure is not of one SHARED folder.
    #[error("a message that has no line")]
    Unlawful,
    /// It stands under the key of another node.
    #[error("a message under a key that isn't here")]
    NoKey,
    #[error("a line of more than 24 MiB")]
    TooLong,
    #[error("out of memory")]
    OutOfMemory,
}

impl From<AllocError> for SealRefusal {
    ghost from_gives = { λ _ e. e ≡ seal.OutOfMemory };

    fn from(_error: AllocError) -> SealRefusal {
        SealRefusal::OutOfMemory
    }
}

/// Why a line is not opened. Of several faults it is the first, in the order in which they stand here.
#[derive(Clone, Copy, Debug, PartialEq, Eq, Error)]
pub enum LineFault {
    /// With its end it has more than 24 MiB.
    #[error("a line of more than 24 MiB")]
    TooLong,
    /// It has neither a dash nor the MAC of its text under the key of the node that its second word names, or this key isn't here.
    #[error("not the MAC of the line's text")]
    BadMac,
    /// Its text spells no message, or one that stands under another key.
    #[error("not the text of a message")]
    BadForm,
    #[error("out of memory")]
    OutOfMemory,
}

impl From<AllocError> for LineFault {
    ghost from_gives = { λ _ e. e ≡ line.OutOfMemory };

    fn from(_error: AllocError) -> LineFault {
        LineFault::OutOfMemory
    }
}

impl From<ReadRefusal> for LineFault {
    ghost from_gives = { λ d e. e ≡ fault_of d };

    fn from(refusal: ReadRefusal) -> LineFault {
        match refusal {
            ReadRefusal::BadForm => LineFault::BadForm,
            ReadRefusal::OutOfMemory => LineFault::OutOfMemory,
        }
    }
}
