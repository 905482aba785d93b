ghost use Rattle.std.specs.Prelude.{◌≡◌};
ghost use Rattle.executions.specs.declared.refusal.SharedRefusal.TheVariants as shared;
ghost use Rattle.executions.specs.Refusals.{after_edits};

use folders::EditRefusal;
use std::alloc::AllocError;
use std::fmt;
use thiserror::Error;

/// Why a call on the SHARED folders that a node has open was refused.
#[derive(Clone, Copy, Debug, PartialEq, Eq, Error)]
pub enum SharedRefusal {
    Twice,
    /// The folder would have more than 16 MiB of folder bytes.
    TooLarge,
    OutOfMemory,
    NotOpen,
    /// The content that the tenure began from isn't folder bytes.
    BadContents,
}

impl fmt::Display for SharedRefusal {
    fn fmt<W: fmt::Write>(&self, f: &mut fmt::Formatter<W>) -> fmt::Result {
        f.write_str(match self {
            SharedRefusal::Twice => "this ticket already changed this folder",
            SharedRefusal::TooLarge => "more than 16 MiB",
            SharedRefusal::OutOfMemory => "out of memory",
            SharedRefusal::NotOpen => "the folder is not open",
            SharedRefusal::BadContents => "a content that is not folder bytes",
        })
    }
}

impl From<AllocError> for SharedRefusal {
    ghost from_gives = { λ _ e. e ≡ shared.OutOfMemory };

    fn from(_error: AllocError) -> SharedRefusal {
        SharedRefusal::OutOfMemory
    }
}

impl From<EditRefusal> for SharedRefusal {
    ghost from_gives = { λ refusal e. e ≡ after_edits refusal };

    fn from(refusal: EditRefusal) -> SharedRefusal {
        match refusal {
            EditRefusal::TooLarge => SharedRefusal::TooLarge,
            EditRefusal::OutOfMemory => SharedRefusal::OutOfMemory,
        }
    }
}
