ghost use Rattle.std.specs.Prelude.{◌≡◌};
ghost use Rattle.words.specs.Refusals.{hex_refusal, wants_refusal};
ghost use Rattle.words.specs.declared.refusal.ReadRefusal.TheVariants as read;

use farm_base::WantsRefusal;
use hex::FromHexError;
use std::alloc::{AllocError, AllocFailed};
use thiserror::Error;

/// Why a text is not read.
#[derive(Clone, Copy, Debug, PartialEq, Eq, Error)]
pub enum ReadRefusal {
    #[error("not a text of this form")]
    BadForm,
    #[error("out of memory")]
    OutOfMemory,
}

impl From<AllocError> for ReadRefusal {
    ghost from_gives = { λ _ e. e ≡ read.OutOfMemory };

    fn from(_error: AllocError) -> ReadRefusal {
        ReadRefusal::OutOfMemory
    }
}

impl<T: Drop> From<AllocFailed<T>> for ReadRefusal {
    ghost from_gives = { λ _ e. e ≡ read.OutOfMemory };

    fn from(_error: AllocFailed<T>) -> ReadRefusal {
        ReadRefusal::OutOfMemory
    }
}

impl From<FromHexError> for ReadRefusal {
    ghost from_gives = { λ d e. e ≡ hex_refusal d };

    fn from(error: FromHexError) -> ReadRefusal {
        match error {
            FromHexError::OutOfMemory => ReadRefusal::OutOfMemory,
            FromHexError::InvalidHexCharacter { .. }
            | FromHexError::OddLength
            | FromHexError::InvalidStringLength => ReadRefusal::BadForm,
        }
    }
}

impl From<WantsRefusal> for ReadRefusal {
    ghost from_gives = { λ d e. e ≡ wants_refusal d };

    fn from(error: WantsRefusal) -> ReadRefusal {
        match error {
            WantsRefusal::OutOfMemory => ReadRefusal::OutOfMemory,
            WantsRefusal::TooManyWants | WantsRefusal::SameFolderTwice => ReadRefusal::BadForm,
        }
    }
}
