ghost use Rattle.std.specs.Prelude.{◌≡◌};
ghost use Rattle.names.specs.declared.refusal.FolderRefusal.TheVariants as folder;
ghost use Rattle.names.specs.declared.refusal.SlotRefusal.TheVariants as slot;

use std::alloc::{AllocError, AllocFailed};
use thiserror::Error;

/// Why a text is not taken as that of a folder.
#[derive(Clone, Copy, Debug, PartialEq, Eq, Error)]
pub enum FolderRefusal {
    #[error("not the text of a folder")]
    BadFolder,
    #[error("out of memory")]
    OutOfMemory,
}

impl From<AllocError> for FolderRefusal {
    ghost from_gives = { λ _ e. e ≡ folder.OutOfMemory };

    fn from(_error: AllocError) -> FolderRefusal {
        FolderRefusal::OutOfMemory
    }
}

impl<T: Drop> From<AllocFailed<T>> for FolderRefusal {
    ghost from_gives = { λ _ e. e ≡ folder.OutOfMemory };

    fn from(_error: AllocFailed<T>) -> FolderRefusal {
        FolderRefusal::OutOfMemory
    }
}

/// Why a text is not taken as that of a slot.
#[derive(Clone, Copy, Debug, PartialEq, Eq, Error)]
pub enum SlotRefusal {
    #[error("not the text of a slot")]
    BadSlot,
    #[error("out of memory")]
    OutOfMemory,
}
