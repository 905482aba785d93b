ghost use Rattle.std.specs.Prelude.{◌≡◌};
ghost use Rattle.folders.specs.declared.refusal.FolderRefusal.TheVariants as folder;
ghost use Rattle.folders.specs.declared.refusal.EditRefusal.TheVariants as edit;

use std::alloc::{AllocError, AllocFailed};
use std::fmt;
use thiserror::Error;

/// Why bytes are not those of a folder.
#[derive(Clone, Copy, Debug, PartialEq, Eq, Error)]
pub enum FolderRefusal {
    /// The bytes end inside a file.
    Truncated,
    /// A path that isn't above the one before it.
    PathOrder,
    /// A path that isn't UTF-8.
    NotUtf8,
    /// More than 16 MiB.
    TooLarge,
    OutOfMemory,
}

impl fmt::Display for FolderRefusal {
    fn fmt<W: fmt::Write>(&self, f: &mut fmt::Formatter<W>) -> fmt::Result {
        f.write_str(match self {
            FolderRefusal::Truncated => "the bytes end inside a file",
            FolderRefusal::PathOrder => "a path out of order",
            FolderRefusal::NotUtf8 => "a path that is not UTF-8",
            FolderRefusal::TooLarge => "more than 16 MiB",
            FolderRefusal::OutOfMemory => "out of memory",
        })
    }
}

impl From<AllocError> for FolderRefusal {
    ghost from_gives = { λ _ e. e ≡ folder.OutOfMemory };

    fn from(_error: AllocError) -> FolderRefusal {
        FolderRefusal::OutOfMemory
    }
}

impl<T: Drop> From<AllocFailed<T>> for FolderRefusal {
    ghost from_gives = { λ _ e. e ≡ folder.OutOfMemory };

    fn from(_error: AllocFailed<T>) -> FolderRefusal {
        FolderRefusal::OutOfMemory
    }
}

/// Why edits weren't made.
#[derive(Clone, Copy, Debug, PartialEq, Eq, Error)]
pub enum EditRefusal {
    /// The folder would have more than 16 MiB of folder bytes.
    #[error("more than 16 MiB")]
    TooLarge,
    #[error("out of memory")]
    OutOfMemory,
}

impl From<AllocError> for EditRefusal {
    ghost from_gives = { λ _ e. e ≡ edit.OutOfMemory };

    fn from(_error: AllocError) -> EditRefusal {
        EditRefusal::OutOfMemory
    }
}
