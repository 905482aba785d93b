ghost use Rattle.std.specs.Prelude.{◌≡◌};
ghost use Rattle.vertices.specs.declared.refusal.LoadRefusal.TheVariants as load;

use std::alloc::{AllocError, AllocFailed};
use std::fmt;
use thiserror::Error;

/// Why a definition is not a graph. The numbers are places of its entries, from 0.
#[derive(Clone, Copy, Debug, PartialEq, Eq, Error)]
pub enum LoadRefusal {
    EmptyDefinition,
    BadOp(usize),
    NoResult,
    BadInputDigest(usize),
    MissingInput(usize),
    NegativeIndex(usize),
    NoOp(usize),
    NoMeta(usize),
    NoArgs(usize),
    NoMounts(usize),
    NoRoot(usize),
    BadMountInput(usize),
    NoCacheOpt(usize),
    UnknownSharing(usize, i32),
    TooManyCacheMounts(usize),
    Cycle,
    OutOfMemory,
}

// By hand: written by an attribute for each case, the text takes longer to prove.
impl LoadRefusal {
    /// The place that it names, if it names one.
    fn place(self) -> Option<usize> {
        match self {
            LoadRefusal::BadOp(place)
            | LoadRefusal::BadInputDigest(place)
            | LoadRefusal::MissingInput(place)
            | LoadRefusal::NegativeIndex(place)
            | LoadRefusal::NoOp(place)
            | LoadRefusal::NoMeta(place)
            | LoadRefusal::NoArgs(place)
            | LoadRefusal::NoMounts(place)
            | LoadRefusal::NoRoot(place)
            | LoadRefusal::BadMountInput(place)
            | LoadRefusal::NoCacheOpt(place)
            | LoadRefusal::UnknownSharing(place, _)
            | LoadRefusal::TooManyCacheMounts(place) => Some(place),
            LoadRefusal::EmptyDefinition
            | LoadRefusal::NoResult
            | LoadRefusal::Cycle
            | LoadRefusal::OutOfMemory => None,
        }
    }

    /// What is said before the place, or all that is said.
    fn subject(self) -> &'static str {
        match self {
            LoadRefusal::EmptyDefinition => "no entries",
            LoadRefusal::BadOp(_) => "the entry at place",
            LoadRefusal::NoResult => "the last entry has no input",
            LoadRefusal::BadInputDigest(_)
            | LoadRefusal::MissingInput(_)
            | LoadRefusal::NegativeIndex(_) => "an input of the entry at place",
            LoadRefusal::NoOp(_)
            | LoadRefusal::NoMeta(_)
            | LoadRefusal::NoArgs(_)
            | LoadRefusal::NoMounts(_)
            | LoadRefusal::NoRoot(_)
            | LoadRefusal::TooManyCacheMounts(_) => "the vertex at place",
            LoadRefusal::BadMountInput(_) => "a mount of the vertex at place",
            LoadRefusal::NoCacheOpt(_) | LoadRefusal::UnknownSharing(..) =>
                "a cache mount of the vertex at place",
            LoadRefusal::Cycle => "a vertex needs itself",
            LoadRefusal::OutOfMemory => "out of memory",
        }
    }

    /// What is said behind the place.
    fn fault(self) -> &'static str {
        match self {
            LoadRefusal::BadOp(_) => "is not an op",
            LoadRefusal::BadInputDigest(_) => "is not a digest",
            LoadRefusal::MissingInput(_) => "names no vertex",
            LoadRefusal::NegativeIndex(_) => "has an index below 0",
            LoadRefusal::NoOp(_) => "does nothing",
            LoadRefusal::NoMeta(_) => "has no command",
            LoadRefusal::NoArgs(_) => "has no arguments",
            LoadRefusal::NoMounts(_) => "has no mounts",
            LoadRefusal::NoRoot(_) => "has no mount at `/`",
            LoadRefusal::BadMountInput(_) => "names an input that the vertex lacks",
            LoadRefusal::NoCacheOpt(_) => "has no cache option",
            LoadRefusal::UnknownSharing(..) => "has the sharing",
            LoadRefusal::TooManyCacheMounts(_) => "has more than 16 cache mounts",
            LoadRefusal::EmptyDefinition
            | LoadRefusal::NoResult
            | LoadRefusal::Cycle
            | LoadRefusal::OutOfMemory => "",
        }
    }
}

impl fmt::Display for LoadRefusal {
    fn fmt<W: fmt::Write>(&self, f: &mut fmt::Formatter<W>) -> fmt::Result {
        let (subject, fault) = (self.subject(), self.fault());
        let Some(place) = self.place() else {
            return f.write_str(subject);
        };
        write!(f, "{subject} {place} {fault}")?;
        match self {
            LoadRefusal::UnknownSharing(_, sharing) => write!(f, " {sharing}"),
            _ => Ok(()),
        }
    }
}

impl From<AllocError> for LoadRefusal {
    ghost from_gives = { λ _ e. e ≡ load.OutOfMemory };

    fn from(_error: AllocError) -> LoadRefusal {
        LoadRefusal::OutOfMemory
    }
}

impl<T: Drop> From<AllocFailed<T>> for LoadRefusal {
    ghost from_gives = { λ _ e. e ≡ load.OutOfMemory };

    fn from(_error: AllocFailed<T>) -> LoadRefusal {
        LoadRefusal::OutOfMemory
    }
}
