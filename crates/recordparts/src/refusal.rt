ghost use Rattle.std.specs.Prelude.{◌≡◌};
ghost use Rattle.recordparts.specs.declared.refusal.RecordRefusal.TheVariants as refusal;

use std::alloc::{AllocError, AllocFailed};
use std::fmt;
use thiserror::Error;

/// What keeps bytes from being the one text of a record.
#[derive(Clone, Copy, Debug, PartialEq, Eq, Error)]
pub enum Flaw {
    /// A list does not rise.
    Order,
    /// A number, a flag, a mode or a count is outside its range.
    Range,
    /// An id is not UTF-8.
    Utf8,
    /// Bytes are left over before the digest.
    Trailing,
    /// The parts do not agree with one another.
    Relation,
}

impl fmt::Display for Flaw {
    fn fmt<W: fmt::Write>(&self, f: &mut fmt::Formatter<W>) -> fmt::Result {
        f.write_str(match self {
            Flaw::Order => "a list does not rise",
            Flaw::Range => "a number outside its range",
            Flaw::Utf8 => "an id that is not UTF-8",
            Flaw::Trailing => "bytes left over",
            Flaw::Relation => "parts that do not agree",
        })
    }
}

/// Why bytes are not a record. The first fault from the left decides.
#[derive(Clone, Copy, Debug, PartialEq, Eq, Error)]
pub enum RecordRefusal {
    /// The bytes end early.
    Truncated,
    /// The bytes do not begin as a record of a known version.
    BadMagic,
    /// The digest at the end is not that of the bytes before it.
    BadDigest,
    /// No record is written as these bytes.
    NotCanonical(Flaw),
    OutOfMemory,
}

impl fmt::Display for RecordRefusal {
    fn fmt<W: fmt::Write>(&self, f: &mut fmt::Formatter<W>) -> fmt::Result {
        f.write_str(match self {
            RecordRefusal::Truncated => "truncated",
            RecordRefusal::BadMagic => "not a record",
            RecordRefusal::BadDigest => "a wrong digest",
            RecordRefusal::NotCanonical(flaw) => return write!(f, "not as it is written: {flaw}"),
            RecordRefusal::OutOfMemory => "out of memory",
        })
    }
}

impl From<AllocError> for RecordRefusal {
    ghost from_gives = { λ _ e. e ≡ refusal.OutOfMemory };

    fn from(_error: AllocError) -> RecordRefusal {
        RecordRefusal::OutOfMemory
    }
}

impl<T: Drop> From<AllocFailed<T>> for RecordRefusal {
    ghost from_gives = { λ _ e. e ≡ refusal.OutOfMemory };

    fn from(_error: AllocFailed<T>) -> RecordRefusal {
        RecordRefusal::OutOfMemory
    }
}
