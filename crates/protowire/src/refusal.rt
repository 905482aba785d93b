ghost use Rattle.std.specs.Prelude.{◌≡◌};
ghost use Rattle.protowire.specs.declared.refusal.WireRefusal.TheVariants as refusal;

use std::alloc::{AllocError, AllocFailed};
use std::fmt;
use thiserror::Error;

/// Why bytes are not a message.
#[derive(Clone, Copy, Debug, PartialEq, Eq, Error)]
pub enum WireRefusal {
    /// The bytes end inside a field.
    Truncated,
    /// A varint of more than ten bytes, or of 2^64 or more.
    VarintTooLong,
    /// A wire type other than 0, 1, 2 and 5.
    BadWireType,
    /// A field number outside 1 to 2^29 - 1.
    BadFieldNumber,
    OutOfMemory,
}

impl fmt::Display for WireRefusal {
    fn fmt<W: fmt::Write>(&self, f: &mut fmt::Formatter<W>) -> fmt::Result {
        f.write_str(match self {
            WireRefusal::Truncated => "the bytes end inside a field",
            WireRefusal::VarintTooLong => "a varint of more than 64 bits",
            WireRefusal::BadWireType => "unknown wire type",
            WireRefusal::BadFieldNumber => "field number out of range",
            WireRefusal::OutOfMemory => "out of memory",
        })
    }
}

impl From<AllocError> for WireRefusal {
    ghost from_gives = { λ _ e. e ≡ refusal.OutOfMemory };

    fn from(_error: AllocError) -> WireRefusal {
        WireRefusal::OutOfMemory
    }
}

impl<T: Drop> From<AllocFailed<T>> for WireRefusal {
    ghost from_gives = { λ _ e. e ≡ refusal.OutOfMemory };

    fn from(_error: AllocFailed<T>) -> WireRefusal {
        WireRefusal::OutOfMemory
    }
}
