use thiserror::Error;

/// Why the bytes of a file are not the key of a farm.
#[derive(Clone, Copy, Debug, PartialEq, Eq, Error)]
pub enum KeyRefusal {
    #[error("a key of fewer than 32 bytes")]
    KeyTooShort,
    #[error("out of memory")]
    OutOfMemory,
}
