use names::{Copied, Text};
use std::alloc::{AllocError, Global};

/// An output of another op, taken as input. `T` is how its text is kept: while a message is read, as
/// bytes that may not be UTF-8.
#[derive(Drop)]
pub struct Input<T = Text> {
    /// The digest of the other op.
    pub digest: T,
    pub index: i64,
}

impl Copied for Input {
    fn copy(&self, alloc: Global) -> Result<Self, AllocError> {
        Ok(Input {
            digest: self.digest.copy(alloc)?,
            index: self.index,
        })
    }
}
