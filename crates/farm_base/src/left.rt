//! What an execution leaves in a slot that it may write.
use names::{Content, Copied, Slot};
use std::alloc::{AllocError, Global};

/// A slot, and the content that an execution left in it.
#[derive(Drop)]
pub struct Left {
    pub slot: Slot,
    pub content: Content,
}

impl Copied for Left {
    fn copy(&self, alloc: Global) -> Result<Self, AllocError> {
        Ok(Left {
            slot: self.slot.copy(alloc)?,
            content: self.content.copy(alloc)?,
        })
    }
}
