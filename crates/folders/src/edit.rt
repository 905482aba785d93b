use names::{Copied, Items, Text};
use std::alloc::{AllocError, Global};

/// A change of one file of a folder.
#[derive(Drop)]
pub enum Edit {
    /// The path gets this content, whatever it had before.
    Put(Text, Items<u8>),
    /// The path loses its content. If it has none, nothing changes.
    Remove(Text),
}

impl Copied for Edit {
    fn copy(&self, alloc: Global) -> Result<Self, AllocError> {
        Ok(match self {
            Edit::Put(path, content) => {
                let content = Vec::from_slice(alloc, content.as_slice())?;
                Edit::Put(path.copy(alloc)?, Items::new(content))
            }
            Edit::Remove(path) => Edit::Remove(path.copy(alloc)?),
        })
    }
}
