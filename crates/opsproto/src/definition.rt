use names::Copied;
use protowire::BodyList;
use std::alloc::{AllocError, Global};

/// A build: the bytes of its ops. The last entry names the result.
#[derive(Drop)]
pub struct Definition {
    pub def: BodyList,
}

impl Copied for Definition {
    fn copy(&self, alloc: Global) -> Result<Self, AllocError> {
        Ok(Definition {
            def: self.def.copy(alloc)?,
        })
    }
}
