use thiserror::Error;

/// A save failed: the old bytes are kept, or the new ones.
#[derive(Clone, Copy, Debug, PartialEq, Eq, Error)]
#[error("the record could not be saved")]
pub struct SaveFault;

/// Why a load gives no bytes.
#[derive(Clone, Copy, Debug, PartialEq, Eq, Error)]
pub enum KeeperRefusal {
    #[error("the record could not be loaded")]
    Fault,
    #[error("out of memory")]
    OutOfMemory,
}
