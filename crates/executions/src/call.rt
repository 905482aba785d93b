use farm_base::{Digest, FolderName, Items, Key};
use folders::Edit;

/// An execution that an executor carried out.
#[derive(Drop)]
pub struct Call {
    pub key: Key,
    /// Its outputs, or the status with which it failed.
    pub result: Result<Items<Digest>, i32>,
}

/// What an executor answers.
#[derive(Drop)]
pub enum ExecOutcome {
    Done {
        /// The outputs, by their index.
        outputs: Items<Digest>,
        /// What changed in the folders that it may write, by their names.
        edits: Items<(FolderName, Items<Edit>)>,
    },
    /// It ended with this status.
    Failed(i32),
    /// Nothing was carried out.
    OutOfMemory,
}
