//! The folders of an execution: what it sees in them, and what its edits leave.
#![tactic(auto)]

mod batch;
mod left;
mod refusal;
mod seen;

pub use batch::{Batch, has_changed};
pub use left::{FolderEdits, left_by};
pub use refusal::RunRefusal;
pub use seen::{NamedFolder, Seen, find, read_leased};
