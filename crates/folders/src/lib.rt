//! The folder that the bytes of a version spell.
#![tactic(auto)]

mod applying;
mod edit;
mod edited_folder;
mod file;
mod folder;
pub mod laws;
mod reading;
mod refusal;
mod writing;

pub use edit::Edit;
pub use edited_folder::EditedFolder;
pub use folder::Folder;
pub use names::Content;
pub use refusal::{EditRefusal, FolderRefusal};
