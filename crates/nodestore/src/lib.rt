//! What lasts of a node's process: a trait, and a folder that keeps it.
#![tactic(auto)]

mod file_store;
mod life;
mod store;
mod storing;

pub use file_store::{FileStore, Found, OpenFault, open_store};
pub use store::{CONTENT_LIMIT, FileFault, Store, StoreFault};
