//! What the farm's parts are called and known by: numbers, names of folders and slots, digests and contents, and their texts.
#![tactic(auto)]

mod content;
mod copied;
mod digest;
mod display;
pub mod escape;
mod folder;
mod items;
pub mod laws;
mod limits;
mod name;
mod number;
pub mod reading;
mod refusal;
mod slot;
mod text;

pub use content::{Content, empty_digest};
pub use copied::Copied;
pub use digest::{BadDigestText, BadKeyText, Digest, Key, are_bytes};
pub use folder::{Base, FolderName, Index, Mode};
pub use items::{Items, copy_all};
pub use limits::{EVENTS, GREATEST, INSTANCES, NODES};
pub use number::{Ask, Life, NodeId, Ticket};
pub use refusal::{FolderRefusal, SlotRefusal};
pub use slot::Slot;
pub use text::Text;
