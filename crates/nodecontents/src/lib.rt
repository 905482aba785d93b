//! What a node stores and knows: contents by their digests, the digests of versions, and what a process keeps of them.
#![tactic(auto)]

mod contents;
mod kept;
mod stored;

pub use contents::{bases, confirmed, fits, known_from, learn, news_of};
pub use kept::{KeptContents, ResumeRefusal, ToKeep};
pub use stored::StoredContents;
