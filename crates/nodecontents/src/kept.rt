//! What a process keeps of its node on its disk, for the process that takes its place.
use farm_base::{Content, Digest, Life, Version};
use indexmap::map::{Iter, Values};
use thiserror::Error;

/// What a process has to keep of its node: lent by `NodeCore::kept`. Contracts see `contents` and `versions` as lists.
#[derive(Drop)]
pub struct ToKeep<'a> {
    /// The present life. It has to be on the disk before a message of it is sent.
    pub life: Life,
    /// The contents that are stored, each once, the empty one too.
    pub contents: Values<'a, Digest, Content>,
    /// The versions that are known, each once, with the digests of their contents. A content need not be stored.
    pub versions: Iter<'a, Version, Digest>,
}

/// What a process finds on its disk of its node's last life. What is missing is fetched again.
#[derive(Drop)]
pub struct KeptContents {
    /// In any order, with or without the empty one. Each is known by its own digest.
    pub contents: Vec<Content>,
    /// In any order. A version may stand twice with the same digest.
    pub versions: Vec<(Version, Digest)>,
}

/// Why `NodeCore::resume` made no node.
#[derive(Clone, Copy, Debug, PartialEq, Eq, Error)]
pub enum ResumeRefusal {
    #[error("the greatest life has begun: the node is down for good")]
    LivesSpent,
    #[error("a version has two digests")]
    TwoDigests,
    #[error("out of memory")]
    OutOfMemory,
}
