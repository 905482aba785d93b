//! The contents that a node stores.
ghost use Rattle.std.specs.Prelude.{◌≡◌, ◌≢◌, ◌≤◌, ◌<◌, ◌+◌, IfOk, IfSome, OnOk, is_some, option_copied, vec_len};
ghost use Rattle.indexmap.specs.IndexMap.{spare, values};
ghost use Rattle.names.specs.Contents.{content_digest, empty_digest};
ghost use Rattle.protocol.specs.Nodes.{stored};
ghost use Rattle.protocol.specs.World.{first_node, without};
ghost use Rattle.nodecontents.specs.Stored.{store_each, store_in, store_one, AreStored};

use farm_base::{Content, Digest, Left};
use indexmap::IndexMap;
use indexmap::map::Values;
use std::alloc::{AllocError, Global};

/// The contents that a node stores, by their digests. The empty one is among them.
#[derive(Drop)]
pub struct StoredContents {
    pub by_digest: IndexMap<Digest, Content>,
    ghost stored: { AreStored by_digest.entries },
}

impl StoredContents {
    /// The empty content alone.
    pub fn new(alloc: Global) -> Result<Self, AllocError>
        ensures { IfOk result (λ contents. store_in contents.by_digest ≡ (first_node content_digest).store) }
    {
        let empty = Content::of(Vec::new(alloc));
        let mut by_digest = IndexMap::new(alloc);
        by_digest.insert(empty.digest(), empty)?;
        Ok(StoredContents { by_digest })
    }

    /// These contents, and the empty one.
    pub fn with(alloc: Global, contents: Vec<Content>) -> Result<Self, AllocError>
        ensures { IfOk result (λ stored. store_in stored.by_digest ≡ store_each contents.items (first_node content_digest).store) }
    {
        let mut stored = StoredContents::new(alloc)?;
        stored.reserve(contents.len())?;
        stored.store_each(contents);
        Ok(stored)
    }

    /// The content under a digest.
    pub fn get(&self, digest: &Digest) -> Option<&Content>
        ensures value { option_copied result ≡ store_in self.now.by_digest digest.now }
        ensures digest { IfSome result (λ content. content_digest content.now ≡ digest.now) }
    {
        self.by_digest.get(digest)
    }

    /// Whether a content is stored under the digest.
    pub fn has(&self, digest: &Digest) -> bool
        ensures { result ≡ is_some (store_in self.now.by_digest digest.now) }
    {
        self.by_digest.contains_key(digest)
    }

    /// The contents, each once.
    pub fn values(&self) -> Values<'_, Digest, Content>
        ensures { store_each result (first_node content_digest).store ≡ store_in self.now.by_digest }
    {
        self.by_digest.values()
    }

    /// Makes room for `additional` contents more.
    pub fn reserve(&mut self, additional: usize) -> Result<(), AllocError>
        ensures same { store_in self.new.by_digest ≡ store_in self.old.by_digest }
        ensures room { OnOk result (additional ≤ spare self.new.by_digest) }
    {
        self.by_digest.reserve(additional)
    }

    /// Stores a content, in the room that is there. What is stored under its digest stays.
    pub fn store(&mut self, content: Content)
        requires { 0 < spare self.old.by_digest }
        ensures store { store_in self.new.by_digest ≡ store_one content (store_in self.old.by_digest) }
        ensures spare { spare self.old.by_digest ≤ spare self.new.by_digest + 1 }
    {
        let digest = content.digest();
        if !self.by_digest.contains_key(&digest) {
            let _ = self.by_digest.insert(digest, content);
        }
    }

    /// Stores nothing under a digest other than the empty content's.
    pub fn remove(&mut self, digest: Digest)
        requires { digest ≢ empty_digest }
        ensures { store_in self.new.by_digest ≡ without digest (store_in self.old.by_digest) }
    {
        let _ = self.by_digest.swap_remove(&digest);
    }

    /// Stores contents, in the room that is there.
    fn store_each(&mut self, contents: Vec<Content>)
        requires { vec_len contents ≤ spare self.old.by_digest }
        ensures { store_in self.new.by_digest ≡ store_each contents.items (store_in self.old.by_digest) }
    {
        for content in contents {
            self.store(content);
        }
    }

    /// Stores what an execution leaves, in the room that is there.
    pub fn store_all(&mut self, lefts: Vec<Left>)
        requires { vec_len lefts ≤ spare self.old.by_digest }
        ensures { store_in self.new.by_digest ≡ stored content_digest lefts.items (store_in self.old.by_digest) }
    {
        for left in lefts {
            self.store(left.content);
        }
    }
}
