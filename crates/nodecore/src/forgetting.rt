//! What a node stores and keeps no longer.
ghost use Rattle.std.specs.Prelude.{◌≡◌, ◌≤◌, ◌⊎◌, length, true};
ghost use Rattle.protocol.specs.Farm.{farm_limits};
ghost use Rattle.protocol.specs.Nodes.{forgotten};
ghost use Rattle.nodecore.specs.HeldAsks.{asks_held_by, IsFewHeld};
ghost use Rattle.nodeasks.specs.Rows.{endings_after};
ghost use Rattle.nodecore.specs.Shown.{forgets, place, shown, Answers};

use super::message::NodeDone;
use super::node_core::NodeCore;
use super::receive::silent;
use events::{NodeNote, NodeRefusal};
use farm_base::{Digest, empty_digest};
use nodeasks::any_needs;
use std::alloc::Global;

impl NodeCore {
    /// The content of the digest is no longer stored. What is known of its versions stays, and where a lease is based on
    /// it again it is fetched as one that was never here.
    ///
    /// Errors, the first that applies: `LivesSpent`; `NoSuchContent`, where none is stored under the digest, and for the
    /// empty content, which always is; `Needed`, while a granted or running ask has it as a base, or a finished one as
    /// one of its news.
    pub fn forget(&mut self, alloc: Global, digest: Digest) -> Result<NodeDone, NodeRefusal>
        ensures answer { Answers (forgotten farm_limits digest (shown self.old)) (shown self.old) (shown self.new) result }
        ensures place { place self.new ≡ place self.old }
        ensures told { forgets self.new ≡ forgets self.old }
    {
        if self.spent {
            return Err(NodeRefusal::LivesSpent);
        }
        if digest == empty_digest(alloc) || !self.contents.has(&digest) {
            return Err(NodeRefusal::NoSuchContent);
        }
        if any_needs(&self.asks, digest) {
            return Err(NodeRefusal::Needed);
        }
        self.contents.remove(digest);
        Ok(silent(alloc, NodeNote::Forgot))
    }
    /// Keeps of the asks that are over only the last 1,024, so that the node takes memory and time by its open asks and
    /// not by those of its whole life. It may be called after every event: mostly it does nothing, and over all calls it
    /// takes a bounded time for each ask that was made.
    pub fn forget_endings(&mut self)
        ensures shown { shown self.new ≡ shown self.old }
        ensures place { place self.new ≡ place self.old }
        // What is forgotten more than before is over, and so are 1,024 asks of greater numbers.
        ensures late { (a : _) → forgets self.new a ≡ true → (forgets self.old a ≡ true) ⊎ (1024 ≤ endings_after a (shown self.old).asks) }
        // At most twice as many asks are held then as are present, and 2,048 more.
        ensures few { IsFewHeld self.new }
    {
        if !self.asks.is_due() {
            return;
        }
        self.asks.forget_endings();
        self.by_ticket.shrink();
    }

    /// How many asks are held: the present ones, and those that are over and not forgotten.
    pub fn asks_held(&self) -> usize
        ensures exact { result ≡ asks_held_by self.now }
        ensures made { result ≤ length (shown self.now).asks }
    {
        self.asks.rows.len()
    }
}
