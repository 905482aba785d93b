//! The newest ask of each node.
ghost use Rattle.std.specs.Prelude.{◌≡◌, ◌+◌, ◌<◌, ◌≤◌, ◌&&◌, not, true, false, option_copied, OnOk};
ghost use Rattle.protocol.specs.Names.{NodeId, Life, Ask};
ghost use Rattle.parked.specs.Newest.{knows, is_known, is_newer, node_room};
ghost use Rattle.holdings.specs.Lives.{node_eq};

use farm_base::{Ask, Life, NodeId};
use indexmap::IndexMap;
use std::alloc::{AllocError, Global};

/// An ask of a node.
#[derive(Clone, Copy)]
pub(crate) struct NewestAsk {
    pub(crate) life: Life,
    pub(crate) ask: Ask,
}

/// The newest ask of each node, of those that were noted. A node numbers its asks in turn, so of nearly each new one it
/// is known that it wasn't noted.
#[derive(Drop)]
pub struct NewestAsks {
    by_node: IndexMap<NodeId, NewestAsk>,
}

/// Whether an ask isn't newer than this one.
fn is_known(newest: Option<&NewestAsk>, life: Life, ask: Ask) -> bool
    ensures { result ≡ is_known (option_copied newest.entry) life ask }
{
    match newest {
        Some(last) => !(last.life < life || (last.life == life && last.ask < ask)),
        None => false,
    }
}

impl NewestAsks {
    /// No ask was noted.
    pub fn new(alloc: Global) -> Self
        ensures { (n : NodeId) (l : Life) (a : Ask) → knows result n l a ≡ false }
    {
        NewestAsks {
            by_node: IndexMap::new(alloc),
        }
    }

    /// Makes room for the asks of more nodes.
    pub fn reserve(&mut self, nodes: usize) -> Result<(), AllocError>
        ensures known { (n : NodeId) (l : Life) (a : Ask) → knows self.new n l a ≡ knows self.old n l a }
        ensures room { OnOk result (nodes ≤ node_room self.new) }
    {
        self.by_node.reserve(nodes)
    }

    /// Whether an ask may have been noted. One that is newer than each of its node was not.
    pub fn may_have(&self, node: NodeId, life: Life, ask: Ask) -> bool
        ensures { result ≡ knows self.now node life ask }
    {
        is_known(self.by_node.get(&node), life, ask)
    }

    /// Notes an ask.
    pub fn note(&mut self, node: NodeId, life: Life, ask: Ask)
        requires { 0 < node_room self.old }
        ensures known { knows self.new node life ask ≡ true }
        ensures others { (n : NodeId) (l : Life) (a : Ask) → knows self.old n l a ≡ true → knows self.new n l a ≡ true }
        // Of what was not known only what isn't newer than this one becomes known.
        ensures only { (n : NodeId) (l : Life) (a : Ask) → knows self.old n l a ≡ false → (node_eq node n && not (is_newer (record { life = life; ask = ask }) l a)) ≡ false → knows self.new n l a ≡ false }
        ensures room { node_room self.old ≤ node_room self.new + 1 }
    {
        if self.may_have(node, life, ask) {
            return;
        }
        let Ok(_) = self.by_node.insert(node, NewestAsk { life, ask }) else {
            unreachable!();
        };
    }
}
