ghost use Rattle.std.specs.Prelude.{◌≡◌, ◌+◌, ◌≤◌, true, [], length, map, MatchResult, OnOk};
ghost use Rattle.std.specs.List.Sorted.{IsStrictlyIncreasing};
ghost use Rattle.protocol.specs.Lists.{put};
ghost use Rattle.holdings.specs.Places.{IsPlace, IsGap};
ghost use Rattle.holdings.specs.Lives.{is_among};

use farm_base::NodeId;
use std::alloc::{AllocError, Global};
use std::marker::Model;

/// The nodes that were retired, rising.
#[derive(Drop)]
pub struct RetiredNodes {
    nodes: Vec<NodeId>,
}

impl Model for RetiredNodes {
    ghost use Rattle.std.specs.Prelude.{map};
    ghost use Rattle.std.specs.List.Sorted.{IsStrictlyIncreasing};
    ghost use Rattle.std.specs.Vec.{vec_capacity};
    ghost use Rattle.holdings.specs.Lives.{RoomyNodes};

    ghost Value = { RoomyNodes };

    ghost view = { λ r. record { retired = r.nodes.items; room = vec_capacity r.nodes } };

    ghost invariant = { λ r. IsStrictlyIncreasing (map (λ n. n.0) r.nodes.items) };
}

/// The place of a node, or the place where it would be inserted.
fn place_of(nodes: &[NodeId], node: NodeId) -> Result<usize, usize>
    requires { IsStrictlyIncreasing (map (λ n. n.0) nodes.now) }
    ensures { MatchResult result (IsPlace node.0 (map (λ n. n.0) nodes.now)) (IsGap node.0 (map (λ n. n.0) nodes.now)) }
{
    nodes.binary_search(&node)
}

impl RetiredNodes {
    /// No node is retired.
    pub fn new(alloc: Global) -> Self
        ensures { result.retired ≡ [] }
    {
        RetiredNodes {
            nodes: Vec::new(alloc),
        }
    }

    /// The nodes of a list that rises, without taking memory.
    pub fn of(nodes: Vec<NodeId>) -> Self
        requires { IsStrictlyIncreasing (map (λ n. n.0) nodes.items) }
        ensures { result.retired ≡ nodes.items }
    {
        RetiredNodes { nodes }
    }

    /// Gives the nodes, rising, without taking memory.
    pub fn into_vec(self) -> Vec<NodeId>
        ensures value { result.items ≡ self.retired }
        ensures rise { IsStrictlyIncreasing (map (λ n. n.0) self.retired) }
    {
        self.nodes
    }

    /// The nodes, rising.
    pub fn as_slice(&self) -> &[NodeId]
        ensures value { result.now ≡ self.now.retired }
        ensures rise { IsStrictlyIncreasing (map (λ n. n.0) self.now.retired) }
    {
        self.nodes.as_slice()
    }

    /// Whether a node was retired.
    pub fn contains(&self, node: NodeId) -> bool
        ensures { result ≡ is_among self.now.retired node.0 }
    {
        place_of(self.nodes.as_slice(), node).is_ok()
    }

    /// Makes room for more nodes.
    pub fn reserve(&mut self, nodes: usize) -> Result<(), AllocError>
        ensures retired { self.new.retired ≡ self.old.retired }
        ensures room { OnOk result (length self.new.retired + nodes ≤ self.new.room) }
    {
        self.nodes.reserve(nodes)
    }

    /// Marks a node as retired. There has to be room for one more, and it takes no memory.
    pub fn insert(&mut self, node: NodeId)
        requires { length self.old.retired + 1 ≤ self.old.room }
        ensures { is_among self.new.retired ≡ put node.0 true (is_among self.old.retired) }
    {
        if let Err(place) = place_of(self.nodes.as_slice(), node) {
            self.nodes.insert(place, node).unwrap();
        }
    }
}
