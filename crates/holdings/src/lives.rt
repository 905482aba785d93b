ghost use Rattle.std.specs.Prelude.{◌≡◌, ◌+◌, ◌≤◌, [], length, map, MatchResult, OnOk};
ghost use Rattle.std.specs.List.Sorted.{IsStrictlyIncreasing};
ghost use Rattle.protocol.specs.Lists.{put};
ghost use Rattle.holdings.specs.Lives.{AreLives};
ghost use Rattle.holdings.specs.Places.{IsPlace, IsGap};
ghost use Rattle.holdings.specs.Lives.{life_at};

use farm_base::{Life, NodeId, NodeLife};
use std::alloc::{AllocError, Global};
use std::marker::Model;

/// The greatest life seen of each node, by rising node.
#[derive(Drop)]
pub struct Lives {
    lives: Vec<NodeLife>,
}

impl Model for Lives {
    ghost use Rattle.std.specs.Vec.{vec_capacity};
    ghost use Rattle.holdings.specs.Lives.{AreLives, RoomyLives};

    ghost Value = { RoomyLives };

    ghost view = { λ l. record { seen = l.lives.items; room = vec_capacity l.lives } };

    ghost invariant = { λ l. AreLives l.lives.items };
}

/// The place of a node's life, or the place where it would be inserted.
fn place_of(lives: &[NodeLife], node: NodeId) -> Result<usize, usize>
    requires { IsStrictlyIncreasing (map (λ x. x.node.0) lives.now) }
    ensures { MatchResult result (IsPlace node.0 (map (λ x. x.node.0) lives.now)) (IsGap node.0 (map (λ x. x.node.0) lives.now)) }
{
    lives.binary_search_by_key(&node, |seen| seen.node)
}

impl Lives {
    /// The lives before any node was seen.
    pub fn new(alloc: Global) -> Self
        ensures { result.seen ≡ [] }
    {
        Lives {
            lives: Vec::new(alloc),
        }
    }

    /// The lives of a list that is in order, without taking memory.
    pub fn of(lives: Vec<NodeLife>) -> Self
        requires { AreLives lives.items }
        ensures { result.seen ≡ lives.items }
    {
        Lives { lives }
    }

    /// Gives the lives, by rising node, without taking memory.
    pub fn into_vec(self) -> Vec<NodeLife>
        ensures value { result.items ≡ self.seen }
        ensures sound { AreLives self.seen }
    {
        self.lives
    }

    /// The lives, by rising node.
    pub fn as_slice(&self) -> &[NodeLife]
        ensures value { result.now ≡ self.now.seen }
        ensures sound { AreLives self.now.seen }
    {
        self.lives.as_slice()
    }

    /// The greatest life seen of a node, 0 where none was.
    pub fn greatest(&self, node: NodeId) -> u64
        ensures { result ≡ life_at self.now.seen node.0 }
    {
        match place_of(self.lives.as_slice(), node) {
            Ok(place) => self.lives[place].life.0,
            Err(_) => 0,
        }
    }

    /// Makes room for the lives of more nodes.
    pub fn reserve(&mut self, nodes: usize) -> Result<(), AllocError>
        ensures seen { self.new.seen ≡ self.old.seen }
        ensures room { OnOk result (length self.new.seen + nodes ≤ self.new.room) }
    {
        self.lives.reserve(nodes)
    }

    /// Sets the greatest life seen of a node. There has to be room for one more, and it takes no memory.
    pub fn set(&mut self, node: NodeId, life: Life)
        requires counted { 1 ≤ life.0 }
        requires room { length self.old.seen + 1 ≤ self.old.room }
        ensures { life_at self.new.seen ≡ put node.0 life.0 (life_at self.old.seen) }
    {
        let seen = NodeLife { node, life };
        match place_of(self.lives.as_slice(), node) {
            Ok(place) => self.lives[place] = seen,
            Err(place) => self.lives.insert(place, seen).unwrap(),
        }
    }
}
