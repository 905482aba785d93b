ghost use Rattle.std.specs.Prelude.{◌≡◌};

use smallvec::SmallVec;
use std::marker::Model;

/// The edges of a vertex, which contracts see as the list of them. Most vertices have one, which takes no memory of its own.
#[derive(Drop)]
pub(crate) struct EdgeList {
    edges: SmallVec<(usize, u64), 1>,
}

impl Model for EdgeList {
    ghost use Rattle.std.specs.Prelude.{ℕ, List};

    ghost Value = { List (ℕ × ℕ) };

    ghost view = { λ e. e.edges.items };
}

impl EdgeList {
    /// The list of these edges, without taking memory.
    pub(crate) fn new(edges: SmallVec<(usize, u64), 1>) -> Self
        ensures { result ≡ edges.items }
    {
        EdgeList { edges }
    }

    /// The edges, in order.
    pub(crate) fn as_slice(&self) -> &[(usize, u64)]
        ensures { result.now ≡ self.now }
    {
        self.edges.as_slice()
    }
}
