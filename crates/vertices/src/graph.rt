ghost use Rattle.std.specs.Prelude.{◌≡◌, ◌<◌, length, slice_get, Some, IfOk};
ghost use Rattle.vertices.specs.declared.vertex.Vertex.{Vertex as SpecVertex};
ghost use Rattle.vertices.specs.Loading.{GraphParts, IsGraph, digest_in};

use super::edge_list::EdgeList;
use super::vertex::{Source, Vertex};
use names::Digest;
use opsproto::{WireOp, stripped_place};
use protowire::{SharedBodies, SharedBytes};
use std::alloc::{AllocError, Global};
use std::marker::Model;

/// A graph without cycles, whose edges all name vertices of it. Its vertices have numbers from 0,
/// by rising place.
pub struct Graph {
    pub(crate) entries: SharedBodies,
    pub(crate) sources: Vec<Source>,
    pub(crate) edges: Vec<EdgeList>,
    pub(crate) order: Vec<usize>,
    pub(crate) result: (usize, u64),
}

// By hand, so that letting go of one is one step of a proof.
impl Drop for Graph {
    fn drop(self) {
        let Self {
            entries: _,
            sources: _,
            edges: _,
            order: _,
            result: _,
        } = self;
    }
}

impl Model for Graph {
    ghost use Rattle.vertices.specs.Loading.{GraphParts};
    ghost use Rattle.vertices.specs.Kept.{parts, AreKept};

    ghost Value = { GraphParts };

    ghost view = { λ g. parts g.entries g.sources.items g.edges.items g.order.items g.result };

    ghost invariant = { λ g. AreKept g.entries g.sources.items (parts g.entries g.sources.items g.edges.items g.order.items g.result) };
}

impl Graph {
    /// How many vertices it has.
    #[allow(clippy::len_without_is_empty)]
    pub fn len(&self) -> usize
        ensures value { result ≡ length self.now.vertices }
        ensures graph { IsGraph self.now }
    {
        self.sources.len()
    }

    /// The vertex of a number.
    pub fn vertex(&self, number: usize) -> Vertex<'_>
        requires { number < length self.now.vertices }
        ensures { slice_get self.now.vertices number ≡ Some result }
    {
        let source = self.sources[number];
        Vertex {
            place: source.place,
            digest: source.digest,
            op: WireOp::new(self.entries.body(source.place)),
        }
    }

    /// The SHA-256 of the stripped bytes of a vertex's op.
    pub fn stripped_digest(&self, number: usize) -> Digest
        requires { number < length self.now.vertices }
        ensures { (vertex : SpecVertex) → slice_get self.now.vertices number ≡ Some vertex → result ≡ digest_in vertex.op.stripped }
    {
        self.sources[number].stripped
    }

    /// The stripped bytes of a vertex's op. Where they stand in one piece in its entry, the graph shares them, and none is
    /// copied.
    pub fn stripped(&self, alloc: Global, number: usize) -> Result<SharedBytes, AllocError>
        requires { number < length self.now.vertices }
        ensures { (vertex : SpecVertex) → slice_get self.now.vertices number ≡ Some vertex → IfOk result (λ bytes. bytes ≡ vertex.op.stripped) }
    {
        let place = self.sources[number].place;
        let entry = self.entries.body(place);
        match stripped_place(alloc, entry)? {
            Some(span) => self.entries.part(place, span),
            None => Ok(SharedBytes::own(WireOp::new(entry).stripped(alloc)?)),
        }
    }

    /// The edges of a vertex: for each of its inputs, in order, the number of the vertex that it
    /// names, and the index of the output.
    pub fn inputs_of(&self, number: usize) -> &[(usize, u64)]
        requires { number < length self.now.vertices }
        ensures { slice_get self.now.edges number ≡ Some result.now }
    {
        self.edges[number].as_slice()
    }

    /// The number of the vertex that gives the result, and the index of its output.
    pub fn result(&self) -> (usize, u64)
        ensures value { result ≡ self.now.result }
        ensures within { result.0 < length self.now.vertices }
    {
        self.result
    }

    /// The numbers in the order in which the vertices can be solved, the lowest ready one first.
    pub fn order(&self) -> &[usize]
        ensures value { result.now ≡ self.now.order }
        ensures graph { IsGraph self.now }
    {
        self.order.as_slice()
    }
}
