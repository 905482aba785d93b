ghost use Rattle.std.specs.Prelude.{◌≡◌, ◌≤◌, ◌<◌, ◌+◌, ℕ, List, length, take, IfOk, OnOk, IfSome, Some, slice_get};
ghost use Rattle.vertices.specs.Outcomes.{Meets};
ghost use Rattle.vertices.specs.Edges.{Numbers, IsEdge};
ghost use Rattle.vertices.specs.Taken.{IsEntry};
ghost use Rattle.vertices.specs.Loading.{ReadCheck, ReadChecks, GraphCheck, DefinitionCheck, IsGraph, IsGraphOf};

use super::building::{all_edges, edge_order};
use super::edges::edge_of;
use super::graph::Graph;
use super::reading::read_inputs;
use super::refusal::LoadRefusal;
use super::unresolved::{Asked, Entry, Named};
use super::vertex::Source;
use opsproto::{Definition, Input};
use ordering::Table;
use protowire::BodyList;
use std::alloc::{AllocError, Global};

/// The vertices of some entries, with the table of their digests and what is to be checked of them.
#[derive(Drop)]
pub(crate) struct Loading {
    pub(crate) entries: BodyList,
    pub(crate) table: Table,
    pub(crate) sources: Vec<Source>,
    pub(crate) asked: Vec<Asked>,
}

impl Loading {
    ghost use Rattle.names.specs.declared.digest.Digest.{Digest};
    ghost use Rattle.vertices.specs.Loaded.{IsLoaded, IsReadTo, vertices_in};

    /// None of the entries read yet, with room for the vertices of `count` of them.
    fn with_room(alloc: Global, entries: BodyList, count: usize) -> Result<Self, AllocError>
        ensures entries { IfOk result (λ loading. loading.entries ≡ entries) }
        ensures read { IfOk result (IsReadTo 0) }
    {
        Ok(Loading {
            entries,
            table: Table::with_room(alloc, count)?,
            sources: Vec::with_capacity(alloc, count)?,
            asked: Vec::with_capacity(alloc, count)?,
        })
    }

    /// Reads the entry at the next place, and makes a vertex of it where its digest is new.
    fn read(&mut self, alloc: Global, place: usize) -> Result<(), LoadRefusal>
        requires place { place < length self.old.entries }
        requires read { IsReadTo place self.old }
        ensures check { (entry : List ℕ) → slice_get self.old.entries place ≡ Some entry → Meets (ReadCheck place entry) result }
        ensures entries { self.new.entries ≡ self.old.entries }
        ensures read { OnOk result (IsReadTo (place + 1) self.new) }
    {
        let entry = Entry::read(alloc, place, self.entries.body(place))?;
        self.add(place, entry)?;
        Ok(())
    }

    /// Makes a vertex of the entry at the next place, of which this is kept, where its digest is new.
    fn add(&mut self, place: usize, entry: Entry) -> Result<(), AllocError>
        requires place { place < length self.old.entries }
        requires entry { IfSome (slice_get self.old.entries place) (λ bytes. IsEntry place bytes entry) }
        requires read { IsReadTo place self.old }
        ensures entries { self.new.entries ≡ self.old.entries }
        ensures read { OnOk result (IsReadTo (place + 1) self.new) }
    {
        if self.table.add(place, entry.digest)? {
            self.sources.push(Source {
                place,
                digest: entry.digest,
                stripped: entry.stripped,
            })?;
            self.asked.push(entry.asked)?;
        }
        Ok(())
    }

    /// Reads the first `count` entries, and makes a vertex of the first one of each digest.
    pub(crate) fn of(alloc: Global, entries: BodyList, count: usize) -> Result<Self, LoadRefusal>
        requires { count ≤ length entries }
        ensures check { Meets (ReadChecks 0 (take count entries)) result }
        ensures entries { IfOk result (λ loading. loading.entries ≡ entries) }
        ensures loaded { IfOk result (IsLoaded (take count entries)) }
    {
        let mut loading = Loading::with_room(alloc, entries, count)?;
        for place in 0..count {
            loading.read(alloc, place)?;
        }
        Ok(loading)
    }

    /// The graph of the vertices. The first of these inputs, those of the last entry, names its result.
    fn graph(self, alloc: Global, place: usize, last: &[Input]) -> Result<Graph, LoadRefusal>
        requires loaded { (entries : List (List ℕ)) × IsLoaded entries self }
        ensures check { (digests : List Digest) → Numbers digests (vertices_in self) self.table
            → Meets (GraphCheck digests place (vertices_in self) last.now) result }
        ensures vertices { IfOk result (λ g. g.vertices ≡ vertices_in self) }
        ensures graph { IfOk result IsGraph }
        ensures result { IfOk result (λ g. IfSome (slice_get last.now 0) (λ input. IsEdge (vertices_in self) input g.result)) }
    {
        let Some(input) = last.first() else {
            return Err(LoadRefusal::NoResult);
        };
        let result = edge_of(&self.table, place, &Named::of(input))?;
        let edges = all_edges(alloc, self.table, self.asked)?;
        let Some(order) = edge_order(alloc, edges.as_slice())? else {
            return Err(LoadRefusal::Cycle);
        };
        let entries = self.entries.share(alloc)?;
        let sources = self.sources;
        Ok(Graph {
            entries,
            sources,
            edges,
            order,
            result,
        })
    }
}

/// The graph that a definition spells. Its last entry names the result; the others are the
/// vertices, of which the first stands where several have one digest. The first check that fails
/// decides: there is an entry; each entry is an op; the last entry's first input names a vertex;
/// each vertex, by place, has inputs that name vertices, and does something that can be run; no
/// vertex needs itself.
pub fn load(alloc: Global, definition: Definition) -> Result<Graph, LoadRefusal>
    ensures check { Meets (DefinitionCheck definition.def) result }
    ensures graph { IfOk result (IsGraphOf definition.def) }
{
    let Some(place) = definition.def.len().checked_sub(1) else {
        return Err(LoadRefusal::EmptyDefinition);
    };
    let loading = Loading::of(alloc, definition.def, place)?;
    let last = read_inputs(alloc, place, loading.entries.body(place))?;
    loading.graph(alloc, place, last.as_slice())
}
