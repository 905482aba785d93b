ghost use Rattle.std.specs.Prelude.{◌≡◌, ◌<◌, ℕ, List, length, All, IsTrue, ◌↔◌, IfOk, IfSome, IfNone};
ghost use Rattle.std.specs.List.{AllZip};
ghost use Rattle.names.specs.declared.digest.Digest.{Digest as SpecDigest};
ghost use Rattle.ordering.specs.Orders.{IsOrder, IsCyclic};
ghost use Rattle.vertices.specs.declared.vertex.Vertex.{Vertex as SpecVertex};
ghost use Rattle.vertices.specs.Outcomes.{Each, Meets};
ghost use Rattle.vertices.specs.Asked.{Asks};
ghost use Rattle.vertices.specs.Edges.{AreEdges, Numbers, GoesTo, targets};
ghost use Rattle.vertices.specs.Numbered.{AreNumbers, GoBelow, HasTargets};
ghost use Rattle.vertices.specs.Loading.{VertexCheck};

use super::edge_list::EdgeList;
use super::edges::edges_of;
use super::refusal::LoadRefusal;
use super::unresolved::Asked;
use ordering::{Table, order_of};
use smallvec::SmallVec;
use std::alloc::{AllocError, Global};

/// Checks a vertex, and gives its edges.
fn vertex_edges(
    alloc: Global,
    table: &Table,
    asked: &Asked,
) -> Result<SmallVec<(usize, u64), 1>, LoadRefusal>
    ensures check { (vertex : SpecVertex) (digests : List SpecDigest) (all : List SpecVertex) → Asks vertex asked.now
        → Numbers digests all table.now → Meets (VertexCheck digests vertex) result }
    ensures edges { (vertex : SpecVertex) (digests : List SpecDigest) (all : List SpecVertex) → Asks vertex asked.now
        → Numbers digests all table.now → IfOk result (λ edges. AreEdges all vertex.op.inputs edges.items) }
{
    let edges = edges_of(alloc, table, asked.place, asked.inputs.as_slice())?;
    match asked.fault {
        Some(fault) => Err(fault),
        None => Ok(edges),
    }
}

/// Checks each vertex, and gives their edges.
fn edges_of_each(alloc: Global, table: &Table, all: &[Asked]) -> Result<Vec<EdgeList>, LoadRefusal>
    ensures check { (vertices : List SpecVertex) (digests : List SpecDigest) → AllZip Asks vertices all.now
        → Numbers digests vertices table.now → Meets (Each (VertexCheck digests) vertices) result }
    ensures edges { (vertices : List SpecVertex) (digests : List SpecDigest) → AllZip Asks vertices all.now
        → Numbers digests vertices table.now → IfOk result (λ edges. AllZip (λ v es. AreEdges vertices v.op.inputs es) vertices edges.items) }
{
    let mut edges = Vec::with_capacity(alloc, all.len())?;
    for asked in all {
        edges.push(EdgeList::new(vertex_edges(alloc, table, asked)?))?;
    }
    Ok(edges)
}

/// The same, and gives back the memory of the table and of what was to be checked, which nothing needs afterwards.
pub(crate) fn all_edges(
    alloc: Global,
    table: Table,
    all: Vec<Asked>,
) -> Result<Vec<EdgeList>, LoadRefusal>
    ensures check { (vertices : List SpecVertex) (digests : List SpecDigest) → AllZip Asks vertices all.items
        → Numbers digests vertices table → Meets (Each (VertexCheck digests) vertices) result }
    ensures edges { (vertices : List SpecVertex) (digests : List SpecDigest) → AllZip Asks vertices all.items
        → Numbers digests vertices table → IfOk result (λ edges. AllZip (λ v es. AreEdges vertices v.op.inputs es) vertices edges.items) }
{
    edges_of_each(alloc, &table, all.as_slice())
}

/// The numbers that edges go to.
fn targets_of(alloc: Global, edges: &[(usize, u64)]) -> Result<Vec<usize>, AllocError>
    ensures { IfOk result (λ numbers. numbers.items ≡ targets edges.now) }
{
    edges.iter().map(|edge| edge.0).collect(alloc)
}

/// The numbers that the edges of each vertex go to.
fn all_targets(alloc: Global, edges: &[EdgeList]) -> Result<Vec<Vec<usize>>, AllocError>
    ensures { IfOk result (λ rows. HasTargets edges.now rows.items) }
{
    let mut rows = Vec::with_capacity(alloc, edges.len())?;
    for some in edges {
        rows.push(targets_of(alloc, some.as_slice())?)?;
    }
    Ok(rows)
}

/// The numbers below a count.
fn numbers(alloc: Global, count: usize) -> Result<Vec<usize>, AllocError>
    ensures { IfOk result (λ numbers. AreNumbers numbers.items count) }
{
    let mut numbers = Vec::with_capacity(alloc, count)?;
    for number in 0..count {
        numbers.push(number)?;
    }
    Ok(numbers)
}

/// Whether these edges all go to numbers below this one.
fn go_below(edges: &[(usize, u64)], number: usize) -> bool
    ensures { IsTrue result ↔ All (λ edge. edge.0 < number) edges.now }
{
    edges.iter().all(|edge| edge.0 < number)
}

/// Whether each edge goes to a lower number, as in a definition that has each step before those that take it.
fn all_go_below(edges: &[EdgeList]) -> bool
    ensures { IsTrue result → GoBelow edges.now }
{
    for (number, some) in edges.iter().enumerate() {
        if !go_below(some.as_slice(), number) {
            return false;
        }
    }
    true
}

/// The order of vertices with these edges, or None where there is a cycle.
pub(crate) fn edge_order(
    alloc: Global,
    edges: &[EdgeList],
) -> Result<Option<Vec<usize>>, AllocError>
    requires { (number other : ℕ) → GoesTo edges.now number other → other < length edges.now }
    ensures order { IfOk result (λ answer. IfSome answer (λ order.
        IsOrder (λ number. number < length edges.now) (GoesTo edges.now) order.items)) }
    ensures acyclic { IfOk result (λ answer. IfSome answer (λ _. ¬ IsCyclic (GoesTo edges.now))) }
    ensures cyclic { IfOk result (λ answer. IfNone answer (IsCyclic (GoesTo edges.now))) }
{
    let numbers = numbers(alloc, edges.len())?;
    if all_go_below(edges) {
        return Ok(Some(numbers));
    }
    let rows = all_targets(alloc, edges)?;
    order_of(alloc, numbers.as_slice(), rows.as_slice())
}
