//! Whether an answer is what the new calls gave.
ghost use Rattle.std.specs.Prelude.{◌≡◌, ◌<◌, ℕ, true, length, Some, slice_get, All, Contains, IfOk, IfSome, IsTrue};
ghost use Rattle.names.specs.declared.digest.Key.{Key as SpecKey};
ghost use Rattle.ordering.specs.Flags.{flag_at};
ghost use Rattle.vertices.specs.Edges.{list_at};
ghost use Rattle.keytable.specs.Reaching.{IsNeeded};
ghost use Rattle.reasons.specs.NewCalls.{GaveOutputs, Gave};
ghost use Rattle.reasons.specs.Solved.{AreGiven, IsClosed, IsClosedAt, IsSolved, IsFailing, Looks, news_in};

use super::calls::{Book, output_in};
use executions::Call;
use farm_base::laws::equal_digests_are_one;
use farm_base::{Digest, Key, NodeId};
use solverkeys::Keyed;
use std::alloc::{AllocError, Global};
use vertices::Graph;

/// The new calls, and where they are looked up.
#[derive(Clone, Copy)]
pub(crate) struct Made<'a> {
    pub(crate) book: &'a Book,
    pub(crate) news: &'a [(NodeId, &'a [Call])],
    pub(crate) node: NodeId,
}

/// What the new calls say of an output.
#[derive(Clone, Copy)]
enum Look {
    /// It was given.
    Given,
    /// The call failed, or gave no output of this index.
    Fails,
    /// There was no call.
    Open,
}

/// Whether a new call gave outputs of a key.
fn has_outputs(made: Made<'_>, key: &Key) -> bool
    ensures { IsTrue result → GaveOutputs (news_in made.entry) key.now }
{
    match made.book.find(made.news, made.node, key) {
        Some(call) => call.result.is_ok(),
        None => false,
    }
}

/// For each key whether a new call gave its outputs.
fn flags_of(alloc: Global, made: Made<'_>, keys: &[Key]) -> Result<Vec<bool>, AllocError>
    ensures { IfOk result (λ flags. AreGiven (news_in made.entry) keys.now flags.items) }
{
    let mut flags = Vec::with_capacity(alloc, keys.len())?;
    for key in keys {
        flags.push(has_outputs(made, key))?;
    }
    Ok(flags)
}

fn is_flagged(flags: &[bool], number: usize) -> bool
    ensures { result ≡ flag_at flags.now number }
{
    number < flags.len() && flags[number]
}

/// Whether these edges go to flagged vertices.
fn are_flagged(flags: &[bool], edges: &[(usize, u64)]) -> bool
    ensures { IsTrue result → All (λ edge. flag_at flags.now edge.0 ≡ true) edges.now }
{
    edges.iter().all(|edge| is_flagged(flags, edge.0))
}

/// Whether the inputs of a vertex are flagged, if it is.
fn is_closed_at(graph: &Graph, flags: &[bool], number: usize) -> bool
    requires { number < length graph.now.vertices }
    ensures { IsTrue result → IsClosedAt graph.now flags.now number }
{
    !is_flagged(flags, number) || are_flagged(flags, graph.inputs_of(number))
}

/// Whether the inputs of each flagged vertex are flagged.
fn is_closed(graph: &Graph, flags: &[bool]) -> bool
    requires { length flags.now ≡ length graph.now.vertices }
    ensures { IsTrue result → IsClosed graph.now flags.now }
{
    for number in 0..graph.len() {
        if !is_closed_at(graph, flags, number) {
            return false;
        }
    }
    true
}

/// Whether all vertices that the result depends on are flagged.
fn covers(graph: &Graph, flags: &[bool]) -> bool
    requires { length flags.now ≡ length graph.now.vertices }
    ensures { IsTrue result → (number : ℕ) → IsNeeded graph.now number → flag_at flags.now number ≡ true }
{
    let (number, _) = graph.result();
    is_flagged(flags, number) && is_closed(graph, flags)
}

/// The output of a key that a new call gave.
fn output_of<'a>(made: Made<'a>, key: &Key, index: u64) -> Option<&'a Digest>
    ensures { IfSome result (λ digest. Gave (news_in made.entry) key.now index digest.now) }
{
    let call = made.book.find(made.news, made.node, key)?;
    output_in(call, index)
}

fn is_digest(output: &Digest, digest: &Digest) -> bool
    ensures { IsTrue result → output.now ≡ digest.now }
{
    equal_digests_are_one();
    *output == *digest
}

/// Whether a new call gave this output of a key.
fn gave(made: Made<'_>, key: &Key, index: u64, digest: &Digest) -> bool
    ensures { IsTrue result → Gave (news_in made.entry) key.now index digest.now }
{
    match output_of(made, key, index) {
        Some(output) => is_digest(output, digest),
        None => false,
    }
}

/// Whether a new call gave this digest as the job's result.
fn gave_result(made: Made<'_>, keyed: &Keyed, digest: &Digest) -> bool
    ensures { IsTrue result → (key : SpecKey) → slice_get keyed.now.keys keyed.now.graph.result.0 ≡ Some key
        → Gave (news_in made.entry) key keyed.now.graph.result.1 digest.now }
{
    let (number, index) = keyed.graph().result();
    let keys = keyed.keys();
    gave(made, &keys[number], index, digest)
}

/// Whether the new calls solved a job with this digest.
pub(crate) fn is_solved(
    alloc: Global,
    made: Made<'_>,
    keyed: &Keyed,
    digest: &Digest,
) -> Result<bool, AllocError>
    ensures { IfOk result (λ solved. IsTrue solved → IsSolved (news_in made.entry) keyed.now digest.now) }
{
    if !gave_result(made, keyed, digest) {
        return Ok(false);
    }
    let flags = flags_of(alloc, made, keyed.keys())?;
    Ok(covers(keyed.graph(), flags.as_slice()))
}

/// What the new calls say of the output that an edge takes.
fn look_at(made: Made<'_>, keys: &[Key], number: usize, index: u64) -> Look
    ensures { Looks (news_in made.entry) keys.now number index result }
{
    if number >= keys.len() {
        return Look::Open;
    }
    let Some(call) = made.book.find(made.news, made.node, &keys[number]) else {
        return Look::Open;
    };
    match output_in(call, index) {
        Some(_) => Look::Given,
        None => Look::Fails,
    }
}

fn is_given(made: Made<'_>, keys: &[Key], edge: (usize, u64)) -> bool {
    matches!(look_at(made, keys, edge.0, edge.1), Look::Given)
}

/// The first of these edges whose output wasn't given.
fn first_open(made: Made<'_>, keys: &[Key], edges: &[(usize, u64)]) -> Option<(usize, u64)>
    ensures { IfSome result (Contains edges.now) }
{
    for edge in edges {
        if !is_given(made, keys, *edge) {
            return Some(*edge);
        }
    }
    None
}

/// The first edge of a vertex whose output wasn't given.
fn open_input(made: Made<'_>, keyed: &Keyed, number: usize) -> Option<(usize, u64)>
    ensures { IfSome result (Contains (list_at keyed.now.graph.edges number)) }
{
    if number >= keyed.graph().len() {
        return None;
    }
    first_open(made, keyed.keys(), keyed.graph().inputs_of(number))
}

/// Whether a job has no answer, by a new call that failed or lacks an output. It goes down from the result, by outputs
/// that weren't given.
pub(crate) fn is_failing(made: Made<'_>, keyed: &Keyed) -> bool
    ensures { IsTrue result → IsFailing (news_in made.entry) keyed.now }
{
    let (mut number, mut index) = keyed.graph().result();
    for _ in 0..keyed.graph().len() {
        if let Look::Fails = look_at(made, keyed.keys(), number, index) {
            return true;
        }
        let Some(edge) = open_input(made, keyed, number) else {
            return false;
        };
        (number, index) = edge;
    }
    false
}
