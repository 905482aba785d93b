//! What `check` and `keys` answer for a definition.
ghost use Rattle.std.specs.Prelude.{◌≡◌, IfOk, IfErr, OnOk, ◌++◌, length};
ghost use Rattle.std.specs.String.{string_bytes};
ghost use Rattle.answers.specs.Answers.{result_text, check_text, key_line, vertex_digests, keys_text, SpellsGraph, IsNoGraph, AreListed};

use super::failure::Failure;
use farm_base::{Digest, Key};
use opsproto::{OpRefusal, read_definition};
use std::alloc::{AllocError, Global};
use vertices::{Graph, LoadRefusal, load};

/// The line of a graph whose result is an output of a vertex of this digest.
fn result_line(alloc: Global, len: usize, digest: &Digest, index: u64) -> Result<String, AllocError>
    ensures { IfOk result (λ text. string_bytes text ≡ result_text len digest.now index) }
{
    let len = len.to_string(alloc)?;
    let digest = digest.to_text(alloc)?;
    let index = index.to_string(alloc)?;
    let mut text = String::from_str(alloc, "vertices ")?;
    text.push_str(len.as_str())?;
    text.push_str(" result ")?;
    text.push_str(digest.as_str())?;
    text.push(' ')?;
    text.push_str(index.as_str())?;
    text.push('\n')?;
    Ok(text)
}

/// The number of the graph's vertices, and its result.
pub(crate) fn checked(alloc: Global, graph: &Graph) -> Result<String, AllocError>
    ensures { IfOk result (λ text. string_bytes text ≡ check_text graph.now) }
{
    let (number, index) = graph.result();
    let vertex = graph.vertex(number);
    result_line(alloc, graph.len(), &vertex.digest, index)
}

/// Adds the line of a vertex.
fn push_key(alloc: Global, text: &mut String, digest: &Digest, key: &Key) -> Result<(), AllocError>
    ensures { OnOk result (string_bytes text.new ≡ string_bytes text.old ++ key_line digest.now key.now) }
{
    let digest = digest.to_text(alloc)?;
    let key = key.to_text(alloc)?;
    text.push_str(digest.as_str())?;
    text.push(' ')?;
    text.push_str(key.as_str())?;
    text.push('\n')
}

/// The size of a vertex's line: `sha256:`, twice 64 digits, a space and a line feed.
const LINE: usize = 137;

/// The digests of a graph's vertices.
fn digests_of(alloc: Global, graph: &Graph) -> Result<Vec<Digest>, AllocError>
    ensures { IfOk result (λ digests. digests.items ≡ vertex_digests graph.now.vertices) }
{
    let mut digests = Vec::with_capacity(alloc, graph.len())?;
    for number in 0..graph.len() {
        digests.push(graph.vertex(number).digest)?;
    }
    Ok(digests)
}

/// The lines of vertices, given their digests and their keys.
fn lines(alloc: Global, digests: &[Digest], keys: &[Key]) -> Result<String, AllocError>
    requires { length keys.now ≡ length digests.now }
    ensures { IfOk result (λ text. string_bytes text ≡ keys_text digests.now keys.now) }
{
    let mut text = String::with_capacity(alloc, digests.len().saturating_mul(LINE))?;
    for number in 0..digests.len() {
        push_key(alloc, &mut text, &digests[number], &keys[number])?;
    }
    Ok(text)
}

/// The lines of a graph's vertices. The graph's memory is freed before they are made.
pub(crate) fn listed(alloc: Global, graph: Graph) -> Result<String, AllocError>
    ensures { IfOk result (λ text. AreListed graph (string_bytes text)) }
{
    let keys = solverkeys::keys(alloc, &graph)?;
    let digests = digests_of(alloc, &graph)?;
    drop(graph);
    lines(alloc, digests.as_slice(), keys.as_slice())
}

/// The graph that the bytes of a file spell.
pub fn graph_of(alloc: Global, bytes: Vec<u8>) -> Result<Graph, Failure>
    ensures found { IfOk result (SpellsGraph bytes.items) }
    ensures refused { IfErr result (IsNoGraph bytes.items) }
{
    let definition = match read_definition(alloc, bytes) {
        Err(OpRefusal::OutOfMemory) => return Err(Failure::Memory),
        Err(refusal) => return Err(Failure::Read(refusal)),
        Ok(definition) => definition,
    };
    match load(alloc, definition) {
        Err(LoadRefusal::OutOfMemory) => Err(Failure::Memory),
        Err(refusal) => Err(Failure::Load(refusal)),
        Ok(graph) => Ok(graph),
    }
}
