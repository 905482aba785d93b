ghost use Rattle.std.specs.Prelude.{◌≡◌, ◌<◌, length, All, IfOk};
ghost use Rattle.vertices.specs.Loading.{IsGraph};
ghost use Rattle.solverkeys.specs.GraphKeys.{AreKeys, TakesKeys, FollowsKeys};

use super::key::key_from;
use names::{Digest, Key};
use std::alloc::{AllocError, Global};
use vertices::Graph;

/// The solver key of each vertex, by its number.
pub fn keys(alloc: Global, graph: &Graph) -> Result<Vec<Key>, AllocError>
    ensures { IfOk result (λ keys. AreKeys graph.now keys.items) }
{
    let mut keys = vec![in alloc; Key(Digest([0; 32])); graph.len()]?;
    for number in graph.order() {
        keys[*number] = key_at(alloc, graph, keys.as_slice(), *number)?;
    }
    Ok(keys)
}

/// The key of a vertex, where the vertices that its edges go to have theirs.
fn key_at(alloc: Global, graph: &Graph, keys: &[Key], number: usize) -> Result<Key, AllocError>
    requires graph { IsGraph graph.now }
    requires number { number < length graph.now.vertices }
    requires keys { length keys.now ≡ length graph.now.vertices }
    ensures { IfOk result (FollowsKeys graph.now keys.now number) }
{
    let inputs = inputs_of(alloc, keys, graph.inputs_of(number))?;
    let stripped = graph.stripped_digest(number);
    Ok(key_from(&stripped, inputs.as_slice()))
}

/// The key and the index of each edge.
fn inputs_of(
    alloc: Global,
    keys: &[Key],
    edges: &[(usize, u64)],
) -> Result<Vec<(Key, u64)>, AllocError>
    requires { All (λ edge. edge.0 < length keys.now) edges.now }
    ensures { IfOk result (λ inputs. TakesKeys keys.now edges.now inputs.items) }
{
    let mut inputs = Vec::with_capacity(alloc, edges.len())?;
    for (number, index) in edges {
        inputs.push((keys[*number], *index))?;
    }
    Ok(inputs)
}
