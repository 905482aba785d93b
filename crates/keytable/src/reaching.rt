ghost use Rattle.std.specs.Prelude.{◌≡◌, ◌<◌, ◌+◌, false, [], All, OnOk, IfOk, length, replicate, vec_len};
ghost use Rattle.ordering.specs.Sorting.{open_count};
ghost use Rattle.vertices.specs.Loading.{IsGraph};
ghost use Rattle.keytable.specs.Reaching.{AreReached, Reaching};

use std::alloc::{AllocError, Global};
use vertices::Graph;

/// Flags the vertices that edges go to. Those that weren't flagged are to be looked at.
fn flag_inputs(
    flags: &mut [bool],
    todo: &mut Vec<usize>,
    edges: &[(usize, u64)],
) -> Result<(), AllocError>
    requires { All (λ edge. edge.0 < length flags.old) edges.now }
    ensures flagged { OnOk result (Reaching flags.old todo.old.items edges.now flags.new todo.new.items) }
    ensures open_ones { OnOk result (vec_len todo.new + open_count flags.new ≡ vec_len todo.old + open_count flags.old) }
{
    for (number, _) in edges {
        if !flags[*number] {
            todo.push(*number)?;
            flags[*number] = true;
        }
    }
    Ok(())
}

/// Flags the vertices that the result depends on, where none is flagged yet.
fn flag_from_result(
    graph: &Graph,
    flags: &mut [bool],
    todo: &mut Vec<usize>,
) -> Result<(), AllocError>
    requires graph { IsGraph graph.now }
    requires flags { flags.old ≡ replicate (length graph.now.vertices) false }
    requires todo { todo.old.items ≡ [] }
    ensures { OnOk result (AreReached graph.now flags.new) }
{
    let (result, _) = graph.result();
    flags[result] = true;
    todo.push(result)?;
    while let Some(number) = todo.pop() {
        flag_inputs(flags, todo, graph.inputs_of(number))?;
    }
    Ok(())
}

/// The same, with a list of its own of those that are to be looked at.
fn flag_needed(alloc: Global, graph: &Graph, flags: &mut [bool]) -> Result<(), AllocError>
    requires { flags.old ≡ replicate (length graph.now.vertices) false }
    ensures { OnOk result (AreReached graph.now flags.new) }
{
    let mut todo = Vec::with_capacity(alloc, graph.len())?;
    flag_from_result(graph, flags, &mut todo)
}

/// For each vertex whether the result depends on it.
pub fn reached(alloc: Global, graph: &Graph) -> Result<Vec<bool>, AllocError>
    ensures { IfOk result (λ flags. AreReached graph.now flags.items) }
{
    let mut flags = vec![in alloc; false; graph.len()]?;
    flag_needed(alloc, graph, flags.as_mut_slice())?;
    Ok(flags)
}
