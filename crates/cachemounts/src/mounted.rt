ghost use Rattle.std.specs.Prelude.{◌≡◌, ◌<◌, ◌≤◌, List, length, IfOk};
ghost use Rattle.std.specs.List.{All};
ghost use Rattle.opsproto.specs.Scalars.{Text};
ghost use Rattle.opsproto.specs.declared.input.Input.{Input};
ghost use Rattle.vertices.specs.declared.vertex.Vertex.{Vertex};
ghost use Rattle.vertices.specs.Edges.{IsEdge, AreEdges};
ghost use Rattle.vertices.specs.Loading.{IsGraph};
ghost use Rattle.vertices.specs.OpChecks.{cache_count};
ghost use Rattle.solverkeys.specs.GraphKeys.{AreKeys};
ghost use Rattle.cachemounts.specs.CacheFolders.{TakesOutput, TakesOutputs};
ghost use Rattle.cachemounts.specs.CacheWants.{HasMounts};
ghost use Rattle.cachemounts.specs.Checked.{IsChecked};

use farm_base::{Base, Index, Items, Key};
use opsproto::Mount;
use std::alloc::{AllocError, Global};
use vertices::Graph;

/// The mounts of a vertex, and the output that each of its inputs takes.
#[derive(Drop)]
pub(crate) struct Mounted {
    mounts: Items<Mount>,
    outputs: Vec<Base>,
}

impl Mounted {
    /// The mounts of a vertex. The rest of its op is not read.
    pub(crate) fn of(
        alloc: Global,
        graph: &Graph,
        vertex: usize,
        keys: &[Key],
    ) -> Result<Self, AllocError>
        requires vertex { vertex < length graph.now.vertices }
        requires keys { AreKeys graph.now keys.now }
        ensures has { IfOk result (λ m. HasMounts graph.now keys.now vertex m.outputs.items m.mounts) }
        ensures checked { IfOk result (λ m. All (IsChecked (length m.outputs.items)) m.mounts) }
        ensures few { IfOk result (λ m. cache_count m.mounts ≤ 16) }
    {
        is_graph(graph);
        let mounts = graph.vertex(vertex).op.mounts(alloc)?;
        let outputs = outputs_of(alloc, keys, graph.inputs_of(vertex))?;
        Ok(Mounted { mounts, outputs })
    }

    /// The mounts.
    pub(crate) fn mounts(&self) -> &[Mount]
        ensures { result.now ≡ self.now.mounts }
    {
        self.mounts.as_slice()
    }

    /// The output that each input takes.
    pub(crate) fn outputs(&self) -> &[Base]
        ensures { result.now ≡ self.now.outputs.items }
    {
        self.outputs.as_slice()
    }
}

/// What holds of every graph.
fn is_graph(graph: &Graph)
    ensures { IsGraph graph.now }
{
    let _count = graph.len();
}

/// The output that each edge of a vertex takes. They are the edges of its inputs.
fn outputs_of(alloc: Global, keys: &[Key], edges: &[(usize, u64)]) -> Result<Vec<Base>, AllocError>
    requires { (vertices : List Vertex) × (inputs : List (Input Text)) × AreEdges vertices inputs edges.now × (length vertices ≡ length keys.now) }
    ensures { IfOk result (λ outputs. TakesOutputs keys.now edges.now outputs.items) }
{
    let mut outputs = Vec::with_capacity(alloc, edges.len())?;
    for edge in edges {
        outputs.push(output_of(keys, *edge))?;
    }
    Ok(outputs)
}

/// The output that an edge takes. It is the edge of an input.
fn output_of(keys: &[Key], edge: (usize, u64)) -> Base
    requires { (vertices : List Vertex) × (input : Input Text) × IsEdge vertices input edge × (length vertices ≡ length keys.now) }
    ensures { TakesOutput keys.now edge result }
{
    let Some(index) = Index::new(edge.1) else {
        unreachable!();
    };
    Base {
        key: keys[edge.0],
        index,
    }
}
