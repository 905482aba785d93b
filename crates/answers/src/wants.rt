//! What `wants` answers for a definition.
ghost use Rattle.std.specs.Prelude.{◌≡◌, ◌++◌, IfOk, OnOk};
ghost use Rattle.std.specs.String.{string_bytes};
ghost use Rattle.solverkeys.specs.GraphKeys.{AreKeys};
ghost use Rattle.answers.specs.Wants.{wanted_text, wants_line, AreWantsLines, AreWantsListed};

use super::printing::{Printed, push_access, push_each};
use cachemounts::wants;
use farm_base::{Digest, Key, Want};
use std::alloc::{AllocError, Global};
use vertices::Graph;

/// A folder that a vertex wants, and whether it may be written.
impl Printed for Want {
    ghost prints = { wanted_text };

    fn push(&self, alloc: Global, text: &mut String) -> Result<(), AllocError> {
        let folder = self.folder.to_text(alloc)?;
        text.push(' ')?;
        push_access(text, self.writable)?;
        text.push_str(folder.as_str())
    }
}

/// Adds the line of a vertex, if it wants a folder.
fn push_wants(
    alloc: Global,
    text: &mut String,
    digest: &Digest,
    wants: &[Want],
) -> Result<(), AllocError>
    ensures { OnOk result (string_bytes text.new ≡ string_bytes text.old ++ wants_line digest.now wants.now) }
{
    if wants.is_empty() {
        return Ok(());
    }
    let digest = digest.to_text(alloc)?;
    text.push_str(digest.as_str())?;
    push_each(alloc, text, wants)?;
    text.push('\n')
}

/// The lines of the vertices of a graph that has these keys.
fn wants_lines(alloc: Global, graph: &Graph, keys: &[Key]) -> Result<String, AllocError>
    requires { AreKeys graph.now keys.now }
    ensures { IfOk result (λ text. AreWantsLines graph.now keys.now (string_bytes text)) }
{
    let mut text = String::new(alloc);
    for number in 0..graph.len() {
        let wants = wants(alloc, graph, number, keys)?;
        let vertex = graph.vertex(number);
        push_wants(alloc, &mut text, &vertex.digest, wants.as_slice())?;
    }
    Ok(text)
}

/// A line for each vertex that wants a folder.
pub(crate) fn wanted(alloc: Global, graph: &Graph) -> Result<String, AllocError>
    ensures { IfOk result (λ text. AreWantsListed graph.now (string_bytes text)) }
{
    let keys = solverkeys::keys(alloc, graph)?;
    wants_lines(alloc, graph, keys.as_slice())
}
