//! The line that a node's folder has of its last life.
ghost use Rattle.std.specs.Prelude.{◌≡◌, ◌≢◌, ℕ, ◌<◌, ◌^◌, List, ◌++◌, ◌∷◌, decimal, IfSome, IfNone, IfOk};
ghost use Rattle.std.specs.String.{string_bytes};
ghost use Rattle.nodestore.specs.Lives.{life_line};

use names::reading::{after, number, split};
use names::{Life, NodeId};
use std::alloc::{AllocError, Global};

/// The number that stands behind `front` up to a mark, and the text behind that.
fn numbered<'a>(text: &'a str, front: &str, mark: char) -> Option<(u64, &'a str)>
    requires { mark < 48 }
    ensures found { IfSome result (λ x. text.now ≡ front.now ++ (decimal x.0 ++ mark ∷ x.1.now)) }
    ensures range { IfSome result (λ x. x.0 < 2 ^ 64) }
    ensures only { IfNone result ((n : ℕ) (rest : List ℕ) → n < 2 ^ 64 → text.now ≢ front.now ++ (decimal n ++ mark ∷ rest)) }
{
    let behind = after(text, front)?;
    let (digits, rest) = split(behind, mark)?;
    let n = number(digits)?;
    Some((n, rest))
}

/// The node and the life that a line says.
pub(crate) fn life_in(text: &str) -> Option<(NodeId, Life)>
    ensures found { IfSome result (λ said. text.now ≡ life_line said.0 said.1) }
    ensures only { IfNone result ((node : NodeId) (life : Life) → node.0 < 2 ^ 32 → life.0 < 2 ^ 64 → text.now ≢ life_line node life) }
{
    let (node, rest) = numbered(text, "node ", ' ')?;
    let (life, end) = numbered(rest, "life ", '\n')?;
    if node > u32::MAX as u64 {
        return None;
    }
    if !end.is_empty() {
        return None;
    }
    Some((NodeId(node as u32), Life(life)))
}

/// The line of a node and its life.
pub(crate) fn life_text(alloc: Global, node: NodeId, life: Life) -> Result<String, AllocError>
    ensures { IfOk result (λ text. string_bytes text ≡ life_line node life) }
{
    Ok(format!(in alloc; "node {} life {}\n", node.0, life.0)?)
}
