//! The lifelines that are drawn.
ghost use Rattle.std.specs.Prelude.{◌≡◌, ◌<◌, ◌^◌, IfOk};
ghost use Rattle.std.specs.List.{list_any};
ghost use Rattle.draw.specs.Lifelines.{is_to, is_in, lines_of};

use super::frame::{Frame, Sent};
use farm_base::Items;
use std::alloc::{AllocError, Global};

/// Whether one of these messages is for a node.
fn is_sent_to(node: u32, sent: &[Sent]) -> bool
    ensures { result ≡ list_any (is_to node) sent.now }
{
    sent.iter().any(|message| message.to == node)
}

/// Whether a node does something, or is sent something.
fn is_in(node: u32, frame: &Frame) -> bool
    ensures { result ≡ is_in node frame.now }
{
    frame.actor == node || is_sent_to(node, frame.sent.as_slice())
}

/// Whether a node is in one of these frames.
fn is_in_any(node: u32, frames: &[Frame]) -> bool
    ensures { result ≡ list_any (is_in node) frames.now }
{
    for frame in frames {
        if is_in(node, frame) {
            return true;
        }
    }
    false
}

/// The lifelines that are drawn.
pub(crate) fn lines_of(
    alloc: Global,
    nodes: u32,
    frames: &[Frame],
) -> Result<Items<u32>, AllocError>
    requires { nodes < 2 ^ 31 }
    ensures { IfOk result (λ lines. lines ≡ lines_of nodes frames.now) }
{
    let mut lines = vec![in alloc; 0u32]?;
    for place in 0..nodes {
        if is_in_any(place + 1, frames) {
            lines.push(place + 1)?;
        }
    }
    Ok(Items::new(lines))
}
