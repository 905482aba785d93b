//! The Denied messages of a farm.
ghost use Rattle.std.specs.Prelude.{IsTrue};
ghost use Rattle.executions.specs.Shown.{shown};
ghost use Rattle.reasons.specs.Answers.{IsDenial, WasDenied};

use executions::World;
use farm_base::{FromCoord, Message, NodeId, ToNode};

/// Whether a message denies an ask of the node.
fn is_denial(message: &Message, node: NodeId) -> bool
    ensures { IsTrue result → IsDenial node message.now }
{
    match message {
        Message::ToNode(ToNode::FromCoord(FromCoord::Denied { node: asker, .. })) => *asker == node,
        _ => false,
    }
}

/// Whether an ask of the node was denied.
pub(crate) fn was_denied(world: &World, node: NodeId) -> bool
    ensures { IsTrue result → WasDenied (shown world.now) node }
{
    for place in 0..world.pool_len() {
        if let Some(message) = world.message(place + 1) {
            if is_denial(message, node) {
                return true;
            }
        }
    }
    false
}
