//! How much a node sends.
ghost use Rattle.std.specs.Prelude.{◌≡◌, ◌<◌, ◌≤◌, ◌*◌, length, max, min};
ghost use Rattle.nodecore.specs.Shown.{granted_slots, message_work, place, shown};

use super::node_core::NodeCore;
use farm_base::{FromCoord, GrantedSlot, ToNode};

/// The slots of the lease that a message grants.
fn granted_slots(message: &ToNode) -> &[GrantedSlot]
    ensures { result.now ≡ granted_slots message.now }
{
    match message {
        ToNode::FromCoord(FromCoord::Granted(grant)) => grant.slots.as_slice(),
        _ => &[],
    }
}

impl NodeCore {
    /// How many messages this one makes the node send, at most.
    pub fn most_sends(&self, message: &ToNode) -> usize
        ensures most { result < 0xffff_ffff_ffff_ffff → length (message_work (place self.now) (shown self.now) message.now).sends ≤ result }
        ensures value { result ≡ max 1 (min (length (granted_slots message.now) * (place self.now).nodes) 0xffff_ffff_ffff_ffff) }
    {
        let slots = granted_slots(message).len();
        slots.saturating_mul(self.nodes as usize).max(1)
    }
}
