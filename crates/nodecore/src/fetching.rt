ghost use Rattle.std.specs.Prelude.{◌≡◌, ◌++◌, IfOk, OnOk};
ghost use Rattle.protocol.specs.Nodes.{fetches, fetches_of, is_missing};
ghost use Rattle.names.specs.Contents.{empty_digest};
ghost use Rattle.protocol.specs.Farm.{farm_limits};
ghost use Rattle.nodecore.specs.Shown.{shown, place};

use super::node_core::NodeCore;
use farm_base::{Digest, Fetch, GrantedSlot, Message, NodeId, ToNode, empty_digest};
use std::alloc::{AllocError, Global};

impl NodeCore {
    /// Adds a Fetch of the digest to each other node.
    fn push_fetches(&self, sends: &mut Vec<Message>, digest: Digest) -> Result<(), AllocError>
        ensures { OnOk result (sends.new.items ≡ sends.old.items ++ fetches_of (place self.now) digest) }
    {
        for number in 0..self.nodes {
            let node = NodeId(number + 1);
            if node != self.node {
                sends.push(Message::ToNode(ToNode::Fetch(Fetch {
                    node,
                    from: self.node,
                    digest,
                })))?;
            }
        }
        Ok(())
    }

    /// Whether the base of a slot has to be fetched.
    fn is_missing(&self, slot: &GrantedSlot, empty: Digest) -> bool
        requires { empty ≡ empty_digest }
        ensures { result ≡ is_missing farm_limits (shown self.now) slot.now }
    {
        slot.digest != empty && !self.contents.has(&slot.digest)
    }

    /// The Fetches of the missing bases, slots in order.
    pub(crate) fn fetches(
        &self,
        alloc: Global,
        slots: &[GrantedSlot],
    ) -> Result<Vec<Message>, AllocError>
        ensures { IfOk result (λ sends. sends.items ≡ fetches farm_limits (place self.now) (shown self.now) slots.now) }
    {
        let empty = empty_digest(alloc);
        let mut sends = Vec::new(alloc);
        for slot in slots {
            if self.is_missing(slot, empty) {
                self.push_fetches(&mut sends, slot.digest)?;
            }
        }
        Ok(sends)
    }
}
