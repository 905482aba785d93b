use super::answer::Kept;
use farm_base::{Content, Copied, Digest, FolderName, Items, Left, NodeId, Slot, Ticket, Wants};
use std::alloc::{AllocError, Global};

/// One thing that happens in a farm.
#[derive(Drop)]
pub enum Event {
    /// The node asks for a lease.
    Ask(NodeId, Wants),
    /// The node asks for the tenure of the SHARED folder of this name.
    Tenure(NodeId, FolderName),
    /// The message of this number arrives, for the first time or again.
    Deliver(u64),
    /// The node begins the execution that the ticket was granted for.
    Begin(NodeId, Ticket),
    /// The execution is over, and left these contents.
    Finish(NodeId, Ticket, Items<Left>),
    /// The node gives the lease back.
    Abort(NodeId, Ticket),
    /// The node sends again what was not answered.
    Resend(NodeId),
    /// The coordinator sends the Grant of each lease again.
    Nudge,
    /// The lease is withdrawn.
    Withdraw(Ticket),
    /// The slot's line begins anew: its next version is the empty content.
    Prune(Slot),
    /// The node is gone for good.
    Retire(NodeId),
    /// The node fails and starts again.
    RestartNode(NodeId),
    /// The coordinator fails and starts again, from its record.
    RestartCoordinator,
    /// A content that nobody sent arrives at the node.
    Forge(NodeId, Content),
    /// The node no longer stores the content of this digest.
    Forget(NodeId, Digest),
    /// The next save of the record will fail, and leave this in it.
    FailSave(Kept),
}

impl Copied for Event {
    fn copy(&self, alloc: Global) -> Result<Self, AllocError> {
        Ok(match self {
            Event::Ask(node, wants) => Event::Ask(*node, wants.copy(alloc)?),
            Event::Tenure(node, folder) => Event::Tenure(*node, folder.copy(alloc)?),
            Event::Deliver(message) => Event::Deliver(*message),
            Event::Begin(node, ticket) => Event::Begin(*node, *ticket),
            Event::Finish(node, ticket, lefts) => {
                Event::Finish(*node, *ticket, lefts.copy(alloc)?)
            }
            Event::Abort(node, ticket) => Event::Abort(*node, *ticket),
            Event::Resend(node) => Event::Resend(*node),
            Event::Nudge => Event::Nudge,
            Event::Withdraw(ticket) => Event::Withdraw(*ticket),
            Event::Prune(slot) => Event::Prune(slot.copy(alloc)?),
            Event::Retire(node) => Event::Retire(*node),
            Event::RestartNode(node) => Event::RestartNode(*node),
            Event::RestartCoordinator => Event::RestartCoordinator,
            Event::Forge(node, content) => Event::Forge(*node, content.copy(alloc)?),
            Event::Forget(node, digest) => Event::Forget(*node, *digest),
            Event::FailSave(kept) => Event::FailSave(*kept),
        })
    }
}
