use events::NodeNote;
use farm_base::{Items, Message};

/// What a call did, and what the node sends.
#[derive(Drop)]
pub struct NodeDone {
    /// What happened at the node.
    pub note: NodeNote,
    /// The messages to send, in their order.
    pub sends: Items<Message>,
}
