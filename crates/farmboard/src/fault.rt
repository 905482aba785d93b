use events::Kept;
use farm_base::{Content, NodeId, Slot, Ticket};

/// A step by which a farm is disturbed.
#[derive(Drop)]
pub enum FarmStep {
    /// The next message isn't delivered, unless `Again` names it.
    Skip,
    /// The message of this number is delivered, for the first time or again.
    Again(u64),
    Resend(NodeId),
    Nudge,
    Withdraw(Ticket),
    Prune(Slot),
    Retire(NodeId),
    RestartNode(NodeId),
    RestartCoordinator,
    FailSave(Kept),
    Forge(NodeId, Content),
}
