//! What a line asks of a coordinator.
use farm_base::{NodeId, Slot, Ticket, ToCoord};

/// What a coordinator is asked to do.
#[derive(Drop)]
pub enum Call {
    /// A node says this.
    Handle(ToCoord),
    Withdraw(Ticket),
    Retire(NodeId),
    Prune(Slot),
    Nudge,
}

/// What the operator may be shown.
#[derive(Drop)]
pub enum Question {
    /// The versions of this slot.
    Line(Slot),
    /// Who holds which slots, who waits, and the rest of what the coordinator keeps.
    Status,
    /// The contents that must not be forgotten.
    Needed,
}

/// What a line asks for.
#[derive(Drop)]
pub enum Order {
    Call(Call),
    Show(Question),
}
