use coordinator::Handled;
use events::CoordRefusal;
use farm_base::{Items, Life, NodeId, Ticket};

/// Why a process isn't heard.
#[derive(Clone, Copy)]
pub enum Over {
    /// A later life of its node was seen: this is the greatest.
    Outdated(NodeId, Life),
    /// Its node is retired.
    Gone(NodeId),
}

/// A lease that a call ends.
#[derive(Clone, Copy)]
pub struct Ended {
    pub ticket: Ticket,
    pub node: NodeId,
}

/// What came of a call.
#[derive(Drop)]
pub struct Reply {
    /// The restart before it, where the coordinator was down.
    pub before: Option<Result<(), CoordRefusal>>,
    /// The leases that the call ends, unless it is refused.
    pub ended: Items<Ended>,
    pub answer: Result<Handled, CoordRefusal>,
    /// The process whose message was not heard, if it was not.
    pub over: Option<Over>,
    /// The restart after it, where the save failed.
    pub after: Option<Result<(), CoordRefusal>>,
}
