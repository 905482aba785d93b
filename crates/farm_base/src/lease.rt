//! What the coordinator keeps for an ask: the lease that was granted, or the ask while it waits.
ghost use Rattle.std.specs.Prelude.{◌≡◌};
ghost use Rattle.farm_base.specs.Kinds.{is_tenure, kind_of};

use super::want::Wants;
use names::{Ask, Copied, Items, Life, NodeId, Slot, Ticket};
use std::alloc::{AllocError, Global};

/// What a lease is given for.
#[derive(Clone, Copy)]
pub enum LeaseKind {
    /// An execution that uses no SHARED folder.
    Plain,
    /// An execution that uses a SHARED folder, on the node that has the folder's tenure.
    Shared,
    /// The tenure of a SHARED folder.
    Tenure,
}

impl LeaseKind {
    /// The kind of a lease, by whether its wants have a SHARED folder and whether it is a tenure.
    pub fn of(shared: bool, tenure: bool) -> LeaseKind
        ensures { result ≡ kind_of shared tenure }
    {
        match (shared, tenure) {
            (_, true) => LeaseKind::Tenure,
            (true, false) => LeaseKind::Shared,
            (false, false) => LeaseKind::Plain,
        }
    }

    pub fn is_tenure(self) -> bool
        ensures { result ≡ is_tenure self }
    {
        self == LeaseKind::Tenure
    }
}

/// A lease that was granted and has not ended.
#[derive(Drop)]
pub struct Lease {
    pub ticket: Ticket,
    pub node: NodeId,
    pub life: Life,
    pub ask: Ask,
    /// Whether the wants have a SHARED folder.
    pub shared: bool,
    /// Whether the lease is the tenure of a SHARED folder.
    pub tenure: bool,
    /// The slots, rising, and whether each may be written.
    pub slots: Items<(Slot, bool)>,
}

/// The greatest life seen of a node.
#[derive(Clone, Copy)]
pub struct NodeLife {
    pub node: NodeId,
    pub life: Life,
}

/// An ask that waits for a slot or a tenure.
#[derive(Drop)]
pub struct Parked {
    pub node: NodeId,
    pub life: Life,
    pub ask: Ask,
    pub wants: Wants,
    pub tenure: bool,
}

impl Copied for Lease {
    fn copy(&self, alloc: Global) -> Result<Self, AllocError> {
        Ok(Lease {
            ticket: self.ticket,
            node: self.node,
            life: self.life,
            ask: self.ask,
            shared: self.shared,
            tenure: self.tenure,
            slots: self.slots.copy(alloc)?,
        })
    }
}

impl Copied for Parked {
    fn copy(&self, alloc: Global) -> Result<Self, AllocError> {
        Ok(Parked {
            node: self.node,
            life: self.life,
            ask: self.ask,
            wants: self.wants.copy(alloc)?,
            tenure: self.tenure,
        })
    }
}
