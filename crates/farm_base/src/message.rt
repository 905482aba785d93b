//! What the nodes and the coordinator tell each other.
ghost use Rattle.std.specs.Prelude.{◌≡◌};
ghost use Rattle.farm_base.specs.Receivers.{told_to, told_life, receiver};

use super::lease::LeaseKind;
use super::want::Wants;
use names::{Ask, Content, Copied, Digest, Items, Life, NodeId, Slot, Ticket};
use std::alloc::{AllocError, Global};

/// A version of a slot. Version 0 of each slot is the empty folder.
#[derive(Drop, PartialEq, Eq, PartialOrd, Ord, Hash)]
pub struct Version {
    pub slot: Slot,
    pub number: u64,
}

/// A version as its slot's line has it.
#[derive(Clone, Copy)]
pub struct LineVersion {
    /// The ticket under which it was added.
    pub ticket: Ticket,
    pub digest: Digest,
}

/// What a commit leaves in a slot.
#[derive(Drop)]
pub struct News {
    pub slot: Slot,
    pub digest: Digest,
}

/// A slot of a grant, with the version that its holder begins from.
#[derive(Drop)]
pub struct GrantedSlot {
    pub slot: Slot,
    pub writable: bool,
    /// The number of the slot's last version when the grant was made.
    pub base: u64,
    /// The digest of that version.
    pub digest: Digest,
}

/// A version that a commit added.
#[derive(Drop)]
pub struct Confirmed {
    pub slot: Slot,
    pub number: u64,
    pub digest: Digest,
}

/// What a node says to the coordinator.
#[derive(Drop)]
pub enum Request {
    /// This life of the node has begun.
    Hello,
    /// The node asks for a lease, or for the tenure of a SHARED folder.
    Acquire {
        ask: Ask,
        wants: Wants,
        tenure: bool,
    },
    /// The node's execution is over, and left these contents.
    Commit {
        ticket: Ticket,
        news: Items<News>,
    },
    /// The node gives a lease back.
    Release {
        ticket: Ticket,
    },
}

/// A message to the coordinator, from one life of a node.
#[derive(Drop)]
pub struct ToCoord {
    pub node: NodeId,
    pub life: Life,
    pub request: Request,
}

/// A lease, as its holder hears of it.
#[derive(Drop)]
pub struct Grant {
    pub ticket: Ticket,
    pub node: NodeId,
    pub life: Life,
    pub ask: Ask,
    pub kind: LeaseKind,
    /// The slots, rising.
    pub slots: Items<GrantedSlot>,
}

/// Why an ask is denied.
#[derive(Clone, Copy, PartialEq, Eq)]
pub enum Why {
    /// A PRIVATE folder has no instance left.
    InstancesSpent,
    /// The last ticket has been given.
    TicketsSpent,
}

/// A message from the coordinator to one life of a node.
#[derive(Drop)]
pub enum FromCoord {
    Granted(Grant),
    /// The commit under this ticket counts, and added these versions.
    Committed {
        node: NodeId,
        life: Life,
        ticket: Ticket,
        versions: Items<Confirmed>,
    },
    /// The commit under this ticket does not count.
    Fenced {
        node: NodeId,
        life: Life,
        ticket: Ticket,
    },
    Denied {
        node: NodeId,
        life: Life,
        ask: Ask,
        why: Why,
    },
    /// Another node asks for the tenure that is held under this ticket.
    Recall {
        node: NodeId,
        life: Life,
        ticket: Ticket,
    },
}

/// A node asks another one for a content.
#[derive(Clone, Copy)]
pub struct Fetch {
    /// The node that is asked.
    pub node: NodeId,
    /// The node that asks.
    pub from: NodeId,
    pub digest: Digest,
}

/// A message to a node.
#[derive(Drop)]
pub enum ToNode {
    FromCoord(FromCoord),
    Fetch(Fetch),
    /// A content that the node has asked for.
    Blob { node: NodeId, content: Content },
}

/// A message of the farm.
#[derive(Drop)]
pub enum Message {
    ToCoord(ToCoord),
    ToNode(ToNode),
}

impl FromCoord {
    /// The node that it is for.
    pub fn node(&self) -> NodeId
        ensures { result ≡ told_to self.now }
    {
        match self {
            FromCoord::Granted(grant) => grant.node,
            FromCoord::Committed { node, .. } => *node,
            FromCoord::Fenced { node, .. } => *node,
            FromCoord::Denied { node, .. } => *node,
            FromCoord::Recall { node, .. } => *node,
        }
    }

    /// The life of the node that it is for. A node that is in another life drops it.
    pub fn life(&self) -> Life
        ensures { result ≡ told_life self.now }
    {
        match self {
            FromCoord::Granted(grant) => grant.life,
            FromCoord::Committed { life, .. } => *life,
            FromCoord::Fenced { life, .. } => *life,
            FromCoord::Denied { life, .. } => *life,
            FromCoord::Recall { life, .. } => *life,
        }
    }
}

impl ToNode {
    /// The node that it is for.
    pub fn node(&self) -> NodeId
        ensures { result ≡ receiver self.now }
    {
        match self {
            ToNode::FromCoord(told) => told.node(),
            ToNode::Fetch(fetch) => fetch.node,
            ToNode::Blob { node, .. } => *node,
        }
    }
}

impl Copied for Version {
    fn copy(&self, alloc: Global) -> Result<Self, AllocError> {
        Ok(Version {
            slot: self.slot.copy(alloc)?,
            number: self.number,
        })
    }
}

impl Copied for News {
    fn copy(&self, alloc: Global) -> Result<Self, AllocError> {
        Ok(News {
            slot: self.slot.copy(alloc)?,
            digest: self.digest,
        })
    }
}

impl Copied for GrantedSlot {
    fn copy(&self, alloc: Global) -> Result<Self, AllocError> {
        Ok(GrantedSlot {
            slot: self.slot.copy(alloc)?,
            writable: self.writable,
            base: self.base,
            digest: self.digest,
        })
    }
}

impl Copied for Confirmed {
    fn copy(&self, alloc: Global) -> Result<Self, AllocError> {
        Ok(Confirmed {
            slot: self.slot.copy(alloc)?,
            number: self.number,
            digest: self.digest,
        })
    }
}

impl Copied for Request {
    fn copy(&self, alloc: Global) -> Result<Self, AllocError> {
        Ok(match self {
            Request::Hello => Request::Hello,
            Request::Acquire { ask, wants, tenure } => Request::Acquire {
                ask: *ask,
                wants: wants.copy(alloc)?,
                tenure: *tenure,
            },
            Request::Commit { ticket, news } => Request::Commit {
                ticket: *ticket,
                news: news.copy(alloc)?,
            },
            Request::Release { ticket } => Request::Release { ticket: *ticket },
        })
    }
}

impl Copied for ToCoord {
    fn copy(&self, alloc: Global) -> Result<Self, AllocError> {
        Ok(ToCoord {
            node: self.node,
            life: self.life,
            request: self.request.copy(alloc)?,
        })
    }
}

impl Copied for Grant {
    fn copy(&self, alloc: Global) -> Result<Self, AllocError> {
        Ok(Grant {
            ticket: self.ticket,
            node: self.node,
            life: self.life,
            ask: self.ask,
            kind: self.kind,
            slots: self.slots.copy(alloc)?,
        })
    }
}

impl Copied for FromCoord {
    fn copy(&self, alloc: Global) -> Result<Self, AllocError> {
        Ok(match self {
            FromCoord::Granted(grant) => FromCoord::Granted(grant.copy(alloc)?),
            FromCoord::Committed {
                node,
                life,
                ticket,
                versions,
            } => FromCoord::Committed {
                node: *node,
                life: *life,
                ticket: *ticket,
                versions: versions.copy(alloc)?,
            },
            FromCoord::Fenced { node, life, ticket } => FromCoord::Fenced {
                node: *node,
                life: *life,
                ticket: *ticket,
            },
            FromCoord::Denied {
                node,
                life,
                ask,
                why,
            } => FromCoord::Denied {
                node: *node,
                life: *life,
                ask: *ask,
                why: *why,
            },
            FromCoord::Recall { node, life, ticket } => FromCoord::Recall {
                node: *node,
                life: *life,
                ticket: *ticket,
            },
        })
    }
}
