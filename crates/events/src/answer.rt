//! What the calls of coordinator, nodes and world answer.
use farm_base::{Ask, Confirmed, Copied, Grant, Items, Life, NodeId, Ticket, Why};
use std::alloc::{AllocError, Global};
use std::fmt;
use thiserror::Error;

/// What the coordinator did.
pub enum CoordNote {
    Granted(Grant),
    /// The lease of this ask is live: its Grant is sent again.
    GrantedBefore(Grant),
    Parked,
    Committed(Ticket),
    /// The ticket's versions stand on their lines already.
    CommittedBefore(Ticket),
    Fenced(Ticket),
    Released(Ticket),
    Denied(Why),
    /// The message is of an older life of its node.
    OldLife,
    /// The message is of a retired node.
    NodeRetired,
    Withdrawn(Ticket),
    Pruned(Ticket),
    Retired(NodeId),
    Nudged,
    Nothing,
}

// By hand, so that letting go of one is one step of a proof.
impl Drop for CoordNote {
    fn drop(self) {
        match self {
            Self::Granted(_)
            | Self::GrantedBefore(_)
            | Self::Parked
            | Self::Committed(_)
            | Self::CommittedBefore(_)
            | Self::Fenced(_)
            | Self::Released(_)
            | Self::Denied(_)
            | Self::OldLife
            | Self::NodeRetired
            | Self::Withdrawn(_)
            | Self::Pruned(_)
            | Self::Retired(_)
            | Self::Nudged
            | Self::Nothing => {}
        }
    }
}

/// Why the coordinator refused a call. What is refused changes nothing, but for `SaveFault`.
#[derive(Clone, Copy, Debug, PartialEq, Eq, Error)]
pub enum CoordRefusal {
    Down,
    SaveFault,
    BadRecord,
    NotLive,
    SlotLeased,
    NoSuchSlot,
    TicketsSpent,
    OutOfMemory,
    LoadFault,
    Tenure,
    TenureHeld,
    NodeRetired,
}

impl fmt::Display for CoordRefusal {
    fn fmt<W: fmt::Write>(&self, f: &mut fmt::Formatter<W>) -> fmt::Result {
        f.write_str(match self {
            CoordRefusal::Down => "the coordinator is down",
            CoordRefusal::SaveFault =>
                "the record could not be saved: the coordinator is down until it is restarted",
            CoordRefusal::BadRecord => "the record is no record",
            CoordRefusal::NotLive => "no live lease has the ticket",
            CoordRefusal::SlotLeased => "the slot is leased",
            CoordRefusal::NoSuchSlot => "the slot has no version",
            CoordRefusal::TicketsSpent => "the greatest ticket was given",
            CoordRefusal::OutOfMemory => "out of memory",
            CoordRefusal::LoadFault => "the record could not be loaded",
            CoordRefusal::Tenure => "the ticket is a tenure's",
            CoordRefusal::TenureHeld => "the node holds a tenure or is the old home",
            CoordRefusal::NodeRetired => "the node is retired",
        })
    }
}

/// What a node did.
pub enum NodeNote {
    Asked(Ask),
    Begun(Ticket),
    Finished(Ticket),
    Aborted(Ticket),
    Resent,
    Life(Life),
    Took(Grant),
    GaveBack(Ticket),
    Learned(Ticket),
    Dropped(Ticket),
    Denied(Why),
    Recalled(Ticket),
    SentBlob,
    BlobTaken,
    /// The content is no longer stored.
    Forgot,
    /// The message is for an older life of this node.
    OldLife,
    Nothing,
}

// By hand, so that letting go of one is one step of a proof.
impl Drop for NodeNote {
    fn drop(self) {
        match self {
            Self::Asked(_)
            | Self::Begun(_)
            | Self::Finished(_)
            | Self::Aborted(_)
            | Self::Resent
            | Self::Life(_)
            | Self::Took(_)
            | Self::GaveBack(_)
            | Self::Learned(_)
            | Self::Dropped(_)
            | Self::Denied(_)
            | Self::Recalled(_)
            | Self::SentBlob
            | Self::BlobTaken
            | Self::Forgot
            | Self::OldLife
            | Self::Nothing => {}
        }
    }
}

/// Why a node refused a call. What is refused changes nothing, but for `LivesSpent`.
#[derive(Clone, Copy, Debug, PartialEq, Eq, Error)]
pub enum NodeRefusal {
    NotHomeHere,
    NoSuchTicket,
    ContentsMissing,
    WrongNews,
    NotRunning,
    LivesSpent,
    AsksSpent,
    OutOfMemory,
    TenureHere,
    TenureInUse,
    NoSuchContent,
    Needed,
}

impl fmt::Display for NodeRefusal {
    fn fmt<W: fmt::Write>(&self, f: &mut fmt::Formatter<W>) -> fmt::Result {
        f.write_str(match self {
            NodeRefusal::NotHomeHere => "a SHARED folder's tenure is not in use on this node",
            NodeRefusal::NoSuchTicket => "no ask has the ticket",
            NodeRefusal::ContentsMissing => "a base content is not stored here",
            NodeRefusal::WrongNews => "the news are not for exactly the writable slots",
            NodeRefusal::NotRunning => "no execution runs under the ticket",
            NodeRefusal::LivesSpent => "the greatest life has begun: the node is down for good",
            NodeRefusal::AsksSpent => "the greatest ask was made",
            NodeRefusal::OutOfMemory => "out of memory",
            NodeRefusal::TenureHere => "an ask of this node is the folder's tenure",
            NodeRefusal::TenureInUse => "an ask of this node uses the tenure's folder",
            NodeRefusal::NoSuchContent =>
                "no content that may be forgotten is stored under the digest",
            NodeRefusal::Needed => "an ask of this node needs the content",
        })
    }
}

/// What is done with an ask.
#[derive(Clone, Copy)]
pub enum Decision {
    Give,
    Deny(Why),
    /// It waits for a slot, or for another node's tenure to end.
    Wait,
}

/// How an ask ended, and what came of it.
#[derive(Drop)]
pub enum How {
    Denied(Why),
    /// The news count: these versions were made of them.
    Committed {
        ticket: Ticket,
        versions: Items<Confirmed>,
    },
    /// The news don't count.
    Fenced(Ticket),
    /// The lease was given back.
    Released(Ticket),
}

impl Copied for How {
    fn copy(&self, alloc: Global) -> Result<Self, AllocError> {
        Ok(match self {
            How::Denied(why) => How::Denied(*why),
            How::Committed { ticket, versions } => How::Committed {
                ticket: *ticket,
                versions: versions.copy(alloc)?,
            },
            How::Fenced(ticket) => How::Fenced(*ticket),
            How::Released(ticket) => How::Released(*ticket),
        })
    }
}

/// What a record holds after a save that failed.
#[derive(Clone, Copy)]
pub enum Kept {
    /// What it held before.
    Old,
    /// What was to be saved.
    New,
}

/// What an event of the world did.
pub enum EventNote {
    Coord(CoordNote),
    Node(NodeNote),
    /// The coordinator restarted.
    Restarted,
    /// The next save will fail.
    Armed,
}

// By hand, so that letting go of one is one step of a proof.
impl Drop for EventNote {
    fn drop(self) {
        match self {
            Self::Coord(_) | Self::Node(_) | Self::Restarted | Self::Armed => {}
        }
    }
}

/// An accepted event: what it did, and the messages that it sent.
#[derive(Drop)]
pub struct Outcome {
    pub note: EventNote,
    /// The number of the first message sent, 0 where none was.
    pub first: u64,
    /// How many messages were sent.
    pub sent: u64,
}

/// Why an event was refused.
#[derive(Clone, Copy, Debug, PartialEq, Eq, Error)]
pub enum EventRefusal {
    NoSuchMessage,
    NoSuchNode,
    Node(NodeRefusal),
    Coord(CoordRefusal),
    OutOfMemory,
}

impl fmt::Display for EventRefusal {
    fn fmt<W: fmt::Write>(&self, f: &mut fmt::Formatter<W>) -> fmt::Result {
        f.write_str(match self {
            EventRefusal::NoSuchMessage => "no message has the number",
            EventRefusal::NoSuchNode => "no node has the number",
            EventRefusal::Node(refusal) => return refusal.fmt(f),
            EventRefusal::Coord(refusal) => return refusal.fmt(f),
            EventRefusal::OutOfMemory => "out of memory",
        })
    }
}
