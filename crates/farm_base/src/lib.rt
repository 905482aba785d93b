//! Wants, leases and messages of the build farm, over its names.
#![tactic(auto)]

pub mod laws;
mod lease;
mod left;
mod message;
mod want;

pub use lease::{Lease, LeaseKind, NodeLife, Parked};
pub use left::Left;
pub use message::{
    Confirmed, Fetch, FromCoord, Grant, GrantedSlot, LineVersion, Message, News, Request, ToCoord,
    ToNode, Version, Why,
};
pub use names::{
    Ask, BadDigestText, BadKeyText, Base, Content, Copied, Digest, EVENTS, FolderName,
    FolderRefusal, GREATEST, INSTANCES, Index, Items, Key, Life, Mode, NODES, NodeId, Slot,
    SlotRefusal, Text, Ticket, are_bytes, copy_all, empty_digest, reading,
};
pub use want::{Want, Wants, WantsRefusal};
