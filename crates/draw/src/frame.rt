//! What the picture knows of one event.
use farm_base::{Items, Text};

/// A live lease: its ticket, and the lifeline that holds it.
#[derive(Clone, Copy)]
pub struct Held {
    pub ticket: u64,
    pub node: u32,
}

/// A message that was sent: its number, and the lifeline that it is for.
#[derive(Clone, Copy)]
pub struct Sent {
    pub number: u64,
    pub to: u32,
}

/// What the picture shows of an outcome.
#[derive(Clone, Copy)]
pub enum Done {
    Refused,
    SaveFailed,
    /// The next save will fail.
    Armed,
    /// The coordinator or a node started again.
    Started,
    Committed(u64),
    Released(u64),
    Withdrawn(u64),
    /// The execution under this ticket begins.
    Begun(u64),
    /// It finished or was aborted.
    Over(u64),
    Other,
}

/// One event, as the picture sees it.
#[derive(Drop)]
pub struct Frame {
    /// What is printed of it.
    pub words: Text,
    /// The lifeline that it is on: 0 for the coordinator, else the node's number.
    pub actor: u32,
    pub done: Done,
    /// The number of the message that it took.
    pub taken: Option<u64>,
    pub sent: Items<Sent>,
    /// The leases that are live after it.
    pub live: Items<Held>,
}
