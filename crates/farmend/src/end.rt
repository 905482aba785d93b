//! What a run leaves.
use events::Event;
use executions::{Board, Receipt};
use jobs::Answer;

/// What the threads of a run hand back, beside their executors.
#[derive(Drop)]
pub struct HandedBack {
    pub board: Board,
    /// Those of the executions that left versions.
    pub receipts: Vec<Receipt>,
    /// The answer of each job, in their order.
    pub answers: Vec<Answer>,
}

/// What a run leaves, beside its executors.
#[derive(Drop)]
pub struct RunEnd {
    /// The answer of each job, in their order.
    pub answers: Vec<Answer>,
    /// How many grants ended as committed.
    pub commits: u64,
    pub receipts: Vec<Receipt>,
    /// The record of the coordinator, as bytes.
    pub saved: Vec<u8>,
    pub schedule: Vec<Event>,
}

/// What stands of a run that a fault ended, beside its executors.
#[derive(Drop)]
pub struct Standing {
    /// How many grants ended as committed.
    pub commits: u64,
    pub receipts: Vec<Receipt>,
    /// The record of the coordinator, as bytes.
    pub saved: Vec<u8>,
    pub schedule: Vec<Event>,
}
