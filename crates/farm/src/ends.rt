//! What a run leaves.
use super::solved::FailedJob;
use events::Event;
use executions::Executor;
use farmboard::Receipt;
use jobs::Answer;
use solving::FarmFault;

/// What a run of many executors leaves.
#[derive(Drop)]
pub struct FarmEnd {
    /// The answer of each job, in their order.
    pub answers: Vec<Answer>,
    /// Each job that failed, in their order.
    pub causes: Vec<FailedJob>,
    /// How many grants ended as committed.
    pub commits: u64,
    /// Those of the executions and tenures that left versions.
    pub receipts: Vec<Receipt>,
    /// The record of the coordinator, as bytes.
    pub saved: Vec<u8>,
    pub schedule: Vec<Event>,
    /// In the order in which they were handed in.
    pub executors: Vec<Box<dyn Executor + Send>>,
}

/// What stands of a run that a fault ended.
#[derive(Drop)]
pub struct FarmLeft {
    /// How many grants ended as committed.
    pub commits: u64,
    /// Those of the executions and tenures that left versions, and whose end was seen.
    pub receipts: Vec<Receipt>,
    /// The record of the coordinator, as bytes.
    pub saved: Vec<u8>,
    pub schedule: Vec<Event>,
    /// The first ones, in the order in which they were handed in: all, unless a thread could not be started.
    pub executors: Vec<Box<dyn Executor + Send>>,
}

/// How a run ends without its answers.
#[derive(Drop)]
pub struct FarmStop {
    pub fault: FarmFault,
    /// What stands. None where nothing was begun, where memory ran out for it, or where it doesn't agree.
    pub left: Option<FarmLeft>,
}
