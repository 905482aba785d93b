//! What a run of one executor leaves.
use events::Event;
use jobs::Answer;

/// What a run of one executor leaves.
#[derive(Drop)]
pub struct OneEnd {
    /// The answer of each job, in their order.
    pub answers: Vec<Answer>,
    /// How many commits were accepted.
    pub commits: u64,
    pub schedule: Vec<Event>,
}
