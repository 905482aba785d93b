//! Jobs that share one table of solver keys: which key can be solved next, and the answer of each job.
#![tactic(auto)]

mod adding;
mod answer;
mod jobs;
mod known_keys;
pub mod laws;
mod ready;
mod ready_list;
mod settling;
mod task;

pub use answer::{Answer, JobId, JobsRefusal};
pub use jobs::Jobs;
pub use keytable::{Cause, Fault};
pub use task::Task;
