//! A farm that solves jobs: by one executor in one thread, or by many, a thread for each.
#![tactic(auto)]

mod bell;
mod closing;
mod common;
mod down;
mod ends;
mod faults;
mod locked_board;
mod many;
mod node_state;
mod one;
mod open_folders;
mod opening;
mod plan;
mod router;
mod signals;
mod solved;
mod threads;
mod worker;
mod worker_steps;

pub use down::DownCount;
pub use ends::{FarmEnd, FarmLeft, FarmStop};
pub use executions::{Executor, Gate, OpenGate};
pub use one::Farm;
pub use solved::FailedJob;
pub use solving::{FarmFault, OneEnd};
