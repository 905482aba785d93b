//! Jobs to their answers in one thread, and the way of an execution that all runs share.
#![tactic(auto)]

mod answers;
mod driver;
mod ends;
mod fault;
mod faults;
mod lease;
mod one;
mod run;
mod setups;
mod steps;
mod work;

pub use answers::{answer_of, cause_of};
pub use driver::{Ground, solve};
pub use ends::OneEnd;
pub use fault::FarmFault;
pub use faults::{board_fault, jobs_fault, shared_fault, start_fault};
pub use lease::{Lease, Reply};
pub use one::run_one;
pub use run::{apply_shared, give_up_all, lefts_of, views_of};
pub use setups::{beside_setup, is_staffed};
pub use steps::tenure_of;
pub use work::{Work, shared_folders};
