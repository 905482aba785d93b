//! A coordinator of the farm as a process that answers lines.
#![tactic(auto)]

mod carrying;
mod coordinator_filter;
pub mod laws;
mod needed;
mod printed;
mod printing;
mod reply;
mod showing;
mod status;

pub use coordinator_filter::CoordinatorFilter;
pub use reply::{Ended, Over, Reply};
