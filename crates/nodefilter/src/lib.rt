//! A node of the farm as a process that answers lines.
#![tactic(auto)]

mod asking;
mod carrying;
mod filter;
pub mod laws;
mod starting;

pub use filter::NodeFilter;
pub use starting::{Origin, StartFault, Started, start};
