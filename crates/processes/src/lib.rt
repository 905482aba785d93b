//! The programs around the filters, and around a merge: their keys, their locks and their files, and what is said where one of these is
//! at fault.
#![tactic(auto)]

mod calls;
mod coordinator_process;
mod fault;
mod files;
mod kept;
pub mod laws;
mod merge_process;
mod node_process;

pub use calls::{carry_out, run};
pub use coordinator_process::{run_coordinator, serve_coordinator};
pub use fault::{Cause, ProcessFault};
pub use files::{key_of, lock_of, node_key_of};
pub use merge_process::{run_merge, write_merge};
pub use node_process::{run_node, serve_node};

/// How long a line may be, with its end and the `m ` of what came from outside.
const LONGEST_LINE: usize = farmwire::LINE_LIMIT + 2;
