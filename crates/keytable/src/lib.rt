//! The keys that were submitted: who takes whose outputs, which keys fail and why, and what a graph adds.
#![tactic(auto)]

mod adding;
mod blaming;
mod cause;
mod entry;
mod marking;
mod needing;
mod outputs;
mod reaching;
mod table;
mod users;

pub use adding::add_all;
pub use blaming::cause_of;
pub use cause::Cause;
pub use entry::{Entry, Fault, Progress};
pub use marking::{mark_new, settle, spread};
pub use needing::last_needed;
pub use outputs::{output_at, output_of, outputs_of};
pub use reaching::reached;
pub use table::Table;
pub use users::{Link, Users};
