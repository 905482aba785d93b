//! The coordinator's decisions.
#![tactic(auto)]

mod coordinator;
pub mod laws;
mod preparing;

pub use coordinator::{Coordinator, NotStarted};
pub use events::{CoordNote, CoordRefusal};
pub use leases::SlotState;
pub use ledger::Handled;
