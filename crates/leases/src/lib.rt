//! The table of leases, and the changes of an event over it.
#![tactic(auto)]

mod changes;
mod held;
pub mod laws;
mod lease_table;
mod own_coordinator;
mod room;
mod saved;
mod slots;
mod view;

pub use changes::TableChange;
pub use held::holds_wanted;
pub use lease_table::{Fit, LeaseTable, SlotState};
pub use room::TableWithRoom;
pub use view::TableView;
