//! What a coordinator keeps, and how it is saved.
#![tactic(auto)]

mod handled;
mod ledger;
mod nodes;
mod record;
mod table_room;
mod text;

pub use handled::{Handled, is_save_fault};
pub use ledger::Ledger;
pub use saverecord::{Keeper, MemoryKeeper, SaveFault};
