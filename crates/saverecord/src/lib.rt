//! The record of what a coordinator has saved, and who keeps it.
#![tactic(auto)]

mod folded;
mod folding;
mod keeper;
pub mod laws;
mod log;
mod log_entry;
mod reading;
mod record;
mod refusal;
mod relation;
mod writing;

pub use events::Kept;
pub use farm_base::NodeLife;
pub use keeper::{Keeper, MemoryKeeper};
pub use log::Log;
pub use log_entry::LogEntry;
pub use record::Record;
pub use recordparts::{Flaw, RecordRefusal};
pub use refusal::{KeeperRefusal, SaveFault};
pub use versions::SlotLine;
