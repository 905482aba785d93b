//! The live leases and the retired slots of a table, with the indexes that find one of them without a look at all.
#![tactic(auto)]

mod ending;
mod folder_index;
mod held;
mod instances;
mod lease_counts;
mod live_leases;
mod marks;
mod retired_slots;
mod taken_instances;

pub use held::{first_of, has_only, is_of, takes};
pub use instances::Instances;
pub use live_leases::{Entries, LiveLeases};
pub use marks::{mark_all, mark_leased};
pub use retired_slots::RetiredSlots;
