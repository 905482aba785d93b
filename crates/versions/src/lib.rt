//! The line of versions of a slot, the lines of all slots, and what a commit adds to them.
#![tactic(auto)]

mod line;
mod lines;
mod probes;

pub use line::{Line, Room};
pub use lines::{
    Added, Addition, Lines, SlotLine, additions, all_stand, confirmed, granted_slots, last_digest,
};
pub use probes::{LineProbes, Probed, search};
