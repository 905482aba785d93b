//! A farm of nodes and their coordinator over a network that loses, repeats and reorders: its events, one by one.
#![tactic(auto)]

mod call;
pub mod laws;
mod nodes;
mod parts;
mod pool;
mod printing;
mod replaying;
mod world;

pub use events::{EventNote, EventRefusal, Outcome};
pub use farm_base::{Message, ToNode};
pub use printing::print_lines;
pub use replaying::{ReplayRefusal, replay};
pub use schedule::{Event, ScheduleRefusal, Setup, print_note, print_outcome, read_schedule};
pub use world::{StartRefusal, World};
