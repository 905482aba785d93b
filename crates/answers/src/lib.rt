//! What the program answers for the bytes of a file: a definition, a record or a schedule. Nothing here reads a file, prints or
//! runs a farm on threads.
#![tactic(auto)]

mod answered;
mod command;
mod definition;
mod drawing;
mod explanation;
mod failure;
mod line_fault;
mod printing;
mod record;
mod replaying;
mod wants;

pub use answered::{Answer, RefusedEvent};
pub use command::{Command, answer};
pub use definition::graph_of;
pub use draw::Range;
pub use explanation::{Explanation, events_told, explained};
pub use failure::Failure;
pub use record::whole_of;
pub use replaying::replayed;
