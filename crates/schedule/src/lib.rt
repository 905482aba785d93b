//! The language of schedules: the text that spells a farm's events, and the text of what came of them.
#![tactic(auto)]

mod fault;
pub mod laws;
mod line;
mod line_fault;
mod note;
mod outcome;
mod reading;
mod refusal;
mod refusal_names;
mod setup;
mod slot_line;
mod verb;
mod word;
mod word_fault;

pub use events::Event;
pub use fault::{FormFault, LineFault, Spacing, WordFault};
pub use line_fault::fault_of;
pub use note::print_note;
pub use outcome::print_outcome;
pub use reading::read_schedule;
pub use refusal::ScheduleRefusal;
pub use refusal_names::refusal_name;
pub use setup::Setup;
pub use slot_line::print_line;
pub use verb::{Form, VERBS, Verb, Wanted};
