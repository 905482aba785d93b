//! The commands `coordinator`, `node` and `merge`: their words, and with which statuses and lines a program ends.
#![tactic(auto)]

mod command_words;
mod places;
mod statuses;

pub use command_words::{
    Process, coordinator_command, disagreement, merge_command, named, node_command, process_of,
    with,
};
pub use places::{CoordinatorPlace, MergePlace, NodePlace};
pub use statuses::{
    DONE, FAULT, MEMORY, REFUSED, USAGE, print, print_no_words, print_usage, program_words,
};
