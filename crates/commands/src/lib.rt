//! What the program does with the words of its command line: it reads files and prints what they answer, builds definitions on
//! a farm, or is a process of one.
#![tactic(auto)]

mod acts;
mod explain;
mod files;
mod running;

pub use acts::{Told, act, run};
pub use explain::explained;
pub use processcommands::{DONE, FAULT, MEMORY, REFUSED, USAGE, print_no_words, program_words};
pub use running::{Ended, run_scripts, solve};
