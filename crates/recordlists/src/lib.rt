//! The lists of a record: how their entries are read and spelled, and what holds between them.
#![tactic(auto)]

mod entries;
mod entry;
mod relation;

pub use entry::{Entry, put_counted, take_list};
pub use relation::{
    are_apart, are_of_own_folders, are_private, fits_tenure, has_retired, is_above_lines, is_gone,
    is_home, lines_up_to, lives_there, tickets_up_to,
};
