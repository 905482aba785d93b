//! The asks of a node's present life: how each stands, and the indexes that find one without a look at all.
#![tactic(auto)]

mod all_asks;
mod ask_row;
mod ask_state;
mod ask_table;
mod asks;
mod scans;
mod ticket_index;

pub use all_asks::AllAsks;
pub use ask_row::AskRow;
pub use ask_state::AskState;
pub use ask_table::AskTable;
pub use asks::{AskChange, Sought, is_open, keeps, lease, slots, told, way_out};
pub use scans::{any_base, any_needs, at_home, has_tenure, in_use, row_of};
pub use ticket_index::{Holders, TicketIndex};
