//! What a coordinator's record keeps beside the lines, as lists: leases, retired slots and nodes, and the greatest lives; and where
//! tickets come from.
#![tactic(auto)]

mod ending;
mod lease_list;
mod lives;
mod retired_nodes;
mod slot_list;
mod ticket_source;

pub use ending::{Ending, has_ended, standing};
pub use lease_list::{is_saved, place_of};
pub use lives::Lives;
pub use retired_nodes::RetiredNodes;
pub use slot_list::rising;
pub use ticket_source::{TicketSource, TicketsSpent};
