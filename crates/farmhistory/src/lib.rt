//! What the history of a farm leads to: the outcome of its events, what they count, and which executions are in use.
#![tactic(auto)]

mod bases;
mod counts;
mod event;
mod lines;
mod passing;
mod refusal;
mod uses;

pub use bases::copies_of;
pub use counts::{Counts, count, leases_at};
pub use event::{answer, asked, carry_out};
pub use lines::{all_stand, any_stands, first_versions, is_live, number_all, number_on};
pub use passing::{is_among, pass};
pub use refusal::BoardRefusal;
pub use uses::{InUse, has_node, note};
pub use world::{StartRefusal, World};
