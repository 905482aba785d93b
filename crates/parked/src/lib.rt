//! The asks that wait for a lease, in order of arrival, and what one event changes of them.
#![tactic(auto)]

mod newest_asks;
mod noted_asks;
mod numbers;
mod over;
mod parked_asks;
mod parked_change;
mod passing;

pub use over::{Over, first_over, split_over};
pub use parked_asks::ParkedAsks;
pub use parked_change::ParkedChange;
pub use passing::{take_out, without_first};
