//! What a line asks of a coordinator.
#![tactic(auto)]

mod call;
mod reading;

pub use call::{Call, Order, Question};
pub use reading::asked;
