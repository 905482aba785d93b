//! What a line of its agent's asks of a node, and how a node's answers are printed.
#![tactic(auto)]

mod about;
mod order;
mod printing;
mod reading;
mod verb;

pub use about::{About, Carried};
pub use order::{Call, LeftFile, Order};
pub use printing::{print_carried, print_content, print_done, print_state};
pub use reading::own_order;
