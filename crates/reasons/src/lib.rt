//! Whether each answer of a run has its reason.
#![tactic(auto)]

mod answers;
mod calls;
mod denials;
mod solved;

pub use answers::are_answered;
