//! Solver keys: two vertices of equal shape have one key.
#![tactic(auto)]

mod graph;
mod key;
mod keyed;
pub mod laws;

pub use graph::keys;
pub use key::key_of;
pub use keyed::Keyed;
