//! The order in which vertices can be solved: each after its inputs, the lowest ready one first.
#![tactic(auto)]

pub mod laws;
mod order_entries;
mod ordering;
mod refusal;
mod table;

pub use order_entries::order;
pub use ordering::order_of;
pub use refusal::OrderRefusal;
pub use table::Table;
