//! The parts of a record: numbers, flags, digests, ids, a home and a slot, how each is read and spelled.
#![tactic(auto)]

mod home;
mod layout;
mod part;
mod refusal;
mod slot;

pub use home::{put_home, take_home};
pub use layout::Layout;
pub use part::{take_digest, take_flag, take_u32, take_u64};
pub use refusal::{Flaw, RecordRefusal};
pub use slot::{put_slot, take_slot_after};
