//! What an event decides, worked out over a ledger that stays as it is.
#![tactic(auto)]

mod draft;
mod fitting;
mod granting;
mod home;
mod lookups;
mod operator_calls;

pub use draft::Draft;
pub use home::is_home;
pub use operator_calls::{has_ticket, remind_all};
