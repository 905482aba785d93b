//! What a run of a farm leaves, and the check of it.
#![tactic(auto)]

mod calls;
mod checking;
mod end;
mod hired;
mod news;
mod receipts;
mod refusal;

pub use checking::{check, check_standing};
pub use end::{HandedBack, RunEnd, Standing};
pub use hired::Hired;
pub use news::calls_of;
pub use refusal::EndRefusal;
