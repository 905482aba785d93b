//! What a coordinator keeps, and what an event changes of it, adds to the lines, sends and tells.
#![tactic(auto)]

mod change;
mod effects;
mod new_life;
mod spent_folders;
mod state;

pub use change::Change;
pub use effects::{Effects, Prepared};
pub use new_life::NewLife;
pub use parked::ParkedAsks;
pub use spent_folders::SpentFolders;
pub use state::State;
