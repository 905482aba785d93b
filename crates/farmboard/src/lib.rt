//! The board of a farm: the world, the schedule that led to it, and the tokens of what is under way.
#![tactic(auto)]

mod beginning;
mod board;
mod carrying;
mod fault;
mod returning;
mod settling;
mod tokens;

pub use board::Board;
pub use farmhistory::{BoardRefusal, StartRefusal, World, number_on};
pub use fault::FarmStep;
pub use tokens::{
    Accept, Asked, Ended, Finished, Granted, Look, Receipt, Running, Settled, abandon_asked,
    abandon_finished, abandon_granted, abandon_running,
};
