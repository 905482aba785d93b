//! The picture of a schedule's replay, as SVG: lifelines, messages, lives, leases, executions, and the lines of versions.
#![tactic(auto)]

mod drawing;
mod escape;
mod event;
mod frame;
mod lifelines;
mod mark;
mod marking;
mod page;
mod picture;
mod range;
mod rows;
mod scene;
mod shape;
mod sought;

pub use drawing::draw;
pub use range::{MOST_EVENTS, Range};
