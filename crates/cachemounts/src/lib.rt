//! The folders that a vertex wants for its cache mounts.
#![tactic(auto)]

mod folder;
mod keyed;
pub mod laws;
mod mounted;
mod viewing;
mod wanting;

pub use keyed::{views_of, wants_of};
pub use viewing::{CacheView, views};
pub use wanting::{needs_home, wants};
