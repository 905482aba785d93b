//! The merge of what a command changed in a folder into what the folder has become meanwhile.
#![tactic(auto)]

mod answer;
mod below;
mod escape;
pub mod laws;
mod listing;
mod merging;
mod refusal;
mod row;
mod rule;
mod side;
mod text;

pub use answer::merged_text;
pub use listing::is_listing;
pub use merging::{Merged, Picked, merge};
pub use refusal::ListingRefusal;
pub use row::Line;
pub use rule::Rule;
pub use side::Side;
pub use text::{LISTING_LIMIT, listing_text, read_listing};
