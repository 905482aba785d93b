//! The words of a text, and the values that single words spell. Whoever reads a text of words stands on it.
#![tactic(auto)]

mod refusal;
mod want;
mod word;

pub use refusal::ReadRefusal;
pub use want::{given_wants, want_of};
pub use word::{
    access_of, digest_of, folder_of, last_split, node_of, slot_of, ticket_of, why_name, words_of,
};
