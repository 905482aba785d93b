//! A text sealed with its MAC: HMAC-SHA256 under the key of a node, which that node and the coordinator have.
#![tactic(auto)]

mod hmac;
mod keyring;
mod refusal;
mod sealing;

pub use hmac::{FarmKey, mac};
pub use keyring::Keyring;
pub use refusal::KeyRefusal;
pub use sealing::{before_mac, sealed, text_of};
