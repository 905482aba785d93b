//! The lines that the processes of a farm exchange: the text of a message, and behind it its MAC under the key of a node, or a dash.
#![tactic(auto)]

pub mod item;
mod lawful;
pub mod laws;
mod reading;
mod refusal;
mod sealing;
mod verb;
pub mod word;
mod writing;

pub use item::{Item, push_items};
pub use lawful::is_lawful;
pub use reading::read;
pub use refusal::{LineFault, SealRefusal, WriteRefusal};
pub use sealing::{LINE_LIMIT, open, seal};
pub use seals::{FarmKey, KeyRefusal, Keyring, mac};
pub use words::ReadRefusal;
pub use writing::{kind_name, push_grant, push_number, push_word, write};
