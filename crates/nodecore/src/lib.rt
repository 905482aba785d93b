//! What a node decides: its asks, the contents that it stores, and the versions that it knows.
#![tactic(auto)]

mod fetching;
mod finishing;
mod forgetting;
mod looks;
mod message;
mod node_core;
mod receive;
mod resending;
mod sending;

pub use events::{How, NodeNote, NodeRefusal};
pub use farm_base::{Message, ToNode, Why};
pub use message::NodeDone;
pub use node_core::NodeCore;
pub use nodeasks::AskState;
pub use nodecontents::{KeptContents, ResumeRefusal, ToKeep};
