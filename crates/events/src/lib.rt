//! What happens in a farm, and what the calls of coordinator, nodes and world answer.
#![tactic(auto)]

mod answer;
mod ask;
mod event;

pub use answer::{
    CoordNote, CoordRefusal, Decision, EventNote, EventRefusal, How, Kept, NodeNote, NodeRefusal,
    Outcome,
};
pub use ask::KeptAsk;
pub use event::Event;
