use events::NodeRefusal;
use farm_base::{Ask, Confirmed, Items};
use nodecore::NodeDone;

/// What a message of the coordinator's is about, as far as a note doesn't say it.
#[derive(Drop)]
pub enum About {
    /// The versions that a commit added.
    Versions(Items<Confirmed>),
    /// The ask that is denied.
    OfAsk(Ask),
    Nothing,
}

/// What came of a call, and what it was about.
#[derive(Drop)]
pub struct Carried {
    pub about: About,
    pub answer: Result<NodeDone, NodeRefusal>,
}
