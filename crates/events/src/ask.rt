use super::answer::How;
use farm_base::{Grant, Items, News, Wants};

/// An ask of a node's present life.
#[derive(Drop)]
pub enum KeptAsk {
    Open {
        wants: Wants,
        tenure: bool,
    },
    /// Granted, and not begun.
    Holding {
        wants: Wants,
        grant: Grant,
        /// Whether the tenure was recalled.
        recalled: bool,
    },
    /// In use.
    Running {
        wants: Wants,
        grant: Grant,
        recalled: bool,
    },
    /// The news were sent, and nothing was heard of them.
    Finished {
        wants: Wants,
        grant: Grant,
        news: Items<News>,
    },
    Over(How),
}
