use events::How;
use farm_base::{Grant, Ticket};

/// How an ask of this life of the node stands.
#[derive(Drop)]
pub enum AskState {
    Pending,
    Granted(Grant),
    Running(Grant),
    /// The news were sent under this ticket, and nothing was heard of them.
    Finished(Ticket),
    Over(How),
    /// It is over, and how it ended isn't kept any more.
    Forgotten,
}
