//! One execution under a lease.
#![tactic(auto)]

mod call;
mod executor;
mod given;
mod left;
mod live_shared;
mod node_key;
mod refusal;
mod run;
mod task;

pub use call::{Call, ExecOutcome};
pub use executor::{Executor, Gate, OpenGate};
pub use farmboard::{
    Accept, Asked, Board, BoardRefusal, Ended, Finished, Granted, Receipt, Running, Settled,
    StartRefusal, World, abandon_asked, abandon_finished, abandon_granted, abandon_running,
    number_on,
};
pub use live_shared::LiveShared;
pub use node_key::NodeKey;
pub use refusal::SharedRefusal;
pub use run::{Ran, run_leased};
pub use slotfolders::{Batch, RunRefusal};
pub use task::{ExecTask, View};
