//! A farm with one executor, in one thread.
ghost use Rattle.std.specs.Prelude.{◌≡◌, ◌≢◌, ◌↔◌, false, All, IfOk, Err, length};
ghost use Rattle.solving.specs.Ends.{RefusesNone, committed_of};
ghost use Rattle.solving.specs.Setups.{is_of_one};

use executions::Executor;
use farm_base::NodeId;
use jobs::Answer;
use schedule::Setup;
use solverkeys::Keyed;
use solving::{FarmFault, OneEnd, run_one};
use std::alloc::Global;

/// A farm.
pub struct Farm;

impl Farm {
    /// Solves the jobs on node 1, a ready key at a time, by the one executor, in this thread. The faults are those of
    /// `solving::run_one`.
    pub fn run_one(
        alloc: Global,
        setup: Setup,
        jobs: Vec<(NodeId, Keyed)>,
        executor: Box<dyn Executor + Send>,
    ) -> Result<OneEnd, FarmFault>
        ensures bad { (result ≡ Err FarmFault.BadSetup) ↔ (is_of_one setup jobs.items ≡ false) }
        ensures replay { IfOk result (λ end. RefusesNone setup end.schedule.items) }
        ensures commits { IfOk result (λ end. end.commits ≡ committed_of setup end.schedule.items) }
        ensures count { IfOk result (λ end. length end.answers.items ≡ length jobs.items) }
        ensures answered { IfOk result (λ end. All (λ answer. answer ≢ Answer.Waiting) end.answers.items) }
    {
        run_one(alloc, setup, jobs, executor)
    }
}
