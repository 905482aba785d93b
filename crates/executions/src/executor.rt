ghost use Rattle.std.specs.Prelude.{◌≡◌, IsTrue};

use super::call::{Call, ExecOutcome};
use super::task::ExecTask;
use farm_base::{Key, NodeId};

/// Who carries out executions.
pub trait Executor: Drop {
    ghost use Rattle.std.specs.Prelude.{List};
    ghost use Rattle.executions.specs.declared.call.Call.{Call};
    ghost use Rattle.executions.specs.declared.call.ExecOutcome.{ExecOutcome};
    ghost use Rattle.executions.specs.Calls.{Adds};
    ghost use Rattle.executions.specs.TaskParts.{TaskParts};

    /// The executions that it carried out, the first first.
    ghost history: { Self → List Call };

    /// What it may answer to a task.
    ghost answers: { Self → TaskParts → ExecOutcome → Type 0 };

    /// Carries out a task.
    fn run(&mut self, task: &ExecTask) -> ExecOutcome
        ensures answer { answers self.old task.now result }
        ensures calls { Adds task.now.key (history self.old) result (history self.new) };

    /// The executions that it carried out, the first first.
    fn calls(&self) -> &[Call]
        ensures { result.now ≡ history self.now };
}

/// Tells a worker when an execution may begin: it asks until the answer is true.
pub trait Gate: Sync {
    fn pass(&self, node: NodeId, key: &Key) -> bool;
}

/// A gate that lets every execution begin at once.
#[derive(Clone, Copy)]
pub struct OpenGate;

impl Gate for OpenGate {
    fn pass(&self, _node: NodeId, _key: &Key) -> bool
        ensures { IsTrue result }
    {
        true
    }
}
