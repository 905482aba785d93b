//! The executors before a run.
ghost use Rattle.std.specs.Prelude.{◌≡◌, map, IfOk};

use super::calls::copy_calls;
use executions::{Call, Executor};
use farm_base::NodeId;
use std::alloc::{AllocError, Global};

/// An executor as it is handed in: its node, and the calls that it has.
#[derive(Drop)]
pub struct Hired {
    pub node: NodeId,
    pub had: Vec<Call>,
}

impl Hired {
    /// Notes an executor of a node, with a copy of its calls.
    fn of(
        alloc: Global,
        node: NodeId,
        executor: &Box<dyn Executor + Send>,
    ) -> Result<Self, AllocError>
        ensures node { IfOk result (λ hired. hired.node ≡ node) }
        ensures had { IfOk result (λ hired. hired.had.items ≡ history executor.now) }
    {
        let had = copy_calls(alloc, executor.calls())?;
        Ok(Hired { node, had })
    }

    /// Notes the executors before a run, with copies of their calls.
    pub fn all(
        alloc: Global,
        executors: &[(NodeId, Box<dyn Executor + Send>)],
    ) -> Result<Vec<Self>, AllocError>
        ensures nodes { IfOk result (λ hired. map (λ each. each.node) hired.items ≡ map (λ each. each.0) executors.now) }
        ensures had { IfOk result (λ hired. map (λ each. each.had.items) hired.items ≡ map (λ each. history each.1) executors.now) }
    {
        let mut hired = Vec::with_capacity(alloc, executors.len())?;
        for (node, executor) in executors {
            hired.push(Hired::of(alloc, *node, executor)?)?;
        }
        Ok(hired)
    }
}
