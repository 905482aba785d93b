//! The jobs of a node, under their lock.
use super::open_folders::OpenFolders;
use executions::LiveShared;
use farm_base::{Digest, Key, NodeId};
use jobs::{Fault, Jobs, Task};
use solving::{FarmFault, jobs_fault};
use std::alloc::Global;
use std::sync::Mutex;

/// The jobs of a node.
#[derive(Drop)]
pub(crate) struct NodeJobs {
    pub(crate) jobs: Jobs,
    /// How many keys were handed out, and are neither done nor failed.
    out: usize,
}

/// What belongs to a node.
#[derive(Drop)]
pub(crate) struct NodeState {
    pub(crate) jobs: Mutex<NodeJobs>,
    pub(crate) open: Mutex<OpenFolders>,
}

/// What a worker does next.
#[derive(Drop)]
pub(crate) enum Next {
    Solve(Task),
    /// No key is ready, and one may get ready.
    Wait,
    /// No key is ready, and none can get ready.
    End,
}

impl NodeState {
    /// A node with these jobs.
    pub(crate) fn new(alloc: Global, jobs: Jobs) -> Self {
        NodeState {
            jobs: Mutex::new(NodeJobs { jobs, out: 0 }),
            open: Mutex::new(OpenFolders {
                live: LiveShared::new(alloc),
            }),
        }
    }
}

/// What belongs to a node, if it is there: the first is that of node 1.
pub(crate) fn state_of(nodes: &[NodeState], node: NodeId) -> Option<&NodeState> {
    if node.0 == 0 {
        return None;
    }
    nodes.get(node.0 as usize - 1)
}

impl NodeJobs {
    /// Hands out the next key.
    pub(crate) fn next(&mut self, alloc: Global) -> Result<Next, FarmFault> {
        match self.jobs.take_ready(alloc) {
            Ok(Some(task)) => {
                self.out = self.out.saturating_add(1);
                Ok(Next::Solve(task))
            }
            Ok(None) if self.out > 0 => Ok(Next::Wait),
            Ok(None) => Ok(Next::End),
            Err(refusal) => Err(jobs_fault(refusal)),
        }
    }

    /// A key is done with these outputs.
    pub(crate) fn done(&mut self, key: Key, outputs: Vec<Digest>) -> Result<(), FarmFault> {
        self.out = self.out.saturating_sub(1);
        match self.jobs.done(key, outputs) {
            Ok(()) => Ok(()),
            Err(refusal) => Err(jobs_fault(refusal)),
        }
    }

    /// A key has failed.
    pub(crate) fn failed(&mut self, key: Key, fault: Fault) -> Result<(), FarmFault> {
        self.out = self.out.saturating_sub(1);
        match self.jobs.failed(key, fault) {
            Ok(()) => Ok(()),
            Err(refusal) => Err(jobs_fault(refusal)),
        }
    }
}
