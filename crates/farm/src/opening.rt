//! What the threads of a farm share, as they begin.
ghost use Rattle.std.specs.Prelude.{◌≡◌, IfOk};

use super::common::Common;
use super::locked_board::LockedBoard;
use super::node_state::NodeState;
use super::signals::Signals;
use farm_base::NodeId;
use farmboard::Board;
use jobs::{JobId, Jobs};
use solverkeys::Keyed;
use solving::{FarmFault, Work, jobs_fault, shared_folders};
use std::alloc::{AllocError, Global};
use std::sync::Mutex;
use tenures::Tenures;

/// Where a job was submitted: its node, and its number there.
#[derive(Clone, Copy)]
pub(crate) struct Submission {
    pub(crate) node: NodeId,
    pub(crate) number: JobId,
}

/// The jobs of each node, and where each job was submitted.
#[derive(Drop)]
pub(crate) struct Submitted {
    pub(crate) tables: Vec<Jobs>,
    pub(crate) numbers: Vec<Submission>,
}

/// A table without jobs for each node.
fn tables_of(alloc: Global, nodes: u32) -> Result<Vec<Jobs>, AllocError> {
    let mut tables = Vec::new(alloc);
    for _ in 0..nodes {
        tables.push(Jobs::new(alloc))?;
    }
    Ok(tables)
}

/// The place of a node's table, if the node is there.
fn place_of(node: NodeId, nodes: u32) -> Option<usize> {
    if node.0 == 0 || node.0 > nodes {
        return None;
    }
    Some(node.0 as usize - 1)
}

/// Submits a job on its node.
fn submit(
    alloc: Global,
    tables: &mut Vec<Jobs>,
    nodes: u32,
    node: NodeId,
    keyed: &Keyed,
) -> Result<JobId, FarmFault> {
    let Some(place) = place_of(node, nodes) else {
        return Err(FarmFault::ReceiptLost);
    };
    match tables.get_mut(place) {
        Some(table) => match table.submit_keyed(alloc, keyed) {
            Ok(job) => Ok(job),
            Err(refusal) => Err(jobs_fault(refusal)),
        },
        None => Err(FarmFault::ReceiptLost),
    }
}

/// Submits the jobs on their nodes.
pub(crate) fn submit_all(
    alloc: Global,
    nodes: u32,
    jobs: &[(NodeId, Keyed)],
) -> Result<Submitted, FarmFault> {
    let mut tables = tables_of(alloc, nodes)?;
    let mut numbers = Vec::with_capacity(alloc, jobs.len())?;
    for (node, keyed) in jobs {
        let number = submit(alloc, &mut tables, nodes, *node, keyed)?;
        numbers.push(Submission {
            node: *node,
            number,
        })?;
    }
    Ok(Submitted { tables, numbers })
}

/// What belongs to each node.
fn states_of(alloc: Global, tables: Vec<Jobs>) -> Result<Vec<NodeState>, AllocError> {
    let mut states = Vec::with_capacity(alloc, tables.len())?;
    for table in tables {
        states.push(NodeState::new(alloc, table))?;
    }
    Ok(states)
}

/// What this number of workers on these jobs tell each other.
fn signals_of(alloc: Global, work: &Work, workers: usize, due: u64) -> Result<Signals, AllocError> {
    let folders = shared_folders(alloc, work.jobs())?;
    Signals::new(alloc, workers, !folders.is_empty(), due)
}

/// What this number of workers share. From `due` events on the router has to act before a message is delivered.
pub(crate) fn open(
    alloc: Global,
    board: Board,
    tables: Vec<Jobs>,
    work: Work,
    workers: usize,
    due: u64,
) -> Result<Common, AllocError>
    ensures { IfOk result (λ common. common.work ≡ work) }
{
    let signals = signals_of(alloc, &work, workers, due)?;
    let nodes = states_of(alloc, tables)?;
    let locked = LockedBoard {
        board,
        tenures: Tenures::new(alloc),
    };
    Ok(Common {
        alloc,
        board: Mutex::new(locked),
        nodes,
        work,
        signals,
    })
}
