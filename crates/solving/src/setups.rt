//! What a run of a farm can begin with.
ghost use Rattle.std.specs.Prelude.{◌≡◌, ◌≢◌, ◌==◌, true};
ghost use Rattle.std.specs.List.{list_all, list_any};
ghost use Rattle.solving.specs.Faults.{is_bare};
ghost use Rattle.solving.specs.Setups.{is_in_range, is_there, is_staffed, is_of_one};

use super::fault::FarmFault;
use super::run::HOME;
use executions::Executor;
use farm_base::{NODES, NodeId};
use schedule::Setup;
use solverkeys::Keyed;

/// Whether the farm has 1 to 1,024 nodes.
fn is_in_range(setup: Setup) -> bool
    ensures { result ≡ is_in_range setup }
{
    1 <= setup.nodes && setup.nodes <= NODES
}

/// Whether a node is one of the farm's.
fn is_there(setup: Setup, node: NodeId) -> bool
    ensures { result ≡ is_there setup node }
{
    1 <= node.0 && node.0 <= setup.nodes
}

/// Whether an executor is on the node.
fn has_executor(executors: &[(NodeId, Box<dyn Executor + Send>)], node: NodeId) -> bool
    ensures { result ≡ list_any (λ e. e.0.0 == node.0) executors.now }
{
    for each in executors {
        if each.0 == node {
            return true;
        }
    }
    false
}

/// Whether each executor is on a node of the farm.
fn are_there(setup: Setup, executors: &[(NodeId, Box<dyn Executor + Send>)]) -> bool
    ensures { result ≡ list_all (λ e. is_there setup e.0) executors.now }
{
    for each in executors {
        if !is_there(setup, each.0) {
            return false;
        }
    }
    true
}

/// Whether each job has an executor on its node.
fn have_executors(
    jobs: &[(NodeId, Keyed)],
    executors: &[(NodeId, Box<dyn Executor + Send>)],
) -> bool
    ensures { result ≡ list_all (λ job. list_any (λ e. e.0.0 == job.0.0) executors.now) jobs.now }
{
    for job in jobs {
        if !has_executor(executors, job.0) {
            return false;
        }
    }
    true
}

/// Whether each executor is on a node of the farm, and each job has an executor on its node.
pub fn is_staffed(
    setup: Setup,
    jobs: &[(NodeId, Keyed)],
    executors: &[(NodeId, Box<dyn Executor + Send>)],
) -> bool
    ensures { result ≡ is_staffed setup jobs.now executors.now }
{
    is_in_range(setup) && are_there(setup, executors) && have_executors(jobs, executors)
}

/// Whether each job is on node 1.
fn are_at_home(jobs: &[(NodeId, Keyed)]) -> bool
    ensures { result ≡ list_all (λ job. job.0.0 == 1) jobs.now }
{
    jobs.iter().all(|job| job.0 == HOME)
}

/// Whether each job is on node 1 of a farm of 1 to 1,024 nodes.
pub(crate) fn is_of_one(setup: Setup, jobs: &[(NodeId, Keyed)]) -> bool
    ensures { result ≡ is_of_one setup jobs.now }
{
    is_in_range(setup) && are_at_home(jobs)
}

/// What ends a run that could begin: the setup was looked at before, so that it isn't at fault.
pub fn beside_setup(fault: FarmFault) -> FarmFault
    ensures other { result ≢ FarmFault.BadSetup }
    ensures same { fault ≢ FarmFault.BadSetup → result ≡ fault }
    ensures bare { is_bare fault ≡ true → is_bare result ≡ true }
{
    match fault {
        FarmFault::BadSetup => FarmFault::ReceiptLost,
        fault => fault,
    }
}
