//! The threads of a farm: one for each executor, beside the router.
use super::common::Shared;
use super::plan::Plan;
use super::router::route;
use super::signals::Signals;
use super::worker::{WorkerEnd, work};
use executions::{Executor, Gate};
use farm_base::NodeId;
use farmboard::Receipt;
use solving::FarmFault;
use std::alloc::Global;
use std::sync::Wait;
use std::thread;
use std::thread::{JoinHandle, Threads};

/// What the threads hand back: what each worker does, and the receipts of the tenures.
#[derive(Drop)]
pub(crate) struct Ends {
    pub(crate) workers: Vec<WorkerEnd>,
    pub(crate) receipts: Vec<Receipt>,
}

/// Joins the workers. A fault is noted where memory runs out for what one of them does.
fn join_all<R: Threads + Wait>(
    rt: &R,
    alloc: Global,
    signals: &Signals,
    children: Vec<JoinHandle<WorkerEnd>>,
) -> Vec<WorkerEnd> {
    let mut workers = Vec::new(alloc);
    for child in children {
        if workers.push(child.join(rt)).is_err() {
            signals.fail(rt, FarmFault::Memory);
        }
    }
    workers
}

/// Starts a thread for each executor, routes in this one, and joins them. A fault is noted for all of them.
pub(crate) fn run_threads<R: Threads + Wait + Sync, G: Gate, S: Shared>(
    rt: &R,
    alloc: Global,
    shared: &S,
    executors: Vec<(NodeId, Box<dyn Executor + Send>)>,
    plan: Plan,
    gate: &G,
) -> Ends {
    thread::scope(thread::scope_env(), rt, |scope| -> Ends {
        let mut children: Vec<JoinHandle<WorkerEnd>> = Vec::new(alloc);
        for (worker, hired) in executors.into_iter().enumerate() {
            if children.reserve(1).is_err() {
                shared.common().signals.fail(rt, FarmFault::Memory);
                break;
            }
            match scope.spawn(move || work(rt, alloc, shared.common(), gate, worker, hired)) {
                Ok(child) => children.push_reserved(child),
                Err(_) => {
                    shared.common().signals.fail(rt, FarmFault::NoThread);
                    break;
                }
            }
        }
        let receipts = route(rt, alloc, shared.common(), plan);
        let workers = join_all(rt, alloc, &shared.common().signals, children);
        Ends { workers, receipts }
    })
}
