//! Runs of jobs of one op.
use super::definitions::Op;
use executions::{Executor, Gate};
use farm::{Farm, FarmEnd, FarmStop};
use farm_base::NodeId;
use farmboard::FarmStep;
use opsproto::read_definition;
use schedule::Setup;
use scripted::Scripted;
use solverkeys::Keyed;
use std::alloc::Global;
use std::sync::Wait;
use std::test::Fail;
use std::thread::Threads;
use vertices::{Graph, load};

/// How a run ends. In boxes: letting go of one is one step of a proof.
pub(crate) type End = Result<Box<FarmEnd>, Box<FarmStop>>;

/// Executors, each with its node.
pub(crate) type Executors = Vec<(NodeId, Box<dyn Executor + Send>)>;

/// The graph of an op's definition.
fn graph_of(alloc: Global, op: Op) -> Result<Graph, Fail> {
    let bytes = hex::decode(alloc, op.definition())?;
    let definition = read_definition(alloc, bytes)?;
    Ok(load(alloc, definition)?)
}

/// The same with its keys.
fn keyed(alloc: Global, op: Op) -> Result<Keyed, Fail> {
    let graph = graph_of(alloc, op)?;
    Ok(Keyed::of(alloc, graph)?)
}

/// Adds a job of this op alone. All of an op have the same key.
pub(crate) fn add_job(
    alloc: Global,
    jobs: &mut Vec<(NodeId, Keyed)>,
    op: Op,
    node: u32,
) -> Result<(), Fail> {
    let keyed = keyed(alloc, op)?;
    jobs.push((NodeId(node), keyed))?;
    Ok(())
}

/// A job of this op on each of two nodes.
pub(crate) fn two_jobs(
    alloc: Global,
    op: Op,
    one: u32,
    other: u32,
) -> Result<Vec<(NodeId, Keyed)>, Fail> {
    let mut jobs = Vec::new(alloc);
    add_job(alloc, &mut jobs, op, one)?;
    add_job(alloc, &mut jobs, op, other)?;
    Ok(jobs)
}

/// Adds a scripted executor.
fn add_scripted(alloc: Global, executors: &mut Executors, node: u32) -> Result<(), Fail> {
    let executor: Box<dyn Executor + Send> = Box::new(alloc, Scripted::new(alloc))?;
    executors.push((NodeId(node), executor))?;
    Ok(())
}

/// A scripted executor on node 1.
pub(crate) fn one_scripted(alloc: Global) -> Result<Executors, Fail> {
    let mut executors = Vec::new(alloc);
    add_scripted(alloc, &mut executors, 1)?;
    Ok(executors)
}

/// A scripted executor on each of two nodes.
pub(crate) fn two_scripted(alloc: Global) -> Result<Executors, Fail> {
    let mut executors = one_scripted(alloc)?;
    add_scripted(alloc, &mut executors, 2)?;
    Ok(executors)
}

fn boxed(alloc: Global, end: Result<FarmEnd, FarmStop>) -> Result<End, Fail> {
    match end {
        Ok(end) => Ok(Ok(Box::new(alloc, end)?)),
        Err(stop) => Ok(Err(Box::new(alloc, stop)?)),
    }
}

/// The end of a run of these jobs on a farm of this many nodes.
pub(crate) fn end_of<R: Threads + Wait + Sync, G: Gate>(
    rt: &R,
    alloc: Global,
    nodes: u32,
    jobs: Vec<(NodeId, Keyed)>,
    executors: Executors,
    plan: Vec<(usize, FarmStep)>,
    gate: &G,
) -> Result<End, Fail> {
    let setup = Setup { nodes };
    let end = Farm::run(rt, alloc, setup, jobs, executors, plan, gate);
    boxed(alloc, end)
}
