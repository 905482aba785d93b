//! What the threads of a farm leave.
ghost use Rattle.std.specs.Prelude.{◌≡◌, IfOk, map};
ghost use Rattle.farm.specs.Ends.{failed_in};
ghost use Rattle.solving.specs.Works.{jobs_of};

use super::common::Common;
use super::locked_board::LockedBoard;
use super::node_state::{NodeState, state_of};
use super::opening::{Submission, Submitted, open, submit_all};
use super::plan::Plan;
use super::threads::{Ends, run_threads};
use super::worker::WorkerEnd;
use executions::{Executor, Gate};
use farm_base::NodeId;
use farmboard::{Board, FarmStep, Receipt};
use jobs::{Answer, Cause};
use schedule::Setup;
use solverkeys::Keyed;
use solving::{FarmFault, Work, answer_of, cause_of, start_fault};
use std::alloc::{AllocError, Global};
use std::sync::Wait;
use std::thread::Threads;

/// A job that failed, and why.
#[derive(Drop)]
pub struct FailedJob {
    /// Its place among the jobs, from 0.
    pub place: usize,
    pub cause: Cause,
}

/// What the jobs came to: the answer of each, and why those that failed did.
#[derive(Drop)]
pub(crate) struct JobResults {
    pub(crate) answers: Vec<Answer>,
    pub(crate) causes: Vec<FailedJob>,
}

/// What stands once the threads are over: the board, all receipts, and the executors.
#[derive(Drop)]
pub(crate) struct Stood {
    pub(crate) board: Board,
    pub(crate) receipts: Vec<Receipt>,
    pub(crate) executors: Vec<Box<dyn Executor + Send>>,
}

/// What the threads leave: what the jobs came to, or the first fault; what stands then; and the jobs.
#[derive(Drop)]
pub(crate) struct Solved {
    pub(crate) told: Result<JobResults, FarmFault>,
    pub(crate) stood: Stood,
    pub(crate) jobs: Vec<(NodeId, Keyed)>,
}

/// What stands: beside the board the executors, and all receipts.
fn gather(alloc: Global, board: Board, ends: Ends) -> Result<Stood, AllocError> {
    let Ends {
        workers,
        mut receipts,
    } = ends;
    let mut executors = Vec::with_capacity(alloc, workers.len())?;
    for worker in workers {
        let WorkerEnd {
            executor,
            receipts: mut made,
        } = worker;
        receipts.append(&mut made)?;
        executors.push(executor)?;
    }
    Ok(Stood {
        board,
        receipts,
        executors,
    })
}

/// The answer of a job.
fn answer_at<R: Wait>(
    rt: &R,
    nodes: &[NodeState],
    submission: &Submission,
) -> Result<Answer, FarmFault> {
    let Some(state) = state_of(nodes, submission.node) else {
        return Err(FarmFault::ReceiptLost);
    };
    answer_of(&state.jobs.lock(rt).jobs, submission.number)
}

/// The answers of the jobs with these numbers on their nodes.
fn answers_of<R: Wait>(
    rt: &R,
    alloc: Global,
    nodes: &[NodeState],
    numbers: &[Submission],
) -> Result<Vec<Answer>, FarmFault> {
    let mut answers = Vec::with_capacity(alloc, numbers.len())?;
    for submission in numbers {
        let answer = answer_at(rt, nodes, submission)?;
        answers.push(answer)?;
    }
    Ok(answers)
}

/// Why a job failed.
fn cause_at<R: Wait>(
    rt: &R,
    alloc: Global,
    nodes: &[NodeState],
    submission: &Submission,
) -> Result<Cause, FarmFault> {
    let Some(state) = state_of(nodes, submission.node) else {
        return Err(FarmFault::ReceiptLost);
    };
    cause_of(alloc, &state.jobs.lock(rt).jobs, submission.number)
}

/// Each job that failed, and why.
fn causes_of<R: Wait>(
    rt: &R,
    alloc: Global,
    nodes: &[NodeState],
    numbers: &[Submission],
    answers: &[Answer],
) -> Result<Vec<FailedJob>, FarmFault>
    ensures { IfOk result (λ causes. map (λ each. each.place) causes.items ≡ failed_in answers.now) }
{
    let mut causes = Vec::new(alloc);
    let mut rest = answers;
    for place in 0..numbers.len() {
        let [answer, others @ ..] = rest else {
            break;
        };
        if let Answer::Failed = answer {
            let cause = cause_at(rt, alloc, nodes, &numbers[place])?;
            causes.push(FailedJob { place, cause })?;
        }
        rest = others;
    }
    if !rest.is_empty() {
        return Err(FarmFault::ReceiptLost);
    }
    Ok(causes)
}

/// What the jobs with these numbers came to.
fn told_of<R: Wait>(
    rt: &R,
    alloc: Global,
    common: &Common,
    numbers: &[Submission],
) -> Result<JobResults, FarmFault>
    ensures { IfOk result (λ told. map (λ each. each.place) told.causes.items ≡ failed_in told.answers.items) }
{
    if let Some(fault) = common.signals.fault(rt) {
        return Err(fault);
    }
    let nodes = common.nodes.as_slice();
    let answers = answers_of(rt, alloc, nodes, numbers)?;
    let causes = causes_of(rt, alloc, nodes, numbers, answers.as_slice())?;
    Ok(JobResults { answers, causes })
}

/// The board and the jobs.
fn parts_of(common: Common) -> (Board, Vec<(NodeId, Keyed)>)
    ensures { result.1.items ≡ jobs_of common.work }
{
    let Common {
        alloc: _,
        board,
        nodes: _,
        work,
        signals: _,
    } = common;
    let LockedBoard { board, tenures: _ } = board.into_inner();
    (board, work.into_jobs())
}

/// Submits the jobs. The answer is what this number of workers share, and where each job was submitted.
fn submitted(
    alloc: Global,
    setup: Setup,
    jobs: Vec<(NodeId, Keyed)>,
    workers: usize,
    due: u64,
) -> Result<(Common, Vec<Submission>), FarmFault>
    ensures { IfOk result (λ submitted. jobs_of submitted.0.work ≡ jobs.items) }
{
    let board = match Board::start(alloc, setup) {
        Ok(board) => board,
        Err(refusal) => return Err(start_fault(refusal)),
    };
    let Submitted { tables, numbers } = submit_all(alloc, setup.nodes, jobs.as_slice())?;
    let work = Work::of(alloc, jobs)?;
    let common = open(alloc, board, tables, work, workers, due)?;
    Ok((common, numbers))
}

/// Solves the jobs on their nodes.
#[tactic(auto, using(crate::proofs::Crosses::common))]
pub(crate) fn solve_all<R: Threads + Wait + Sync, G: Gate>(
    rt: &R,
    alloc: Global,
    setup: Setup,
    jobs: Vec<(NodeId, Keyed)>,
    executors: Vec<(NodeId, Box<dyn Executor + Send>)>,
    fault_plan: Vec<(usize, FarmStep)>,
    gate: &G,
) -> Result<Solved, FarmFault>
    ensures jobs { IfOk result (λ solved. solved.jobs.items ≡ jobs.items) }
    ensures causes { IfOk result (λ solved. IfOk solved.told (λ told. map (λ each. each.place) told.causes.items ≡ failed_in told.answers.items)) }
{
    let plan = Plan::of(fault_plan);
    let workers = executors.len();
    let (common, numbers) = submitted(alloc, setup, jobs, workers, plan.next_due())?;
    let ends = run_threads(rt, alloc, &common, executors, plan, gate);
    let told = told_of(rt, alloc, &common, numbers.as_slice());
    let (board, jobs) = parts_of(common);
    let stood = gather(alloc, board, ends)?;
    Ok(Solved { told, stood, jobs })
}
