//! A farm with one executor, in one thread.
ghost use Rattle.std.specs.Prelude.{◌≡◌, ◌≢◌, ◌↔◌, false, All, IfOk, Err, length};
ghost use Rattle.solving.specs.Ends.{RefusesNone, committed_of};
ghost use Rattle.solving.specs.Setups.{is_of_one};

use super::answers::answers_of;
use super::ends::OneEnd;
use super::fault::FarmFault;
use super::faults::start_fault;
use super::run::{Run, give_up_all};
use super::setups::{beside_setup, is_of_one};
use executions::{Board, Executor, LiveShared};
use farm_base::NodeId;
use jobs::{Answer, Jobs};
use schedule::Setup;
use solverkeys::Keyed;
use std::alloc::Global;

/// Solves the jobs on node 1, a ready key at a time, by the one executor. Each execution has a lease, which is
/// settled before the next one begins. Where a vertex has a SHARED cache mount the tenures are taken into use
/// first, and ended last.
///
/// `BadSetup` where a job is on another node, or the setup isn't of 1 to 1,024 nodes. `BadOutcome` of a key where
/// its execution began from what isn't a folder, or where what it leaves can't be kept. `HistoryFull` where the
/// schedule is full, `Memory` where memory runs out, the executor's too. `ReceiptLost` where an event is refused, or
/// isn't answered.
pub fn run_one(
    alloc: Global,
    setup: Setup,
    jobs: Vec<(NodeId, Keyed)>,
    executor: Box<dyn Executor + Send>,
) -> Result<OneEnd, FarmFault>
    ensures bad { (result ≡ Err FarmFault.BadSetup) ↔ (is_of_one setup jobs.items ≡ false) }
    ensures replay { IfOk result (λ end. RefusesNone setup end.schedule.items) }
    ensures commits { IfOk result (λ end. end.commits ≡ committed_of setup end.schedule.items) }
    ensures count { IfOk result (λ end. length end.answers.items ≡ length jobs.items) }
    ensures answered { IfOk result (λ end. All (λ answer. answer ≢ Answer.Waiting) end.answers.items) }
{
    if !is_of_one(setup, jobs.as_slice()) {
        return Err(FarmFault::BadSetup);
    }
    solve_on_one(alloc, setup, jobs, executor).map_err(beside_setup)
}

/// Solves the jobs, which are all on node 1.
fn solve_on_one(
    alloc: Global,
    setup: Setup,
    jobs: Vec<(NodeId, Keyed)>,
    executor: Box<dyn Executor + Send>,
) -> Result<OneEnd, FarmFault>
    ensures replay { IfOk result (λ end. RefusesNone setup end.schedule.items) }
    ensures commits { IfOk result (λ end. end.commits ≡ committed_of setup end.schedule.items) }
    ensures count { IfOk result (λ end. length end.answers.items ≡ length jobs.items) }
    ensures answered { IfOk result (λ end. All (λ answer. answer ≢ Answer.Waiting) end.answers.items) }
{
    let count = jobs.len();
    let mut executor = executor;
    let mut run = Run {
        alloc,
        board: Board::start(alloc, setup).map_err(start_fault)?,
        jobs: Jobs::new(alloc),
        live: LiveShared::new(alloc),
    };
    let solved = run.solve_jobs(jobs, &mut *executor);
    let (board, jobs) = parts_of(run);
    solved?;
    end_of(alloc, setup, board, &jobs, count)
}

/// The board and the jobs. Tenures that are still in use are given up.
fn parts_of(run: Run) -> (Board, Jobs) {
    let Run {
        alloc: _,
        board,
        jobs,
        live,
    } = run;
    give_up_all(live);
    (board, jobs)
}

/// What the run leaves, if no event was refused.
fn end_of(
    alloc: Global,
    setup: Setup,
    board: Board,
    jobs: &Jobs,
    count: usize,
) -> Result<OneEnd, FarmFault>
    ensures replay { IfOk result (λ end. RefusesNone setup end.schedule.items) }
    ensures commits { IfOk result (λ end. end.commits ≡ committed_of setup end.schedule.items) }
    ensures count { IfOk result (λ end. length end.answers.items ≡ count) }
    ensures answered { IfOk result (λ end. All (λ answer. answer ≢ Answer.Waiting) end.answers.items) }
{
    let counts = board.counts();
    let kept = board.setup();
    if counts.refused != 0 || kept.nodes != setup.nodes {
        return Err(FarmFault::ReceiptLost);
    }
    let answers = answers_of(alloc, jobs, count)?;
    let (_, schedule, _) = board.into_parts();
    Ok(OneEnd {
        answers,
        commits: counts.committed,
        schedule,
    })
}
