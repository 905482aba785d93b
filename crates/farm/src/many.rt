//! A farm on threads.
ghost use Rattle.std.specs.Prelude.{◌≡◌, ◌≢◌, ◌↔◌, true, false, All, IfOk, IfErr, IfSome, IfNone, IsErrAnd, OnOk, length, map, take, nat_eq};
ghost use Rattle.std.specs.List.{AllZip, IsDistinct};
ghost use Rattle.saverecord.specs.Logs.{Holds};
ghost use Rattle.saverecord.specs.Texts.{whole_alone};
ghost use Rattle.executions.specs.Calls.{Grew};
ghost use Rattle.farm.specs.Ends.{failed_in};
ghost use Rattle.solving.specs.Faults.{is_bare};
ghost use Rattle.solving.specs.Setups.{is_staffed};
ghost use Rattle.farmend.specs.Answers.{AreAnswered, IsAnswered};
ghost use Rattle.farmend.specs.NewCalls.{new_calls};
ghost use Rattle.farmend.specs.Receipts.{StandsOn, tickets_of};
ghost use Rattle.farmboard.specs.Replays.{commits_after, farm_after};
ghost use Rattle.farmend.specs.Standing.{IsStanding};

use super::ends::{FarmEnd, FarmLeft, FarmStop};
use super::faults::{early_fault, end_fault};
use super::one::Farm;
use super::solved::{JobResults, Solved, Stood, solve_all};
use executions::{Executor, Gate};
use farm_base::NodeId;
use farmboard::{Board, FarmStep, Receipt};
use farmend::{EndRefusal, HandedBack, Hired, Standing, calls_of, check, check_standing};
use jobs::Answer;
use schedule::Setup;
use solverkeys::Keyed;
use solving::{FarmFault, beside_setup, is_staffed};
use std::alloc::Global;
use std::sync::Wait;
use std::thread::Threads;

impl Farm {
    /// Solves the jobs on their nodes: one thread for each executor, beside a router in this one. It waits for all threads.
    /// Each step of the plan disturbs the farm from its number of events on. The gate is asked before each execution.
    ///
    /// `BadSetup` where the setup isn't of 1 to 1,024 nodes, where the node of an executor isn't there, or where a job has
    /// no executor on its node. `BadOutcome` of a key where its execution began from what isn't a folder, or where what it
    /// leaves can't be kept. `GateHeld` of a key that the gate didn't let pass in 10,000,000 turns. `HistoryFull` where the
    /// schedule is full; `Stalled` where nobody could go on, though all was sent again 1,000 times; `CoordinatorDown` where
    /// the coordinator failed to restart eight times in a row; `NoThread`; `Memory`, the executors' too. `ReceiptLost`
    /// where the board refuses something else, or the check at the end doesn't hold. With its fault a run hands back what
    /// stands: what was committed is not lost.
    pub fn run<R: Threads + Wait + Sync, G: Gate>(
        rt: &R,
        alloc: Global,
        setup: Setup,
        jobs: Vec<(NodeId, Keyed)>,
        executors: Vec<(NodeId, Box<dyn Executor + Send>)>,
        fault_plan: Vec<(usize, FarmStep)>,
        gate: &G,
    ) -> Result<FarmEnd, FarmStop>
        ensures bad { IsErrAnd result (λ stop. stop.fault ≡ FarmFault.BadSetup) ↔ (is_staffed setup jobs.items executors.items ≡ false) }
        ensures saved { IfOk result (λ end. Holds (whole_alone end.saved.items) (farm_after setup end.schedule.items).saved) }
        ensures commits { IfOk result (λ end. end.commits ≡ commits_after setup end.schedule.items) }
        ensures receipts { IfOk result (λ end. All (StandsOn (farm_after setup end.schedule.items)) end.receipts.items) }
        ensures tickets { IfOk result (λ end. IsDistinct nat_eq (tickets_of end.receipts.items)) }
        ensures count { IfOk result (λ end. length end.receipts.items ≡ end.commits) }
        ensures calls { IfOk result (λ end. AllZip Grew (map (λ each. history each.1) executors.items) (map (λ executor. history executor) end.executors.items)) }
        ensures answers { IfOk result (λ end.
            let nodes = map (λ each. each.0) executors.items in
            let had = map (λ each. history each.1) executors.items in
            let ends = map (λ executor. history executor) end.executors.items in
            AllZip (λ job answer. IsAnswered (farm_after setup end.schedule.items) (new_calls job.0 nodes had ends) job.0 job.1 answer) jobs.items end.answers.items) }
        ensures answered { IfOk result (λ end. length end.answers.items ≡ length jobs.items) }
        ensures settled { IfOk result (λ end. All (λ answer. answer ≢ Answer.Waiting) end.answers.items) }
        // Each job that failed has its cause.
        ensures causes { IfOk result (λ end. map (λ each. each.place) end.causes.items ≡ failed_in end.answers.items) }

        // A fault hands back what stands, unless nothing was begun or it can't be told.
        ensures bare { IfErr result (λ stop. IfNone stop.left (is_bare stop.fault ≡ true)) }
        ensures stands { IfErr result (λ stop. IfSome stop.left (λ left. IsStanding setup left.schedule.items left.saved.items left.commits left.receipts.items)) }
        ensures stands_by { IfErr result (λ stop. IfSome stop.left (λ left.
            AllZip Grew (take (length left.executors.items) (map (λ each. history each.1) executors.items)) (map (λ executor. history executor) left.executors.items))) }
    {
        if !is_staffed(setup, jobs.as_slice(), executors.as_slice()) {
            return Err(FarmStop {
                fault: FarmFault::BadSetup,
                left: None,
            });
        }
        match run_staffed(rt, alloc, setup, jobs, executors, fault_plan, gate) {
            Ok(end) => Ok(end),
            Err(FarmStop { fault, left }) => Err(FarmStop {
                fault: beside_setup(fault),
                left,
            }),
        }
    }
}

/// Solves the jobs on their nodes, where each has an executor on its node.
fn run_staffed<R: Threads + Wait + Sync, G: Gate>(
    rt: &R,
    alloc: Global,
    setup: Setup,
    jobs: Vec<(NodeId, Keyed)>,
    executors: Vec<(NodeId, Box<dyn Executor + Send>)>,
    fault_plan: Vec<(usize, FarmStep)>,
    gate: &G,
) -> Result<FarmEnd, FarmStop>
    ensures saved { IfOk result (λ end. Holds (whole_alone end.saved.items) (farm_after setup end.schedule.items).saved) }
    ensures commits { IfOk result (λ end. end.commits ≡ commits_after setup end.schedule.items) }
    ensures receipts { IfOk result (λ end. All (StandsOn (farm_after setup end.schedule.items)) end.receipts.items) }
    ensures tickets { IfOk result (λ end. IsDistinct nat_eq (tickets_of end.receipts.items)) }
    ensures count { IfOk result (λ end. length end.receipts.items ≡ end.commits) }
    ensures calls { IfOk result (λ end. AllZip Grew (map (λ each. history each.1) executors.items) (map (λ executor. history executor) end.executors.items)) }
    ensures answers { IfOk result (λ end.
        let nodes = map (λ each. each.0) executors.items in
        let had = map (λ each. history each.1) executors.items in
        let ends = map (λ executor. history executor) end.executors.items in
        AllZip (λ job answer. IsAnswered (farm_after setup end.schedule.items) (new_calls job.0 nodes had ends) job.0 job.1 answer) jobs.items end.answers.items) }
    ensures answered { IfOk result (λ end. length end.answers.items ≡ length jobs.items) }
    ensures settled { IfOk result (λ end. All (λ answer. answer ≢ Answer.Waiting) end.answers.items) }
    ensures causes { IfOk result (λ end. map (λ each. each.place) end.causes.items ≡ failed_in end.answers.items) }
    ensures bare { IfErr result (λ stop. IfNone stop.left (is_bare stop.fault ≡ true)) }
    ensures stands { IfErr result (λ stop. IfSome stop.left (λ left. IsStanding setup left.schedule.items left.saved.items left.commits left.receipts.items)) }
    ensures stands_by { IfErr result (λ stop. IfSome stop.left (λ left.
        AllZip Grew (take (length left.executors.items) (map (λ each. history each.1) executors.items)) (map (λ executor. history executor) left.executors.items))) }
{
    let Ok(hired) = Hired::all(alloc, executors.as_slice()) else {
        return Err(FarmStop {
            fault: FarmFault::Memory,
            left: None,
        });
    };
    let solved = match solve_all(rt, alloc, setup, jobs, executors, fault_plan, gate) {
        Ok(solved) => solved,
        Err(fault) => {
            return Err(FarmStop {
                fault: early_fault(fault),
                left: None,
            });
        }
    };
    let Solved { told, stood, jobs } = solved;
    match told {
        Ok(results) => {
            let (jobs, hired) = (jobs.as_slice(), hired.as_slice());
            match answered(alloc, setup, jobs, hired, results, stood) {
                Ok(end) => Ok(end),
                Err(refusal) => Err(FarmStop {
                    fault: end_fault(refusal),
                    left: None,
                }),
            }
        }
        Err(fault) => Err(stopped(alloc, setup, hired, fault, stood)),
    }
}

/// The end of a run whose jobs came to these results, if what its threads handed back agrees.
fn answered(
    alloc: Global,
    setup: Setup,
    jobs: &[(NodeId, Keyed)],
    hired: &[Hired],
    results: JobResults,
    stood: Stood,
) -> Result<FarmEnd, EndRefusal>
    requires { map (λ each. each.place) results.causes.items ≡ failed_in results.answers.items }
    ensures saved { IfOk result (λ end. Holds (whole_alone end.saved.items) (farm_after setup end.schedule.items).saved) }
    ensures commits { IfOk result (λ end. end.commits ≡ commits_after setup end.schedule.items) }
    ensures receipts { IfOk result (λ end. All (StandsOn (farm_after setup end.schedule.items)) end.receipts.items) }
    ensures tickets { IfOk result (λ end. IsDistinct nat_eq (tickets_of end.receipts.items)) }
    ensures count { IfOk result (λ end. length end.receipts.items ≡ end.commits) }
    ensures calls { IfOk result (λ end. AllZip Grew (map (λ each. each.had.items) hired.now) (map (λ executor. history executor) end.executors.items)) }
    ensures answers { IfOk result (λ end. AreAnswered (farm_after setup end.schedule.items) (map (λ each. each.node) hired.now) (map (λ each. each.had.items) hired.now) (map (λ executor. history executor) end.executors.items) jobs.now end.answers.items) }
    ensures answered { IfOk result (λ end. length end.answers.items ≡ length jobs.now) }
    ensures settled { IfOk result (λ end. All (λ answer. answer ≢ Answer.Waiting) end.answers.items) }
    ensures causes { IfOk result (λ end. map (λ each. each.place) end.causes.items ≡ failed_in end.answers.items) }
{
    let JobResults { answers, causes } = results;
    let Stood {
        board,
        receipts,
        executors,
    } = stood;
    let ends = calls_of(alloc, executors.as_slice())?;
    let back = HandedBack {
        board,
        receipts,
        answers,
    };
    let end = check(alloc, setup, jobs, hired, ends.as_slice(), back)?;
    drop(ends);
    Ok(FarmEnd {
        answers: end.answers,
        causes,
        commits: end.commits,
        receipts: end.receipts,
        saved: end.saved,
        schedule: end.schedule,
        executors,
    })
}

/// What stands of a run that a fault ended, but for its executors, who are the first of those that were hired.
fn standing(
    alloc: Global,
    setup: Setup,
    hired: Vec<Hired>,
    executors: &[Box<dyn Executor + Send>],
    board: Board,
    receipts: Vec<Receipt>,
) -> Result<Standing, EndRefusal>
    ensures stands { IfOk result (λ left. IsStanding setup left.schedule.items left.saved.items left.commits left.receipts.items) }
    ensures calls { OnOk result (AllZip Grew (take (length executors.now) (map (λ each. each.had.items) hired.items)) (map (λ executor. history executor) executors.now)) }
{
    let mut first = hired;
    first.truncate(executors.len());
    let ends = calls_of(alloc, executors)?;
    check_standing(
        alloc,
        setup,
        first.as_slice(),
        ends.as_slice(),
        board,
        receipts,
    )
}

/// The end of a run with this fault, and what stands then. Where that can't be told the fault says so.
fn stopped(
    alloc: Global,
    setup: Setup,
    hired: Vec<Hired>,
    fault: FarmFault,
    stood: Stood,
) -> FarmStop
    ensures bare { IfNone result.left (is_bare result.fault ≡ true) }
    ensures stands { IfSome result.left (λ left. IsStanding setup left.schedule.items left.saved.items left.commits left.receipts.items) }
    ensures stands_by { IfSome result.left (λ left. AllZip Grew (take (length left.executors.items) (map (λ each. each.had.items) hired.items)) (map (λ executor. history executor) left.executors.items)) }
{
    let Stood {
        board,
        receipts,
        executors,
    } = stood;
    match standing(alloc, setup, hired, executors.as_slice(), board, receipts) {
        Ok(left) => FarmStop {
            fault,
            left: Some(FarmLeft {
                commits: left.commits,
                receipts: left.receipts,
                saved: left.saved,
                schedule: left.schedule,
                executors,
            }),
        },
        Err(refusal) => FarmStop {
            fault: end_fault(refusal),
            left: None,
        },
    }
}
