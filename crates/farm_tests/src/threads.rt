//! Runs of farms: two executions at once, which the threads of a farm alone can make, runs with disturbances, and a run by one
//! executor in one thread.
ghost use Rattle.std.specs.Prelude.{⊤};

use super::definitions::Op;
use super::runs::{End, Executors, add_job, end_of, one_scripted, two_jobs};
use executions::{Call, ExecOutcome, ExecTask, Executor, Gate, OpenGate};
use farm::{DownCount, Farm, FarmEnd, FarmFault, OneEnd};
use farm_base::{Key, NodeId};
use farmboard::FarmStep;
use jobs::Answer;
use schedule::Setup;
use scripted::Scripted;
use std::alloc::Global;
use std::sync::atomic::{AtomicBool, Ordering};
use std::sync::{Arc, Wait};
use std::test::Fail;
use std::thread::Threads;

/// How often an executor looks for the other.
const LOOKS: u64 = 10_000_000;

/// Raises its flag, and fails with status 1 if it sees the other's flag while it runs.
#[derive(Drop)]
struct Meeting {
    mine: Arc<AtomicBool>,
    theirs: Arc<AtomicBool>,
    calls: Vec<Call>,
}

/// Whether a flag is raised while it is looked at.
fn sees(flag: &AtomicBool) -> bool {
    for _ in 0..LOOKS {
        if flag.load(Ordering::SeqCst) {
            return true;
        }
    }
    false
}

impl Executor for Meeting {
    ghost history = { λ m. m.calls.items };

    ghost answers = { λ m task outcome. ⊤ };

    fn run(&mut self, task: &ExecTask) -> ExecOutcome {
        if self.calls.reserve(1).is_err() {
            return ExecOutcome::OutOfMemory;
        }
        self.mine.store(true, Ordering::SeqCst);
        let status = if sees(&self.theirs) { 1 } else { 2 };
        self.calls.push_reserved(Call {
            key: task.key(),
            result: Err(status),
        });
        ExecOutcome::Failed(status)
    }

    fn calls(&self) -> &[Call] {
        self.calls.as_slice()
    }
}

/// An executor with these flags.
fn meeting_of(
    alloc: Global,
    mine: &Arc<AtomicBool>,
    theirs: &Arc<AtomicBool>,
) -> Result<Meeting, Fail> {
    let mine = Arc::try_clone(mine)?;
    let theirs = Arc::try_clone(theirs)?;
    Ok(Meeting {
        mine,
        theirs,
        calls: Vec::new(alloc),
    })
}

/// Adds such an executor.
fn add_meeting(
    alloc: Global,
    executors: &mut Executors,
    node: u32,
    mine: &Arc<AtomicBool>,
    theirs: &Arc<AtomicBool>,
) -> Result<(), Fail> {
    let executor = meeting_of(alloc, mine, theirs)?;
    let executor: Box<dyn Executor + Send> = Box::new(alloc, executor)?;
    executors.push((NodeId(node), executor))?;
    Ok(())
}

/// Two executors that look for each other.
fn two_meeting(alloc: Global) -> Result<Executors, Fail> {
    let one = Arc::new(alloc, AtomicBool::new(false))?;
    let other = Arc::new(alloc, AtomicBool::new(false))?;
    let mut executors = Vec::new(alloc);
    add_meeting(alloc, &mut executors, 1, &one, &other)?;
    add_meeting(alloc, &mut executors, 2, &other, &one)?;
    Ok(executors)
}

/// Holds each execution until both nodes have asked.
#[derive(Drop)]
struct Both {
    first: AtomicBool,
    second: AtomicBool,
}

impl Gate for Both {
    fn pass(&self, node: NodeId, _key: &Key) -> bool {
        let mine = if node.0 == 1 {
            &self.first
        } else {
            &self.second
        };
        mine.store(true, Ordering::SeqCst);
        self.first.load(Ordering::SeqCst) && self.second.load(Ordering::SeqCst)
    }
}

/// Whether each executor was called once, and saw the other.
fn have_met(end: &FarmEnd) -> bool {
    end.executors.iter().all(|executor| matches!(executor.calls(), [Call { result: Err(1), .. }]))
}

/// The end of a run of a job on each of two nodes, by executors that look for each other.
fn end_of_meeting<R: Threads + Wait + Sync>(rt: &R, alloc: Global) -> Result<End, Fail> {
    let gate = Both {
        first: AtomicBool::new(false),
        second: AtomicBool::new(false),
    };
    let jobs = two_jobs(alloc, Op::PutPrivate, 1, 2)?;
    let executors = two_meeting(alloc)?;
    end_of(rt, alloc, 2, jobs, executors, Vec::new(alloc), &gate)
}

/// Each execution sees the other only if both run at once, which no single thread can do.
#[test]
fn two_at_once(rt: HostRuntime) -> Result<(), Fail> {
    match end_of_meeting(&rt, rt.alloc())? {
        Ok(end) => assert!(rt; have_met(&*end)),
        Err(stop) => return Err(stop.fault.into()),
    }
    Ok(())
}

/// Lets no execution begin.
#[derive(Clone, Copy)]
struct Closed;

impl Gate for Closed {
    fn pass(&self, _node: NodeId, _key: &Key) -> bool {
        false
    }
}

/// The end of a run of one job on this node, with one executor on node 1.
fn end_on<R: Threads + Wait + Sync, G: Gate>(
    rt: &R,
    alloc: Global,
    node: u32,
    plan: Vec<(usize, FarmStep)>,
    gate: &G,
) -> Result<End, Fail> {
    let mut jobs = Vec::new(alloc);
    add_job(alloc, &mut jobs, Op::PutPrivate, node)?;
    let executors = one_scripted(alloc)?;
    end_of(rt, alloc, 1, jobs, executors, plan, gate)
}

/// The fault of such a run, if it has one.
fn fault_on<R: Threads + Wait + Sync, G: Gate>(
    rt: &R,
    alloc: Global,
    node: u32,
    plan: Vec<(usize, FarmStep)>,
    gate: &G,
) -> Result<Option<FarmFault>, Fail> {
    match end_on(rt, alloc, node, plan, gate)? {
        Ok(_) => Ok(None),
        Err(stop) => Ok(Some(stop.fault)),
    }
}

/// A plan that loses this many messages, all at the first place.
fn losses(alloc: Global, count: usize) -> Result<Vec<(usize, FarmStep)>, Fail> {
    let mut plan = Vec::new(alloc);
    for _ in 0..count {
        plan.push((0, FarmStep::Skip))?;
    }
    Ok(plan)
}

/// A plan of more nudges than a schedule has events, all at the first place.
fn nudges(alloc: Global) -> Result<Vec<(usize, FarmStep)>, Fail> {
    let mut plan = Vec::new(alloc);
    for _ in 0..70_000 {
        plan.push((0, FarmStep::Nudge))?;
    }
    Ok(plan)
}

/// The messages that are not delivered are sent again, unless there are too many of them.
#[test]
fn lost_messages(rt: HostRuntime) -> Result<(), Fail> {
    let alloc = rt.alloc();
    let few = losses(alloc, 100)?;
    let fault = fault_on(&rt, alloc, 1, few, &OpenGate)?;
    assert!(rt; fault.is_none());
    let many = losses(alloc, 3_000)?;
    let fault = fault_on(&rt, alloc, 1, many, &OpenGate)?;
    assert!(rt; matches!(fault, Some(FarmFault::Stalled)));
    Ok(())
}

/// Nobody hears a node that is gone for good.
#[test]
fn a_node_that_is_gone(rt: HostRuntime) -> Result<(), Fail> {
    let alloc = rt.alloc();
    let plan = vec![in alloc; (0, FarmStep::Retire(NodeId(1)))]?;
    let fault = fault_on(&rt, alloc, 1, plan, &OpenGate)?;
    assert!(rt; matches!(fault, Some(FarmFault::Stalled | FarmFault::HistoryFull)));
    Ok(())
}

#[test]
fn runs_that_end_with_a_fault(rt: HostRuntime) -> Result<(), Fail> {
    let alloc = rt.alloc();
    let plan = nudges(alloc)?;
    let full = fault_on(&rt, alloc, 1, plan, &OpenGate)?;
    assert!(rt; matches!(full, Some(FarmFault::HistoryFull)));
    let nowhere = fault_on(&rt, alloc, 2, Vec::new(alloc), &OpenGate)?;
    assert!(rt; matches!(nowhere, Some(FarmFault::BadSetup)));
    let held = fault_on(&rt, alloc, 1, Vec::new(alloc), &Closed)?;
    assert!(rt; matches!(held, Some(FarmFault::GateHeld(_))));
    Ok(())
}

/// The output of the first job, if it has one.
fn output_in(end: &FarmEnd) -> Option<Answer> {
    match end.answers.first() {
        Some(Answer::Output(output)) => Some(Answer::Output(*output)),
        _ => None,
    }
}

/// The output of a run on threads.
fn output_of<R: Threads + Wait + Sync>(rt: &R, alloc: Global) -> Result<Answer, Fail> {
    match end_on(rt, alloc, 1, Vec::new(alloc), &OpenGate)? {
        Ok(end) => Ok(output_in(&*end).ok_or("no output")?),
        Err(stop) => Err(stop.fault.into()),
    }
}

/// The end of two jobs with one key, solved by one executor in this thread.
fn end_here(alloc: Global) -> Result<Box<OneEnd>, Fail> {
    let jobs = two_jobs(alloc, Op::PutPrivate, 1, 1)?;
    let executor: Box<dyn Executor + Send> = Box::new(alloc, Scripted::new(alloc))?;
    let end = Farm::run_one(alloc, Setup { nodes: 1 }, jobs, executor)?;
    Ok(Box::new(alloc, end)?)
}

/// Two jobs with one key are solved once, with the output that a run on threads gives.
#[test]
fn one_executor_in_one_thread(rt: HostRuntime) -> Result<(), Fail> {
    let output = output_of(&rt, rt.alloc())?;
    let end = end_here(rt.alloc())?;
    assert!(rt; end.commits == 1);
    assert!(rt;
        matches!(end.answers.as_slice(), [one, other] if *one == output && *other == output)
    );
    Ok(())
}

/// Whether it gives up at the eighth failure in a row, and at each later one.
fn gives_up_in_time(count: &mut DownCount) -> bool {
    for failures in 1..=9 {
        if count.failed() != (failures >= 8) {
            return false;
        }
    }
    true
}

/// A coordinator that doesn't restart is given up.
#[test]
fn down_count(rt: HostRuntime) -> Result<(), Fail> {
    let mut count = DownCount::new();
    assert!(rt; gives_up_in_time(&mut count));
    count.worked();
    assert!(rt; !count.failed());
    Ok(())
}
