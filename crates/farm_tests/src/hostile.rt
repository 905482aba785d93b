//! Runs that are disturbed once, at each place of their schedule, and runs by an executor that misbehaves.
ghost use Rattle.std.specs.Prelude.{⊤};

use super::definitions::Op;
use super::runs::{End, Executors, add_job, end_of, two_jobs, two_scripted};
use events::{Event, Kept};
use executions::{Call, ExecOutcome, ExecTask, Executor, OpenGate};
use farm::{FarmEnd, FarmFault, FarmLeft};
use farm_base::{Copied, FolderName, Items, NodeId, Text, Ticket};
use farmboard::FarmStep;
use folders::Edit;
use saverecord::Record;
use solverkeys::Keyed;
use std::alloc::{AllocError, Global};
use std::sync::Wait;
use std::test::Fail;
use std::thread::Threads;

/// A run of a job of this op on each of two nodes, by this plan.
fn solved<R: Threads + Wait + Sync>(
    rt: &R,
    alloc: Global,
    op: Op,
    plan: Vec<(usize, FarmStep)>,
) -> Result<Box<FarmEnd>, Fail> {
    let jobs = two_jobs(alloc, op, 1, 2)?;
    let executors = two_scripted(alloc)?;
    match end_of(rt, alloc, 2, jobs, executors, plan, &OpenGate)? {
        Ok(end) => Ok(end),
        Err(stop) => Err(stop.fault.into()),
    }
}

/// Whether a message was left out before one that was delivered.
fn is_one_left_out(events: &[Event]) -> bool {
    let mut next = 1;
    for event in events {
        if let Event::Deliver(number) = event {
            if *number > next {
                return true;
            }
            next = number.saturating_add(1);
        }
    }
    false
}

/// What disturbs a run.
#[derive(Clone, Copy)]
enum Disturbance {
    LostMessage,
    FailedSave(Kept),
    CoordinatorRestart,
    /// A save fails, and two events later the coordinator restarts.
    FailedSaveAndRestart(Kept),
    NodeRestart(NodeId),
    Withdrawal,
}

impl Disturbance {
    fn step(self) -> FarmStep {
        match self {
            Disturbance::LostMessage => FarmStep::Skip,
            Disturbance::FailedSave(kept) | Disturbance::FailedSaveAndRestart(kept) => {
                FarmStep::FailSave(kept)
            }
            Disturbance::CoordinatorRestart => FarmStep::RestartCoordinator,
            Disturbance::NodeRestart(node) => FarmStep::RestartNode(node),
            Disturbance::Withdrawal => FarmStep::Withdraw(Ticket(1)),
        }
    }

    /// The plan of a run that it disturbs at this place.
    fn plan(self, alloc: Global, place: usize) -> Result<Vec<(usize, FarmStep)>, AllocError> {
        let mut plan = Vec::new(alloc);
        plan.push((place, self.step()))?;
        if let Disturbance::FailedSaveAndRestart(_) = self {
            plan.push((place.saturating_add(2), FarmStep::RestartCoordinator))?;
        }
        Ok(plan)
    }

    /// Whether it is this event. A message that is lost is none.
    fn is(self, event: &Event) -> bool {
        match self {
            Disturbance::LostMessage => false,
            Disturbance::FailedSave(_) | Disturbance::FailedSaveAndRestart(_) => {
                matches!(event, Event::FailSave(_))
            }
            Disturbance::CoordinatorRestart => matches!(event, Event::RestartCoordinator),
            Disturbance::NodeRestart(_) => matches!(event, Event::RestartNode(_)),
            Disturbance::Withdrawal => matches!(event, Event::Withdraw(_)),
        }
    }

    /// Whether these are the events of a run that it disturbed.
    fn is_in(self, events: &[Event]) -> bool {
        match self {
            Disturbance::LostMessage => is_one_left_out(events),
            _ => events.iter().any(|event| self.is(event)),
        }
    }

    /// Whether it takes place wherever it is planned: a message is lost only where one is left, and a lease that nobody holds isn't
    /// withdrawn.
    fn is_certain(self) -> bool {
        !matches!(self, Disturbance::LostMessage | Disturbance::Withdrawal)
    }

    /// Whether it took place in a run that it is to disturb at this place. Fails where a job is without its output, and where it is
    /// certain and didn't take place before the end.
    fn took_place(self, end: &FarmEnd, place: usize) -> Result<bool, Fail> {
        if !end.causes.is_empty() {
            return Err("a job is without its output".into());
        }
        let seen = self.is_in(end.schedule.as_slice());
        if !seen && self.is_certain() && place <= end.schedule.len() {
            return Err("a disturbance didn't take place".into());
        }
        Ok(seen)
    }
}

/// Whether this disturbance took place in a run that it is to disturb at this place.
fn took_place<R: Threads + Wait + Sync>(
    rt: &R,
    alloc: Global,
    op: Op,
    place: usize,
    disturbance: Disturbance,
) -> Result<bool, Fail> {
    let plan = disturbance.plan(alloc, place)?;
    let end = solved(rt, alloc, op, plan)?;
    disturbance.took_place(&*end, place)
}

/// Whether this disturbance took place in one run at least, where each run is to be disturbed at another of the places that an
/// undisturbed one has.
fn took_place_once<R: Threads + Wait + Sync>(
    rt: &R,
    alloc: Global,
    op: Op,
    disturbance: Disturbance,
) -> Result<bool, Fail> {
    let places = solved(rt, alloc, op, Vec::new(alloc))?.schedule.len();
    let mut seen = false;
    for place in 0..places {
        if took_place(rt, alloc, op, place, disturbance)? {
            seen = true;
        }
    }
    Ok(seen)
}

/// Whether what disturbs saves took place, and with it what the coordinator keeps of them.
fn is_coordinator_disturbed<R: Threads + Wait + Sync>(
    rt: &R,
    alloc: Global,
    op: Op,
    kept: Kept,
) -> Result<bool, Fail> {
    Ok(
        took_place_once(rt, alloc, op, Disturbance::FailedSave(kept))?
            && took_place_once(rt, alloc, op, Disturbance::FailedSaveAndRestart(kept))?,
    )
}

/// Whether the restarts of this node took place.
fn is_node_disturbed<R: Threads + Wait + Sync>(
    rt: &R,
    alloc: Global,
    op: Op,
    node: u32,
) -> Result<bool, Fail> {
    took_place_once(rt, alloc, op, Disturbance::NodeRestart(NodeId(node)))
}

/// Whether what disturbs a run took place, where jobs of this op are disturbed.
fn are_disturbed<R: Threads + Wait + Sync>(rt: &R, alloc: Global, op: Op) -> Result<bool, Fail> {
    Ok(
        took_place_once(rt, alloc, op, Disturbance::LostMessage)?
            && took_place_once(rt, alloc, op, Disturbance::CoordinatorRestart)?
            && took_place_once(rt, alloc, op, Disturbance::Withdrawal)?
            && is_coordinator_disturbed(rt, alloc, op, Kept::Old)?
            && is_coordinator_disturbed(rt, alloc, op, Kept::New)?
            && is_node_disturbed(rt, alloc, op, 1)?
            && is_node_disturbed(rt, alloc, op, 2)?,
    )
}

/// Whatever disturbs a run, and wherever, both jobs have their output.
#[test]
fn disturbed_at_each_place(rt: HostRuntime) -> Result<(), Fail> {
    assert!(rt; are_disturbed(&rt, rt.alloc(), Op::Put)?);
    assert!(rt; are_disturbed(&rt, rt.alloc(), Op::PutShared)?);
    Ok(())
}

/// What an executor does wrong.
#[derive(Clone, Copy)]
enum Misdeed {
    /// Edits a folder that its task doesn't have.
    OtherFolder,
    /// Writes more than 16 MiB.
    TooMuch,
    /// Gives no output.
    NoOutput,
    /// Answers that memory ran out.
    NoMemory,
    /// Edits a folder that its task doesn't have, once it made an edit that can be made.
    SecondTime,
}

/// Puts a file of this size.
fn put(alloc: Global, size: usize) -> Result<Edit, AllocError> {
    let content = vec![in alloc; 0; size]?;
    let path = String::from_str(alloc, "a")?;
    Ok(Edit::Put(Text::new(path), Items::new(content)))
}

/// The edits that put a file of this size into this folder.
fn edits_of(
    alloc: Global,
    folder: FolderName,
    size: usize,
) -> Result<Vec<(FolderName, Items<Edit>)>, AllocError> {
    let edit = put(alloc, size)?;
    let edits = Items::new(vec![in alloc; edit]?);
    Ok(vec![in alloc; (folder, edits)]?)
}

/// Another folder than this.
fn other(alloc: Global, folder: &FolderName) -> Result<FolderName, AllocError> {
    let id = String::from_str(alloc, "other")?;
    Ok(FolderName {
        id: Text::new(id),
        mode: folder.mode,
        base: None,
    })
}

impl Misdeed {
    /// The folder that it edits in the execution that has this one, after `made` others.
    fn folder(
        self,
        alloc: Global,
        folder: &FolderName,
        made: usize,
    ) -> Result<FolderName, AllocError> {
        match self {
            Misdeed::OtherFolder => other(alloc, folder),
            Misdeed::SecondTime if made > 0 => other(alloc, folder),
            _ => folder.copy(alloc),
        }
    }

    /// How much it writes.
    fn size(self) -> usize {
        match self {
            Misdeed::TooMuch => 16 << 20,
            _ => 1,
        }
    }

    /// Whether a run on such an executor ends with this fault.
    fn ends_with(self, fault: FarmFault) -> bool {
        match fault {
            FarmFault::BadOutcome(_) => !matches!(self, Misdeed::NoMemory),
            FarmFault::Memory => matches!(self, Misdeed::NoMemory),
            _ => false,
        }
    }
}

/// Gives no output, and the edits of its misdeed.
#[derive(Drop)]
struct Misbehaving {
    alloc: Global,
    misdeed: Misdeed,
    calls: Vec<Call>,
}

/// The edits of a misdeed, in the first folder of a task.
fn edits_in(
    alloc: Global,
    misdeed: Misdeed,
    task: &ExecTask,
    made: usize,
) -> Result<Vec<(FolderName, Items<Edit>)>, AllocError> {
    if let Misdeed::NoMemory = misdeed {
        return Err(AllocError);
    }
    let Some(view) = task.views().first() else {
        return Ok(Vec::new(alloc));
    };
    let folder = misdeed.folder(alloc, &view.folder, made)?;
    edits_of(alloc, folder, misdeed.size())
}

impl Executor for Misbehaving {
    ghost history = { λ m. m.calls.items };

    ghost answers = { λ m task outcome. ⊤ };

    fn run(&mut self, task: &ExecTask) -> ExecOutcome {
        if self.calls.reserve(1).is_err() {
            return ExecOutcome::OutOfMemory;
        }
        let Ok(edits) = edits_in(self.alloc, self.misdeed, task, self.calls.len()) else {
            return ExecOutcome::OutOfMemory;
        };
        self.calls.push_reserved(Call {
            key: task.key(),
            result: Ok(Items::new(Vec::new(self.alloc))),
        });
        ExecOutcome::Done {
            outputs: Items::new(Vec::new(self.alloc)),
            edits: Items::new(edits),
        }
    }

    fn calls(&self) -> &[Call] {
        self.calls.as_slice()
    }
}

/// An executor on node 1 that does this.
fn one_misbehaving(alloc: Global, misdeed: Misdeed) -> Result<Executors, Fail> {
    let executor = Misbehaving {
        alloc,
        misdeed,
        calls: Vec::new(alloc),
    };
    let executor: Box<dyn Executor + Send> = Box::new(alloc, executor)?;
    Ok(vec![in alloc; (NodeId(1), executor)]?)
}

/// The end of a run of these jobs by such an executor.
fn end_of_jobs<R: Threads + Wait + Sync>(
    rt: &R,
    alloc: Global,
    jobs: Vec<(NodeId, Keyed)>,
    misdeed: Misdeed,
) -> Result<End, Fail> {
    let executors = one_misbehaving(alloc, misdeed)?;
    end_of(rt, alloc, 1, jobs, executors, Vec::new(alloc), &OpenGate)
}

/// The end of a run of one job.
fn end_of_one<R: Threads + Wait + Sync>(
    rt: &R,
    alloc: Global,
    op: Op,
    misdeed: Misdeed,
) -> Result<End, Fail> {
    let mut jobs = Vec::new(alloc);
    add_job(alloc, &mut jobs, op, 1)?;
    end_of_jobs(rt, alloc, jobs, misdeed)
}

/// The end of a run of an execution that commits, and of one behind it whose edit can't be made.
fn end_of_two<R: Threads + Wait + Sync>(rt: &R, alloc: Global) -> Result<End, Fail> {
    let mut jobs = Vec::new(alloc);
    add_job(alloc, &mut jobs, Op::Put, 1)?;
    add_job(alloc, &mut jobs, Op::PutPrivate, 1)?;
    end_of_jobs(rt, alloc, jobs, Misdeed::SecondTime)
}

/// The record that a run left.
fn record_of(alloc: Global, left: &FarmLeft) -> Result<Box<Record>, Fail> {
    let record = Record::read(alloc, left.saved.as_slice())?;
    Ok(Box::new(alloc, record)?)
}

/// Whether tenures are the only leases that a run left: the lease of its last execution was given back.
fn has_tenures_alone(alloc: Global, left: &FarmLeft) -> Result<bool, Fail> {
    let record = record_of(alloc, left)?;
    Ok(record.leases.iter().all(|lease| lease.tenure))
}

/// Whether a run ended with a fault of this misdeed, and left its executor, a receipt for each of its commits, and no leases but
/// tenures.
fn ended_so(alloc: Global, end: &End, misdeed: Misdeed, commits: usize) -> Result<bool, Fail> {
    let Err(stop) = end else {
        return Ok(false);
    };
    let Some(left) = &stop.left else {
        return Ok(false);
    };
    let is_so = left.receipts.len() == commits && left.executors.len() == 1;
    Ok(is_so && misdeed.ends_with(stop.fault) && has_tenures_alone(alloc, left)?)
}

/// Whether a run of one job ends so.
fn ends_so<R: Threads + Wait + Sync>(
    rt: &R,
    alloc: Global,
    op: Op,
    misdeed: Misdeed,
) -> Result<bool, Fail> {
    let end = end_of_one(rt, alloc, op, misdeed)?;
    ended_so(alloc, &end, misdeed, 0)
}

#[test]
fn executors_that_misbehave(rt: HostRuntime) -> Result<(), Fail> {
    let alloc = rt.alloc();
    assert!(rt; ends_so(&rt, alloc, Op::PutPrivate, Misdeed::OtherFolder)?);
    assert!(rt; ends_so(&rt, alloc, Op::PutPrivate, Misdeed::TooMuch)?);
    assert!(rt; ends_so(&rt, alloc, Op::PutPrivate, Misdeed::NoMemory)?);
    assert!(rt; ends_so(&rt, alloc, Op::PutShared, Misdeed::TooMuch)?);
    Ok(())
}

/// Whether a run ended with one job failed.
fn has_failed(end: &End) -> bool {
    match end {
        Ok(end) => end.causes.len() == 1,
        Err(_) => false,
    }
}

#[test]
fn an_executor_without_output(rt: HostRuntime) -> Result<(), Fail> {
    let end = end_of_one(&rt, rt.alloc(), Op::PutPrivate, Misdeed::NoOutput)?;
    assert!(rt; has_failed(&end));
    Ok(())
}

/// What the first committed stands.
#[test]
fn what_was_committed_stands(rt: HostRuntime) -> Result<(), Fail> {
    let end = end_of_two(&rt, rt.alloc())?;
    assert!(rt; ended_so(rt.alloc(), &end, Misdeed::SecondTime, 1)?);
    Ok(())
}
