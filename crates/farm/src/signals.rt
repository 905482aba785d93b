//! What the threads of a farm tell each other.
use super::bell::Bell;
use solving::FarmFault;
use std::alloc::{AllocError, Global};
use std::sync::atomic::{AtomicBool, AtomicU64, Ordering};
use std::sync::{Mutex, Wait};

/// What the threads of a farm tell each other, without the lock of the board.
#[derive(Drop)]
pub(crate) struct Signals {
    /// The first fault.
    fault: Mutex<Option<FarmFault>>,
    stop: AtomicBool,
    /// Rung by whatever may let a waiting worker go on.
    changes: Bell,
    /// Rung by whatever may let the router go on: each worker that begins to wait or ends, and each change where a tenure may
    /// have to end.
    calls: Bell,
    /// Whether a job has a SHARED folder, so that there are tenures.
    shares: bool,
    /// The number of events from which on a step of the router's plan is due.
    due: AtomicU64,
    /// A number that changes with each step of a worker.
    steps: AtomicU64,
    /// For each worker the number of `changes` at which it last saw that it has to wait.
    waits: Vec<AtomicU64>,
    /// How many workers have ended.
    ended: AtomicU64,
}

/// What each worker waits for: nothing, at first.
fn waits_of(alloc: Global, workers: usize) -> Result<Vec<AtomicU64>, AllocError> {
    let mut waits = Vec::with_capacity(alloc, workers)?;
    for _ in 0..workers {
        waits.push(AtomicU64::new(0))?;
    }
    Ok(waits)
}

impl Signals {
    /// Those of this number of workers, before they begin. From `due` events on the router has to act before a message is delivered.
    pub(crate) fn new(
        alloc: Global,
        workers: usize,
        shares: bool,
        due: u64,
    ) -> Result<Self, AllocError> {
        Ok(Signals {
            fault: Mutex::new(None),
            stop: AtomicBool::new(false),
            changes: Bell::new(),
            calls: Bell::new(),
            shares,
            due: AtomicU64::new(due),
            steps: AtomicU64::new(0),
            waits: waits_of(alloc, workers)?,
            ended: AtomicU64::new(0),
        })
    }

    /// The first fault, if there was one.
    pub(crate) fn fault<R: Wait>(&self, rt: &R) -> Option<FarmFault> {
        *self.fault.lock(rt)
    }

    fn is_stopped(&self) -> bool {
        self.stop.load(Ordering::SeqCst)
    }

    /// `Stalled` once all threads are to stop. It isn't what the run ends with: an earlier fault is.
    pub(crate) fn go_on(&self) -> Result<(), FarmFault> {
        if self.is_stopped() {
            return Err(FarmFault::Stalled);
        }
        Ok(())
    }

    /// Notes a fault, if it is the first, and stops all threads: those that wait are woken.
    pub(crate) fn fail<R: Wait>(&self, rt: &R, fault: FarmFault) {
        let mut first = self.fault.lock(rt);
        if first.is_none() {
            *first = Some(fault);
        }
        self.stop.store(true, Ordering::SeqCst);
        self.changes.ring();
        self.calls.ring();
    }

    pub(crate) fn changes(&self) -> u64 {
        self.changes.rings()
    }

    /// Notes a change, which wakes the workers that wait, and the router where it may have to end a tenure.
    pub(crate) fn note_change(&self) {
        self.changes.ring();
        if self.shares {
            self.calls.ring();
        }
    }

    /// The number of events from which on the router has to act before a message is delivered.
    pub(crate) fn due(&self) -> u64 {
        self.due.load(Ordering::SeqCst)
    }

    /// Notes the number of events from which on the next step of the plan is due.
    pub(crate) fn await_step(&self, due: u64) {
        self.due.store(due, Ordering::SeqCst);
    }

    /// How often the router was called.
    pub(crate) fn calls(&self) -> u64 {
        self.calls.rings()
    }

    /// Waits until the router is called, after the number `seen` of calls.
    pub(crate) fn wait_for_call<R: Wait>(&self, rt: &R, seen: u64) {
        self.calls.wait(rt, seen);
    }

    /// A number that changes with each step of a worker.
    pub(crate) fn steps(&self) -> u64 {
        self.steps.load(Ordering::SeqCst)
    }

    /// Counts a step of a worker for which no other waits.
    pub(crate) fn count_step(&self) {
        self.steps.fetch_add(1, Ordering::SeqCst);
    }

    /// Notes a step of a worker for which another may wait.
    pub(crate) fn note_step(&self) {
        self.count_step();
        self.note_change();
    }

    /// Waits until something changes, as of the number `seen` of changes at which a worker had to wait. `Stalled` once all
    /// threads are to stop.
    pub(crate) fn pause<R: Wait>(&self, rt: &R, worker: usize, seen: u64) -> Result<(), FarmFault> {
        if self.changes() != seen {
            return self.go_on();
        }
        if let Some(wait) = self.waits.get(worker) {
            wait.store(seen, Ordering::SeqCst);
        }
        self.calls.ring();
        for _ in rt.forever() {
            self.go_on()?;
            if self.changes() != seen {
                return Ok(());
            }
            self.changes.wait(rt, seen);
        }
        unreachable!()
    }

    /// Whether each worker has ended, or has to wait as of this number of changes.
    pub(crate) fn all_wait(&self, changes: u64) -> bool {
        self.waits.iter().all(|wait| wait.load(Ordering::SeqCst) == changes
            || is_end(wait.load(Ordering::SeqCst)))
    }

    /// Notes that a worker has ended.
    pub(crate) fn end(&self, worker: usize) {
        if let Some(wait) = self.waits.get(worker) {
            wait.store(ENDED, Ordering::SeqCst);
        }
        self.ended.fetch_add(1, Ordering::SeqCst);
        self.note_step();
        self.calls.ring();
    }

    /// Whether each worker has ended.
    pub(crate) fn all_ended(&self) -> bool {
        self.ended.load(Ordering::SeqCst) >= self.waits.len() as u64
    }
}

/// The wait of a worker that has ended.
const ENDED: u64 = u64::MAX;

fn is_end(wait: u64) -> bool {
    wait == ENDED
}
