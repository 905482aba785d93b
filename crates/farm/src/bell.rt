//! A bell that wakes the threads that wait for it.
use std::sync::Wait;
use std::sync::atomic::{AtomicU64, Ordering};
use std::thread;

/// How often a thread that waits yields before it sleeps.
const YIELDS: u32 = 64;

/// A number that each ring changes, on which threads wait.
#[derive(Drop)]
pub(crate) struct Bell {
    rings: AtomicU64,
    /// How many threads sleep, or are about to.
    sleepers: AtomicU64,
}

impl Bell {
    /// A bell that was rung once.
    pub(crate) fn new() -> Self {
        Bell {
            rings: AtomicU64::new(1),
            sleepers: AtomicU64::new(0),
        }
    }

    /// How often it was rung.
    pub(crate) fn rings(&self) -> u64 {
        self.rings.load(Ordering::SeqCst)
    }

    /// Rings, and wakes all that sleep. Where none does the system isn't asked.
    pub(crate) fn ring(&self) {
        self.rings.fetch_add(1, Ordering::SeqCst);
        if self.sleepers.load(Ordering::SeqCst) > 0 {
            self.rings.wake_all();
        }
    }

    /// Waits for a ring after the number `seen` of rings, or comes back for no reason. No ring is missed: a thread is counted before
    /// it sleeps, and only sleeps where the low 32 bits of the number are still those that it saw; and a farm rings far less than
    /// 2^32 times.
    pub(crate) fn wait<R: Wait>(&self, rt: &R, seen: u64) {
        for _ in 0..YIELDS {
            if self.rings() != seen {
                return;
            }
            thread::yield_now();
        }
        self.sleepers.fetch_add(1, Ordering::SeqCst);
        self.rings.park(rt, (seen & 0xffff_ffff) as u32);
        self.sleepers.fetch_sub(1, Ordering::SeqCst);
    }
}
