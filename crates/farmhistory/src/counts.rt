//! What is counted of a schedule.
ghost use Rattle.std.specs.Prelude.{◌≡◌, IfOk};
ghost use Rattle.std.specs.List.{list_any};
ghost use Rattle.names.specs.declared.limits.TheConstants.{EVENTS};
ghost use Rattle.world.specs.Shown.{shown};
ghost use Rattle.farmhistory.specs.Boards.{AreFew};
ghost use Rattle.farmhistory.specs.Counts.{one_if, tells_commit, is_on_line, leases_at, counted};

use super::lines::number_on;
use events::{CoordNote, Event, EventNote, EventRefusal, Outcome};
use farm_base::{Lease, copy_all};
use std::alloc::{AllocError, Global};
use world::World;

/// What is counted of a schedule.
#[derive(Clone, Copy)]
pub struct Counts {
    /// Its Commits that were answered as committed.
    pub committed: u64,
    /// Its restarts of the coordinator from which on a Commit counts that a failed save had kept.
    pub kept: u64,
    /// Its events that were refused.
    pub refused: u64,
}

/// Copies of the leases that the event may take back.
pub fn leases_at(world: &World, alloc: Global, event: &Event) -> Result<Vec<Lease>, AllocError>
    ensures { IfOk result (λ leases. leases.items ≡ leases_at event.now (shown world.now).ledger.live) }
{
    match event {
        Event::RestartCoordinator => copy_all(alloc, world.coordinator().leases()),
        _ => Ok(Vec::new(alloc)),
    }
}

/// Whether a Commit was answered as committed.
fn tells_commit(note: &EventNote) -> bool
    ensures { result ≡ tells_commit note.now }
{
    matches!(note, EventNote::Coord(CoordNote::Committed(_)))
}

/// Whether the line of one of the lease's slots has a version of its ticket.
fn is_on_line(world: &World, lease: &Lease) -> bool
    ensures { result ≡ is_on_line (shown world.now) lease.now }
{
    lease
        .slots
        .as_slice()
        .iter()
        .any(|slot| number_on(world, lease.ticket, &slot.0).is_some())
}

/// Whether a version of one of the leases is on a line.
fn any_on_line(world: &World, leases: &[Lease]) -> bool
    ensures { result ≡ list_any (is_on_line (shown world.now)) leases.now }
{
    leases.iter().any(|lease| is_on_line(world, lease))
}

fn one_if(counts: bool) -> u64
    ensures { result ≡ one_if counts }
{
    if counts { 1 } else { 0 }
}

/// The counts after one event more, which found these leases and led to the world.
pub fn count(
    counts: Counts,
    leases: &[Lease],
    world: &World,
    outcome: &Result<Outcome, EventRefusal>,
) -> Counts
    requires { AreFew counts EVENTS }
    ensures { result ≡ counted leases.now (shown world.now) outcome.now counts }
{
    match outcome {
        Ok(outcome) => Counts {
            committed: counts.committed + one_if(tells_commit(&outcome.note)),
            kept: counts.kept + one_if(any_on_line(world, leases)),
            refused: counts.refused,
        },
        Err(_) => Counts {
            committed: counts.committed,
            kept: counts.kept,
            refused: counts.refused + 1,
        },
    }
}
