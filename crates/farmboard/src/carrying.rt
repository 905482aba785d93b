//! How a board carries out an event.
ghost use Rattle.std.specs.Prelude.{◌≡◌, ◌<◌, IfOk, OnOk, OnErr, vec_len};
ghost use Rattle.std.specs.Vec.{vec_capacity};
ghost use Rattle.names.specs.Contents.{content_digest};
ghost use Rattle.protocol.specs.Farm.{farm_limits};
ghost use Rattle.protocol.specs.Replay.{step};
ghost use Rattle.farmhistory.specs.Shown.{shown};
ghost use Rattle.farmhistory.specs.Counts.{leases_at};

use events::{Event, EventRefusal, Outcome};
use farm_base::{Copied, Lease};
use farmhistory::{InUse, World, carry_out, leases_at};
use std::alloc::{AllocError, Global};

/// An event that the world took or refused.
#[derive(Drop)]
pub(crate) struct CarriedOut {
    pub(crate) event: Event,
    /// The leases that it may have taken back.
    pub(crate) leases: Vec<Lease>,
    pub(crate) outcome: Result<Outcome, EventRefusal>,
}

/// Makes room for what one event more adds. Nothing else changes.
pub(crate) fn make_room(
    schedule: &mut Vec<Event>,
    out: &mut Vec<InUse>,
    ahead: &mut Vec<u64>,
) -> Result<(), AllocError>
    ensures schedule { schedule.new.items ≡ schedule.old.items }
    ensures out { out.new.items ≡ out.old.items }
    ensures ahead { ahead.new.items ≡ ahead.old.items }
    ensures schedule_room { OnOk result (vec_len schedule.new < vec_capacity schedule.new) }
    ensures out_room { OnOk result (vec_len out.new < vec_capacity out.new) }
    ensures ahead_room { OnOk result (vec_len ahead.new < vec_capacity ahead.new) }
{
    schedule.reserve(1)?;
    out.reserve(1)?;
    ahead.reserve(1)
}

/// Carries out an event, and gives a copy of it. Where memory runs out the world is as it was.
pub(crate) fn carry_out_copied(
    world: &mut World,
    alloc: Global,
    event: Event,
) -> Result<CarriedOut, AllocError>
    ensures event { IfOk result (λ done. done.event ≡ event) }
    ensures leases { IfOk result (λ done. done.leases.items ≡ leases_at event (shown world.old).ledger.live) }
    ensures farm { IfOk result (λ done. step content_digest farm_limits (shown world.old) event ≡ record { farm = shown world.new; outcome = done.outcome }) }
    ensures err { OnErr result (shown world.new ≡ shown world.old) }
{
    let copy = event.copy(alloc)?;
    let leases = leases_at(world, alloc, &event)?;
    let outcome = carry_out(world, alloc, event)?;
    Ok(CarriedOut {
        event: copy,
        leases,
        outcome,
    })
}
