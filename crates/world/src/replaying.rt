ghost use Rattle.std.specs.Prelude.{◌≡◌, ◌↔◌, ℕ, ◌≤◌, ◌<◌, IfOk, OnOk, length};
ghost use Rattle.names.specs.Contents.{content_digest};
ghost use Rattle.names.specs.declared.limits.TheConstants.{EVENTS};
ghost use Rattle.protocol.specs.Farm.{farm_limits};
ghost use Rattle.protocol.specs.World.{start};
ghost use Rattle.protocol.specs.Follows.{SafeAfter};
ghost use Rattle.protocol.specs.Chronicle.{Chronicle, Headline};
ghost use Rattle.protocol.specs.Replay.{opening, step};
ghost use Rattle.world.specs.Meanings.{NoneWaitsIdly};
ghost use Rattle.world.specs.Setups.{IsSetup};
ghost use Rattle.world.specs.Shown.{shown};
ghost use Rattle.world.specs.Replays.{replayed, StaysSafe, KeepsHeadline};

use super::laws::every_replay_means;
use super::world::{World, is_setup};
use events::EventRefusal;
use farm_base::{Copied, EVENTS};
use protocol::laws::{every_ask_is_answered, every_schedule_is_safe};
use schedule::{Event, Setup};
use std::alloc::{AllocError, Global};
use thiserror::Error;

/// Why a schedule is not replayed.
#[derive(Clone, Copy, Debug, PartialEq, Eq, Error)]
pub enum ReplayRefusal {
    #[error("a farm has 1 to 1,024 nodes")]
    BadSetup,
    #[error("more than 65,536 events")]
    TooManyEvents,
    /// Memory ran out at the event of this number, or at the start for 0.
    #[error("out of memory at event {0}")]
    OutOfMemory(u64),
}

impl World {
    /// Carries out a copy of one event. Only want of memory ends a replay: what is refused otherwise is an event too.
    fn take(&mut self, alloc: Global, event: &Event) -> Result<(), AllocError>
        ensures { OnOk result (shown self.new ≡ (step content_digest farm_limits (shown self.old) event.now).farm) }
    {
        let event = event.copy(alloc)?;
        match self.step(alloc, event) {
            Err(EventRefusal::OutOfMemory) => Err(AllocError),
            _ => Ok(()),
        }
    }
}

/// The farm after a whole schedule; refused events are events too. The farm is safe, and stays so from each
/// part of the schedule to each later one. The schedule has a chronicle, in which each event means what it
/// answers, and the headline of this project holds after each part of it, and so of the farm that is handed back, where no
/// ask waits that could be granted.
pub fn replay(alloc: Global, setup: Setup, events: &[Event]) -> Result<World, ReplayRefusal>
    ensures farm { IfOk result (λ w. shown w ≡ replayed setup.nodes events.now) }
    ensures safe { IfOk result (λ w. SafeAfter content_digest (shown w)) }
    ensures stays { IfOk result (λ w. StaysSafe setup.nodes events.now) }
    ensures chronicle { IfOk result (λ w. Chronicle content_digest farm_limits events.now (opening content_digest setup.nodes) (start content_digest)) }
    ensures headline { IfOk result (λ w. KeepsHeadline setup.nodes events.now) }
    ensures holds { IfOk result (λ w. Headline content_digest farm_limits (shown w)) }
    ensures idle { IfOk result (λ w. NoneWaitsIdly (shown w)) }

    // A setup out of range is reported as such, also with too many events.
    ensures setup { (result ≡ Err ReplayRefusal.BadSetup) ↔ (IsSetup setup → ⊥) }
    ensures events { (result ≡ Err ReplayRefusal.TooManyEvents) ↔ (IsSetup setup × (EVENTS < length events.now)) }
    ensures memory { (place : ℕ) → result ≡ Err (ReplayRefusal.OutOfMemory place) → IsSetup setup × (length events.now ≤ EVENTS) × (place ≤ length events.now) }
    ensures within { IfOk result (λ w. IsSetup setup) }
    ensures few { IfOk result (λ w. length events.now ≤ EVENTS) }
{
    if !is_setup(setup) {
        return Err(ReplayRefusal::BadSetup);
    }
    if events.len() > EVENTS {
        return Err(ReplayRefusal::TooManyEvents);
    }
    let Ok(mut world) = World::start(alloc, setup) else {
        return Err(ReplayRefusal::OutOfMemory(0));
    };
    every_schedule_is_safe();
    every_replay_means();
    every_ask_is_answered();
    for place in 0..events.len() {
        if world.take(alloc, &events[place]).is_err() {
            return Err(ReplayRefusal::OutOfMemory(place as u64 + 1));
        }
    }
    Ok(world)
}
