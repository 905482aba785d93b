ghost use Rattle.std.specs.Prelude.{◌≡◌, ◌↔◌, IsTrue, IfOk, IfSome, length, is_some, option_copied};
ghost use Rattle.names.specs.Contents.{content_digest};
ghost use Rattle.protocol.specs.Farm.{farm_limits};
ghost use Rattle.protocol.specs.Lists.{nth};
ghost use Rattle.protocol.specs.Lawful.{IsEvent};
ghost use Rattle.protocol.specs.Replay.{opening, step, is_node};
ghost use Rattle.protocol.specs.Follows.{SafeAfter, SafeBetween};
ghost use Rattle.coordinator.specs.Held.{ledger};
ghost use Rattle.saverecord.specs.Logs.{saved_in};
ghost use Rattle.nodecore.specs.Shown as core;
ghost use Rattle.nodeasks.specs.Rows.{none_lost};
ghost use Rattle.world.specs.Meanings.{MeansAsTold, GrantsAtOnce, AnswersAsks};
ghost use Rattle.world.specs.Parts.{shown_parts};
ghost use Rattle.world.specs.Setups.{IsSetup};
ghost use Rattle.world.specs.Turns.{Came};
ghost use Rattle.world.specs.Worlds.{IsWorld};

use super::parts::Parts;
use super::pool::message_at;
use coordinator::Coordinator;
use events::{EventRefusal, Outcome};
use farm_base::{NODES, NodeId};
use nodecore::{Message, NodeCore};
use protocol::laws::{
    a_fitting_message_is_granted, every_ask_is_answered, every_event_is_moves,
    every_farm_stays_lawful, every_run_is_safe, every_schedule_is_safe,
};
use saverecord::MemoryKeeper;
use schedule::{Event, Setup};
use std::alloc::Global;
use thiserror::Error;

/// A farm at one moment: its coordinator, its nodes, and every message that was ever sent. A run of
/// the protocol leads to each one, so each is safe.
#[derive(Drop)]
pub struct World {
    parts: Box<Parts>,
    ghost sound: { ∥ IsWorld (shown_parts parts.value) ∥₁ },
}

/// Why a farm does not start.
#[derive(Clone, Copy, Debug, PartialEq, Eq, Error)]
pub enum StartRefusal {
    #[error("a farm has 1 to 1,024 nodes")]
    BadSetup,
    #[error("out of memory")]
    OutOfMemory,
}

/// Whether a farm may begin with this.
pub(crate) fn is_setup(setup: Setup) -> bool
    ensures { IsTrue result ↔ IsSetup setup }
{
    1 <= setup.nodes && setup.nodes <= NODES
}

/// The wants of an ask are lawful by their type.
fn is_event(event: &Event)
    ensures { IsEvent event.now }
{
    if let Event::Ask(_, wants) = event {
        let _wants = wants.as_slice();
    }
}

impl World {
    ghost use Rattle.world.specs.Shown.{shown};

    /// A farm where nothing happened. It is safe.
    #[tactic(auto, unfolding(crate::specs::Shown::shown))]
    pub fn start(alloc: Global, setup: Setup) -> Result<Self, StartRefusal>
        ensures farm { IfOk result (λ w. shown w ≡ opening content_digest setup.nodes) }
        ensures safe { IfOk result (λ w. SafeAfter content_digest (shown w)) }
        ensures setup { IfOk result (λ w. IsSetup setup) }
        ensures bad { (result ≡ Err StartRefusal.BadSetup) ↔ (IsSetup setup → ⊥) }
    {
        if !is_setup(setup) {
            return Err(StartRefusal::BadSetup);
        }
        let Ok(parts) = Parts::boxed(alloc, setup.nodes) else {
            return Err(StartRefusal::OutOfMemory);
        };
        every_schedule_is_safe();
        every_farm_stays_lawful();
        Ok(World { parts })
    }

    /// Every world is safe.
    #[tactic(auto, unfolding(crate::specs::Shown::shown))]
    pub fn is_safe(&self)
        ensures { ∥ SafeAfter content_digest (shown self.now) ∥₁ }
    {}

    /// The coordinator, which keeps its record in memory.
    #[tactic(auto, unfolding(crate::specs::Shown::shown))]
    pub fn coordinator(&self) -> &Coordinator<MemoryKeeper>
        ensures ledger { ledger result.now.held ≡ (shown self.now).ledger }
        ensures record { saved_in result.now.keeper.texts ≡ (shown self.now).saved }
        ensures down { result.now.down ≡ (shown self.now).down }
        ensures armed { result.now.keeper.armed ≡ (shown self.now).armed }
    {
        &self.parts.coordinator
    }

    /// The node of this number, from 1 on.
    #[tactic(auto, unfolding(crate::specs::Shown::shown))]
    pub fn node(&self, node: NodeId) -> Option<&NodeCore>
        ensures node { IfSome result (λ x. core.shown x.now ≡ (shown self.now).nodes node.0) }
        // It tells of each ask how it ended: no node of a farm forgets.
        ensures told { IfSome result (λ x. core.forgets x.now ≡ none_lost) }
        ensures exact { is_some result ≡ is_node (shown self.now) node }
    {
        self.parts.nodes.get(node)
    }

    /// The message of this number, from 1 on.
    #[tactic(auto, unfolding(crate::specs::Shown::shown))]
    pub fn message(&self, number: u64) -> Option<&Message>
        ensures { option_copied result ≡ nth (shown self.now).pool number }
    {
        message_at(self.parts.pool.as_slice(), number)
    }

    /// How many messages were ever sent.
    #[tactic(auto, unfolding(crate::specs::Shown::shown))]
    pub fn pool_len(&self) -> u64
        ensures { result ≡ length (shown self.now).pool }
    {
        self.parts.pool.len() as u64
    }

    /// Carries out one event. What is refused changes nothing, with two exceptions: after a failed save the
    /// coordinator is down until it restarts, and a node whose greatest life is over is down for good. The farm stays
    /// safe: what was so before still is.
    pub fn step(&mut self, alloc: Global, event: Event) -> Result<Outcome, EventRefusal>
        ensures came { Came (step content_digest farm_limits (shown self.old) event) (shown self.old) (shown self.new) result }
        ensures safe { ∥ SafeBetween content_digest (shown self.old) (shown self.new) ∥₁ }
        ensures meaning { MeansAsTold (shown self.old) event result (shown self.new) }
        ensures at_once { GrantsAtOnce (shown self.old) event result (shown self.new) }
        ensures asks { AnswersAsks (shown self.old) event result }
    {
        every_run_is_safe();
        every_event_is_moves();
        a_fitting_message_is_granted();
        every_ask_is_answered();
        every_farm_stays_lawful();
        is_event(&event);
        self.parts.carry_out(alloc, event)
    }
}
