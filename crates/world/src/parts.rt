//! What a world is made of, and what each event does to it.
ghost use Rattle.std.specs.Prelude.{Ok, Some, None, false, [], ◌≡◌, IfOk};
ghost use Rattle.names.specs.Contents.{content_digest};
ghost use Rattle.names.specs.declared.limits.TheConstants.{NODES};
ghost use Rattle.protocol.specs.Farm.{farm_limits};
ghost use Rattle.protocol.specs.Lawful.{IsLawfulFarm};
ghost use Rattle.protocol.specs.Lists.{nth};
ghost use Rattle.protocol.specs.Ledger.{begin_work, withdrawn, pruned, nudged};
ghost use Rattle.protocol.specs.Ledger.{opening as first_ledger};
ghost use Rattle.events.specs.declared.answer.EventNote.TheVariants as note;
ghost use Rattle.coordinator.specs.Held.{ledger};
ghost use Rattle.saverecord.specs.Texts.{whole_alone};
ghost use Rattle.protocol.specs.Replay.{opening, step, node_does, delivered, coordinated};
ghost use Rattle.protocol.specs.Nodes.{resent};
ghost use Rattle.world.specs.Tables.{called};
ghost use Rattle.world.specs.Turns.{Came, FitsIn, from_node, from_coordinator, restarting, restarting_coordinator, retiring};
ghost use Rattle.world.specs.Parts.{shown_parts};

use super::call::Call;
use super::nodes::Nodes;
use super::pool::{message_at, place_in, send_coordinator, send_node};
use coordinator::Coordinator;
use events::{CoordRefusal, EventNote, EventRefusal, Kept, NodeRefusal, Outcome};
use farm_base::{NodeId, Slot, Ticket};
use nodecore::{Message, NodeCore};
use saverecord::MemoryKeeper;
use schedule::Event;
use std::alloc::{AllocError, Global};

/// The coordinator of a farm, its nodes, and every message that was ever sent.
#[derive(Drop)]
pub(crate) struct Parts {
    pub(crate) coordinator: Coordinator<MemoryKeeper>,
    pub(crate) nodes: Nodes,
    pub(crate) pool: Vec<Message>,
}

/// Maps a node's refusal to the event's.
fn from_node(refusal: NodeRefusal) -> EventRefusal
    ensures { result ≡ from_node refusal }
{
    match refusal {
        NodeRefusal::OutOfMemory => EventRefusal::OutOfMemory,
        other => EventRefusal::Node(other),
    }
}

/// Maps the coordinator's refusal to the event's.
fn from_coordinator(refusal: CoordRefusal) -> EventRefusal
    ensures { result ≡ from_coordinator refusal }
{
    match refusal {
        CoordRefusal::OutOfMemory => EventRefusal::OutOfMemory,
        other => EventRefusal::Coord(other),
    }
}

/// The coordinator of a farm where nothing happened.
fn first_coordinator(alloc: Global) -> Result<Coordinator<MemoryKeeper>, AllocError>
    ensures ledger { IfOk result (λ c. ledger c.held ≡ first_ledger) }
    ensures up { IfOk result (λ c. c.down ≡ false) }
    ensures texts { IfOk result (λ c. c.keeper.texts ≡ whole_alone []) }
    ensures armed { IfOk result (λ c. c.keeper.armed ≡ None) }
{
    match Coordinator::start(alloc, MemoryKeeper::new(alloc, Vec::new(alloc))) {
        Ok(coordinator) => Ok(coordinator),
        Err(_) => Err(AllocError),
    }
}

/// The outcome of an event that sends nothing.
fn silent(note: EventNote) -> Outcome
    ensures { result ≡ record { note = note; first = 0; sent = 0 } }
{
    Outcome {
        note,
        first: 0,
        sent: 0,
    }
}

impl Parts {
    /// A farm of `count` nodes where nothing happened.
    pub(crate) fn start(alloc: Global, count: u32) -> Result<Self, AllocError>
        ensures { IfOk result (λ parts. shown_parts parts ≡ opening content_digest count) }
    {
        let nodes = Nodes::start(alloc, count)?;
        let coordinator = first_coordinator(alloc)?;
        Ok(Parts {
            coordinator,
            nodes,
            pool: Vec::new(alloc),
        })
    }

    /// The same on the heap, where a large value is moved and let go at once.
    pub(crate) fn boxed(alloc: Global, count: u32) -> Result<Box<Self>, AllocError>
        ensures { IfOk result (λ parts. shown_parts parts.value ≡ opening content_digest count) }
    {
        let parts = Parts::start(alloc, count)?;
        Ok(Box::new(alloc, parts)?)
    }

    /// The node is asked for something.
    fn call(&mut self, alloc: Global, node: NodeId, call: Call) -> Result<Outcome, EventRefusal>
        ensures { Came (node_does node (called call) (shown_parts self.old)) (shown_parts self.old) (shown_parts self.new) result }
    {
        if self.pool.reserve(1).is_err() {
            return Err(EventRefusal::OutOfMemory);
        }
        let Some(answer) = self.nodes.call(alloc, node, call) else {
            return Err(EventRefusal::NoSuchNode);
        };
        match answer {
            Err(refusal) => Err(from_node(refusal)),
            Ok(done) => Ok(send_node(&mut self.pool, done)),
        }
    }

    /// How many messages its receiver sends of it, at most.
    fn room_for(&self, message: &Message) -> usize
        ensures { FitsIn (shown_parts self.now) message.now result }
    {
        match message {
            Message::ToCoord(_) => self.coordinator.most_sends(),
            Message::ToNode(message) => match self.nodes.get(message.node()) {
                None => 0,
                Some(core) => core.most_sends(message),
            },
        }
    }

    /// The message of a number arrives.
    fn deliver(&mut self, alloc: Global, number: u64) -> Result<Outcome, EventRefusal>
        requires { ∥ IsLawfulFarm NODES (shown_parts self.old) ∥₁ }
        ensures { Came (delivered content_digest farm_limits (nth (shown_parts self.old).pool number) (shown_parts self.old)) (shown_parts self.old) (shown_parts self.new) result }
    {
        let Some(place) = place_in(self.pool.as_slice(), number) else {
            return Err(EventRefusal::NoSuchMessage);
        };
        let room = self.room_for(&self.pool[place]);
        if self.pool.reserve(room).is_err() {
            return Err(EventRefusal::OutOfMemory);
        }
        match &self.pool[place] {
            Message::ToCoord(message) => match self.coordinator.handle(alloc, message) {
                Err(refusal) => Err(from_coordinator(refusal)),
                Ok(handled) => Ok(send_coordinator(&mut self.pool, handled)),
            },
            Message::ToNode(message) => {
                let Some(answer) = self.nodes.hear(alloc, message) else {
                    return Err(EventRefusal::NoSuchNode);
                };
                match answer {
                    Err(refusal) => Err(from_node(refusal)),
                    Ok(done) => Ok(send_node(&mut self.pool, done)),
                }
            }
        }
    }

    /// The node sends again what was not answered.
    fn resend(&mut self, alloc: Global, node: NodeId) -> Result<Outcome, EventRefusal>
        ensures { Came (node_does node (resent farm_limits) (shown_parts self.old)) (shown_parts self.old) (shown_parts self.new) result }
    {
        let Some(core) = self.nodes.get(node) else {
            return Err(EventRefusal::NoSuchNode);
        };
        match core.resend(alloc) {
            Err(refusal) => Err(from_node(refusal)),
            Ok(done) => {
                if self.pool.reserve(done.sends.as_slice().len()).is_err() {
                    return Err(EventRefusal::OutOfMemory);
                }
                Ok(send_node(&mut self.pool, done))
            }
        }
    }

    /// The node fails and starts again.
    fn restart(&mut self, alloc: Global, node: NodeId) -> Result<Outcome, EventRefusal>
        ensures { Came (restarting node (shown_parts self.old)) (shown_parts self.old) (shown_parts self.new) result }
    {
        if self.pool.reserve(1).is_err() {
            return Err(EventRefusal::OutOfMemory);
        }
        let Some(answer) = self.nodes.restart(alloc, node) else {
            return Err(EventRefusal::NoSuchNode);
        };
        match answer {
            Err(refusal) => Err(from_node(refusal)),
            Ok(done) => Ok(send_node(&mut self.pool, done)),
        }
    }

    /// The lease of a ticket is withdrawn.
    fn withdraw(&mut self, alloc: Global, ticket: Ticket) -> Result<Outcome, EventRefusal>
        ensures { Came (coordinated (shown_parts self.old).down (withdrawn farm_limits ticket (begin_work (shown_parts self.old).ledger)) (shown_parts self.old)) (shown_parts self.old) (shown_parts self.new) result }
    {
        let room = self.coordinator.most_sends_of_calls();
        if self.pool.reserve(room).is_err() {
            return Err(EventRefusal::OutOfMemory);
        }
        match self.coordinator.withdraw(alloc, ticket) {
            Err(refusal) => Err(from_coordinator(refusal)),
            Ok(handled) => Ok(send_coordinator(&mut self.pool, handled)),
        }
    }

    /// The line of a slot begins anew.
    fn prune(&mut self, alloc: Global, slot: &Slot) -> Result<Outcome, EventRefusal>
        ensures { Came (coordinated (shown_parts self.old).down (pruned farm_limits slot.now (begin_work (shown_parts self.old).ledger)) (shown_parts self.old)) (shown_parts self.old) (shown_parts self.new) result }
    {
        let room = self.coordinator.most_sends_of_calls();
        if self.pool.reserve(room).is_err() {
            return Err(EventRefusal::OutOfMemory);
        }
        match self.coordinator.prune(alloc, slot) {
            Err(refusal) => Err(from_coordinator(refusal)),
            Ok(handled) => Ok(send_coordinator(&mut self.pool, handled)),
        }
    }

    /// A node is gone for good.
    fn retire(&mut self, alloc: Global, node: NodeId) -> Result<Outcome, EventRefusal>
        requires { ∥ IsLawfulFarm NODES (shown_parts self.old) ∥₁ }
        ensures { Came (retiring node (shown_parts self.old)) (shown_parts self.old) (shown_parts self.new) result }
    {
        if self.nodes.get(node).is_none() {
            return Err(EventRefusal::NoSuchNode);
        }
        let room = self.coordinator.most_sends_of_calls();
        if self.pool.reserve(room).is_err() {
            return Err(EventRefusal::OutOfMemory);
        }
        match self.coordinator.retire(alloc, node) {
            Err(refusal) => Err(from_coordinator(refusal)),
            Ok(handled) => Ok(send_coordinator(&mut self.pool, handled)),
        }
    }

    /// The Grant of each lease is sent again.
    fn nudge(&mut self, alloc: Global) -> Result<Outcome, EventRefusal>
        ensures { Came (coordinated (shown_parts self.old).down (Ok (nudged farm_limits (begin_work (shown_parts self.old).ledger))) (shown_parts self.old)) (shown_parts self.old) (shown_parts self.new) result }
    {
        match self.coordinator.nudge(alloc) {
            Err(refusal) => Err(from_coordinator(refusal)),
            Ok(handled) => {
                if self.pool.reserve(handled.sends.as_slice().len()).is_err() {
                    return Err(EventRefusal::OutOfMemory);
                }
                Ok(send_coordinator(&mut self.pool, handled))
            }
        }
    }

    /// The coordinator fails, and starts again from its record.
    fn restart_coordinator(&mut self, alloc: Global) -> Result<Outcome, EventRefusal>
        ensures { Came (restarting_coordinator (shown_parts self.old)) (shown_parts self.old) (shown_parts self.new) result }
    {
        match self.coordinator.restart(alloc) {
            Err(refusal) => Err(from_coordinator(refusal)),
            Ok(()) => Ok(silent(EventNote::Restarted)),
        }
    }

    /// The next save is to fail, and to leave this.
    fn fail_save(&mut self, kept: Kept) -> Outcome
        ensures farm { shown_parts self.new ≡ record (shown_parts self.old) { armed = Some kept } }
        ensures outcome { result ≡ record { note = note.Armed; first = 0; sent = 0 } }
    {
        self.coordinator.fail_next(kept);
        silent(EventNote::Armed)
    }

    /// Carries out one event, by its kind.
    #[tactic(auto, unfolding(protocol::specs::Replay::step))]
    pub(crate) fn carry_out(&mut self, alloc: Global, event: Event) -> Result<Outcome, EventRefusal>
        requires { ∥ IsLawfulFarm NODES (shown_parts self.old) ∥₁ }
        ensures { Came (step content_digest farm_limits (shown_parts self.old) event) (shown_parts self.old) (shown_parts self.new) result }
    {
        match event {
            Event::Ask(node, wants) => self.call(alloc, node, Call::Ask(wants)),
            Event::Tenure(node, folder) => self.call(alloc, node, Call::Tenure(folder)),
            Event::Deliver(number) => self.deliver(alloc, number),
            Event::Begin(node, ticket) => self.call(alloc, node, Call::Begin(ticket)),
            Event::Finish(node, ticket, lefts) => {
                self.call(alloc, node, Call::Finish(ticket, lefts))
            }
            Event::Abort(node, ticket) => self.call(alloc, node, Call::Abort(ticket)),
            Event::Resend(node) => self.resend(alloc, node),
            Event::Nudge => self.nudge(alloc),
            Event::Withdraw(ticket) => self.withdraw(alloc, ticket),
            Event::Prune(slot) => self.prune(alloc, &slot),
            Event::Retire(node) => self.retire(alloc, node),
            Event::RestartNode(node) => self.restart(alloc, node),
            Event::RestartCoordinator => self.restart_coordinator(alloc),
            Event::Forge(node, content) => self.call(alloc, node, Call::Forge(content)),
            Event::Forget(node, digest) => self.call(alloc, node, Call::Forget(digest)),
            Event::FailSave(kept) => Ok(self.fail_save(kept)),
        }
    }
}
