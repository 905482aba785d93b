//! The board.
ghost use Rattle.std.specs.Prelude.{◌≡◌, ◌≤◌, ◌↔◌, [], true, IfOk, IfErr, IfSome, IfNone, is_some, length, ℕ};
ghost use Rattle.names.specs.declared.limits.TheConstants.{EVENTS};
ghost use Rattle.protocol.specs.Names.{tenure_wants};
ghost use Rattle.protocol.specs.Replay.{is_node};
ghost use Rattle.events.specs.declared.answer.EventNote.TheVariants as note;
ghost use Rattle.events.specs.declared.answer.NodeNote.TheVariants as node_note;
ghost use Rattle.farmboard.specs.Ends.{finished_of};
ghost use Rattle.nodecore.specs.Shown as core;
ghost use Rattle.nodeasks.specs.Rows.{none_lost};
ghost use Rattle.farmhistory.specs.Setups.{IsSetup};
ghost use Rattle.farmhistory.specs.Shown.{shown};

use super::carrying::{carry_out_copied, make_room};
use super::fault::FarmStep;
use super::tokens::{Accept, Asked, Finished, Granted, Running, abandon_asked};
use events::{Event, EventRefusal, How, Outcome};
use farm_base::{
    Ask, Copied, EVENTS, FolderName, Grant, Items, Left, Life, Mode, NodeId, Version, Want, Wants,
};
use farmhistory::{
    BoardRefusal, Counts, InUse, StartRefusal, World, answer, asked, count, first_versions,
    has_node, is_among, note, pass,
};
use nodecore::{AskState, NodeCore};
use schedule::Setup;
use std::alloc::{AllocError, Global};
use std::marker::Model;

/// The world beside the schedule that led to it. Contracts see it as its history: its setup, its schedule, and the
/// messages that it skipped.
pub struct Board {
    setup: Setup,
    schedule: Vec<Event>,
    skipped: Vec<u64>,
    world: World,
    /// No message up to this number is left to be delivered, nor any of those `ahead`.
    passed: u64,
    ahead: Vec<u64>,
    /// The executions in use.
    out: Vec<InUse>,
    counts: Counts,
}

// By hand, so that letting go of one is one step of a proof.
impl Drop for Board {
    fn drop(self) {
        let Self {
            setup: _,
            schedule: _,
            skipped: _,
            world: _,
            passed: _,
            ahead: _,
            out: _,
            counts: _,
        } = self;
    }
}

impl Model for Board {
    ghost use Rattle.farmhistory.specs.Shown.{shown};
    ghost use Rattle.farmhistory.specs.History.{History};
    ghost use Rattle.farmhistory.specs.Boards.{IsBoard};

    ghost Value = { History };

    ghost view = { λ board. record { setup = board.setup; events = board.schedule.items; skipped = board.skipped.items } };

    ghost invariant = { λ board. IsBoard (shown board.world) (record { setup = board.setup; events = board.schedule.items; skipped = board.skipped.items }) board.passed board.ahead.items board.out.items board.counts };
}

impl Board {
    ghost use Rattle.farmhistory.specs.History.{farm_of, is_passed, Took, Did, IsNext, NoneLeft, DeliversNext, IsAskEvent};
    ghost use Rattle.farmhistory.specs.Out.{out_of, AreUsed};
    ghost use Rattle.farmhistory.specs.Counts.{counts_of, commits_of};
    ghost use Rattle.farmhistory.specs.Boards.{AreFew};
    ghost use Rattle.farmboard.specs.Faults.{Skips, TookOrNot, RestartsNode, Faults};
    ghost use Rattle.farmboard.specs.Tokens.{is_in_life, IsAskOf, Accepts};

    /// A board of a farm where nothing happened.
    pub fn start(alloc: Global, setup: Setup) -> Result<Self, StartRefusal>
        ensures board { IfOk result (λ board. board ≡ record { setup = setup; events = []; skipped = [] }) }
        ensures setup { IfOk result (λ board. IsSetup setup) }
        ensures bad { (result ≡ Err StartRefusal.BadSetup) ↔ (IsSetup setup → ⊥) }
    {
        let world = World::start(alloc, setup)?;
        Ok(Board {
            setup,
            schedule: Vec::new(alloc),
            skipped: Vec::new(alloc),
            world,
            passed: 0,
            ahead: Vec::new(alloc),
            out: Vec::new(alloc),
            counts: Counts {
                committed: 0,
                kept: 0,
                refused: 0,
            },
        })
    }

    /// The world, which is the one that the stored schedule leads to.
    pub fn world(&self) -> &World
        ensures { shown result.now ≡ farm_of self.now }
    {
        &self.world
    }

    /// The setup that the board was started with.
    pub fn setup(&self) -> Setup
        ensures { result ≡ self.now.setup }
    {
        self.setup
    }

    /// All events so far, refused ones too.
    pub fn schedule(&self) -> &[Event]
        ensures { result.now ≡ self.now.events }
    {
        self.schedule.as_slice()
    }

    /// The setup, the schedule, and the world that they lead to.
    pub fn into_parts(self) -> (Setup, Vec<Event>, World)
        ensures setup { result.0 ≡ self.setup }
        ensures schedule { result.1.items ≡ self.events }
        ensures world { shown result.2 ≡ farm_of self }
    {
        let Board {
            setup,
            schedule,
            skipped: _,
            world,
            passed: _,
            ahead: _,
            out: _,
            counts: _,
        } = self;
        (setup, schedule, world)
    }

    /// What the schedule counts.
    pub fn counts(&self) -> Counts
        ensures value { result ≡ counts_of self.now }
        ensures few { AreFew result EVENTS }
    {
        self.counts
    }

    /// How many grants ended as committed. One that a failed save kept counts from the coordinator's restart on.
    pub fn commits(&self) -> u64
        ensures { result ≡ commits_of self.now }
    {
        let counts = self.counts();
        counts.committed + counts.kept
    }

    /// How many events of the schedule were refused.
    pub fn refused(&self) -> u64
        ensures { result ≡ (counts_of self.now).refused }
    {
        self.counts().refused
    }

    /// The executions in use: those of the tokens that are out.
    pub fn out(&self) -> &[InUse]
        ensures value { result.now ≡ out_of self.now }
        ensures used { AreUsed (farm_of self.now) result.now }
    {
        self.out.as_slice()
    }

    /// Carries out one event, and appends it where the world took or refused it.
    pub(crate) fn take(&mut self, alloc: Global, event: Event) -> Result<Outcome, BoardRefusal>
        ensures { Took self.old event self.new result }
    {
        if self.schedule.len() >= EVENTS {
            return Err(BoardRefusal::HistoryFull);
        }
        make_room(&mut self.schedule, &mut self.out, &mut self.ahead)?;
        let done = carry_out_copied(&mut self.world, alloc, event)?;
        note(&mut self.out, &done.event, &done.outcome);
        self.passed = pass(&mut self.ahead, self.passed, &done.event);
        self.counts = count(
            self.counts,
            done.leases.as_slice(),
            &self.world,
            &done.outcome,
        );
        self.schedule.push_reserved(done.event);
        answer(done.outcome)
    }

    /// Whether the message of this number was skipped, or a Deliver of the schedule names it.
    fn is_passed(&self, number: u64) -> bool
        requires { 1 ≤ number }
        ensures { result ≡ is_passed self.now number }
    {
        number <= self.passed || is_among(number, self.ahead.as_slice())
    }

    /// How many messages were ever sent.
    fn pool_len(&self) -> u64
        ensures { result ≡ length (farm_of self.now).pool }
    {
        self.world.pool_len()
    }

    /// A number up to which no message is left.
    fn passed(&self) -> u64
        ensures { (number : ℕ) → 1 ≤ number → number ≤ result → is_passed self.now number ≡ true }
    {
        self.passed
    }

    /// The number of the next message, if one is left.
    fn next(&self) -> Option<u64>
        ensures some { IfSome result (IsNext self.now) }
        ensures none { IfNone result (NoneLeft self.now) }
    {
        for number in self.passed()..self.pool_len() {
            if !self.is_passed(number + 1) {
                return Some(number + 1);
            }
        }
        None
    }

    /// The present life of a node that is there.
    fn life_of(&self, node: NodeId) -> Life
        ensures { is_node (farm_of self.now) node ≡ true → result ≡ ((farm_of self.now).nodes node.0).life }
    {
        match self.world.node(node) {
            Some(core) => core.life(),
            None => Life(0),
        }
    }

    /// Carries out the event of an ask. Only an ask is accepted as asked.
    fn take_ask(&mut self, alloc: Global, event: Event) -> Result<Ask, BoardRefusal>
        requires { IsAskEvent event }
        ensures ok { IfOk result (λ asked. Did self.old event self.new (note.Node (node_note.Asked asked))) }
        ensures err { IfErr result (λ refusal. Took self.old event self.new (Err refusal)) }
    {
        let outcome = self.take(alloc, event)?;
        match asked(&outcome.note) {
            Some(ask) => Ok(ask),
            None => unreachable!(),
        }
    }

    /// Makes a node ask for a lease.
    pub fn ask(&mut self, alloc: Global, node: NodeId, wants: Wants) -> Result<Asked, BoardRefusal>
        ensures ok { IfOk result (λ asked. Did self.old (Event.Ask node wants) self.new (note.Node (node_note.Asked asked.ask))) }
        ensures token { IfOk result (λ asked. IsAskOf self.old node wants asked) }
        ensures err { IfErr result (λ refusal. Took self.old (Event.Ask node wants) self.new (Err refusal)) }
    {
        let copy = wants.copy(alloc)?;
        let life = self.life_of(node);
        let ask = self.take_ask(alloc, Event::Ask(node, wants))?;
        Ok(Asked {
            node,
            life,
            ask,
            wants: copy,
        })
    }

    /// Makes a node ask for the tenure of a SHARED folder.
    pub fn ask_tenure(
        &mut self,
        alloc: Global,
        node: NodeId,
        folder: FolderName,
    ) -> Result<Asked, BoardRefusal>
        requires { folder.mode ≡ Mode.Shared }
        ensures ok { IfOk result (λ asked. Did self.old (Event.Tenure node folder) self.new (note.Node (node_note.Asked asked.ask))) }
        ensures token { IfOk result (λ asked. IsAskOf self.old node (tenure_wants folder) asked) }
        ensures err { IfErr result (λ refusal. Took self.old (Event.Tenure node folder) self.new (Err refusal)) }
    {
        let wants = wants_of_tenure(alloc, &folder)?;
        let life = self.life_of(node);
        let ask = self.take_ask(alloc, Event::Tenure(node, folder))?;
        Ok(Asked {
            node,
            life,
            ask,
            wants,
        })
    }

    /// Delivers the next message: the least number neither skipped nor named by a Deliver of the schedule. With none
    /// left nothing is appended.
    pub fn deliver_next(&mut self, alloc: Global) -> Result<Option<Outcome>, BoardRefusal>
        ensures { DeliversNext self.old self.new result }
    {
        let Some(number) = self.next() else {
            return Ok(None);
        };
        self.passed = number - 1;
        let outcome = self.take(alloc, Event::Deliver(number))?;
        Ok(Some(outcome))
    }

    /// Skips the next message.
    fn skip(&mut self) -> Result<(), BoardRefusal>
        ensures { Skips self.old self.new result }
    {
        let Some(number) = self.next() else {
            return Err(BoardRefusal::Event(EventRefusal::NoSuchMessage));
        };
        self.skipped.reserve(1)?;
        self.skipped.push_reserved(number);
        self.passed = number;
        Ok(())
    }

    /// Carries out the event of a step.
    pub(crate) fn disturb(&mut self, alloc: Global, event: Event) -> Result<(), BoardRefusal>
        ensures { TookOrNot self.old event self.new result }
    {
        let _outcome = self.take(alloc, event)?;
        Ok(())
    }

    /// Restarts a node, unless an execution on it is in use.
    fn restart_node(&mut self, alloc: Global, node: NodeId) -> Result<(), BoardRefusal>
        ensures { RestartsNode node self.old self.new result }
    {
        if has_node(self.out(), node) {
            return Err(BoardRefusal::TokenOut);
        }
        self.disturb(alloc, Event::RestartNode(node))
    }

    /// Disturbs the farm.
    pub fn fault(&mut self, alloc: Global, step: FarmStep) -> Result<(), BoardRefusal>
        ensures { Faults step self.old self.new result }
    {
        match step {
            FarmStep::Skip => self.skip(),
            FarmStep::Again(message) => self.disturb(alloc, Event::Deliver(message)),
            FarmStep::Resend(node) => self.disturb(alloc, Event::Resend(node)),
            FarmStep::Nudge => self.disturb(alloc, Event::Nudge),
            FarmStep::Withdraw(ticket) => self.disturb(alloc, Event::Withdraw(ticket)),
            FarmStep::Prune(slot) => self.disturb(alloc, Event::Prune(slot)),
            FarmStep::Retire(node) => self.disturb(alloc, Event::Retire(node)),
            FarmStep::RestartNode(node) => self.restart_node(alloc, node),
            FarmStep::RestartCoordinator => self.disturb(alloc, Event::RestartCoordinator),
            FarmStep::FailSave(kept) => self.disturb(alloc, Event::FailSave(kept)),
            FarmStep::Forge(node, content) => self.disturb(alloc, Event::Forge(node, content)),
        }
    }

    /// Ends an execution with what it leaves in each slot that it may write. Refused, it hands the token back.
    pub fn finish(
        &mut self,
        alloc: Global,
        token: Running,
        lefts: Vec<Left>,
    ) -> Result<Finished, (Running, BoardRefusal)>
        ensures ok { IfOk result (λ finished. TookOrNot self.old (Event.Finish token.node token.grant.ticket lefts.items) self.new (Ok tt)) }
        ensures token { IfOk result (λ finished. finished ≡ finished_of token lefts.items) }
        ensures err { IfErr result (λ refused. (refused.0 ≡ token) × Took self.old (Event.Finish token.node token.grant.ticket lefts.items) self.new (Err refused.1)) }
    {
        let Ok(versions) = first_versions(alloc, lefts.as_slice()) else {
            return Err((token, BoardRefusal::OutOfMemory));
        };
        let event = Event::Finish(token.node, token.grant.ticket, Items::new(lefts));
        match self.disturb(alloc, event) {
            Ok(()) => Ok(finished(token, versions)),
            Err(refusal) => Err((token, refusal)),
        }
    }

    /// The node, if it is in this life.
    pub(crate) fn in_life(&self, node: NodeId, life: Life) -> Option<&NodeCore>
        ensures exact { is_some result ≡ is_in_life (farm_of self.now) node life }
        ensures node { IfSome result (λ inner. core.shown inner.now ≡ (farm_of self.now).nodes node.0) }
        // It tells of each ask how it ended: no node of a farm forgets.
        ensures told { IfSome result (λ inner. core.forgets inner.now ≡ none_lost) }
    {
        let core = self.world().node(node)?;
        if core.life() != life {
            return None;
        }
        Some(core)
    }

    /// What became of an ask. Nothing is appended.
    pub fn accept(&self, alloc: Global, token: Asked) -> Result<Accept, (Asked, BoardRefusal)>
        ensures ok { IfOk result (Accepts (farm_of self.now) token) }
        ensures err { IfErr result (λ refused. (refused.0 ≡ token) × (refused.1 ≡ BoardRefusal.OutOfMemory)) }
    {
        let Some(core) = self.in_life(token.node, token.life) else {
            abandon_asked(token);
            return Ok(Accept::Lost);
        };
        let Ok(state) = core.ask_state(alloc, token.ask) else {
            return Err((token, BoardRefusal::OutOfMemory));
        };
        match state {
            Some(AskState::Granted(grant)) => Ok(Accept::Granted(granted(token, grant))),
            Some(AskState::Over(How::Denied(why))) => {
                abandon_asked(token);
                Ok(Accept::Denied(why))
            }
            _ => Ok(Accept::Waiting(token)),
        }
    }
}

/// The ask with its lease.
fn granted(token: Asked, grant: Grant) -> Granted
    ensures { result ≡ record { node = token.node; life = token.life; wants = token.wants; grant = grant } }
{
    let Asked {
        node,
        life,
        ask: _,
        wants,
    } = token;
    Granted {
        node,
        life,
        wants,
        grant,
    }
}

/// The wants of an ask for the tenure of a SHARED folder.
fn wants_of_tenure(alloc: Global, folder: &FolderName) -> Result<Wants, AllocError>
    requires { folder.now.mode ≡ Mode.Shared }
    ensures { IfOk result (λ wants. wants ≡ tenure_wants folder.now) }
{
    Wants::one(alloc, folder.copy(alloc)?, true)
}

/// The execution that is over.
fn finished(token: Running, versions: Vec<Version>) -> Finished
    ensures { result ≡ record { node = token.node; life = token.life; ask = token.grant.ask; ticket = token.grant.ticket; versions = versions.items } }
{
    let Running {
        node,
        life,
        wants: _,
        grant,
        bases: _,
    } = token;
    Finished {
        node,
        life,
        ask: grant.ask,
        ticket: grant.ticket,
        versions: Items::new(versions),
    }
}
