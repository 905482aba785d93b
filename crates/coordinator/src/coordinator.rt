ghost use Rattle.std.specs.Prelude.{◌≡◌, ◌≤◌, ◌+◌, false, not, Some, Ok, Err, IfOk, IfErr, OnOk, OnErr, option_copied, length};
ghost use Rattle.std.specs.Result.{is_ok};
ghost use Rattle.std.specs.List.{list_any};
ghost use Rattle.std.specs.List.Sorted.{IsStrictlySortedBy};
ghost use Rattle.names.specs.Slots.{slot_cmp};
ghost use Rattle.names.specs.declared.limits.TheConstants.{NODES};
ghost use Rattle.holdings.specs.Leases.{among};
ghost use Rattle.leases.specs.Table.{state_of};
ghost use Rattle.versions.specs.Lines.{line_shown};
ghost use Rattle.protocol.specs.Farm.{farm_limits};
ghost use Rattle.protocol.specs.Lists.{is_nil};
ghost use Rattle.protocol.specs.Names.{slot_eq, NodeId, Slot, Ticket};
ghost use Rattle.protocol.specs.Machine.{ToCoord};
ghost use Rattle.protocol.specs.Follows.{NoneReady};
ghost use Rattle.protocol.specs.Lawful.{IsNumber, IsSaid};
ghost use Rattle.protocol.specs.Ledger.{Work, begin_work, handled, withdrawn, retired, pruned, nudged};
ghost use Rattle.effects.specs.Held.{line_at, ledger};
ghost use Rattle.ledger.specs.Prepared.{IsPrepared};
ghost use Rattle.coordinator.specs.Promises.{GrantsAtOnce, EndsOnlyItsOwn};
ghost use Rattle.ledger.specs.Seen.{IsKeeping};
ghost use Rattle.coordinator.specs.Settling.{Settles, TakesUp, Restarts, Syncs};
ghost use Rattle.ledger.specs.Settling.{Answers, Loads, OnlyGrow, is_save_fault};
ghost use Rattle.effects.specs.Shown.{work_of};
ghost use Rattle.ledger.specs.Keepers.{HasFailed};

use super::preparing::{
    prepare, prune_refusal, pruning, retirement, retirement_refusal, withdrawal, withdrawal_refusal,
};
use drafts::remind_all;
use effects::Prepared;
use events::{CoordNote, CoordRefusal, Kept};
use farm_base::{Items, Lease, NodeId, NodeLife, Parked, Slot, Ticket, ToCoord};
use leases::SlotState;
use ledger::{Handled, Keeper, Ledger, MemoryKeeper, SaveFault, is_save_fault};
use std::alloc::{AllocError, Global};
use std::marker::Model;
use versions::Line;

/// The coordinator of a farm, which decides who may use which slot, and keeps the lines of versions. What it decides
/// is saved with its keeper before it is answered.
pub struct Coordinator<K: Keeper> {
    ledger: Ledger,
    keeper: K,
    /// A save failed, and it has not restarted since.
    down: bool,
}

// By hand, so that letting go of one is one step of a proof.
impl<K: Keeper> Drop for Coordinator<K> {
    fn drop(self) {
        let Self {
            ledger: _,
            keeper: _,
            down: _,
        } = self;
    }
}

impl<K: Keeper> Model for Coordinator<K> {
    ghost use Rattle.ledger.specs.Seen.{Seen};

    ghost Value = { Seen K };

    ghost use Rattle.ledger.specs.Seen.{IsKeeping};

    ghost view = { λ c. record { held = c.ledger; keeper = c.keeper; down = c.down } };

    ghost invariant = { λ c. IsKeeping (K.kept c.keeper) c.ledger c.down };
}

/// A coordinator that didn't start: its keeper, and why.
#[derive(Drop)]
pub struct NotStarted<K: Keeper> {
    pub keeper: K,
    pub refusal: CoordRefusal,
}

impl<K: Keeper> Coordinator<K> {
    /// The coordinator of what its keeper's texts hold: of a farm where nothing happened, if none was saved yet.
    /// Leases that the record has and a coordinator doesn't save are over.
    pub fn start(alloc: Global, mut keeper: K) -> Result<Self, NotStarted<K>>
        ensures started { IfOk result (λ c. TakesUp K.loading (K.kept keeper) keeper c) }
        ensures refused { IfErr result (λ n. Loads K.loading (K.kept keeper) keeper n.keeper (Err n.refusal)) }
        ensures kept { IfErr result (λ n. K.kept n.keeper ≡ K.kept keeper) }
        ensures cause { IfErr result (λ n. n.refusal ≡ CoordRefusal.LoadFault → HasFailed (K.failed keeper) (K.failed n.keeper)) }
    {
        match Ledger::load(alloc, &mut keeper) {
            Ok(ledger) => Ok(Coordinator {
                ledger,
                keeper,
                down: false,
            }),
            Err(refusal) => Err(NotStarted { keeper, refusal }),
        }
    }

    /// Starts again from what the keeper's texts hold: parked asks are gone, and so are the leases that the record
    /// doesn't have.
    pub fn restart(&mut self, alloc: Global) -> Result<(), CoordRefusal>
        ensures answer { Restarts K.loading (K.kept self.old.keeper) self.old self.new result }
        ensures kept { K.kept self.new.keeper ≡ K.kept self.old.keeper }
        ensures cause { result ≡ Err CoordRefusal.LoadFault → HasFailed (K.failed self.old.keeper) (K.failed self.new.keeper) }
    {
        match Ledger::load(alloc, &mut self.keeper) {
            Ok(ledger) => {
                self.ledger = ledger;
                self.down = false;
                Ok(())
            }
            Err(CoordRefusal::OutOfMemory) => Err(CoordRefusal::OutOfMemory),
            Err(refusal) => {
                self.down = true;
                Err(refusal)
            }
        }
    }

    /// Makes what its keeper has last. Where that fails it is down, and what it answered since the last sync isn't to be told.
    pub fn sync(&mut self) -> Result<(), SaveFault>
        ensures answer { Syncs K.syncing self.old (is_ok result) self.new }
        ensures lasts { OnOk result (K.lasting self.new.keeper ≡ K.kept self.new.keeper) }
        ensures kept { K.kept self.new.keeper ≡ K.kept self.old.keeper }
        ensures cause { OnErr result (HasFailed (K.failed self.old.keeper) (K.failed self.new.keeper)) }
    {
        let synced = self.keeper.sync();
        if synced.is_err() {
            self.down = true;
        }
        synced
    }

    /// Saves an event that was worked out, where the record changed, and then applies it. Where the save fails it is down.
    fn settle(&mut self, alloc: Global, prepared: Prepared) -> Result<Handled, CoordRefusal>
        requires up { self.old.down ≡ false }
        requires prepared { IsPrepared self.old.held prepared }
        ensures answer { Answers K.saving (Ok (work_of self.old.held prepared.effects.value)) self.old self.new result }
        ensures cause { result ≡ Err CoordRefusal.SaveFault → HasFailed (K.failed self.old.keeper) (K.failed self.new.keeper) }
        ensures grow { OnlyGrow (line_at self.old.held.lines) (line_at self.new.held.lines) }
    {
        let result = self.ledger.settle(alloc, &mut self.keeper, prepared);
        self.down = is_save_fault(&result);
        result
    }

    /// Does what a message asks, in one step. Its node is 1 to 1,024; its life and ask count from 1; a tenure is
    /// asked for with its SHARED folder alone, writable.
    pub fn handle(&mut self, alloc: Global, message: &ToCoord) -> Result<Handled, CoordRefusal>
        requires { IsSaid NODES message.now }
        ensures answer { Settles K.saving (Ok (handled farm_limits message.now (begin_work (ledger self.old.held)))) self.old self.new result }
        ensures at_once { IfOk result (λ h. GrantsAtOnce (ledger self.old.held) message.now h.note h.sends) }
        ensures own { IfOk result (λ h. EndsOnlyItsOwn (ledger self.old.held) message.now (ledger self.new.held)) }
        ensures cause { result ≡ Err CoordRefusal.SaveFault → HasFailed (K.failed self.old.keeper) (K.failed self.new.keeper) }
        ensures grow { OnlyGrow (line_at self.old.held.lines) (line_at self.new.held.lines) }
    {
        if self.down {
            return Err(CoordRefusal::Down);
        }
        let Ok(prepared) = prepare(alloc, self.ledger.state(), message) else {
            return Err(CoordRefusal::OutOfMemory);
        };
        self.settle(alloc, prepared)
    }

    /// Withdraws the lease of a ticket, in one step: its PRIVATE slots are never granted again, and the parked
    /// asks are tried. A tenure is never withdrawn.
    pub fn withdraw(&mut self, alloc: Global, ticket: Ticket) -> Result<Handled, CoordRefusal>
        ensures answer { Settles K.saving (withdrawn farm_limits ticket (begin_work (ledger self.old.held))) self.old self.new result }
        ensures cause { result ≡ Err CoordRefusal.SaveFault → HasFailed (K.failed self.old.keeper) (K.failed self.new.keeper) }
        ensures grow { OnlyGrow (line_at self.old.held.lines) (line_at self.new.held.lines) }
    {
        if self.down {
            return Err(CoordRefusal::Down);
        }
        let state = self.ledger.state();
        if let Some(refusal) = withdrawal_refusal(state, ticket) {
            return Err(refusal);
        }
        let Ok(prepared) = withdrawal(alloc, state, ticket) else {
            return Err(CoordRefusal::OutOfMemory);
        };
        self.settle(alloc, prepared)
    }

    /// Retires a node for good, in one step: its leases are withdrawn, and nothing that it says is heard again.
    /// The holder of a tenure is never retired. Nodes are 1 to 1,024.
    pub fn retire(&mut self, alloc: Global, node: NodeId) -> Result<Handled, CoordRefusal>
        requires { IsNumber NODES node }
        ensures answer { Settles K.saving (retired farm_limits node (begin_work (ledger self.old.held))) self.old self.new result }
        ensures cause { result ≡ Err CoordRefusal.SaveFault → HasFailed (K.failed self.old.keeper) (K.failed self.new.keeper) }
        ensures grow { OnlyGrow (line_at self.old.held.lines) (line_at self.new.held.lines) }
    {
        if self.down {
            return Err(CoordRefusal::Down);
        }
        let state = self.ledger.state();
        if let Some(refusal) = retirement_refusal(state, node) {
            return Err(refusal);
        }
        let Ok(prepared) = retirement(alloc, state, node) else {
            return Err(CoordRefusal::OutOfMemory);
        };
        self.settle(alloc, prepared)
    }

    /// Puts the empty content on the line of a slot, under a new ticket, in one step.
    pub fn prune(&mut self, alloc: Global, slot: &Slot) -> Result<Handled, CoordRefusal>
        ensures answer { Settles K.saving (pruned farm_limits slot.now (begin_work (ledger self.old.held))) self.old self.new result }
        ensures cause { result ≡ Err CoordRefusal.SaveFault → HasFailed (K.failed self.old.keeper) (K.failed self.new.keeper) }
        ensures grow { OnlyGrow (line_at self.old.held.lines) (line_at self.new.held.lines) }
    {
        if self.down {
            return Err(CoordRefusal::Down);
        }
        let state = self.ledger.state();
        if let Some(refusal) = prune_refusal(state, slot) {
            return Err(refusal);
        }
        let Ok(prepared) = pruning(alloc, state, slot) else {
            return Err(CoordRefusal::OutOfMemory);
        };
        self.settle(alloc, prepared)
    }

    /// Sends the Grant of each lease again, the oldest first, and asks for each tenure that is waited for.
    /// Nothing else changes, so nothing is saved.
    pub fn nudge(&self, alloc: Global) -> Result<Handled, CoordRefusal>
        ensures { Settles K.saving (Ok (nudged farm_limits (begin_work (ledger self.now.held)))) self.now self.now result }
    {
        if self.down {
            return Err(CoordRefusal::Down);
        }
        let Ok(sends) = remind_all(alloc, self.ledger.state()) else {
            return Err(CoordRefusal::OutOfMemory);
        };
        Ok(Handled {
            sends: Items::new(sends),
            note: CoordNote::Nudged,
        })
    }

    /// What its keeper has holds a ledger, and while it is up, that of its ledger.
    pub fn is_kept(&self)
        ensures { IsKeeping (K.kept self.now.keeper) self.now.held self.now.down }
    {
        let _keeper = &self.keeper;
    }

    /// No parked ask could be granted: each waits for another node's tenure to end, or for a slot that is leased.
    pub fn is_none_ready(&self)
        ensures { NoneReady farm_limits (ledger self.now.held) }
    {
        let _state = self.ledger.state();
    }

    /// Who keeps its record.
    pub fn keeper(&self) -> &K
        ensures { result.now ≡ self.now.keeper }
    {
        &self.keeper
    }

    /// Whether a save failed, or the load of a restart, and no restart went well since.
    pub fn is_down(&self) -> bool
        ensures { result ≡ self.now.down }
    {
        self.down
    }

    /// The most messages that one message can make it send.
    pub fn most_sends(&self) -> usize
        ensures most { (y : ToCoord) → length (handled farm_limits y (begin_work (ledger self.now.held))).sends ≤ result }
        ensures value { result ≡ 1 + length self.now.held.parked }
    {
        1 + self.ledger.state().parked.waiting().len()
    }

    /// The most messages that a withdrawal, a retirement or a prune can make it send.
    pub fn most_sends_of_calls(&self) -> usize
        ensures withdraw { (t : Ticket) (w : Work) → withdrawn farm_limits t (begin_work (ledger self.now.held)) ≡ Ok w → length w.sends ≤ result }
        ensures retire { (n : NodeId) (w : Work) → retired farm_limits n (begin_work (ledger self.now.held)) ≡ Ok w → length w.sends ≤ result }
        ensures prune { (s : Slot) (w : Work) → pruned farm_limits s (begin_work (ledger self.now.held)) ≡ Ok w → length w.sends ≤ result }
        ensures value { result ≡ length self.now.held.parked }
    {
        self.ledger.state().parked.waiting().len()
    }

    /// The leases that are live, the oldest first: who holds which slots.
    pub fn leases(&self) -> &[Lease]
        ensures { result.now ≡ self.now.held.live }
    {
        self.ledger.state().table.leases()
    }

    /// The asks that wait, in order of arrival: who waits for which folders.
    pub fn parked(&self) -> &[Parked]
        ensures { result.now ≡ self.now.held.parked }
    {
        self.ledger.state().parked.waiting()
    }

    /// The greatest life seen of each node that was heard, by rising number.
    pub fn lives(&self) -> &[NodeLife]
        ensures { result.now ≡ self.now.held.lives }
    {
        self.ledger.state().lives.as_slice()
    }

    /// The nodes that are retired, rising.
    pub fn retired_nodes(&self) -> &[NodeId]
        ensures { result.now ≡ self.now.held.gone }
    {
        self.ledger.state().gone.as_slice()
    }

    /// The PRIVATE slots that are never granted again, rising.
    pub fn retired_slots(&self, alloc: Global) -> Result<Vec<Slot>, AllocError>
        ensures rising { IfOk result (λ v. IsStrictlySortedBy slot_cmp v.items) }
        ensures exact { IfOk result (λ v. among v.items ≡ among self.now.held.retired) }
    {
        let (_leases, retired) = self.ledger.state().table.to_parts(alloc)?;
        Ok(retired)
    }

    /// The last ticket that was given, or 0 before the first.
    pub fn last_ticket(&self) -> Ticket
        ensures { result.0 ≡ self.now.held.last }
    {
        match self.ledger.state().tickets.peek() {
            Ok((next, _)) => Ticket(next.0 - 1),
            Err(_) => Ticket(u64::MAX),
        }
    }

    /// The line of a slot, if it has a version.
    pub fn line(&self, slot: &Slot) -> Option<&Line>
        ensures { option_copied result ≡ line_shown (line_at self.now.held.lines slot.now) }
    {
        self.ledger.state().lines.find(slot)
    }

    /// The slots that have a version, rising.
    pub fn slots(&self, alloc: Global) -> Result<Vec<Slot>, AllocError>
        ensures rising { IfOk result (λ v. IsStrictlySortedBy slot_cmp v.items) }
        ensures exact { IfOk result (λ v. (s : _) → list_any (λ x. slot_eq x s) v.items ≡ not (is_nil (line_at self.now.held.lines s))) }
    {
        self.ledger.state().lines.slots(alloc)
    }

    /// Whether the slot is free, leased or retired.
    pub fn slot_state(&self, slot: &Slot) -> SlotState
        ensures { result ≡ state_of (record { live = self.now.held.live; retired = self.now.held.retired }) slot.now }
    {
        self.ledger.state().table.slot_state(slot)
    }
}

impl Coordinator<MemoryKeeper> {
    /// Makes the next save or append fail and leave this. Until then a later call replaces this one.
    pub fn fail_next(&mut self, kept: Kept)
        ensures { self.new ≡ record self.old { keeper = record self.old.keeper { armed = Some kept } } }
    {
        self.keeper.fail_next(kept);
    }
}
