//! The operator's calls, as they are worked out: withdraw, retire, prune and nudge.
ghost use Rattle.std.specs.Prelude.{◌≡◌, ◌∷◌, [], ◌&&◌, if◌then◌else◌, nat_lt, map, All, IfOk, OnOk, None};
ghost use Rattle.std.specs.List.{list_any};
ghost use Rattle.std.specs.Result.{result_err};
ghost use Rattle.names.specs.Contents.{empty_digest};
ghost use Rattle.protocol.specs.Farm.{farm_limits};
ghost use Rattle.protocol.specs.Ledger.{begin_work, withdrawn, pruned, retired, retried, goes, holds_wanted, is_awaited, nudges, nudge_all};
ghost use Rattle.versions.specs.Additions.{HasRoom};
ghost use Rattle.versions.specs.Lines.{news_of};
ghost use Rattle.effects.specs.Held.{ledger};
ghost use Rattle.effects.specs.Keeps.{held, IsKeepable};
ghost use Rattle.effects.specs.Shown.{IsFresh};
ghost use Rattle.drafts.specs.Shown.{work, Makes, Accepts, having_said, withdraws_under};
ghost use Rattle.effects.specs.Sound.{AreHeldUp};
ghost use Rattle.drafts.specs.Idle.{AreIdle};
ghost use Rattle.parked.specs.Queue.{asks_of};
ghost use Rattle.effects.specs.Sound.{IsSound};

use super::draft::Draft;
use super::granting::{grant_of, is_some_saved};
use effects::State;
use events::CoordNote;
use farm_base::{Copied, FromCoord, Lease, News, NodeId, Parked, Slot, Ticket, empty_digest};
use holdings::Ending;
use leases::holds_wanted;
use std::alloc::{AllocError, Global};
use versions::{Added, Addition, Lines, additions};

/// Whether an ask is for the tenure that the lease is.
fn asks_for(p: &Parked, lease: &Lease) -> bool
    ensures { result ≡ (p.now.tenure && holds_wanted p.now lease.now) }
{
    p.tenure && holds_wanted(lease, &p.wants, p.tenure)
}

/// Whether one of these asks is for the tenure that the lease is.
fn is_asked_for(parked: &[Parked], lease: &Lease) -> bool
    ensures { result ≡ list_any (λ p. p.tenure && holds_wanted p lease.now) parked.now }
{
    parked.iter().any(|p| asks_for(p, lease))
}

/// Whether a ticket can still be given.
pub fn has_ticket(state: &State) -> bool
    ensures { result ≡ nat_lt state.now.tickets.position farm_limits.greatest }
{
    state.tickets.peek().is_ok()
}

/// Whether a parked ask is for the tenure that the lease is.
fn is_waited_for(state: &State, lease: &Lease) -> bool
    ensures { result ≡ is_awaited (asks_of state.now.parked) lease.now }
{
    lease.tenure && is_asked_for(state.parked.waiting(), lease)
}

/// Sends the Grant of a lease again, and asks for a tenure that is waited for.
fn remind(
    alloc: Global,
    state: &State,
    sends: &mut Vec<FromCoord>,
    lease: &Lease,
) -> Result<(), AllocError>
    ensures { OnOk result (having_said sends.new.items (ledger (held state.now))
        ≡ nudges farm_limits lease.now (having_said sends.old.items (ledger (held state.now)))) }
{
    let grant = grant_of(alloc, &state.lines, &None, lease)?;
    sends.push(FromCoord::Granted(grant))?;
    if is_waited_for(state, lease) {
        sends.push(FromCoord::Recall {
            node: lease.node,
            life: lease.life,
            ticket: lease.ticket,
        })?;
    }
    Ok(())
}

/// Reminds the holder of each lease of it, the oldest first.
pub fn remind_all(alloc: Global, state: &State) -> Result<Vec<FromCoord>, AllocError>
    ensures { IfOk result (λ sends. having_said sends.items (ledger (held state.now))
        ≡ nudge_all farm_limits state.now.table.live (begin_work (ledger (held state.now)))) }
{
    let mut sends = Vec::new(alloc);
    let leases = state.table.leases();
    for lease in leases {
        remind(alloc, state, &mut sends, lease)?;
    }
    Ok(sends)
}

impl<'s> Draft<'s> {
    /// Withdraws the lease of a ticket, where there is one.
    fn take_back(&mut self, alloc: Global, ticket: Ticket) -> Result<(), AllocError>
        ensures { OnOk result (Makes (withdraws_under ticket) self.old self.new) }
    {
        let is_saved = is_some_saved(self.table().lease(ticket));
        let base = self.base;
        let effects = &mut *self.effects;
        effects.change.table.withdraw(alloc, &base.table, ticket)?;
        effects.changed = effects.changed || is_saved;
        Ok(())
    }

    /// Withdraws the lease of a ticket.
    pub fn withdraw(&mut self, alloc: Global, ticket: Ticket) -> Result<(), AllocError>
        requires sound { IsSound (work self.old).ledger }
        requires kept { IsKeepable self.old.base.now }
        requires held_up { AreHeldUp (work self.old).ledger }
        requires first { IsFresh self.old.effects.value }
        requires accepted { result_err (withdrawn farm_limits ticket (work self.old)) ≡ None }
        ensures { OnOk result (Accepts (withdrawn farm_limits ticket) self.old self.new) }
    {
        let freed = self.freed_by(alloc, ticket)?;
        self.take_back(alloc, ticket)?;
        self.retry(alloc, freed)?;
        self.note(CoordNote::Withdrawn(ticket));
        Ok(())
    }

    /// Tries the parked asks if they are to be tried, since leases have ended that had these slots.
    fn retry_if(
        &mut self,
        alloc: Global,
        due: bool,
        freed: Vec<(Slot, bool)>,
    ) -> Result<(), AllocError>
        requires sound { IsSound (work self.old).ledger }
        requires kept { IsKeepable self.old.base.now }
        requires idle { AreIdle freed.items (work self.old).ledger (work self.old).ledger.parked }
        ensures { OnOk result (Makes (λ w. if due then retried farm_limits w else w) self.old self.new) }
    {
        if !due {
            return Ok(());
        }
        self.retry(alloc, freed)?;
        Ok(())
    }

    /// Drops a node: its leases are withdrawn, its parked asks go, and nothing that it says is heard again.
    fn drop_node(&mut self, alloc: Global, node: NodeId) -> Result<(), AllocError>
        requires { self.old.effects.value.change.gone ≡ None }
        ensures { OnOk result (Makes (goes node) self.old self.new) }
    {
        let base = self.base;
        let effects = &mut *self.effects;
        let change = &mut effects.change;
        change.table.withdraw_all_of(alloc, &base.table, node)?;
        change.parked.end(alloc, &base.parked, Ending::Node(node))?;
        change.gone = Some(node);
        effects.changed = true;
        Ok(())
    }

    /// Retires a node that holds no tenure and isn't the old home.
    pub fn retire(&mut self, alloc: Global, node: NodeId) -> Result<(), AllocError>
        requires sound { IsSound (work self.old).ledger }
        requires kept { IsKeepable self.old.base.now }
        requires held_up { AreHeldUp (work self.old).ledger }
        requires first { IsFresh self.old.effects.value }
        requires accepted { result_err (retired farm_limits node (work self.old)) ≡ None }
        ensures { OnOk result (Accepts (retired farm_limits node) self.old self.new) }
    {
        let had_leases = self.table().has_lease_of(node);
        let freed = self.freed_by_node(alloc, Ending::Node(node))?;
        self.drop_node(alloc, node)?;
        self.retry_if(alloc, had_leases, freed)?;
        self.note(CoordNote::Retired(node));
        Ok(())
    }

    /// Prunes the line of a slot that has a version and isn't leased.
    pub fn prune(&mut self, alloc: Global, slot: &Slot) -> Result<(), AllocError>
        requires sound { IsSound (work self.old).ledger }
        requires first { IsFresh self.old.effects.value }
        requires accepted { result_err (pruned farm_limits slot.now (work self.old)) ≡ None }
        ensures { OnOk result (Accepts (pruned farm_limits slot.now) self.old self.new) }
    {
        let additions = emptied(alloc, &self.base.lines, slot)?;
        let effects = &mut *self.effects;
        let Ok(ticket) = effects.change.tickets.next() else {
            unreachable!();
        };
        effects.added = Some(Added { ticket, additions });
        effects.changed = true;
        effects.note = CoordNote::Pruned(ticket);
        Ok(())
    }
}

/// What a prune adds to the line of a slot: the empty content.
fn emptied(alloc: Global, lines: &Lines, slot: &Slot) -> Result<Vec<Addition>, AllocError>
    ensures news { IfOk result (λ v. map news_of v.items ≡ record { slot = slot.now; digest = empty_digest } ∷ []) }
    ensures room { IfOk result (λ v. All (HasRoom lines.now) v.items) }
{
    let news = [News {
        slot: slot.copy(alloc)?,
        digest: empty_digest(alloc),
    }];
    additions(alloc, lines, &news)
}
