//! What is looked up of an event as it is worked out: in its state, with its changes so far.
ghost use Rattle.std.specs.Prelude.{◌≡◌, ◌≢◌, ◌≤◌, ◌<◌, ℕ, ◌&&◌, not, drop, filter, length, slice_index_or, true, IfOk, OnOk};
ghost use Rattle.protocol.specs.Lists.{In};
ghost use Rattle.protocol.specs.Farm.{farm_limits};
ghost use Rattle.protocol.specs.Names.{FolderName, Want};
ghost use Rattle.protocol.specs.Ledger.{Ledger, is_free, elsewhere, is_parked, decision, may_commit, may_release, lease_under, without};
ghost use Rattle.holdings.specs.Endings.{ends_lease};
ghost use Rattle.leases.specs.Table.{fit_of};
ghost use Rattle.leases.specs.declared.lease_table.Fit.{Fit};
ghost use Rattle.effects.specs.Sound.{AreHeldUp};
ghost use Rattle.drafts.specs.Idle.{AreIdle};
ghost use Rattle.effects.specs.Keeps.{held};
ghost use Rattle.effects.specs.Shown.{table_after};
ghost use Rattle.drafts.specs.Shown.{work};
ghost use Rattle.effects.specs.Sound.{IsSound};
ghost use Rattle.parked.specs.Over.{Begins, still_at};
ghost use Rattle.parked.specs.Queue.{asks_of};
ghost use Rattle.parked.specs.Noted.{is_noted};
ghost use Rattle.effects.specs.Spent.{IsNoted, is_private_spent};
ghost use Rattle.parked.specs.Waiting.{ends_ask};

use super::draft::Draft;
use super::fitting::{fit_slots, keep_open};
use effects::SpentFolders;
use events::Decision;
use farm_base::{Copied, Life, News, NodeId, Parked, Slot, Ticket, Want, Why};
use holdings::Ending;
use leases::{Fit, TableView};
use parked::first_over;
use std::alloc::{AllocError, Global};

impl<'s> Draft<'s> {
    /// The table of leases, with the changes so far.
    pub(crate) fn table(&self) -> TableView<'_>
        ensures { result ≡ table_after (held self.now.base.now) self.now.effects.value.change }
    {
        self.effects.change.table.over(&self.base.table)
    }

    /// Whether a node was retired.
    pub(crate) fn is_gone(&self, node: NodeId) -> bool
        ensures { result ≡ (work self.now).ledger.gone node.0 }
    {
        match self.effects.change.gone {
            Some(gone) => node == gone || self.base.gone.contains(node),
            None => self.base.gone.contains(node),
        }
    }

    /// The greatest life seen of a node, 0 where none was.
    pub(crate) fn greatest_life(&self, node: NodeId) -> u64
        ensures { result ≡ (work self.now).ledger.lives node.0 }
    {
        match self.effects.change.life {
            Some(seen) => {
                if node == seen.node {
                    seen.life.0
                } else {
                    self.base.lives.greatest(node)
                }
            }
            None => self.base.lives.greatest(node),
        }
    }

    /// Whether a tenure is asked for while another node is the old home.
    fn is_elsewhere(&self, p: &Parked) -> bool
        ensures { result ≡ elsewhere (work self.now).ledger p.now }
    {
        match self.effects.change.old_home {
            Some(home) => p.tenure && home != p.node,
            None => false,
        }
    }

    /// Whether a tenure is asked for whose holder is told to give it up.
    pub(crate) fn is_awaited(&self, p: &Parked) -> bool
        ensures { result ≡ (p.now.tenure && not (elsewhere (work self.now).ledger p.now)) }
    {
        p.tenure && !self.is_elsewhere(p)
    }

    /// Whether an ask of its name waits.
    pub(crate) fn is_parked(&self, p: &Parked) -> bool
        ensures { result ≡ is_parked (work self.now).ledger.parked p.now.node p.now.life p.now.ask }
    {
        let parked = &self.effects.change.parked;
        parked.waits(&self.base.parked, p.node, p.life, p.ask)
    }

    /// What is done with an ask.
    pub(crate) fn decision(&self, p: &Parked) -> Decision
        ensures decision { result ≡ decision farm_limits (work self.now).ledger p.now }
        ensures fits { result ≡ Decision.Give → fit_of (table_after (held self.now.base.now) self.now.effects.value.change) p.now.tenure p.now.wants ≡ Fit.Fits }
        ensures room { result ≡ Decision.Give → (work self.now).ledger.last ≢ u64.MAX }
    {
        if self.is_elsewhere(p) {
            return Decision::Wait;
        }
        match self.table().fits(&p.wants, p.tenure) {
            Fit::InstancesSpent => Decision::Deny(Why::InstancesSpent),
            Fit::Busy => Decision::Wait,
            Fit::Fits => {
                match self.effects.change.tickets.peek() {
                    Ok(_) => Decision::Give,
                    Err(_) => Decision::Deny(Why::TicketsSpent),
                }
            }
        }
    }

    /// The place from this one on of the first parked ask that is over or may not wait now, or the place behind the last. It may
    /// not wait if it wants one of the freed slots, or a PRIVATE folder of which no instance is free. Of the freed slots it drops
    /// those that are leased again.
    pub(crate) fn first_due(
        &self,
        freed: &mut Vec<(Slot, bool)>,
        spent: &SpentFolders,
        over: &[usize],
        place: usize,
    ) -> usize
        requires inside { place ≤ length (asks_of self.now.base.now.parked) }
        requires over { Begins place over.now }
        requires noted { (p : Parked) → In p (asks_of self.now.base.now.parked) → IsNoted spent.now.folders.items (is_free (work self.now).ledger) p }
        requires idle { AreIdle freed.old.items (work self.now).ledger (still_at place over.now (drop place (asks_of self.now.base.now.parked))) }
        ensures forward { place ≤ result }
        ensures inside { result ≤ length (asks_of self.now.base.now.parked) }
        ensures over { Begins result over.now }
        ensures passed { (k : ℕ) (d : Parked) → place ≤ k → k < result
            → decision farm_limits (work self.now).ledger (slice_index_or (asks_of self.now.base.now.parked) k d) ≡ Decision.Wait }
        ensures idle { AreIdle freed.new.items (work self.now).ledger (still_at place over.now (drop place (asks_of self.now.base.now.parked))) }
    {
        keep_open(&self.table(), freed);
        let asks = &self.base.parked;
        first_over(over, asks.next(freed.as_slice(), spent.as_slice(), place))
    }

    /// Notes those PRIVATE folders of the wants of which no instance is free.
    pub(crate) fn note_wants(
        &self,
        alloc: Global,
        spent: &mut SpentFolders,
        wants: &[Want],
    ) -> Result<(), AllocError>
        ensures noted { OnOk result ((w : Want) → In w wants.now → is_private_spent (is_free (work self.now).ledger) w.folder ≡ true → is_noted spent.new.folders.items w.folder ≡ true) }
        ensures kept { (f : FolderName) → is_noted spent.old.folders.items f ≡ true → is_noted spent.new.folders.items f ≡ true }
    {
        spent.note_wants(alloc, &self.table(), wants)?;
        Ok(())
    }

    pub(crate) fn may_commit(&self, node: NodeId, life: Life, ticket: Ticket, news: &[News]) -> bool
        ensures { result ≡ may_commit node life news.now (lease_under (work self.now).ledger.live ticket) }
    {
        match self.table().lease(ticket) {
            Some(lease) => {
                lease.node == node
                    && lease.life == life
                    && fit_slots(news, lease.slots.as_slice())
                    && !news.is_empty()
            }
            None => false,
        }
    }

    pub(crate) fn may_release(&self, node: NodeId, life: Life, ticket: Ticket) -> bool
        ensures { result ≡ may_release node life (lease_under (work self.now).ledger.live ticket) }
    {
        match self.table().lease(ticket) {
            Some(lease) => lease.node == node && lease.life == life,
            None => false,
        }
    }

    /// The slots that the end of a ticket's lease frees.
    pub(crate) fn freed_by(
        &self,
        alloc: Global,
        ticket: Ticket,
    ) -> Result<Vec<(Slot, bool)>, AllocError>
        requires sound { IsSound (work self.now).ledger }
        requires held_up { AreHeldUp (work self.now).ledger }
        ensures { IfOk result (λ freed. (q : Ledger) → q.live ≡ without ticket (work self.now).ledger.live → q.old_home ≡ (work self.now).ledger.old_home
            → q.parked ≡ (work self.now).ledger.parked → AreIdle freed.items q q.parked) }
    {
        match self.table().lease(ticket) {
            Some(lease) => Ok(lease.slots.copy(alloc)?.into_vec()),
            None => Ok(Vec::new(alloc)),
        }
    }

    /// The slots that the end of a node's leases frees, or of those of its older lives.
    pub(crate) fn freed_by_node(
        &self,
        alloc: Global,
        ending: Ending,
    ) -> Result<Vec<(Slot, bool)>, AllocError>
        requires { AreHeldUp (work self.now).ledger }
        ensures { IfOk result (λ freed. (q : Ledger) → q.live ≡ filter (λ g. not (ends_lease ending g)) (work self.now).ledger.live → q.old_home ≡ (work self.now).ledger.old_home
            → q.parked ≡ filter (λ p. not (ends_ask ending p)) (work self.now).ledger.parked → AreIdle freed.items q q.parked) }
    {
        let slots = self.table().slots_ended(alloc, ending)?;
        Ok(slots)
    }
}
