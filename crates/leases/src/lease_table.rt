ghost use Rattle.std.specs.Prelude.{◌≡◌, [], ◌&&◌, IfOk, option_copied};
ghost use Rattle.std.specs.List.{find, list_any};
ghost use Rattle.std.specs.List.Sorted.{IsStrictlySortedBy};
ghost use Rattle.names.specs.Slots.{slot_cmp};
ghost use Rattle.protocol.specs.Ledger.{has_slot, lease_under, is_at};
ghost use Rattle.leases.specs.Changes.{changed};
ghost use Rattle.holdings.specs.Endings.{ends_lease};
ghost use Rattle.leaseindex.specs.Counts.{AreLast};
ghost use Rattle.holdings.specs.Leases.{AreLeases};
ghost use Rattle.holdings.specs.Leases.{among};
ghost use Rattle.leases.specs.Table.{is_leased, state_of};

use super::held::{among, has_slot};
use super::view::TableView;
use farm_base::{Lease, NodeId, Slot, Ticket};
use holdings::Ending;
use leaseindex::{LiveLeases, RetiredSlots};
use std::alloc::{AllocError, Global};
use std::marker::Model;

/// Whether an ask can be granted.
#[derive(Clone, Copy)]
pub enum Fit {
    Fits,
    /// A slot that it needs is leased.
    Busy,
    /// A PRIVATE folder has no instance left.
    InstancesSpent,
}

/// The state of a slot, as new asks find it.
#[derive(Clone, Copy)]
pub enum SlotState {
    Free,
    Leased(Ticket),
    /// A PRIVATE slot that is never granted again.
    Retired,
}

/// The leases that were granted and have not ended, and the PRIVATE slots that are never granted again.
pub struct LeaseTable {
    pub(crate) live: LiveLeases,
    pub(crate) retired: RetiredSlots,
}

// By hand, so that letting go of one is one step of a proof.
impl Drop for LeaseTable {
    fn drop(self) {
        let Self {
            live: _,
            retired: _,
        } = self;
    }
}

impl Model for LeaseTable {
    ghost use Rattle.leases.specs.Leases.{Table};

    ghost Value = { Table };

    ghost view = { λ t. record { live = t.live.leases; retired = t.retired.slots } };
}

impl LeaseTable {
    /// A table without leases, all slots free.
    pub fn new(alloc: Global) -> Self
        ensures live { result.live ≡ [] }
        ensures retired { result.retired ≡ [] }
    {
        LeaseTable {
            live: LiveLeases::new(alloc),
            retired: RetiredSlots::new(alloc),
        }
    }

    /// The table with changes over it.
    pub(crate) fn with_changes<'t>(
        &'t self,
        ended: &'t [Ending],
        granted: &'t [Lease],
        newly_retired: &'t [Slot],
    ) -> TableView<'t>
        ensures { result ≡ changed self.now (record { ended = ended.now; granted = granted.now; retired = newly_retired.now }) }
    {
        let live = &self.live;
        let retired = &self.retired;
        TableView {
            live,
            ended,
            granted,
            retired,
            newly_retired,
        }
    }

    /// The table as it is, with no changes over it.
    pub(crate) fn unchanged(&self) -> TableView<'_>
        ensures { result ≡ self.now }
    {
        self.with_changes(&[], &[], &[])
    }

    /// The lease that has a slot.
    fn holder(&self, slot: &Slot) -> Option<&Lease>
        ensures { option_copied result ≡ find (λ g. has_slot g.slots slot.now) self.now.live }
    {
        if slot.instance() == 0 {
            return self.live.holding(slot.folder());
        }
        self.leases()
            .iter()
            .find(|lease| has_slot(lease.slots.as_slice(), slot))
    }

    /// Whether a lease has the slot.
    pub fn is_leased(&self, slot: &Slot) -> bool
        ensures { result ≡ is_leased self.now slot.now }
    {
        self.unchanged().is_leased(slot)
    }

    fn is_retired(&self, slot: &Slot) -> bool
        ensures { result ≡ among self.now.retired slot.now }
    {
        among(self.retired.as_slice(), slot)
    }

    /// Whether the slot is free, leased or retired.
    pub fn slot_state(&self, slot: &Slot) -> SlotState
        ensures { result ≡ state_of self.now slot.now }
    {
        match self.holder(slot) {
            Some(lease) => SlotState::Leased(lease.ticket),
            None => {
                if self.is_retired(slot) {
                    SlotState::Retired
                } else {
                    SlotState::Free
                }
            }
        }
    }

    /// The lease of a ticket.
    pub fn lease(&self, ticket: Ticket) -> Option<&Lease>
        ensures value { option_copied result ≡ lease_under self.now.live ticket }
        ensures sound { AreLeases self.now.live }
    {
        self.live.under(ticket)
    }

    /// Whether a node holds a tenure.
    pub fn has_tenure_of(&self, node: NodeId) -> bool
        ensures { result ≡ list_any (λ g. is_at node g && g.tenure) self.now.live }
    {
        self.unchanged().has_tenure_of(node)
    }

    /// The leases, the oldest first.
    pub fn leases(&self) -> &[Lease]
        ensures { result.now ≡ self.now.live }
    {
        self.live.as_slice()
    }

    /// The last of the leases, those among them that this ends.
    pub(crate) fn last_ending(&self, ending: &Ending) -> &[Lease]
        ensures { AreLast (ends_lease ending.now) result.now self.now.live }
    {
        self.live.last_ending(ending)
    }

    /// The slots that are never granted again.
    pub(crate) fn retired(&self) -> &[Slot]
        ensures { result.now ≡ self.now.retired }
    {
        self.retired.as_slice()
    }
}

impl LeaseTable {
    /// Copies of the leases, by rising ticket, and of the slots that are never granted again, rising.
    pub fn to_parts(&self, alloc: Global) -> Result<(Vec<Lease>, Vec<Slot>), AllocError>
        ensures leases { IfOk result (λ parts. parts.0.items ≡ self.now.live) }
        ensures rising { IfOk result (λ parts. IsStrictlySortedBy slot_cmp parts.1.items) }
        ensures retired { IfOk result (λ parts. among parts.1.items ≡ among self.now.retired) }
    {
        self.unchanged().to_parts(alloc)
    }

    /// The table of these leases and of these slots that are never granted again. Where memory is refused, both are dropped.
    pub fn from_parts(
        alloc: Global,
        leases: Vec<Lease>,
        retired: Vec<Slot>,
    ) -> Result<Self, AllocError>
        requires { AreLeases leases.items }
        ensures { IfOk result (λ table. table ≡ record { live = leases.items; retired = retired.items }) }
    {
        let live = LiveLeases::of(alloc, leases)?;
        let retired = RetiredSlots::of(alloc, retired)?;
        Ok(LeaseTable { live, retired })
    }

    /// The table of these.
    pub(crate) fn of(live: LiveLeases, retired: RetiredSlots) -> Self
        ensures live { result.live ≡ live.leases }
        ensures retired { result.retired ≡ retired.slots }
    {
        LeaseTable { live, retired }
    }

    /// Gives the leases and the slots that are never granted again back.
    pub(crate) fn into_live(self) -> (LiveLeases, RetiredSlots)
        ensures leases { result.0.leases ≡ self.live }
        ensures retired { result.1.slots ≡ self.retired }
    {
        let LeaseTable { live, retired } = self;
        (live, retired)
    }
}
