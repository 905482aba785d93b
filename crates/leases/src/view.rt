//! A lease table with changes over it, as it would be looked at.
ghost use Rattle.std.specs.Prelude.{◌≡◌, ◌≢◌, ℕ, ◌≤◌, true, false, not, filter, ◌&&◌, IfOk, option_copied};
ghost use Rattle.std.specs.List.{find, list_any};
ghost use Rattle.std.specs.List.Sorted.{IsStrictlySortedBy};
ghost use Rattle.names.specs.Slots.{slot_cmp};
ghost use Rattle.names.specs.declared.limits.TheConstants.{INSTANCES};
ghost use Rattle.farm_base.specs.Wanted.{IsWants};
ghost use Rattle.protocol.specs.Names.{leased_wants, is_private, only_slot};
ghost use Rattle.protocol.specs.Ledger.{has_slot, lowest, slot_for, all_taken, busy, lease_of, lease_under, is_older, is_at};
ghost use Rattle.leases.specs.Changes.{slots_ended};
ghost use Rattle.leaseindex.specs.Instances.{has};
ghost use Rattle.holdings.specs.Leases.{among, takes};
ghost use Rattle.leases.specs.Table.{is_leased, is_free, is_spent, fit_of, lease_for, slots_of, private_of, all_private};
ghost use Rattle.leaseindex.specs.Live.{holds_some};

use super::held::{any_shared, has_slot, holds_some, is_private};
use super::lease_table::Fit;
use super::slots::{add_copies, copy_standing, private_slots, private_slots_of, slots_ended};
use farm_base::{
    Ask, Copied, FolderName, INSTANCES, Items, Lease, Life, Mode, NodeId, Slot, Ticket, Want,
    Wants, copy_all,
};
use holdings::{Ending, has_ended, rising, standing};
use leaseindex::{
    Instances, LiveLeases, RetiredSlots, first_of, has_only, is_of, mark_all, mark_leased, takes,
};
use std::alloc::{AllocError, Global};
use std::marker::Model;

/// A lease table with changes over it, borrowed. Contracts see the table with the changes.
#[derive(Drop)]
pub struct TableView<'t> {
    /// The leases of the table.
    pub(crate) live: &'t LiveLeases,
    /// What ended of them.
    pub(crate) ended: &'t [Ending],
    /// The leases that were granted since.
    pub(crate) granted: &'t [Lease],
    /// The PRIVATE slots that the table never grants again.
    pub(crate) retired: &'t RetiredSlots,
    /// Those that the changes add.
    pub(crate) newly_retired: &'t [Slot],
}

impl<'t> Model for TableView<'t> {
    ghost use Rattle.leases.specs.Leases.{Table};
    ghost use Rattle.leases.specs.Changes.{changed};

    ghost Value = { Table };

    ghost view = { λ v. changed (record { live = v.live.now.leases; retired = v.retired.now.slots }) (record { ended = v.ended.now; granted = v.granted.now; retired = v.newly_retired.now }) };
}

impl<'t> TableView<'t> {
    /// The instances of a folder that are not free.
    fn taken(&self, folder: &FolderName) -> Instances
        ensures { (i : ℕ) → 1 ≤ i → i ≤ INSTANCES → has result i ≡ not (is_free self.now (record { folder = folder.now; instance = i })) }
    {
        let mut taken = self.live.taken_beside(folder, self.ended);
        mark_leased(&mut taken, folder, self.granted);
        taken.add_all(&self.retired.instances_of(folder));
        mark_all(&mut taken, folder, self.newly_retired);
        taken
    }

    /// The lowest free instance of a PRIVATE folder, or 0 if there is none.
    fn lowest(&self, folder: &FolderName) -> u32
        ensures value { result ≡ lowest (is_free self.now) folder.now 1 INSTANCES }
        ensures range { result ≤ INSTANCES }
    {
        let mut taken = self.taken(folder);
        taken.insert(0);
        let lowest = taken.lowest_missing();
        if lowest <= INSTANCES { lowest } else { 0 }
    }

    /// Whether no instance of a PRIVATE folder is free.
    pub fn is_spent(&self, folder: &FolderName) -> bool
        ensures { result ≡ is_spent (is_free self.now) folder.now }
    {
        self.lowest(folder) == 0
    }

    /// Whether a PRIVATE folder of these wants has no instance left.
    fn all_taken(&self, wants: &[Want], tenure: bool) -> bool
        ensures { result ≡ all_taken INSTANCES (is_free self.now) (filter (takes tenure) wants.now) }
    {
        wants
            .iter()
            .filter(|want| takes(want, tenure))
            .any(|want| is_private(want) && self.is_spent(&want.folder))
    }

    /// Whether the one slot of a folder is leased.
    fn has_only_slot(&self, folder: &FolderName) -> bool
        ensures { result ≡ is_leased self.now (only_slot folder.now) }
    {
        self.holding(folder).is_some()
    }

    /// The lease that has the one slot of a folder.
    fn holding(&self, folder: &FolderName) -> Option<&'t Lease>
        ensures { option_copied result ≡ find (λ g. has_slot g.slots (only_slot folder.now)) self.now.live }
    {
        self.live.holding_beside(folder, self.ended).or(
            self.granted
                .iter()
                .find(|lease| has_only(lease.slots.as_slice(), folder)),
        )
    }

    /// Whether the one slot of another folder is leased.
    fn is_busy(&self, wants: &[Want], tenure: bool) -> bool
        ensures { result ≡ busy (is_leased self.now) (filter (takes tenure) wants.now) }
    {
        wants.iter().filter(|want| takes(want, tenure)).any(|want| !is_private(want)
            && self.has_only_slot(&want.folder))
    }

    /// Whether an ask with these wants can be granted. A tenure takes a slot of its SHARED folder, any other
    /// ask of its other folders.
    pub fn fits(&self, wants: &Wants, tenure: bool) -> Fit
        ensures { result ≡ fit_of self.now tenure wants.now }
    {
        let wants = wants.as_slice();
        if self.all_taken(wants, tenure) {
            Fit::InstancesSpent
        } else if self.is_busy(wants, tenure) {
            Fit::Busy
        } else {
            Fit::Fits
        }
    }

    /// Whether a lease has the slot.
    pub fn is_leased(&self, slot: &Slot) -> bool
        ensures { result ≡ is_leased self.now slot.now }
    {
        if slot.instance() == 0 {
            return self.has_only_slot(slot.folder());
        }
        self.live
            .as_slice()
            .iter()
            .filter(|lease| !has_ended(self.ended, lease))
            .chain(self.granted.iter())
            .any(|lease| has_slot(lease.slots.as_slice(), slot))
    }

    /// The lease of a ticket.
    pub fn lease(&self, ticket: Ticket) -> Option<&'t Lease>
        ensures { option_copied result ≡ lease_under self.now.live ticket }
    {
        standing(self.live.under(ticket), self.ended).or(
            self.granted.iter().find(|lease| lease.ticket == ticket),
        )
    }

    /// The lease of an ask.
    pub fn lease_of(&self, node: NodeId, life: Life, ask: Ask) -> Option<&'t Lease>
        ensures { option_copied result ≡ lease_of self.now.live node life ask }
    {
        match self.live.of_ask(node, life, ask) {
            None => first_of(self.granted, node, life, ask),
            Some(lease) => {
                if has_ended(self.ended, lease) {
                    self.among_all(node, life, ask)
                } else {
                    Some(lease)
                }
            }
        }
    }

    /// The lease of an ask, looked for among all.
    fn among_all(&self, node: NodeId, life: Life, ask: Ask) -> Option<&'t Lease>
        ensures { option_copied result ≡ lease_of self.now.live node life ask }
    {
        self.live
            .as_slice()
            .iter()
            .filter(|lease| !has_ended(self.ended, lease))
            .chain(self.granted.iter())
            .find(|lease| is_of(lease, node, life, ask))
    }

    /// The oldest lease that has the one slot of a folder for which an ask with these wants takes a slot.
    pub fn holder_of(&self, wants: &Wants, tenure: bool) -> Option<&'t Lease>
        ensures { option_copied result ≡ find (holds_some (leased_wants tenure wants.now)) self.now.live }
    {
        self.first_with(wants.as_slice(), tenure)
    }

    fn first_with(&self, wants: &[Want], tenure: bool) -> Option<&'t Lease>
        ensures { option_copied result ≡ find (holds_some (filter (takes tenure) wants.now)) self.now.live }
    {
        self.live.oldest_beside(wants, tenure, self.ended).or(
            self.granted
                .iter()
                .find(|lease| holds_some(lease.slots.as_slice(), wants, tenure)),
        )
    }

    /// Whether a node has a lease.
    pub fn has_lease_of(&self, node: NodeId) -> bool
        ensures { result ≡ list_any (is_at node) self.now.live }
    {
        self.live
            .last_at(node)
            .iter()
            .filter(|lease| !has_ended(self.ended, lease))
            .chain(self.granted.iter())
            .any(|lease| lease.node == node)
    }

    /// Whether a node holds a tenure.
    pub fn has_tenure_of(&self, node: NodeId) -> bool
        ensures { result ≡ list_any (λ g. is_at node g && g.tenure) self.now.live }
    {
        self.live
            .last_at(node)
            .iter()
            .filter(|lease| !has_ended(self.ended, lease))
            .chain(self.granted.iter())
            .any(|lease| lease.node == node && lease.tenure)
    }

    /// Whether a life of a node below this one has a lease.
    pub fn has_lease_below(&self, node: NodeId, life: Life) -> bool
        ensures { result ≡ list_any (is_older node life) self.now.live }
    {
        self.live
            .last_at(node)
            .iter()
            .filter(|lease| !has_ended(self.ended, lease))
            .chain(self.granted.iter())
            .any(|lease| lease.node == node && lease.life < life)
    }
}

impl<'t> TableView<'t> {
    /// The slot that a want gets.
    fn slot_for(&self, alloc: Global, want: &Want) -> Result<Slot, AllocError>
        requires { is_private want.now.folder.mode ≡ true → lowest (is_free self.now) want.now.folder 1 INSTANCES ≢ 0 }
        ensures { IfOk result (λ slot. slot ≡ slot_for INSTANCES (is_free self.now) want.now) }
    {
        let instance = match want.folder.mode {
            Mode::Shared => 0,
            Mode::Private => self.lowest(&want.folder),
            Mode::Locked => 0,
        };
        Ok(Slot::new(want.folder.copy(alloc)?, instance))
    }

    /// The slots that some wants get.
    fn slots_for(
        &self,
        alloc: Global,
        wants: &[Want],
        tenure: bool,
    ) -> Result<Vec<(Slot, bool)>, AllocError>
        requires { all_taken INSTANCES (is_free self.now) (filter (takes tenure) wants.now) ≡ false }
        ensures { IfOk result (λ slots. slots.items ≡ slots_of self.now (filter (takes tenure) wants.now)) }
    {
        let mut slots = Vec::with_capacity(alloc, wants.len())?;
        for want in wants {
            if takes(want, tenure) {
                slots.push((self.slot_for(alloc, want)?, want.writable))?;
            }
        }
        Ok(slots)
    }

    /// The lease that an ask gets.
    pub(crate) fn lease_for(
        &self,
        alloc: Global,
        node: NodeId,
        life: Life,
        ask: Ask,
        wants: &Wants,
        tenure: bool,
        ticket: Ticket,
    ) -> Result<Lease, AllocError>
        requires { fit_of self.now tenure wants.now ≡ Fit.Fits }
        ensures value { IfOk result (λ lease. lease ≡ lease_for self.now node life ask wants.now tenure ticket) }
        ensures sorted { IsWants wants.now }
    {
        let wants = wants.as_slice();
        let slots = self.slots_for(alloc, wants, tenure)?;
        Ok(Lease {
            ticket,
            node,
            life,
            ask,
            shared: any_shared(wants),
            tenure,
            slots: Items::new(slots),
        })
    }

    /// The PRIVATE slots of the lease of a ticket.
    pub(crate) fn private_under(
        &self,
        alloc: Global,
        ticket: Ticket,
    ) -> Result<Vec<Slot>, AllocError>
        ensures { IfOk result (λ slots. slots.items ≡ private_of (lease_under self.now.live ticket)) }
    {
        match self.lease(ticket) {
            Some(lease) => private_slots(alloc, lease.slots.as_slice()),
            None => Ok(Vec::new(alloc)),
        }
    }

    /// The PRIVATE slots of a node's leases.
    pub(crate) fn private_at(&self, alloc: Global, node: NodeId) -> Result<Vec<Slot>, AllocError>
        ensures { IfOk result (λ slots. slots.items ≡ all_private (filter (is_at node) self.now.live)) }
    {
        let mut private = private_slots_of(alloc, self.live.last_at(node), self.ended, node)?;
        let mut granted = private_slots_of(alloc, self.granted, &[], node)?;
        private.append(&mut granted)?;
        Ok(private)
    }

    /// Copies of the slots of the leases that this ends.
    pub fn slots_ended(
        &self,
        alloc: Global,
        ending: Ending,
    ) -> Result<Vec<(Slot, bool)>, AllocError>
        ensures { IfOk result (λ slots. slots.items ≡ slots_ended ending self.now.live) }
    {
        let mut slots = slots_ended(alloc, self.live.last_ending(&ending), self.ended, ending)?;
        let mut granted = slots_ended(alloc, self.granted, &[], ending)?;
        slots.append(&mut granted)?;
        Ok(slots)
    }

    /// Copies of the leases, and of the slots that are never granted again, these rising and each once.
    pub fn to_parts(&self, alloc: Global) -> Result<(Vec<Lease>, Vec<Slot>), AllocError>
        ensures leases { IfOk result (λ parts. parts.0.items ≡ self.now.live) }
        ensures rising { IfOk result (λ parts. IsStrictlySortedBy slot_cmp parts.1.items) }
        ensures retired { IfOk result (λ parts. among parts.1.items ≡ among self.now.retired) }
    {
        let mut leases = copy_standing(alloc, self.live.as_slice(), self.ended)?;
        add_copies(alloc, &mut leases, self.granted)?;
        let mut retired = copy_all(alloc, self.retired.as_slice())?;
        add_copies(alloc, &mut retired, self.newly_retired)?;
        let retired = rising(retired)?;
        Ok((leases, retired))
    }
}
