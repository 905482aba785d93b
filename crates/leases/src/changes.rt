//! The changes that one event makes, over a lease table that stays as it is until they are applied.
ghost use Rattle.std.specs.Prelude.{◌≡◌, ◌<◌, not, [], ◌∷◌, ◌++◌, filter, All, IfOk, IfSome, OnOk, OnErr};
ghost use Rattle.std.specs.List.Sorted.{IsStrictlySortedBy};
ghost use Rattle.names.specs.Slots.{slot_cmp};
ghost use Rattle.protocol.specs.Ledger.{lease_under, without, is_older, is_at, is_saved, retire_all};
ghost use Rattle.leases.specs.Changes.{changed, saved_tickets};
ghost use Rattle.holdings.specs.Endings.{ends_lease};
ghost use Rattle.leases.specs.Leases.{Table};
ghost use Rattle.holdings.specs.Leases.{AreLeases};
ghost use Rattle.holdings.specs.Leases.{among};
ghost use Rattle.leases.specs.Table.{fit_of, lease_for, retires_some};
ghost use Rattle.leases.specs.declared.lease_table.Fit.{Fit};

use super::lease_table::LeaseTable;
use super::saved::{saved_copies, saved_tickets, ticket_of_saved};
use super::view::TableView;
use farm_base::{Lease, Life, NodeId, Parked, Slot, Ticket, copy_all};
use holdings::{Ending, rising};
use std::alloc::{AllocError, Global};
use std::marker::Model;

/// Leases that were granted and that ended, and PRIVATE slots that are not granted again, since a table was as it is.
/// A look at the table with them borrows both: `over`.
#[derive(Drop)]
pub struct TableChange {
    ended: Vec<Ending>,
    granted: Vec<Lease>,
    retired: Vec<Slot>,
}

impl Model for TableChange {
    ghost use Rattle.leases.specs.Changes.{Change};

    ghost Value = { Change };

    ghost view = { λ c. record { ended = c.ended.items; granted = c.granted.items; retired = c.retired.items } };
}

impl TableChange {
    /// No change.
    pub fn new(alloc: Global) -> Self
        ensures { result ≡ record { ended = []; granted = []; retired = [] } }
    {
        TableChange {
            ended: Vec::new(alloc),
            granted: Vec::new(alloc),
            retired: Vec::new(alloc),
        }
    }

    /// The table with the changes.
    pub fn over<'t>(&'t self, table: &'t LeaseTable) -> TableView<'t>
        ensures { result ≡ changed table.now self.now }
    {
        table.with_changes(
            self.ended.as_slice(),
            self.granted.as_slice(),
            self.retired.as_slice(),
        )
    }

    /// Grants an ask. Of each PRIVATE folder the lowest free instance is taken.
    pub fn grant(
        &mut self,
        alloc: Global,
        table: &LeaseTable,
        parked: &Parked,
        ticket: Ticket,
    ) -> Result<(), AllocError>
        requires fits { fit_of (changed table.now self.old) parked.now.tenure parked.now.wants ≡ Fit.Fits }
        requires above { All (λ g. g.ticket.0 < ticket.0) (changed table.now self.old).live }
        ensures ok { OnOk result (changed table.now self.new ≡ record (changed table.now self.old) { live = (changed table.now self.old).live ++ lease_for (changed table.now self.old) parked.now.node parked.now.life parked.now.ask parked.now.wants parked.now.tenure ticket ∷ [] }) }
        ensures found { OnOk result (lease_under (changed table.now self.new).live ticket ≡ Some (lease_for (changed table.now self.old) parked.now.node parked.now.life parked.now.ask parked.now.wants parked.now.tenure ticket)) }
        ensures sound { OnOk result (AreLeases (changed table.now self.old).live → AreLeases (changed table.now self.new).live) }
        ensures err { OnErr result (self.new ≡ self.old) }
    {
        let view = self.over(table);
        let lease = view.lease_for(
            alloc,
            parked.node,
            parked.life,
            parked.ask,
            &parked.wants,
            parked.tenure,
            ticket,
        )?;
        self.granted.push(lease)?;
        Ok(())
    }

    /// Ends the lease of a ticket. Its slots are free again.
    pub fn end(&mut self, ticket: Ticket) -> Result<(), AllocError>
        ensures ok { OnOk result ((t : Table) → changed t self.new ≡ record (changed t self.old) { live = without ticket (changed t self.old).live }) }
        ensures sound { OnOk result ((t : Table) → AreLeases (changed t self.old).live → AreLeases (changed t self.new).live) }
        ensures err { OnErr result (self.new ≡ self.old) }
    {
        self.end_all(Ending::Ticket(ticket))
    }

    /// Ends the leases of the lives of a node below this one. Their slots are free again.
    pub fn end_lives_below(&mut self, node: NodeId, life: Life) -> Result<(), AllocError>
        ensures ok { OnOk result ((t : Table) → changed t self.new ≡ record (changed t self.old) { live = filter (λ g. not (is_older node life g)) (changed t self.old).live }) }
        ensures sound { OnOk result ((t : Table) → AreLeases (changed t self.old).live → AreLeases (changed t self.new).live) }
        ensures err { OnErr result (self.new ≡ self.old) }
    {
        self.end_all(Ending::LivesBelow(node, life))
    }

    /// Ends these leases. Their slots are free again.
    fn end_all(&mut self, ending: Ending) -> Result<(), AllocError>
        ensures ok { OnOk result ((t : Table) → changed t self.new ≡ record (changed t self.old) { live = filter (λ g. not (ends_lease ending g)) (changed t self.old).live }) }
        ensures sound { OnOk result ((t : Table) → AreLeases (changed t self.old).live → AreLeases (changed t self.new).live) }
        ensures err { OnErr result (self.new ≡ self.old) }
    {
        self.ended.push(ending)?;
        drop_ending(&mut self.granted, ending);
        Ok(())
    }

    /// Withdraws the lease of a ticket. Its PRIVATE slots are never granted again.
    pub fn withdraw(
        &mut self,
        alloc: Global,
        table: &LeaseTable,
        ticket: Ticket,
    ) -> Result<(), AllocError>
        ensures rest { OnOk result ((changed table.now self.new).live ≡ without ticket (changed table.now self.old).live) }
        ensures retired { OnOk result (among (changed table.now self.new).retired ≡ retires_some (lease_under (changed table.now self.old).live ticket) (among (changed table.now self.old).retired)) }
        ensures sound { OnOk result (AreLeases (changed table.now self.old).live → AreLeases (changed table.now self.new).live) }
        ensures err { OnErr result (self.new ≡ self.old) }
    {
        let slots = self.over(table).private_under(alloc, ticket)?;
        self.withdraw_all(Ending::Ticket(ticket), slots)?;
        Ok(())
    }

    /// Withdraws all leases of a node. Their PRIVATE slots are never granted again.
    pub fn withdraw_all_of(
        &mut self,
        alloc: Global,
        table: &LeaseTable,
        node: NodeId,
    ) -> Result<(), AllocError>
        ensures rest { OnOk result ((changed table.now self.new).live ≡ filter (λ g. not (is_at node g)) (changed table.now self.old).live) }
        ensures retired { OnOk result (among (changed table.now self.new).retired ≡ retire_all (filter (is_at node) (changed table.now self.old).live) (among (changed table.now self.old).retired)) }
        ensures sound { OnOk result (AreLeases (changed table.now self.old).live → AreLeases (changed table.now self.new).live) }
        ensures err { OnErr result (self.new ≡ self.old) }
    {
        let slots = self.over(table).private_at(alloc, node)?;
        self.withdraw_all(Ending::Node(node), slots)?;
        Ok(())
    }

    /// Ends these leases, and retires these slots. Room for the ending is made before anything changes.
    fn withdraw_all(&mut self, ending: Ending, slots: Vec<Slot>) -> Result<(), AllocError>
        ensures live { OnOk result ((t : Table) → (changed t self.new).live ≡ filter (λ g. not (ends_lease ending g)) (changed t self.old).live) }
        ensures retired { OnOk result ((t : Table) → (changed t self.new).retired ≡ (changed t self.old).retired ++ slots.items) }
        ensures sound { OnOk result ((t : Table) → AreLeases (changed t self.old).live → AreLeases (changed t self.new).live) }
        ensures err { OnErr result (self.new ≡ self.old) }
    {
        let mut slots = slots;
        self.ended.reserve(1)?;
        self.retired.append(&mut slots)?;
        self.ended.push(ending).unwrap();
        drop_ending(&mut self.granted, ending);
        Ok(())
    }

    /// The tickets of the table's leases that have ended, of those that the record has, rising.
    pub fn saved_ended(&self, alloc: Global, table: &LeaseTable) -> Result<Vec<Ticket>, AllocError>
        ensures { IfOk result (λ tickets. tickets.items ≡ saved_tickets self.now.ended table.now.live) }
    {
        let ended = self.ended.as_slice();
        if ended.is_empty() {
            return Ok(Vec::new(alloc));
        }
        match only(ended) {
            Some(Ending::Ticket(ticket)) => ticket_of_saved(alloc, table.lease(ticket)),
            Some(ending) => saved_tickets(alloc, table.last_ending(&ending), ended),
            None => saved_tickets(alloc, table.leases(), ended),
        }
    }

    /// Copies of the leases that were granted and have not ended, of those that the record has, by rising ticket.
    pub fn saved_granted(&self, alloc: Global) -> Result<Vec<Lease>, AllocError>
        ensures { IfOk result (λ leases. leases.items ≡ filter is_saved self.now.granted) }
    {
        saved_copies(alloc, self.granted.as_slice())
    }

    /// Copies of the slots that are not granted again either, rising, each once.
    pub fn newly_retired(&self, alloc: Global) -> Result<Vec<Slot>, AllocError>
        ensures rising { IfOk result (λ slots. IsStrictlySortedBy slot_cmp slots.items) }
        ensures same { IfOk result (λ slots. among slots.items ≡ among self.now.retired) }
    {
        let slots = copy_all(alloc, self.retired.as_slice())?;
        rising(slots)
    }

    /// The leases that were granted and have not ended, the oldest first, and the PRIVATE slots that are not granted again
    /// either.
    pub fn added(&self) -> (&[Lease], &[Slot])
        ensures leases { result.0.now ≡ self.now.granted }
        ensures slots { result.1.now ≡ self.now.retired }
    {
        (self.granted.as_slice(), self.retired.as_slice())
    }

    /// Gives its parts, without taking memory.
    pub(crate) fn into_parts(self) -> (Vec<Ending>, Vec<Lease>, Vec<Slot>)
        ensures ended { result.0.items ≡ self.ended }
        ensures granted { result.1.items ≡ self.granted }
        ensures retired { result.2.items ≡ self.retired }
    {
        let TableChange {
            ended,
            granted,
            retired,
        } = self;
        (ended, granted, retired)
    }
}

/// The one ending, if there is only one.
fn only(ended: &[Ending]) -> Option<Ending>
    ensures { IfSome result (λ ending. ended.now ≡ ending ∷ []) }
{
    if ended.len() != 1 {
        return None;
    }
    ended.first().copied()
}

/// Removes the leases that this ends.
fn drop_ending(leases: &mut Vec<Lease>, ending: Ending)
    ensures { leases.new.items ≡ filter (λ g. not (ends_lease ending g)) leases.old.items }
{
    leases.retain(|lease| !ending.ends(lease));
}
