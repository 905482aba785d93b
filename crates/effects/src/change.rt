//! What one event changes of what the coordinator keeps beside the lines, and what is looked up with the changes so far.
ghost use Rattle.std.specs.Prelude.{◌≡◌, None, IfOk};
ghost use Rattle.leases.specs.Table.{is_free};
ghost use Rattle.effects.specs.Held.{ledger, line_at};
ghost use Rattle.effects.specs.Keeps.{held, NotesSpent};
ghost use Rattle.effects.specs.Spent.{IsNoted, AreNoted};
ghost use Rattle.effects.specs.Shown.{LineOf, after, table_after};

use super::new_life::NewLife;
use super::spent_folders::SpentFolders;
use super::state::State;
use farm_base::{Copied, NodeId, Parked};
use holdings::TicketSource;
use leases::TableChange;
use parked::ParkedChange;
use std::alloc::{AllocError, Global};

/// The changes of an event. What they are changes of is passed to each call that looks at it.
#[derive(Drop)]
pub struct Change {
    pub table: TableChange,
    pub tickets: TicketSource,
    /// The life that began, if one did.
    pub life: Option<NewLife>,
    /// The node that was retired, if one was.
    pub gone: Option<NodeId>,
    pub old_home: Option<NodeId>,
    pub parked: ParkedChange,
}

impl Change {
    /// No change.
    pub fn new(alloc: Global, base: &State) -> Result<Self, AllocError>
        ensures ledger { IfOk result (λ change. after (line_at base.now.lines) (held base.now) change ≡ ledger (held base.now)) }
        ensures life { IfOk result (λ change. change.life ≡ None) }
        ensures gone { IfOk result (λ change. change.gone ≡ None) }
    {
        let tickets = base.tickets.copy(alloc)?;
        Ok(Change {
            table: TableChange::new(alloc),
            tickets,
            life: None,
            gone: None,
            old_home: base.old_home,
            parked: ParkedChange::new(alloc),
        })
    }

    /// The PRIVATE folders that waiting asks may want and of which no instance is free, before asks that wait since.
    pub fn spent(&self, alloc: Global, base: &State) -> Result<SpentFolders, AllocError>
        ensures { IfOk result (λ spent. (p : Parked) → IsNoted base.now.spent.folders.items (is_free base.now.table) p
            → IsNoted spent.folders.items (is_free (table_after (held base.now) self.now)) p) }
    {
        let mut spent = SpentFolders::new(alloc);
        let (granted, _) = self.table.added();
        let retired = self.table.newly_retired(alloc)?;
        let table = self.table.over(&base.table);
        spent.note_folders(alloc, &table, base.spent.as_slice())?;
        spent.note_leases(alloc, &table, granted)?;
        spent.note_slots(alloc, &table, retired.as_slice())?;
        Ok(spent)
    }

    /// The PRIVATE folders that waiting asks may want and of which no instance is free, with those of asks that wait since.
    pub fn spent_after(&self, alloc: Global, base: &State) -> Result<SpentFolders, AllocError>
        requires { NotesSpent base.now }
        ensures { IfOk result (λ spent. (line : LineOf) → AreNoted spent.folders.items (after line (held base.now) self.now)) }
    {
        let mut spent = self.spent(alloc, base)?;
        let since = self.parked.since.as_slice();
        spent.note_asks(alloc, &self.table.over(&base.table), since)?;
        Ok(spent)
    }
}
