//! Applying changes to a lease table, in room that was made for them.
ghost use Rattle.std.specs.Prelude.{◌≡◌, ◌+◌, ◌≤◌, length, vec_len, IfOk, IfErr, OnOk};
ghost use Rattle.leases.specs.Changes.{changed, HasRoom};
ghost use Rattle.leaseindex.specs.Index.{index_entries};
ghost use Rattle.leaseindex.specs.Instances.{lease_instances, slot_names};
ghost use Rattle.holdings.specs.Leases.{AreLeases};

use super::changes::TableChange;
use super::lease_table::LeaseTable;
use farm_base::{FolderName, Lease, Slot};
use leaseindex::{Entries, LiveLeases, RetiredSlots};
use std::alloc::{AllocError, Global};
use std::marker::Model;

/// A lease table with room for changes, so that applying them can't fail.
#[derive(Drop)]
pub struct TableWithRoom {
    live: LiveLeases,
    retired: RetiredSlots,
    /// What the indexes are to have of the leases that the changes add.
    entries: Entries,
    /// The folders and instances of the slots that the changes retire.
    names: Vec<(FolderName, u32)>,
}

impl Model for TableWithRoom {
    ghost use Rattle.leases.specs.Changes.{RoomyTable};

    ghost Value = { RoomyTable };

    ghost view = { λ r. record { table = record { live = r.live.leases; retired = r.retired.slots }; lease_room = r.live.lease_room; slot_room = r.retired.slot_room; tickets = r.entries.tickets.items; index_room = r.live.index_room; instances = r.entries.instances.items; instance_room = r.live.instance_room; count_room = r.live.count_room; retired_names = r.names.items; retired_room = r.retired.folder_room } };
}

impl LeaseTable {
    /// Makes room for changes. Where memory is refused, the table comes back as it was.
    pub fn with_room(self, alloc: Global, change: &TableChange) -> Result<TableWithRoom, LeaseTable>
        ensures table { IfOk result (λ roomy. roomy.table ≡ self) }
        ensures room { IfOk result (λ roomy. HasRoom roomy change.now) }
        ensures err { IfErr result (λ t. t ≡ self) }
    {
        let (mut live, mut retired) = self.into_live();
        let (granted, more_slots) = change.added();
        match make_room(alloc, &mut live, &mut retired, granted, more_slots) {
            Ok((entries, names)) => Ok(TableWithRoom {
                live,
                retired,
                entries,
                names,
            }),
            Err(_) => Err(LeaseTable::of(live, retired)),
        }
    }
}

impl TableWithRoom {
    /// The table with the changes. It takes no memory.
    pub fn apply(self, change: TableChange) -> LeaseTable
        requires room { HasRoom self change }
        requires sound { AreLeases (changed self.table change).live }
        ensures { result ≡ changed self.table change }
    {
        let TableWithRoom {
            live,
            retired,
            entries,
            names,
        } = self;
        let (ended, granted, slots) = change.into_parts();
        let mut live = live;
        let mut retired = retired;
        live.end_each(ended.as_slice());
        live.add_all(granted, entries);
        retired.add_all(slots, names);
        LeaseTable::of(live, retired)
    }

    /// The table as it is.
    pub fn into_table(self) -> LeaseTable
        ensures { result ≡ self.table }
    {
        let TableWithRoom {
            live,
            retired,
            entries: _entries,
            names: _names,
        } = self;
        LeaseTable::of(live, retired)
    }
}

/// Makes room for more leases and slots, and what the indexes are to have of the leases.
fn make_room(
    alloc: Global,
    live: &mut LiveLeases,
    retired: &mut RetiredSlots,
    more: &[Lease],
    more_slots: &[Slot],
) -> Result<(Entries, Vec<(FolderName, u32)>), AllocError>
    ensures leases { live.new.leases ≡ live.old.leases }
    ensures retired { retired.new.slots ≡ retired.old.slots }
    ensures lease_room { OnOk result (length live.new.leases + length more.now ≤ live.new.lease_room) }
    ensures slot_room { OnOk result (length retired.new.slots + length more_slots.now ≤ retired.new.slot_room) }
    ensures tickets { IfOk result (λ made. made.0.tickets.items ≡ index_entries more.now) }
    ensures index_room { IfOk result (λ made. vec_len made.0.tickets ≤ live.new.index_room) }
    ensures instances { IfOk result (λ made. made.0.instances.items ≡ lease_instances more.now) }
    ensures instance_room { IfOk result (λ made. vec_len made.0.instances ≤ live.new.instance_room) }
    ensures names { IfOk result (λ made. made.1.items ≡ slot_names more_slots.now) }
    ensures retired_room { IfOk result (λ made. vec_len made.1 ≤ retired.new.folder_room) }
    ensures count_room { OnOk result (length more.now ≤ live.new.count_room) }
{
    let entries = live.room_for(alloc, more)?;
    let names = retired.room_for(alloc, more_slots)?;
    Ok((entries, names))
}
