//! The live leases by folder.
ghost use Rattle.std.specs.Prelude.{◌≡◌, ◌≢◌, ◌≤◌, ◌++◌, true, All, IfOk, OnOk, vec_len};
ghost use Rattle.std.specs.Map.{update_all};
ghost use Rattle.indexmap.specs.IndexMap.{spare};
ghost use Rattle.names.specs.Folders.{folder_eq};
ghost use Rattle.farm_base.specs.declared.lease.Lease.{Lease};
ghost use Rattle.holdings.specs.Endings.{ends_lease};
ghost use Rattle.leaseindex.specs.Index.{ticket_at, IsIndexed, AreIndexed, slot_entries, index_entries};
ghost use Rattle.holdings.specs.Leases.{AreLeases};

use farm_base::{Copied, FolderName, Lease, Slot, Ticket};
use holdings::Ending;
use indexmap::IndexMap;
use std::alloc::{AllocError, Global};

/// Adds a ticket at each folder whose one slot is among these.
fn add_entries(
    alloc: Global,
    entries: &mut Vec<(FolderName, Ticket)>,
    ticket: Ticket,
    slots: &[(Slot, bool)],
) -> Result<(), AllocError>
    ensures { OnOk result (entries.new.items ≡ entries.old.items ++ slot_entries ticket slots.now) }
{
    for held in slots {
        if held.0.instance() == 0 {
            entries.push((held.0.folder().copy(alloc)?, ticket))?;
        }
    }
    Ok(())
}

/// What an index is to have of these leases.
pub(crate) fn entries_of(
    alloc: Global,
    leases: &[Lease],
) -> Result<Vec<(FolderName, Ticket)>, AllocError>
    ensures { IfOk result (λ entries. entries.items ≡ index_entries leases.now) }
{
    let mut entries = Vec::new(alloc);
    for lease in leases {
        add_entries(alloc, &mut entries, lease.ticket, lease.slots.as_slice())?;
    }
    Ok(entries)
}

/// Puts entries into an index that has room for them.
pub(crate) fn put_all(index: &mut IndexMap<FolderName, Ticket>, entries: Vec<(FolderName, Ticket)>)
    requires { vec_len entries ≤ spare index.old }
    ensures { ticket_at index.new ≡ update_all folder_eq (ticket_at index.old) entries.items }
{
    for (folder, ticket) in entries {
        let Ok(_) = index.insert(folder, ticket) else {
            unreachable!();
        };
    }
}

/// An index of these leases.
pub(crate) fn index_of(
    alloc: Global,
    leases: &[Lease],
) -> Result<IndexMap<FolderName, Ticket>, AllocError>
    requires { AreLeases leases.now }
    ensures { IfOk result (λ index. AreIndexed (ticket_at index) leases.now) }
{
    let entries = entries_of(alloc, leases)?;
    let mut index = IndexMap::with_capacity(alloc, entries.len())?;
    put_all(&mut index, entries);
    Ok(index)
}

/// Takes a folder out of an index, if it has this ticket there.
fn forget_folder(index: &mut IndexMap<FolderName, Ticket>, folder: &FolderName, ticket: Ticket)
    ensures others { (g : Lease) → g.ticket ≢ ticket → IsIndexed (ticket_at index.old) g → IsIndexed (ticket_at index.new) g }
    ensures room { spare index.old ≤ spare index.new }
{
    if index.get(folder).copied() == Some(ticket) {
        let _ = index.swap_remove(folder);
    }
}

/// Takes what an index has of a lease out of it.
pub(crate) fn forget(index: &mut IndexMap<FolderName, Ticket>, lease: &Lease)
    ensures others { (g : Lease) → g.ticket ≢ lease.now.ticket → IsIndexed (ticket_at index.old) g → IsIndexed (ticket_at index.new) g }
    ensures room { spare index.old ≤ spare index.new }
{
    for held in lease.slots.as_slice() {
        forget_folder(index, held.0.folder(), lease.ticket);
    }
}

/// Takes what an index has of the leases that this ends out of it.
pub(crate) fn forget_ending(
    index: &mut IndexMap<FolderName, Ticket>,
    leases: &[Lease],
    ending: &Ending,
)
    ensures others { (g : Lease) → All (λ h. ends_lease ending.now h ≡ true → g.ticket ≢ h.ticket) leases.now → IsIndexed (ticket_at index.old) g → IsIndexed (ticket_at index.new) g }
    ensures room { spare index.old ≤ spare index.new }
{
    for lease in leases {
        if ending.ends(lease) {
            forget(index, lease);
        }
    }
}
