//! Sets of a folder's instances, from the slots of leases.
ghost use Rattle.protocol.specs.Names.{slot_eq};
ghost use Rattle.protocol.specs.Ledger.{has_slot, some_lease};
ghost use Rattle.holdings.specs.Endings.{frees};
ghost use Rattle.leaseindex.specs.Marks.{Marks, Unmarks};
ghost use Rattle.holdings.specs.Leases.{among};

use super::instances::Instances;
use farm_base::{FolderName, Lease, Slot};
use holdings::Ending;

/// Adds the instance of a slot, if the slot is of the folder.
fn mark(marks: &mut Instances, folder: &FolderName, slot: &Slot)
    ensures { Marks marks.old marks.new folder.now (λ s. slot_eq slot.now s) }
{
    if slot.folder() == folder {
        marks.insert(slot.instance());
    }
}

/// Adds the instances of a folder that a lease has.
fn mark_lease(marks: &mut Instances, folder: &FolderName, slots: &[(Slot, bool)])
    ensures { Marks marks.old marks.new folder.now (λ s. has_slot slots.now s) }
{
    for held in slots {
        mark(marks, folder, &held.0);
    }
}

/// Adds the instances of a folder that any of these leases has.
pub fn mark_leased(marks: &mut Instances, folder: &FolderName, leases: &[Lease])
    ensures { Marks marks.old marks.new folder.now (λ s. some_lease leases.now s) }
{
    for lease in leases {
        mark_lease(marks, folder, lease.slots.as_slice());
    }
}

/// Adds the instances of a folder that are among these slots.
pub fn mark_all(marks: &mut Instances, folder: &FolderName, slots: &[Slot])
    ensures { Marks marks.old marks.new folder.now (λ s. among slots.now s) }
{
    for slot in slots {
        mark(marks, folder, slot);
    }
}

/// Takes the instance of a slot out, if the slot is of the folder.
fn unmark(marks: &mut Instances, folder: &FolderName, slot: &Slot)
    ensures { Unmarks marks.old marks.new folder.now (λ s. slot_eq slot.now s) }
{
    if slot.folder() == folder {
        marks.remove(slot.instance());
    }
}

/// Takes the instances of a folder out that a lease has.
pub(crate) fn unmark_lease(marks: &mut Instances, folder: &FolderName, slots: &[(Slot, bool)])
    ensures { Unmarks marks.old marks.new folder.now (λ s. has_slot slots.now s) }
{
    for held in slots {
        unmark(marks, folder, &held.0);
    }
}

/// Takes the instances of a folder out that the leases have which this ends.
pub(crate) fn unmark_ending(
    marks: &mut Instances,
    folder: &FolderName,
    leases: &[Lease],
    ending: &Ending,
)
    ensures { Unmarks marks.old marks.new folder.now (λ s. frees ending.now leases.now s) }
{
    for lease in leases {
        if ending.ends(lease) {
            unmark_lease(marks, folder, lease.slots.as_slice());
        }
    }
}
