//! The PRIVATE slots of leases, and copies of leases.
ghost use Rattle.std.specs.Prelude.{◌≡◌, ◌++◌, not, filter, IfOk, OnOk};
ghost use Rattle.protocol.specs.Ledger.{is_at};
ghost use Rattle.holdings.specs.Endings.{has_ended};
ghost use Rattle.leases.specs.Changes.{slots_ended};
ghost use Rattle.leases.specs.Table.{private_slots, all_private};

use farm_base::{Copied, Lease, Mode, NodeId, Slot, copy_all};
use holdings::{Ending, has_ended};
use std::alloc::{AllocError, Global};

/// The PRIVATE slots of a lease.
pub(crate) fn private_slots(alloc: Global, slots: &[(Slot, bool)]) -> Result<Vec<Slot>, AllocError>
    ensures { IfOk result (λ v. v.items ≡ private_slots slots.now) }
{
    let mut private = Vec::new(alloc);
    for held in slots {
        if matches!(held.0.folder().mode, Mode::Private) {
            private.push(held.0.copy(alloc)?)?;
        }
    }
    Ok(private)
}

/// The PRIVATE slots of a node's leases that have not ended.
pub(crate) fn private_slots_of(
    alloc: Global,
    leases: &[Lease],
    ended: &[Ending],
    node: NodeId,
) -> Result<Vec<Slot>, AllocError>
    ensures { IfOk result (λ v. v.items ≡ all_private (filter (is_at node) (filter (λ g. not (has_ended ended.now g)) leases.now))) }
{
    let mut private = Vec::new(alloc);
    for lease in leases {
        if lease.node == node && !has_ended(ended, lease) {
            let mut slots = private_slots(alloc, lease.slots.as_slice())?;
            private.append(&mut slots)?;
        }
    }
    Ok(private)
}

/// Copies of the slots of the leases that this ends, of those that have not ended.
pub(crate) fn slots_ended(
    alloc: Global,
    leases: &[Lease],
    ended: &[Ending],
    ending: Ending,
) -> Result<Vec<(Slot, bool)>, AllocError>
    ensures { IfOk result (λ v. v.items ≡ slots_ended ending (filter (λ g. not (has_ended ended.now g)) leases.now)) }
{
    let mut slots = Vec::new(alloc);
    for lease in leases {
        if ending.ends(lease) && !has_ended(ended, lease) {
            add_copies(alloc, &mut slots, lease.slots.as_slice())?;
        }
    }
    Ok(slots)
}

/// Copies of the leases that have not ended.
pub(crate) fn copy_standing(
    alloc: Global,
    leases: &[Lease],
    ended: &[Ending],
) -> Result<Vec<Lease>, AllocError>
    ensures { IfOk result (λ v. v.items ≡ filter (λ g. not (has_ended ended.now g)) leases.now) }
{
    let mut copies = Vec::with_capacity(alloc, leases.len())?;
    for lease in leases {
        if !has_ended(ended, lease) {
            copies.push(lease.copy(alloc)?)?;
        }
    }
    Ok(copies)
}

/// Adds copies of these at the end.
pub(crate) fn add_copies<T: Copied + Drop>(
    alloc: Global,
    items: &mut Vec<T>,
    more: &[T],
) -> Result<(), AllocError>
    ensures { OnOk result (items.new.items ≡ items.old.items ++ more.now) }
{
    let mut copies = copy_all(alloc, more)?;
    items.append(&mut copies)?;
    Ok(())
}
