//! Whether receipts are told by the lines of a farm.
ghost use Rattle.std.specs.Prelude.{◌≡◌, All, Some, IfOk, IsTrue, nat_eq};
ghost use Rattle.std.specs.List.{IsDistinct};
ghost use Rattle.std.specs.List.Sorted.{IsStrictlyIncreasing};
ghost use Rattle.executions.specs.Shown.{shown};
ghost use Rattle.executions.specs.Lines.{number_on};
ghost use Rattle.farmend.specs.Receipts.{StandsOn, tickets_of};

use executions::{Receipt, World, number_on};
use farm_base::{Ticket, Version};
use std::alloc::{AllocError, Global};

/// Whether a version stands on its slot's line, with its number, under the ticket.
fn stands(world: &World, ticket: Ticket, version: &Version) -> bool
    ensures { IsTrue result → number_on (shown world.now) ticket version.now.slot ≡ Some version.now.number }
{
    number_on(world, ticket, &version.slot) == Some(version.number)
}

/// Whether a receipt has versions, and they stand on the lines under its ticket.
fn stands_on(world: &World, receipt: &Receipt) -> bool
    ensures { IsTrue result → StandsOn (shown world.now) receipt.now }
{
    let versions = receipt.versions.as_slice();
    !versions.is_empty()
        && versions
            .iter()
            .all(|version| stands(world, receipt.ticket, version))
}

/// Whether those of each receipt do.
pub(crate) fn all_stand(world: &World, receipts: &[Receipt]) -> bool
    ensures { IsTrue result → All (StandsOn (shown world.now)) receipts.now }
{
    receipts.iter().all(|receipt| stands_on(world, receipt))
}

/// Whether no two receipts have one ticket.
pub(crate) fn all_differ(alloc: Global, receipts: &[Receipt]) -> Result<bool, AllocError>
    ensures { IfOk result (λ differ. IsTrue differ → IsDistinct nat_eq (tickets_of receipts.now)) }
{
    let mut tickets = tickets_of(alloc, receipts)?;
    tickets.sort()?;
    Ok(rise(tickets.as_slice()))
}

/// The tickets of receipts.
fn tickets_of(alloc: Global, receipts: &[Receipt]) -> Result<Vec<u64>, AllocError>
    ensures { IfOk result (λ tickets. tickets.items ≡ tickets_of receipts.now) }
{
    let mut tickets = Vec::with_capacity(alloc, receipts.len())?;
    for receipt in receipts {
        tickets.push(receipt.ticket.0)?;
    }
    Ok(tickets)
}

/// Whether each number is above the one before it.
fn rise(numbers: &[u64]) -> bool
    ensures { IsTrue result → IsStrictlyIncreasing numbers.now }
{
    for place in 1..numbers.len() {
        if numbers[place] <= numbers[place - 1] {
            return false;
        }
    }
    true
}
