//! What the record has of leases.
ghost use Rattle.std.specs.Prelude.{◌≡◌, ◌&&◌, filter, IfOk, option_copied};
ghost use Rattle.protocol.specs.Ledger.{is_saved};
ghost use Rattle.leases.specs.Changes.{ticket_of_saved, saved_tickets};

use farm_base::{Copied, Lease, Ticket};
use holdings::{Ending, has_ended, is_saved};
use std::alloc::{AllocError, Global};

/// The ticket of the lease, if there is one and the record has it.
pub(crate) fn ticket_of_saved(
    alloc: Global,
    lease: Option<&Lease>,
) -> Result<Vec<Ticket>, AllocError>
    ensures { IfOk result (λ tickets. tickets.items ≡ ticket_of_saved (option_copied lease.entry)) }
{
    let mut tickets = Vec::new(alloc);
    if let Some(lease) = lease {
        if is_saved(lease) {
            tickets.push(lease.ticket)?;
        }
    }
    Ok(tickets)
}

/// The tickets of the leases that these end, of those that the record has.
pub(crate) fn saved_tickets(
    alloc: Global,
    leases: &[Lease],
    ended: &[Ending],
) -> Result<Vec<Ticket>, AllocError>
    ensures { IfOk result (λ tickets. tickets.items ≡ saved_tickets ended.now leases.now) }
{
    let mut tickets = Vec::new(alloc);
    for lease in leases {
        if has_ended(ended, lease) && is_saved(lease) {
            tickets.push(lease.ticket)?;
        }
    }
    Ok(tickets)
}

/// Copies of the leases that the record has.
pub(crate) fn saved_copies(alloc: Global, leases: &[Lease]) -> Result<Vec<Lease>, AllocError>
    ensures { IfOk result (λ copies. copies.items ≡ filter is_saved leases.now) }
{
    let mut copies = Vec::new(alloc);
    for lease in leases {
        if is_saved(lease) {
            copies.push(lease.copy(alloc)?)?;
        }
    }
    Ok(copies)
}
