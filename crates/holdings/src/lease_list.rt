//! Lists of leases.
ghost use Rattle.std.specs.Prelude.{◌≡◌, AllPairs};
ghost use Rattle.std.specs.List.{list_any, position_from};
ghost use Rattle.protocol.specs.Names.{is_private};
ghost use Rattle.protocol.specs.Ledger.{has_ticket, is_saved};
ghost use Rattle.holdings.specs.Leases.{IsBefore};

use farm_base::{Lease, Mode, Slot, Ticket};

/// Whether a PRIVATE slot is among these.
fn has_private(slots: &[(Slot, bool)]) -> bool
    ensures { result ≡ list_any (λ x. is_private x.0.folder.mode) slots.now }
{
    slots
        .iter()
        .any(|held| matches!(held.0.folder().mode, Mode::Private))
}

/// Whether the record has the lease: a tenure, or one with a PRIVATE slot.
pub fn is_saved(lease: &Lease) -> bool
    ensures { result ≡ is_saved lease.now }
{
    lease.tenure || has_private(lease.slots.as_slice())
}

/// The place of the lease of a ticket.
pub fn place_of(leases: &[Lease], ticket: Ticket) -> Option<usize>
    requires { AllPairs IsBefore leases.now }
    ensures { result ≡ position_from (has_ticket ticket) 0 leases.now }
{
    leases
        .binary_search_by_key(&ticket, |lease| lease.ticket)
        .ok()
}
