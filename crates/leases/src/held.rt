//! Tests of slots, and of the wants that take them.
ghost use Rattle.std.specs.Prelude.{◌≡◌, filter};
ghost use Rattle.std.specs.List.{list_any};
ghost use Rattle.protocol.specs.Names.{leased_wants, any_shared, is_private, only_slot};
ghost use Rattle.protocol.specs.Ledger.{has_slot};
ghost use Rattle.holdings.specs.Leases.{among, takes};
ghost use Rattle.leaseindex.specs.Live.{holds_some};

use farm_base::{Lease, Mode, Slot, Want, Wants};
use leaseindex::{has_only, takes};

/// Whether a slot is among a lease's.
pub(crate) fn has_slot(slots: &[(Slot, bool)], slot: &Slot) -> bool
    ensures { result ≡ has_slot slots.now slot.now }
{
    slots.iter().any(|held| held.0 == *slot)
}

/// Whether a slot is among these.
pub(crate) fn among(slots: &[Slot], slot: &Slot) -> bool
    ensures { result ≡ among slots.now slot.now }
{
    slots.iter().any(|other| other == slot)
}

/// Whether a want is of a SHARED folder.
pub(crate) fn any_shared(wants: &[Want]) -> bool
    ensures { result ≡ any_shared wants.now }
{
    wants
        .iter()
        .any(|want| matches!(want.folder.mode, Mode::Shared))
}

/// Whether the want is of a PRIVATE folder.
pub(crate) fn is_private(want: &Want) -> bool
    ensures { result ≡ is_private want.now.folder.mode }
{
    matches!(want.folder.mode, Mode::Private)
}

/// Whether the lease has the one slot of a folder for which an ask with these wants takes a slot.
pub fn holds_wanted(lease: &Lease, wants: &Wants, tenure: bool) -> bool
    ensures { result ≡ holds_some (leased_wants tenure wants.now) lease.now }
{
    holds_some(lease.slots.as_slice(), wants.as_slice(), tenure)
}

/// Whether the slots have the one slot of a folder for which an ask takes a slot.
pub(crate) fn holds_some(slots: &[(Slot, bool)], wants: &[Want], tenure: bool) -> bool
    ensures { result ≡ list_any (λ w. has_slot slots.now (only_slot w.folder)) (filter (takes tenure) wants.now) }
{
    wants
        .iter()
        .filter(|want| takes(want, tenure))
        .any(|want| has_only(slots, &want.folder))
}
