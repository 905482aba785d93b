//! Tests of the leases that have a slot, of the wants that take one, and of asks.
ghost use Rattle.std.specs.Prelude.{◌≡◌, option_copied};
ghost use Rattle.protocol.specs.Names.{only_slot};
ghost use Rattle.protocol.specs.Ledger.{has_slot, is_of, lease_of};
ghost use Rattle.holdings.specs.Leases.{takes};

use farm_base::{Ask, FolderName, Lease, Life, Mode, NodeId, Slot, Want};

/// Whether a lease takes a slot for the want.
pub fn takes(want: &Want, tenure: bool) -> bool
    ensures { result ≡ takes tenure want.now }
{
    matches!(want.folder.mode, Mode::Shared) == tenure
}

/// Whether the folder's one slot is among the lease's.
pub fn has_only(slots: &[(Slot, bool)], folder: &FolderName) -> bool
    ensures { result ≡ has_slot slots.now (only_slot folder.now) }
{
    slots
        .iter()
        .any(|held| held.0.folder() == folder && held.0.instance() == 0)
}

/// Whether the lease has the ask.
pub fn is_of(lease: &Lease, node: NodeId, life: Life, ask: Ask) -> bool
    ensures { result ≡ is_of node life ask lease.now }
{
    lease.node == node && lease.life == life && lease.ask == ask
}

/// The first of these leases that has the ask.
pub fn first_of(leases: &[Lease], node: NodeId, life: Life, ask: Ask) -> Option<&Lease>
    ensures { option_copied result ≡ lease_of leases.now node life ask }
{
    leases.iter().find(|lease| is_of(lease, node, life, ask))
}
