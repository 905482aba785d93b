//! What holds between leases, slots and lines.
ghost use Rattle.std.specs.Prelude.{◌≡◌};
ghost use Rattle.std.specs.List.{list_all, list_any};
ghost use Rattle.protocol.specs.Names.{is_private, is_shared};
ghost use Rattle.protocol.specs.Ledger.{has_slot};
ghost use Rattle.recordlists.specs.Relations.{no_two, tickets_up_to, versions_up_to, lines_up_to, lives_there, shares, is_same_ask, clash, has_retired, is_same_private, is_tenured, some_shared, fits_tenure, is_gone, is_above_line, is_above_lines, is_home};

use farm_base::{Lease, LineVersion, Mode, NodeId, NodeLife, Slot};
use versions::SlotLine;

fn is_private(mode: Mode) -> bool
    ensures { result ≡ is_private mode }
{
    matches!(mode, Mode::Private)
}

fn is_shared(mode: Mode) -> bool
    ensures { result ≡ is_shared mode }
{
    matches!(mode, Mode::Shared)
}

fn has_slot(slots: &[(Slot, bool)], slot: &Slot) -> bool
    ensures { result ≡ has_slot slots.now slot.now }
{
    slots.iter().any(|held| held.0 == *slot)
}

fn versions_up_to(last: u64, versions: &[LineVersion]) -> bool
    ensures { result ≡ versions_up_to last versions.now }
{
    versions.iter().all(|version| version.ticket.0 <= last)
}

/// Whether each ticket of the lines is at most this one.
pub fn lines_up_to(last: u64, lines: &[SlotLine]) -> bool
    ensures { result ≡ lines_up_to last lines.now }
{
    lines
        .iter()
        .all(|line| versions_up_to(last, line.line.versions()))
}

/// Whether the ticket of each lease is at most this one.
pub fn tickets_up_to(last: u64, leases: &[Lease]) -> bool
    ensures { result ≡ tickets_up_to last leases.now }
{
    leases.iter().all(|lease| lease.ticket.0 <= last)
}

/// Whether the lease's life is that of its node.
pub fn lives_there(lives: &[NodeLife], lease: &Lease) -> bool
    ensures { result ≡ lives_there lives.now lease.now }
{
    lives
        .iter()
        .any(|seen| seen.node == lease.node && seen.life == lease.life)
}

fn shares(one: &Lease, other: &Lease) -> bool
    ensures { result ≡ shares one.now other.now }
{
    let slots = other.slots.as_slice();
    one.slots
        .as_slice()
        .iter()
        .any(|held| has_slot(slots, &held.0))
}

fn is_same_ask(one: &Lease, other: &Lease) -> bool
    ensures { result ≡ is_same_ask one.now other.now }
{
    one.node == other.node && one.life == other.life && one.ask == other.ask
}

fn clash(one: &Lease, other: &Lease) -> bool
    ensures { result ≡ clash one.now other.now }
{
    shares(one, other) || is_same_ask(one, other)
}

fn clashes(lease: &Lease, others: &[Lease]) -> bool
    ensures { result ≡ list_any (clash lease.now) others.now }
{
    others.iter().any(|other| clash(lease, other))
}

/// Whether no two leases clash.
pub fn are_apart(leases: &[Lease]) -> bool
    ensures { result ≡ no_two clash leases.now }
{
    for (i, lease) in leases.iter().enumerate() {
        if clashes(lease, &leases[i + 1..]) {
            return false;
        }
    }
    true
}

/// Whether a slot of the lease is retired.
pub fn has_retired(retired: &[Slot], lease: &Lease) -> bool
    ensures { result ≡ has_retired retired.now lease.now }
{
    let slots = lease.slots.as_slice();
    retired.iter().any(|slot| has_slot(slots, slot))
}

fn is_same_private(one: &(Slot, bool), other: &(Slot, bool)) -> bool
    ensures { result ≡ is_same_private one.now other.now }
{
    let folder = one.0.folder();
    is_private(folder.mode) && folder == other.0.folder()
}

fn has_same_private(slot: &(Slot, bool), others: &[(Slot, bool)]) -> bool
    ensures { result ≡ list_any (is_same_private slot.now) others.now }
{
    others.iter().any(|other| is_same_private(slot, other))
}

/// Whether no two slots are of the same PRIVATE folder.
pub fn are_of_own_folders(slots: &[(Slot, bool)]) -> bool
    ensures { result ≡ no_two is_same_private slots.now }
{
    for (i, slot) in slots.iter().enumerate() {
        if has_same_private(slot, &slots[i + 1..]) {
            return false;
        }
    }
    true
}

fn is_tenured(slots: &[(Slot, bool)]) -> bool
    ensures { result ≡ is_tenured slots.now }
{
    match slots {
        [only] => is_shared(only.0.folder().mode) && only.1,
        _ => false,
    }
}

fn some_shared(slots: &[(Slot, bool)]) -> bool
    ensures { result ≡ some_shared slots.now }
{
    slots.iter().any(|held| is_shared(held.0.folder().mode))
}

/// Whether a lease is a tenure of one SHARED slot, or has none.
pub fn fits_tenure(lease: &Lease) -> bool
    ensures { result ≡ fits_tenure lease.now }
{
    if lease.tenure {
        is_tenured(lease.slots.as_slice())
    } else {
        !some_shared(lease.slots.as_slice())
    }
}

/// Whether the lease's node is gone for good.
pub fn is_gone(gone: &[NodeId], lease: &Lease) -> bool
    ensures { result ≡ is_gone gone.now lease.now }
{
    gone.iter().any(|node| *node == lease.node)
}

fn is_above_line(ticket: u64, versions: &[LineVersion]) -> bool
    ensures { result ≡ is_above_line ticket versions.now }
{
    versions.iter().all(|version| version.ticket.0 < ticket)
}

/// Whether the lease's ticket is above all on the lines of its slots.
pub fn is_above_lines(lines: &[SlotLine], lease: &Lease) -> bool
    ensures { result ≡ is_above_lines lines.now lease.now }
{
    let slots = lease.slots.as_slice();
    let ticket = lease.ticket.0;
    lines.iter().all(|line| !has_slot(slots, &line.slot)
        || is_above_line(ticket, line.line.versions()))
}

/// Whether each slot is of a PRIVATE folder.
pub fn are_private(slots: &[Slot]) -> bool
    ensures { result ≡ list_all (λ s. is_private s.folder.mode) slots.now }
{
    slots.iter().all(|slot| is_private(slot.folder().mode))
}

/// Whether the node is the home.
pub fn is_home(home: Option<NodeId>, node: NodeId) -> bool
    ensures { result ≡ is_home home node }
{
    match home {
        None => false,
        Some(home) => home == node,
    }
}
