//! The grant of a lease.
ghost use Rattle.std.specs.Prelude.{◌≡◌, ◌≢◌, ◌≤◌, ◌||◌, All, IfOk, OnOk, option_copied};
ghost use Rattle.names.specs.Contents.{empty_digest};
ghost use Rattle.protocol.specs.Farm.{farm_limits};
ghost use Rattle.protocol.specs.Ledger.{gives, grant_of, is_saved, lease_for};
ghost use Rattle.leases.specs.Table.{fit_of};
ghost use Rattle.leases.specs.declared.lease_table.Fit.{Fit};
ghost use Rattle.effects.specs.Keeps.{held};
ghost use Rattle.effects.specs.Shown.{work_of, table_after, lines_with};
ghost use Rattle.drafts.specs.Shown.{saved_under};

use effects::{Effects, State};
use farm_base::{Copied, FromCoord, Grant, Items, Lease, LeaseKind, Parked};
use holdings::is_saved;
use std::alloc::{AllocError, Global};
use versions::{Added, Lines, granted_slots};

/// Whether the record changes: it did before, the ticket of a lease needs a block that isn't saved, or the record has the lease.
fn changes_record(changed: bool, needs_block: bool, lease: &Lease) -> bool
    ensures { result ≡ (changed || needs_block || is_saved lease.now) }
{
    changed || needs_block || is_saved(lease)
}

/// Grants what an ask wants, over this state.
#[tactic(auto, unfolding(protocol::specs::Ledger::gives))]
pub(crate) fn give(
    alloc: Global,
    effects: &mut Effects,
    base: &State,
    p: &Parked,
) -> Result<Grant, AllocError>
    requires given { All (λ g. g.ticket.0 ≤ effects.old.change.tickets.position) (table_after (held base.now) effects.old.change).live }
    requires fits { fit_of (table_after (held base.now) effects.old.change) p.now.tenure p.now.wants ≡ Fit.Fits }
    requires room { effects.old.change.tickets.position ≢ u64.MAX }
    ensures added { OnOk result (effects.new.added ≡ effects.old.added) }
    ensures work { OnOk result (work_of (held base.now) effects.new ≡ gives farm_limits p.now (work_of (held base.now) effects.old)) }
    ensures grant { IfOk result (λ grant. grant
        ≡ grant_of empty_digest (lines_with base.now.lines effects.old.added) (lease_for farm_limits (work_of (held base.now) effects.old).ledger p.now)) }
{
    let needs_block = effects.change.tickets.needs_block();
    let Ok(ticket) = effects.change.tickets.next() else {
        unreachable!();
    };
    effects.change.table.grant(alloc, &base.table, p, ticket)?;
    let Some(lease) = effects.change.table.over(&base.table).lease(ticket) else {
        unreachable!();
    };
    let grant = grant_of(alloc, &base.lines, &effects.added, lease)?;
    effects.changed = changes_record(effects.changed, needs_block, lease);
    effects.sends.push(FromCoord::Granted(grant.copy(alloc)?))?;
    Ok(grant)
}

/// The Grant of a lease.
pub(crate) fn grant_of(
    alloc: Global,
    lines: &Lines,
    added: &Option<Added>,
    lease: &Lease,
) -> Result<Grant, AllocError>
    ensures { IfOk result (λ grant. grant ≡ grant_of empty_digest (lines_with lines.now added.now) lease.now) }
{
    let slots = granted_slots(alloc, lines, added, lease.slots.as_slice())?;
    Ok(Grant {
        ticket: lease.ticket,
        node: lease.node,
        life: lease.life,
        ask: lease.ask,
        kind: LeaseKind::of(lease.shared, lease.tenure),
        slots: Items::new(slots),
    })
}

/// Whether the record has a lease, if there is one.
pub(crate) fn is_some_saved(lease: Option<&Lease>) -> bool
    ensures { result ≡ saved_under (option_copied lease.entry) }
{
    match lease {
        Some(lease) => is_saved(lease),
        None => false,
    }
}
