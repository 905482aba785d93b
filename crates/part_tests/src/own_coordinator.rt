//! A table of leases that a coordinator of one's own changes at once.

use farm_base::{Ask, FolderName, Life, NodeId, Ticket, Wants};
use leases::{Fit, LeaseTable};
use std::alloc::Global;
use std::test::Fail;

/// A PRIVATE folder is wanted.
fn wants(alloc: Global) -> Result<Wants, Fail> {
    let folder = FolderName::parse(alloc, "private:npm")?;
    Ok(Wants::one(alloc, folder, true)?)
}

/// A table in which an ask of node 1, in its life 2, has a lease under ticket 1. In a box: letting go of it is one step of a proof.
fn leased(alloc: Global, wants: &Wants) -> Result<Box<LeaseTable>, Fail> {
    let mut table = Box::new(alloc, LeaseTable::new(alloc))?;
    if !matches!(table.fits(wants, false), Fit::Fits) {
        return Err("an ask doesn't fit".into());
    }
    table.grant(alloc, NodeId(1), Life(2), Ask(1), wants, false, Ticket(1))?;
    Ok(table)
}

/// Whether a table has no lease, and one slot that is never granted again.
fn has_retired_one(alloc: Global, table: &LeaseTable) -> Result<bool, Fail> {
    let (leases, retired) = table.to_parts(alloc)?;
    Ok(leases.is_empty() && retired.len() == 1)
}

/// Whether the lease is there, and is withdrawn once.
fn is_withdrawn_once(alloc: Global, table: &mut LeaseTable) -> Result<bool, Fail> {
    Ok(
        table.lease_of(NodeId(1), Life(2), Ask(1)).is_some()
            && table.end_lives_below(NodeId(1), Life(2)) == 0
            && table.withdraw(alloc, Ticket(1))?.is_some()
            && table.end(Ticket(1)).is_none()
            && has_retired_one(alloc, table)?,
    )
}

#[test]
fn a_lease(rt: HostRuntime) -> Result<(), Fail> {
    let wants = wants(rt.alloc())?;
    let mut table = leased(rt.alloc(), &wants)?;
    assert!(rt; is_withdrawn_once(rt.alloc(), &mut *table)?);
    Ok(())
}
