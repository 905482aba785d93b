//! What the lines and the leases of a farm say of versions.
ghost use Rattle.std.specs.Prelude.{◌≡◌, IfOk, map};
ghost use Rattle.std.specs.List.{list_any, list_all};
ghost use Rattle.world.specs.Shown.{shown};
ghost use Rattle.farmhistory.specs.Lines.{number_on, or_zero, stands, version_of, numbered, is_live};

use farm_base::{Copied, Left, Slot, Ticket, Version};
use std::alloc::{AllocError, Global};
use world::World;

/// The number of the version that stands on the slot's line under the ticket.
pub fn number_on(world: &World, ticket: Ticket, slot: &Slot) -> Option<u64>
    ensures { result ≡ number_on (shown world.now) ticket slot.now }
{
    world.coordinator().line(slot)?.number_of(ticket)
}

/// Whether a version of the slot stands on its line under the ticket.
fn stands(world: &World, ticket: Ticket, version: &Version) -> bool
    ensures { result ≡ stands (shown world.now) ticket version.now }
{
    number_on(world, ticket, &version.slot).is_some()
}

/// Whether all versions stand on their lines under the ticket.
pub fn all_stand(world: &World, ticket: Ticket, versions: &[Version]) -> bool
    ensures { result ≡ list_all (stands (shown world.now) ticket) versions.now }
{
    versions
        .iter()
        .all(|version| stands(world, ticket, version))
}

/// Whether one of them does.
pub fn any_stands(world: &World, ticket: Ticket, versions: &[Version]) -> bool
    ensures { result ≡ list_any (stands (shown world.now) ticket) versions.now }
{
    versions
        .iter()
        .any(|version| stands(world, ticket, version))
}

/// Whether a live lease has the ticket.
pub fn is_live(world: &World, ticket: Ticket) -> bool
    ensures { result ≡ is_live (shown world.now) ticket }
{
    world
        .coordinator()
        .leases()
        .iter()
        .any(|lease| lease.ticket == ticket)
}

fn or_zero(number: Option<u64>) -> u64
    ensures { result ≡ or_zero number }
{
    match number {
        Some(number) => number,
        None => 0,
    }
}

/// Room for a version of each slot, its number not known yet.
pub fn first_versions(alloc: Global, lefts: &[Left]) -> Result<Vec<Version>, AllocError>
    ensures { IfOk result (λ versions. versions.items ≡ map version_of lefts.now) }
{
    let mut versions = Vec::with_capacity(alloc, lefts.len())?;
    for left in lefts {
        let slot = left.slot.copy(alloc)?;
        versions.push(Version { slot, number: 0 })?;
    }
    Ok(versions)
}

/// Gives the versions the numbers that they have on their lines.
pub fn number_all(world: &World, ticket: Ticket, versions: &mut Vec<Version>)
    ensures { versions.new.items ≡ map (numbered (shown world.now) ticket) versions.old.items }
{
    for version in versions.iter_mut() {
        version.number = or_zero(number_on(world, ticket, &version.slot));
    }
}
