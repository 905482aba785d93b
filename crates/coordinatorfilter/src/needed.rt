//! The contents that must not be forgotten.
ghost use Rattle.std.specs.Prelude.{◌≡◌, ◌++◌, List, IfOk, OnOk, option_copied};
ghost use Rattle.std.specs.List.{flat_map};
ghost use Rattle.std.specs.String.{string_bytes};
ghost use Rattle.farm_base.specs.declared.message.LineVersion.{LineVersion};
ghost use Rattle.names.specs.Contents.{empty_digest};
ghost use Rattle.protocol.specs.Ledger.{last_digest};
ghost use Rattle.coordinatorfilter.specs.Shown.{needed_fact, last_needed, bases_needed, needed_text, IsNeeded};
ghost use Rattle.versions.specs.Lines.{line_shown};

use coordinator::Coordinator;
use farm_base::{Digest, Key, Lease, Slot, empty_digest};
use saverecord::Keeper;
use std::alloc::{AllocError, Global};
use versions::Line;

/// The last digest of a line; the empty content's where the slot has no version.
fn last_digest(alloc: Global, line: Option<&Line>) -> Digest
    ensures { (versions : List LineVersion) → option_copied line.entry ≡ line_shown versions → result ≡ last_digest empty_digest versions }
{
    match line {
        None => empty_digest(alloc),
        Some(line) => versions::last_digest(alloc, line),
    }
}

/// Adds a content.
fn push_content(alloc: Global, text: &mut String, digest: Digest) -> Result<(), AllocError>
    ensures { OnOk result (string_bytes text.new ≡ string_bytes text.old ++ needed_fact digest) }
{
    let digits = Key(digest).to_text(alloc)?;
    text.push_str(": ")?;
    text.push_str(digits.as_str())?;
    text.push_str("\n")
}

/// Adds the last versions of these slots.
fn push_lasts<K: Keeper>(
    alloc: Global,
    text: &mut String,
    coordinator: &Coordinator<K>,
    slots: &[Slot],
) -> Result<(), AllocError>
    ensures { OnOk result (string_bytes text.new ≡ string_bytes text.old ++ flat_map (last_needed coordinator.now.held.lines) slots.now) }
{
    for slot in slots {
        let last = last_digest(alloc, coordinator.line(slot));
        push_content(alloc, text, last)?;
    }
    Ok(())
}

/// Adds the bases of a lease.
fn push_bases<K: Keeper>(
    alloc: Global,
    text: &mut String,
    coordinator: &Coordinator<K>,
    lease: &Lease,
) -> Result<(), AllocError>
    ensures { OnOk result (string_bytes text.new ≡ string_bytes text.old ++ bases_needed coordinator.now.held.lines lease.now) }
{
    for leased in lease.slots.as_slice() {
        let base = last_digest(alloc, coordinator.line(&leased.0));
        push_content(alloc, text, base)?;
    }
    Ok(())
}

/// Adds the bases of the live leases.
fn push_all_bases<K: Keeper>(
    alloc: Global,
    text: &mut String,
    coordinator: &Coordinator<K>,
) -> Result<(), AllocError>
    ensures { OnOk result (string_bytes text.new ≡ string_bytes text.old ++ flat_map (bases_needed coordinator.now.held.lines) coordinator.now.held.live) }
{
    for lease in coordinator.leases() {
        push_bases(alloc, text, coordinator, lease)?;
    }
    Ok(())
}

/// The text of what a coordinator needs, where these slots have a version.
fn needed_text<K: Keeper>(
    alloc: Global,
    coordinator: &Coordinator<K>,
    slots: &[Slot],
) -> Result<String, AllocError>
    ensures { IfOk result (λ text. string_bytes text ≡ needed_text coordinator.now.held slots.now) }
{
    let mut text = String::new(alloc);
    push_lasts(alloc, &mut text, coordinator, slots)?;
    push_all_bases(alloc, &mut text, coordinator)?;
    text.push_str("= needed\n")?;
    Ok(text)
}

/// The text of what a coordinator needs.
pub(crate) fn print_needed<K: Keeper>(
    alloc: Global,
    coordinator: &Coordinator<K>,
) -> Result<String, AllocError>
    ensures { IfOk result (λ text. IsNeeded coordinator.now.held (string_bytes text)) }
{
    let slots = coordinator.slots(alloc)?;
    needed_text(alloc, coordinator, slots.as_slice())
}
