//! Who holds what, who waits, and the rest of what a coordinator keeps.
ghost use Rattle.std.specs.Prelude.{◌≡◌, ◌++◌, IfOk, OnOk, option_copied};
ghost use Rattle.std.specs.List.{flat_map};
ghost use Rattle.std.specs.String.{string_bytes};
ghost use Rattle.coordinatorfilter.specs.Shown.{leased_text, holder_text, lease_fact, asked_text, parked_fact, life_fact, gone_fact, retired_fact, last_of, last_fact, last_at, tickets_fact, status_text, IsStatus};

use super::printed::{Printed, push_each};
use coordinator::Coordinator;
use farm_base::{Key, Lease, LeaseKind, LineVersion, NodeId, NodeLife, Parked, Slot, Ticket};
use farmwire::{kind_name, push_items};
use saverecord::Keeper;
use std::alloc::{AllocError, Global};
use versions::Line;

/// A slot of a lease, and whether it may be written.
impl Printed for (Slot, bool) {
    ghost prints = { leased_text };

    fn push(&self, alloc: Global, text: &mut String) -> Result<(), AllocError> {
        let slot = self.0.to_text(alloc)?;
        text.push(' ')?;
        if !self.1 {
            text.push_str("ro=")?;
        }
        text.push_str(slot.as_str())
    }
}

/// Adds who holds a lease: its ticket, node, life and ask.
fn push_holder(text: &mut String, lease: &Lease) -> Result<(), AllocError>
    ensures { OnOk result (string_bytes text.new ≡ string_bytes text.old ++ holder_text lease.now) }
{
    let (ticket, node, life, ask) = (lease.ticket.0, lease.node.0, lease.life.0, lease.ask.0);
    write!(text, ": lease {ticket} {node} {life} {ask} ")
}

/// A live lease.
impl Printed for Lease {
    ghost prints = { lease_fact };

    fn push(&self, alloc: Global, text: &mut String) -> Result<(), AllocError> {
        push_holder(text, self)?;
        text.push_str(kind_name(LeaseKind::of(self.shared, self.tenure)))?;
        push_each(alloc, text, self.slots.as_slice())?;
        text.push('\n')
    }
}

/// The word of what is asked for.
fn asked_name(tenure: bool) -> &'static str
    ensures { result.now ≡ asked_text tenure }
{
    if tenure { "tenure" } else { "acquire" }
}

/// An ask that waits.
impl Printed for Parked {
    ghost prints = { parked_fact };

    fn push(&self, alloc: Global, text: &mut String) -> Result<(), AllocError> {
        let (node, life, ask) = (self.node.0, self.life.0, self.ask.0);
        let asked = asked_name(self.tenure);
        write!(text, ": parked {asked} {node} {life} {ask}")?;
        push_items(alloc, text, self.wants.as_slice())?;
        text.push('\n')
    }
}

/// The greatest life seen of a node.
impl Printed for NodeLife {
    ghost prints = { life_fact };

    fn push(&self, _alloc: Global, text: &mut String) -> Result<(), AllocError> {
        let (node, life) = (self.node.0, self.life.0);
        write!(text, ": life {node} {life}\n")
    }
}

/// A node that is retired.
impl Printed for NodeId {
    ghost prints = { gone_fact };

    fn push(&self, _alloc: Global, text: &mut String) -> Result<(), AllocError> {
        let node = self.0;
        write!(text, ": gone {node}\n")
    }
}

/// A slot that is retired.
impl Printed for Slot {
    ghost prints = { retired_fact };

    fn push(&self, alloc: Global, text: &mut String) -> Result<(), AllocError> {
        let slot = self.to_text(alloc)?;
        text.push_str(": retired ")?;
        text.push_str(slot.as_str())?;
        text.push('\n')
    }
}

/// Adds a slot's last version.
fn push_version(
    alloc: Global,
    text: &mut String,
    slot: &Slot,
    number: u64,
    version: Option<&LineVersion>,
) -> Result<(), AllocError>
    ensures { OnOk result (string_bytes text.new ≡ string_bytes text.old ++ last_of slot.now number (option_copied version.entry)) }
{
    let Some(version) = version else {
        return Ok(());
    };
    let slot = slot.to_text(alloc)?;
    let digits = Key(version.digest).to_text(alloc)?;
    let (slot, ticket, digits) = (slot.as_str(), version.ticket.0, digits.as_str());
    write!(text, ": last {slot} {number}:{ticket}:{digits}\n")
}

/// Adds the last version on a slot's line.
fn push_last(
    alloc: Global,
    text: &mut String,
    slot: &Slot,
    line: Option<&Line>,
) -> Result<(), AllocError>
    ensures { OnOk result (string_bytes text.new ≡ string_bytes text.old ++ last_fact slot.now (option_copied line.entry)) }
{
    let Some(line) = line else {
        return Ok(());
    };
    push_version(alloc, text, slot, line.len(), line.versions().last())
}

/// Adds the last versions of these slots.
fn push_lasts<K: Keeper>(
    alloc: Global,
    text: &mut String,
    coordinator: &Coordinator<K>,
    slots: &[Slot],
) -> Result<(), AllocError>
    ensures { OnOk result (string_bytes text.new ≡ string_bytes text.old ++ flat_map (last_at coordinator.now.held.lines) slots.now) }
{
    for slot in slots {
        push_last(alloc, text, slot, coordinator.line(slot))?;
    }
    Ok(())
}

/// Adds the last ticket.
fn push_tickets(text: &mut String, last: Ticket) -> Result<(), AllocError>
    ensures { OnOk result (string_bytes text.new ≡ string_bytes text.old ++ tickets_fact last.0) }
{
    let last = last.0;
    write!(text, ": tickets {last}\n")
}

/// The text of a coordinator's status, of which these slots are retired, and these have a version.
fn status_text<K: Keeper>(
    alloc: Global,
    coordinator: &Coordinator<K>,
    retired: &[Slot],
    slots: &[Slot],
) -> Result<String, AllocError>
    ensures { IfOk result (λ text. string_bytes text ≡ status_text coordinator.now.held retired.now slots.now) }
{
    let mut text = String::new(alloc);
    push_each(alloc, &mut text, coordinator.leases())?;
    push_each(alloc, &mut text, coordinator.parked())?;
    push_each(alloc, &mut text, coordinator.lives())?;
    push_each(alloc, &mut text, coordinator.retired_nodes())?;
    push_each(alloc, &mut text, retired)?;
    push_lasts(alloc, &mut text, coordinator, slots)?;
    push_tickets(&mut text, coordinator.last_ticket())?;
    text.push_str("= status\n")?;
    Ok(text)
}

/// The text of a coordinator's status.
pub(crate) fn print_status<K: Keeper>(
    alloc: Global,
    coordinator: &Coordinator<K>,
) -> Result<String, AllocError>
    ensures { IfOk result (λ text. IsStatus coordinator.now.held (string_bytes text)) }
{
    let retired = coordinator.retired_slots(alloc)?;
    let slots = coordinator.slots(alloc)?;
    status_text(alloc, coordinator, retired.as_slice(), slots.as_slice())
}
