//! The entries of a record's lists.
ghost use Rattle.std.specs.Prelude.{◌≡◌, ◌<◌, ◌^◌, ◌++◌, Option, None, OnOk};
ghost use Rattle.recordparts.specs.Parts.{Gives};
ghost use Rattle.recordlists.specs.Entries.{is_above, node_at, positive_at, node_after, ticket_after, tenure_at, ended_at, retired_node_at, node_life_at, retired_at, leased_at, lease_at, version_at, line_at};
ghost use Rattle.recordparts.specs.Fits.{IsTypedSlot};
ghost use Rattle.recordlists.specs.EntryFits.{IsTypedTicket, IsTypedNode, IsTypedLife, IsTypedLeased, IsTypedLease, IsTypedVersion, IsTypedLine};
ghost use Rattle.recordparts.specs.Spelling.{flag_bytes, slot_bytes};
ghost use Rattle.recordlists.specs.EntrySpelling.{ticket_bytes, node_bytes, node_life_bytes, leased_bytes, holder_bytes, lease_bytes, version_bytes, line_bytes};

use super::entry::{Entry, put_counted, take_counted};
use farm_base::{Ask, Lease, Life, LineVersion, NODES, NodeId, NodeLife, Slot, Ticket};
use recordparts::{
    Flaw, Layout, RecordRefusal, put_slot, take_digest, take_flag, take_slot_after, take_u32,
    take_u64,
};
use std::alloc::{AllocError, Global};
use versions::{Line, SlotLine};

/// The most slots of a lease.
const SLOTS: u64 = 16;

#[tactic(auto, unfolding(crate::specs::Entries::node_at))]
fn take_node(bytes: &[u8]) -> Result<(NodeId, &[u8]), RecordRefusal>
    ensures { Gives (λ x. (x.0, x.1.now)) result (node_at bytes.now) }
{
    let (node, rest) = take_u32(bytes, 1, NODES)?;
    Ok((NodeId(node), rest))
}

/// A ticket, a life or an ask.
#[tactic(auto, unfolding(crate::specs::Entries::positive_at))]
fn take_positive(bytes: &[u8]) -> Result<(u64, &[u8]), RecordRefusal>
    ensures { Gives (λ x. (x.0, x.1.now)) result (positive_at bytes.now) }
{
    take_u64(bytes, 1, u64::MAX)
}

/// Whether a number is above the one before it.
fn is_above(before: Option<u64>, number: u64) -> bool
    ensures { result ≡ is_above before number }
{
    match before {
        None => true,
        Some(before) => before < number,
    }
}

/// A node of a list that rises.
#[tactic(auto, unfolding(crate::specs::Entries::node_after))]
fn take_node_after(before: Option<u64>, bytes: &[u8]) -> Result<(NodeId, &[u8]), RecordRefusal>
    ensures { Gives (λ x. (x.0, x.1.now)) result (node_after before bytes.now) }
{
    let (node, rest) = take_node(bytes)?;
    if !is_above(before, node.0 as u64) {
        return Err(RecordRefusal::NotCanonical(Flaw::Order));
    }
    Ok((node, rest))
}

/// A ticket of a list that rises.
#[tactic(auto, unfolding(crate::specs::Entries::ticket_after))]
fn take_ticket_after(before: Option<u64>, bytes: &[u8]) -> Result<(Ticket, &[u8]), RecordRefusal>
    ensures { Gives (λ x. (x.0, x.1.now)) result (ticket_after before bytes.now) }
{
    let (ticket, rest) = take_positive(bytes)?;
    if !is_above(before, ticket) {
        return Err(RecordRefusal::NotCanonical(Flaw::Order));
    }
    Ok((Ticket(ticket), rest))
}

fn put_flag(out: &mut Vec<u8>, flag: bool) -> Result<(), AllocError>
    ensures { OnOk result (out.new.items ≡ out.old.items ++ flag_bytes flag) }
{
    if flag {
        out.push(1)?;
    } else {
        out.push(0)?;
    }
    Ok(())
}

/// The ticket of a lease that ended.
impl Entry for Ticket {
    ghost reads = { ended_at };

    ghost spells = { ticket_bytes };

    ghost typed = { IsTypedTicket };

    fn take<'a>(
        _alloc: Global,
        _layout: Layout,
        before: Option<&Self>,
        bytes: &'a [u8],
    ) -> Result<(Self, &'a [u8]), RecordRefusal> {
        take_ticket_after(before.map(|ticket| ticket.0), bytes)
    }

    fn put(&self, out: &mut Vec<u8>) -> Result<(), AllocError> {
        let ticket = self.0;
        out.extend_from_slice(&ticket.to_be_bytes())?;
        Ok(())
    }
}

impl Entry for NodeId {
    ghost reads = { retired_node_at };

    ghost spells = { node_bytes };

    ghost typed = { IsTypedNode };

    fn take<'a>(
        _alloc: Global,
        _layout: Layout,
        before: Option<&Self>,
        bytes: &'a [u8],
    ) -> Result<(Self, &'a [u8]), RecordRefusal> {
        take_node_after(before.map(|node| node.0 as u64), bytes)
    }

    fn put(&self, out: &mut Vec<u8>) -> Result<(), AllocError> {
        out.extend_from_slice(&self.0.to_be_bytes())?;
        Ok(())
    }
}

#[tactic(auto, unfolding(crate::specs::Entries::node_life_at, crate::specs::EntrySpelling::node_life_bytes))]
impl Entry for NodeLife {
    ghost reads = { node_life_at };

    ghost spells = { node_life_bytes };

    ghost typed = { IsTypedLife };

    fn take<'a>(
        _alloc: Global,
        _layout: Layout,
        before: Option<&Self>,
        bytes: &'a [u8],
    ) -> Result<(Self, &'a [u8]), RecordRefusal> {
        let (node, rest) = take_node_after(before.map(|seen| seen.node.0 as u64), bytes)?;
        let (life, rest) = take_positive(rest)?;
        Ok((
            NodeLife {
                node,
                life: Life(life),
            },
            rest,
        ))
    }

    fn put(&self, out: &mut Vec<u8>) -> Result<(), AllocError> {
        out.extend_from_slice(&self.node.0.to_be_bytes())?;
        out.extend_from_slice(&self.life.0.to_be_bytes())?;
        Ok(())
    }
}

impl Entry for Slot {
    ghost reads = { retired_at };

    ghost spells = { slot_bytes };

    ghost typed = { IsTypedSlot };

    fn take<'a>(
        alloc: Global,
        layout: Layout,
        before: Option<&Self>,
        bytes: &'a [u8],
    ) -> Result<(Self, &'a [u8]), RecordRefusal> {
        take_slot_after(alloc, layout, before, bytes)
    }

    fn put(&self, out: &mut Vec<u8>) -> Result<(), AllocError> {
        put_slot(out, self)
    }
}

/// A slot of a lease, and whether it may be written.
#[tactic(auto, unfolding(crate::specs::Entries::leased_at, crate::specs::EntrySpelling::leased_bytes))]
impl Entry for (Slot, bool) {
    ghost reads = { leased_at };

    ghost spells = { leased_bytes };

    ghost typed = { IsTypedLeased };

    fn take<'a>(
        alloc: Global,
        layout: Layout,
        before: Option<&Self>,
        bytes: &'a [u8],
    ) -> Result<(Self, &'a [u8]), RecordRefusal> {
        let before = before.map(|held| &held.0);
        let (slot, rest) = match take_slot_after(alloc, layout, before, bytes) {
            Ok(read) => read,
            Err(refusal) => return Err(refusal),
        };
        let (writable, rest) = take_flag(rest)?;
        Ok(((slot, writable), rest))
    }

    fn put(&self, out: &mut Vec<u8>) -> Result<(), AllocError> {
        put_slot(out, &self.0)?;
        put_flag(out, self.1)
    }
}

/// Whether a lease is a tenure, where the layout says so.
#[tactic(auto, unfolding(crate::specs::Entries::tenure_at))]
fn take_tenure(layout: Layout, bytes: &[u8]) -> Result<(bool, &[u8]), RecordRefusal>
    ensures { Gives (λ x. (x.0, x.1.now)) result (tenure_at layout bytes.now) }
{
    if layout.has_shared() {
        take_flag(bytes)
    } else {
        Ok((false, bytes))
    }
}

#[tactic(auto, unfolding(crate::specs::EntrySpelling::holder_bytes))]
fn put_holder(out: &mut Vec<u8>, lease: &Lease) -> Result<(), AllocError>
    ensures spelled { OnOk result (out.new.items ≡ out.old.items ++ holder_bytes lease.now) }
    ensures ticket { lease.now.ticket.0 < 2 ^ 64 }
    ensures life { lease.now.life.0 < 2 ^ 64 }
    ensures ask { lease.now.ask.0 < 2 ^ 64 }
{
    let (ticket, life, ask) = (lease.ticket.0, lease.life.0, lease.ask.0);
    out.extend_from_slice(&ticket.to_be_bytes())?;
    out.extend_from_slice(&lease.node.0.to_be_bytes())?;
    out.extend_from_slice(&life.to_be_bytes())?;
    out.extend_from_slice(&ask.to_be_bytes())?;
    Ok(())
}

#[tactic(auto, unfolding(crate::specs::Entries::lease_at, crate::specs::EntrySpelling::lease_bytes))]
impl Entry for Lease {
    ghost reads = { lease_at };

    ghost spells = { lease_bytes };

    ghost typed = { IsTypedLease };

    fn take<'a>(
        alloc: Global,
        layout: Layout,
        before: Option<&Self>,
        bytes: &'a [u8],
    ) -> Result<(Self, &'a [u8]), RecordRefusal> {
        let (ticket, rest) = take_ticket_after(before.map(|lease| lease.ticket.0), bytes)?;
        let (node, rest) = take_node(rest)?;
        let (life, rest) = take_positive(rest)?;
        let (ask, rest) = take_positive(rest)?;
        let (shared, rest) = take_flag(rest)?;
        let (tenure, rest) = take_tenure(layout, rest)?;
        let (slots, rest) = take_counted(alloc, layout, 0, SLOTS, rest)?;
        let lease = Lease {
            ticket,
            node,
            life: Life(life),
            ask: Ask(ask),
            shared,
            tenure,
            slots,
        };
        Ok((lease, rest))
    }

    fn put(&self, out: &mut Vec<u8>) -> Result<(), AllocError> {
        put_holder(out, self)?;
        put_flag(out, self.shared)?;
        put_flag(out, self.tenure)?;
        put_counted(out, self.slots.as_slice())
    }
}

#[tactic(auto, unfolding(crate::specs::Entries::version_at, crate::specs::EntrySpelling::version_bytes))]
impl Entry for LineVersion {
    ghost reads = { version_at };

    ghost spells = { version_bytes };

    ghost typed = { IsTypedVersion };

    fn take<'a>(
        _alloc: Global,
        _layout: Layout,
        before: Option<&Self>,
        bytes: &'a [u8],
    ) -> Result<(Self, &'a [u8]), RecordRefusal> {
        let (ticket, rest) = take_ticket_after(before.map(|version| version.ticket.0), bytes)?;
        let (digest, rest) = take_digest(rest)?;
        Ok((LineVersion { ticket, digest }, rest))
    }

    fn put(&self, out: &mut Vec<u8>) -> Result<(), AllocError> {
        out.extend_from_slice(&self.ticket.0.to_be_bytes())?;
        out.extend_from_slice(self.digest.bytes())?;
        Ok(())
    }
}

#[tactic(auto, unfolding(crate::specs::Entries::line_at, crate::specs::EntrySpelling::line_bytes))]
impl Entry for SlotLine {
    ghost reads = { line_at };

    ghost spells = { line_bytes };

    ghost typed = { IsTypedLine };

    fn take<'a>(
        alloc: Global,
        layout: Layout,
        before: Option<&Self>,
        bytes: &'a [u8],
    ) -> Result<(Self, &'a [u8]), RecordRefusal> {
        let before = before.map(|line| &line.slot);
        let (slot, rest) = match take_slot_after(alloc, layout, before, bytes) {
            Ok(read) => read,
            Err(refusal) => return Err(refusal),
        };
        let (versions, rest) = take_counted(alloc, layout, 1, u64::MAX, rest)?;
        let line = Line::of(versions.into_vec());
        Ok((SlotLine { slot, line }, rest))
    }

    fn put(&self, out: &mut Vec<u8>) -> Result<(), AllocError> {
        put_slot(out, &self.slot)?;
        put_counted(out, self.line.versions())
    }
}
