//! An entry of a log, and its bytes.
ghost use Rattle.std.specs.Prelude.{◌≡◌, ◌<◌, ◌^◌, ◌++◌, OnOk, IfOk, Ok};
ghost use Rattle.recordparts.specs.Fits.{IsTypedSlot};
ghost use Rattle.recordlists.specs.EntryFits.{IsTypedList, IsTypedTicket, IsTypedNode, IsTypedLife, IsTypedLease, IsTypedLine};
ghost use Rattle.saverecord.specs.LogEntries.{IsLogEntry, IsTypedLogEntry, place_bytes, nodes_bytes, leases_bytes, slots_bytes, entry_bytes, parts_at, whole_parts, entry_layout, entry_of};
ghost use Rattle.recordparts.specs.Parts.{Gives};
ghost use Rattle.saverecord.specs.Records.{opened_by};

use super::reading::signed;
use farm_base::{Items, Lease, NodeId, NodeLife, Slot, Ticket};
use recordlists::{put_counted, take_list};
use recordparts::{Flaw, Layout, RecordRefusal, put_home, take_home, take_u64};
use sha2::Sha256;
use std::alloc::{AllocError, Global};
use versions::SlotLine;

/// The bytes with which an entry begins.
const MAGIC: &[u8; 8] = b"BKENTR01";

/// What one event changed of what is saved.
#[derive(Drop)]
pub struct LogEntry {
    /// The last ticket of the block that may be in use after the event.
    pub last: Ticket,
    /// The old home after the event.
    pub old_home: Option<NodeId>,
    /// The lives that began, by rising node.
    pub lives: Items<NodeLife>,
    /// The nodes that were retired, rising.
    pub retired_nodes: Items<NodeId>,
    /// The tickets of the saved leases that ended, rising.
    pub ended: Items<Ticket>,
    /// The saved leases that were granted, by rising ticket.
    pub leases: Items<Lease>,
    /// The PRIVATE slots that are never granted again from now on, rising.
    pub retired: Items<Slot>,
    /// The one version that a slot's line got, for each slot that got one, by rising slot.
    pub lines: Items<SlotLine>,
}

#[tactic(auto, unfolding(crate::specs::LogEntries::place_bytes))]
fn put_place(out: &mut Vec<u8>, entry: &LogEntry) -> Result<(), AllocError>
    ensures spelled { OnOk result (out.new.items ≡ out.old.items ++ place_bytes entry.now) }
    ensures last { entry.now.last.0 < 2 ^ 64 }
{
    let last = entry.last.0;
    out.extend_from_slice(&last.to_be_bytes())?;
    put_home(out, entry.old_home)
}

#[tactic(auto, unfolding(crate::specs::LogEntries::nodes_bytes))]
fn put_nodes(out: &mut Vec<u8>, entry: &LogEntry) -> Result<(), AllocError>
    ensures spelled { OnOk result (out.new.items ≡ out.old.items ++ nodes_bytes entry.now) }
    ensures lives { OnOk result (IsTypedList IsTypedLife entry.now.lives) }
    ensures nodes { OnOk result (IsTypedList IsTypedNode entry.now.retired_nodes) }
{
    put_counted(out, entry.lives.as_slice())?;
    put_counted(out, entry.retired_nodes.as_slice())
}

#[tactic(auto, unfolding(crate::specs::LogEntries::leases_bytes))]
fn put_leases(out: &mut Vec<u8>, entry: &LogEntry) -> Result<(), AllocError>
    ensures spelled { OnOk result (out.new.items ≡ out.old.items ++ leases_bytes entry.now) }
    ensures ended { OnOk result (IsTypedList IsTypedTicket entry.now.ended) }
    ensures leases { OnOk result (IsTypedList IsTypedLease entry.now.leases) }
{
    put_counted(out, entry.ended.as_slice())?;
    put_counted(out, entry.leases.as_slice())
}

#[tactic(auto, unfolding(crate::specs::LogEntries::slots_bytes))]
fn put_slots(out: &mut Vec<u8>, entry: &LogEntry) -> Result<(), AllocError>
    ensures spelled { OnOk result (out.new.items ≡ out.old.items ++ slots_bytes entry.now) }
    ensures retired { OnOk result (IsTypedList IsTypedSlot entry.now.retired) }
    ensures lines { OnOk result (IsTypedList IsTypedLine entry.now.lines) }
{
    put_counted(out, entry.retired.as_slice())?;
    put_counted(out, entry.lines.as_slice())
}

/// The text of an entry.
fn spelled(alloc: Global, entry: &LogEntry) -> Result<Vec<u8>, AllocError>
    ensures spelled { IfOk result (λ v. v.items ≡ entry_bytes entry.now) }
    ensures typed { OnOk result (IsTypedLogEntry entry.now) }
{
    let mut out = Vec::new(alloc);
    out.extend_from_slice(MAGIC)?;
    put_place(&mut out, entry)?;
    put_nodes(&mut out, entry)?;
    put_leases(&mut out, entry)?;
    put_slots(&mut out, entry)?;
    let digest: [u8; 32] = <Sha256 as sha2::Digest>::digest(out.as_slice());
    out.extend_from_slice(&digest)?;
    Ok(out)
}

#[tactic(auto, unfolding(crate::specs::LogEntries::parts_at))]
fn take_parts(alloc: Global, bytes: &[u8]) -> Result<(LogEntry, &[u8]), RecordRefusal>
    ensures { Gives (λ x. (x.0, x.1.now)) result (parts_at bytes.now) }
{
    let (last, rest) = take_u64(bytes, 0, u64::MAX)?;
    let (old_home, rest) = take_home(rest)?;
    let (lives, rest) = take_list(alloc, Layout::Third, rest)?;
    let (retired_nodes, rest) = take_list(alloc, Layout::Third, rest)?;
    let (ended, rest) = take_list(alloc, Layout::Third, rest)?;
    let (leases, rest) = take_list(alloc, Layout::Third, rest)?;
    let (retired, rest) = take_list(alloc, Layout::Third, rest)?;
    let (lines, rest) = take_list(alloc, Layout::Third, rest)?;
    let entry = LogEntry {
        last: Ticket(last),
        old_home,
        lives,
        retired_nodes,
        ended,
        leases,
        retired,
        lines,
    };
    Ok((entry, rest))
}

/// The parts of an entry that fill all the bytes.
#[tactic(auto, unfolding(crate::specs::LogEntries::whole_parts))]
fn whole_parts(alloc: Global, bytes: &[u8]) -> Result<LogEntry, RecordRefusal>
    ensures { Gives (λ e. e) result (whole_parts bytes.now) }
{
    let (entry, rest) = take_parts(alloc, bytes)?;
    if !rest.is_empty() {
        return Err(RecordRefusal::NotCanonical(Flaw::Trailing));
    }
    Ok(entry)
}

/// The layout of an entry's lists, if this is its magic.
#[tactic(auto, unfolding(crate::specs::LogEntries::entry_layout))]
fn entry_layout(magic: &[u8]) -> Result<Layout, RecordRefusal>
    ensures { result ≡ entry_layout magic.now }
{
    if magic == MAGIC.as_slice() {
        Ok(Layout::Third)
    } else {
        Err(RecordRefusal::BadMagic)
    }
}

/// The bytes between magic and digest.
#[tactic(auto, unfolding(crate::specs::Records::opened_by))]
fn open(bytes: &[u8]) -> Result<(Layout, &[u8]), RecordRefusal>
    ensures { Gives (λ x. (x.0, x.1.now)) result (opened_by entry_layout bytes.now) }
{
    if bytes.len() < 40 {
        return Err(RecordRefusal::Truncated);
    }
    let layout = entry_layout(&bytes[..8])?;
    let body = signed(bytes)?;
    Ok((layout, body))
}

/// The entry that the bytes spell, or their first fault.
#[tactic(auto, unfolding(crate::specs::LogEntries::entry_of))]
fn entry_of(alloc: Global, bytes: &[u8]) -> Result<LogEntry, RecordRefusal>
    ensures { Gives (λ e. e) result (entry_of bytes.now) }
{
    let (_, parts) = open(bytes)?;
    whole_parts(alloc, parts)
}

impl LogEntry {
    /// Reads an entry.
    pub fn read(alloc: Global, bytes: &[u8]) -> Result<Self, RecordRefusal>
        // The first fault from the left decides.
        ensures exact { Gives (λ e. e) result (entry_of bytes.now) }
        // What is read can be written.
        ensures fits { IfOk result IsLogEntry }
        // Only bytes that `write` gives are read.
        ensures found { IfOk result (λ e. bytes.now ≡ entry_bytes e) }
    {
        entry_of(alloc, bytes)
    }

    /// The one text of an entry.
    pub fn write(&self, alloc: Global) -> Result<Vec<u8>, AllocError>
        requires { IsLogEntry self.now }
        ensures spelled { IfOk result (λ v. v.items ≡ entry_bytes self.now) }
        // Reading it gives the entry back.
        ensures again { IfOk result (λ v. entry_of v.items ≡ Ok self.now) }
    {
        spelled(alloc, self)
    }
}
