//! Reading what is kept: a whole record, and what each entry after it changes.
ghost use Rattle.std.specs.Prelude.{◌≡◌, ◌≤◌, ◌⊎◌, All, AllPairs, IfOk, IfErr, Ok, Err};
ghost use Rattle.std.specs.List.{list_all};
ghost use Rattle.holdings.specs.Leases.{IsBefore};
ghost use Rattle.holdings.specs.Leases.{among};
ghost use Rattle.holdings.specs.Lives.{is_among, life_at};
ghost use Rattle.saverecord.specs.Ledgers.{IsKept, blank, ledger_of, record_in};
ghost use Rattle.saverecord.specs.LogEntries.{IsLogEntry};
ghost use Rattle.saverecord.specs.Logs.{with_version, with_versions, without_one, without_all, are_newer, with_leases, with_lives, with_gone, with_retired, is_coherent, may_follow, with_entry, after_text, ledger_in, folded_ledger, IsReadable};
ghost use Rattle.recordparts.specs.Parts.{Gives};
ghost use Rattle.saverecord.specs.Texts.{whole_alone};
ghost use Rattle.versions.specs.Lines.{line_at};

use super::folded::Folded;
use super::laws::{what_is_kept_is_a_record, what_is_read_is_lawful};
use super::log::Log;
use super::log_entry::LogEntry;
use super::record::Record;
use farm_base::{Items, Lease, NodeId, NodeLife, Slot, Ticket};
use holdings::{Lives, RetiredNodes, is_saved, place_of};
use recordlists::{are_of_own_folders, are_private, fits_tenure, lines_up_to};
use recordparts::{Flaw, RecordRefusal};
use std::alloc::{AllocError, Global};
use versions::{Lines, SlotLine};

/// The lines with what an entry has of one slot.
fn with_version(mut lines: Lines, more: SlotLine) -> Result<Lines, RecordRefusal>
    ensures { Gives line_at result (with_version more.slot more.line (line_at lines)) }
{
    let [version] = more.line.versions() else {
        return Err(RecordRefusal::NotCanonical(Flaw::Relation));
    };
    let version = *version;
    if !lines.is_above(version.ticket, &more.slot) {
        return Err(RecordRefusal::NotCanonical(Flaw::Relation));
    }
    lines.push(more, version)?;
    Ok(lines)
}

/// The lines with what an entry has.
fn with_versions(mut lines: Lines, more: Vec<SlotLine>) -> Result<Lines, RecordRefusal>
    ensures { Gives line_at result (with_versions more.items (line_at lines)) }
{
    for line in more {
        lines = with_version(lines, line)?;
    }
    Ok(lines)
}

/// The leases without that of a ticket, which has to be among them.
fn without_one(mut leases: Vec<Lease>, ticket: Ticket) -> Result<Vec<Lease>, RecordRefusal>
    requires { AllPairs IsBefore leases.items }
    ensures exact { Gives (λ v. v.items) result (without_one ticket leases.items) }
    ensures rise { IfOk result (λ v. AllPairs IsBefore v.items) }
{
    match place_of(leases.as_slice(), ticket) {
        None => Err(RecordRefusal::NotCanonical(Flaw::Relation)),
        Some(place) => {
            leases.remove(place);
            Ok(leases)
        }
    }
}

/// The leases without those that ended.
fn without_all(mut leases: Vec<Lease>, ended: &[Ticket]) -> Result<Vec<Lease>, RecordRefusal>
    requires { AllPairs IsBefore leases.items }
    ensures { Gives (λ v. v.items) result (without_all ended.now leases.items) }
{
    for ticket in ended {
        leases = without_one(leases, *ticket)?;
    }
    Ok(leases)
}

/// Whether the tickets of these leases are above those that are there.
fn are_newer(leases: &[Lease], more: &[Lease]) -> bool
    ensures { result ≡ are_newer leases.now more.now }
{
    let last = match leases.last() {
        None => 0,
        Some(lease) => lease.ticket.0,
    };
    more.iter().all(|lease| last < lease.ticket.0)
}

/// The leases without those that ended, and behind them those that were granted.
fn with_leases(
    leases: Vec<Lease>,
    ended: &[Ticket],
    mut granted: Vec<Lease>,
) -> Result<Vec<Lease>, RecordRefusal>
    requires { AllPairs IsBefore leases.items }
    ensures { Gives (λ v. v.items) result (with_leases ended.now granted.items leases.items) }
{
    let mut leases = without_all(leases, ended)?;
    if !are_newer(leases.as_slice(), granted.as_slice()) {
        return Err(RecordRefusal::NotCanonical(Flaw::Relation));
    }
    leases.append(&mut granted)?;
    Ok(leases)
}

/// The lives with those that began.
fn with_lives(mut lives: Lives, began: &[NodeLife]) -> Result<Lives, AllocError>
    requires { All (λ x. 1 ≤ x.life.0) began.now }
    ensures { IfOk result (λ after. life_at after.seen ≡ with_lives began.now (life_at lives.seen)) }
{
    for seen in began {
        lives.reserve(1)?;
        lives.set(seen.node, seen.life);
    }
    Ok(lives)
}

/// The retired nodes with more of them.
fn with_gone(mut nodes: RetiredNodes, more: &[NodeId]) -> Result<RetiredNodes, AllocError>
    ensures { IfOk result (λ after. is_among after.retired ≡ with_gone more.now (is_among nodes.retired)) }
{
    for node in more {
        nodes.reserve(1)?;
        nodes.insert(*node);
    }
    Ok(nodes)
}

/// The retired slots with more of them.
fn with_retired(mut slots: Vec<Slot>, mut more: Vec<Slot>) -> Result<Vec<Slot>, AllocError>
    ensures { IfOk result (λ after. among after.items ≡ with_retired more.items (among slots.items)) }
{
    slots.append(&mut more)?;
    Ok(slots)
}

/// Whether a lease is one that is saved, no two of its slots are of one PRIVATE folder, and it is a tenure or has no
/// SHARED slot.
fn is_coherent(lease: &Lease) -> bool
    ensures { result ≡ is_coherent lease.now }
{
    is_saved(lease) && are_of_own_folders(lease.slots.as_slice()) && fits_tenure(lease)
}

fn are_coherent(leases: &[Lease]) -> bool
    ensures { result ≡ list_all is_coherent leases.now }
{
    leases.iter().all(|lease| is_coherent(lease))
}

/// Whether an entry may follow one with this last ticket, for all that it says by itself.
fn may_follow(last: Ticket, entry: &LogEntry) -> bool
    ensures { result ≡ may_follow last.0 entry.now }
{
    last.0 <= entry.last.0
        && lines_up_to(entry.last.0, entry.lines.as_slice())
        && are_private(entry.retired.as_slice())
        && are_coherent(entry.leases.as_slice())
}

/// What the texts hold with an entry.
fn with_entry(before: Folded, entry: LogEntry) -> Result<Folded, RecordRefusal>
    requires before { IsReadable (folded_ledger before) }
    requires entry { IsLogEntry entry }
    ensures { Gives folded_ledger result (with_entry entry (folded_ledger before)) }
{
    if !may_follow(before.last, &entry) {
        return Err(RecordRefusal::NotCanonical(Flaw::Relation));
    }
    let LogEntry {
        last,
        old_home,
        lives,
        retired_nodes,
        ended,
        leases,
        retired,
        lines,
    } = entry;
    let lines = with_versions(before.lines, lines.into_vec())?;
    let leases = with_leases(before.leases, ended.as_slice(), leases.into_vec())?;
    let lives = with_lives(before.lives, lives.as_slice())?;
    let retired_nodes = with_gone(before.retired_nodes, retired_nodes.as_slice())?;
    let retired = with_retired(before.retired, retired.into_vec())?;
    Ok(Folded {
        last,
        old_home,
        lives,
        retired_nodes,
        leases,
        retired,
        lines,
    })
}

/// The record of a farm where nothing happened.
fn blank(alloc: Global) -> Record
    ensures { result ≡ blank }
{
    Record {
        last: Ticket(0),
        old_home: None,
        lives: Items::new(Vec::new(alloc)),
        retired_nodes: Items::new(Vec::new(alloc)),
        leases: Items::new(Vec::new(alloc)),
        retired: Items::new(Vec::new(alloc)),
        lines: Items::new(Vec::new(alloc)),
    }
}

/// The whole record that bytes hold: none was saved yet where there are no bytes.
fn record_in(alloc: Global, bytes: &[u8]) -> Result<Record, RecordRefusal>
    ensures exact { Gives (λ r. r) result (record_in bytes.now) }
    ensures kept { IfOk result IsKept }
{
    what_is_read_is_lawful();
    if bytes.is_empty() {
        return Ok(blank(alloc));
    }
    Record::read(alloc, bytes)
}

/// What the texts hold with an entry of these bytes.
fn with_text(alloc: Global, before: Folded, text: &[u8]) -> Result<Folded, RecordRefusal>
    requires { IsReadable (folded_ledger before) }
    ensures exact { Gives folded_ledger result (after_text text.now (folded_ledger before)) }
    ensures readable { IfOk result (λ after. IsReadable (folded_ledger after)) }
{
    let entry = LogEntry::read(alloc, text)?;
    with_entry(before, entry)
}

impl Log {
    /// The whole record that these texts hold: that of the whole text, with what each entry changed. Where nothing was
    /// saved yet it is that of a farm where nothing happened.
    pub fn read(&self, alloc: Global) -> Result<Record, RecordRefusal>
        ensures exact { Gives ledger_of result (ledger_in self.now) }
        ensures kept { IfOk result IsKept }
    {
        let mut folded = Folded::of(record_in(alloc, self.whole())?);
        for text in self.entries() {
            folded = with_text(alloc, folded, text.as_slice())?;
        }
        folded.into_record(alloc)
    }

    /// The whole record that holds the same as these texts, as `Record::write` writes it.
    pub fn fold(&self, alloc: Global) -> Result<Vec<u8>, RecordRefusal>
        ensures same { IfOk result (λ bytes. ledger_in (whole_alone bytes.items) ≡ ledger_in self.now) }
        ensures refused { IfErr result (λ e. (e ≡ RecordRefusal.OutOfMemory) ⊎ (ledger_in self.now ≡ Err e)) }
    {
        what_is_kept_is_a_record();
        let record = self.read(alloc)?;
        let bytes = record.write(alloc)?;
        Ok(bytes)
    }
}
