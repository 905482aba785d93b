//! What `record` answers for a record.
ghost use Rattle.std.specs.Prelude.{◌≡◌, ◌≢◌, ◌++◌, [], None, IfOk, IfErr, OnOk};
ghost use Rattle.std.specs.String.{string_bytes};
ghost use Rattle.answers.specs.Records.{home_line, life_line, gone_line, word_if, leased_text, holder_text, lease_line, retired_line, versions_line, record_text, IsRecordText, IsNoRecord, HoldsBoth, refusal_in, IsFirstFault, HoldNothing};
ghost use Rattle.filekeeper.specs.Framing.{AreTextsOf};
ghost use Rattle.saverecord.specs.Texts.{Texts, with_text};

use super::failure::Failure;
use super::printing::{Printed, push_access, push_each};
use farm_base::{Lease, NodeId, NodeLife, Slot};
use filekeeper::laws::what_is_held_is_given;
use filekeeper::{LogFault, texts_in};
use saverecord::laws::what_is_kept_is_a_record;
use saverecord::{Log, Record, RecordRefusal};
use schedule::print_line;
use std::alloc::{AllocError, Global};
use versions::SlotLine;

/// The greatest life seen of a node.
impl Printed for NodeLife {
    ghost prints = { life_line };

    fn push(&self, _alloc: Global, text: &mut String) -> Result<(), AllocError> {
        let node = self.node.0;
        let life = self.life.0;
        write!(text, "life {node} {life}\n")
    }
}

/// A node that is gone for good.
impl Printed for NodeId {
    ghost prints = { gone_line };

    fn push(&self, _alloc: Global, text: &mut String) -> Result<(), AllocError> {
        let node = self.0;
        write!(text, "gone {node}\n")
    }
}

/// A slot of a lease, and whether it may be written.
impl Printed for (Slot, bool) {
    ghost prints = { leased_text };

    fn push(&self, alloc: Global, text: &mut String) -> Result<(), AllocError> {
        let slot = self.0.to_text(alloc)?;
        text.push(' ')?;
        push_access(text, self.1)?;
        text.push_str(slot.as_str())
    }
}

/// Adds a word, where it holds.
fn push_if(text: &mut String, holds: bool, word: &str) -> Result<(), AllocError>
    ensures { OnOk result (string_bytes text.new ≡ string_bytes text.old ++ word_if holds word.now) }
{
    if holds {
        text.push_str(word)?;
    }
    Ok(())
}

/// Adds who holds a lease: its ticket, node, life and ask.
fn push_holder(text: &mut String, lease: &Lease) -> Result<(), AllocError>
    ensures { OnOk result (string_bytes text.new ≡ string_bytes text.old ++ holder_text lease.now) }
{
    let (ticket, node, life, ask) = (lease.ticket.0, lease.node.0, lease.life.0, lease.ask.0);
    write!(text, "lease {ticket} {node} {life} {ask}")
}

impl Printed for Lease {
    ghost prints = { lease_line };

    fn push(&self, alloc: Global, text: &mut String) -> Result<(), AllocError> {
        push_holder(text, self)?;
        push_if(text, self.shared, " shared")?;
        push_if(text, self.tenure, " tenure")?;
        push_each(alloc, text, self.slots.as_slice())?;
        text.push('\n')
    }
}

/// A slot that is never granted again.
impl Printed for Slot {
    ghost prints = { retired_line };

    fn push(&self, alloc: Global, text: &mut String) -> Result<(), AllocError> {
        let slot = self.to_text(alloc)?;
        text.push_str("retired ")?;
        text.push_str(slot.as_str())?;
        text.push('\n')
    }
}

impl Printed for SlotLine {
    ghost prints = { versions_line };

    fn push(&self, alloc: Global, text: &mut String) -> Result<(), AllocError> {
        let line = print_line(alloc, &self.slot, &self.line)?;
        text.push_str(line.as_str())
    }
}

/// Adds the line of the old home.
fn push_home(text: &mut String, home: Option<NodeId>) -> Result<(), AllocError>
    ensures { OnOk result (string_bytes text.new ≡ string_bytes text.old ++ home_line home) }
{
    let Some(home) = home else {
        return Ok(());
    };
    let node = home.0;
    write!(text, "home {node}\n")
}

/// A line for each part of a record.
fn record_text(alloc: Global, kept: &Record) -> Result<String, AllocError>
    ensures { IfOk result (λ text. string_bytes text ≡ record_text kept.now) }
{
    let last = kept.last.0;
    let mut text = format!(in alloc; "last {last}\n")?;
    push_home(&mut text, kept.old_home)?;
    push_each(alloc, &mut text, kept.lives.as_slice())?;
    push_each(alloc, &mut text, kept.retired_nodes.as_slice())?;
    push_each(alloc, &mut text, kept.leases.as_slice())?;
    push_each(alloc, &mut text, kept.retired.as_slice())?;
    push_each(alloc, &mut text, kept.lines.as_slice())?;
    Ok(text)
}

/// The lines of the record that the bytes spell.
pub(crate) fn recorded(alloc: Global, bytes: &[u8]) -> Result<String, Failure>
    ensures printed { IfOk result (λ text. IsRecordText bytes.now (string_bytes text)) }
    ensures refused { IfErr result (IsNoRecord bytes.now) }
{
    let record = match Record::read(alloc, bytes) {
        Err(RecordRefusal::OutOfMemory) => return Err(Failure::Memory),
        Err(refusal) => return Err(Failure::Record(refusal)),
        Ok(record) => record,
    };
    Ok(record_text(alloc, &record)?)
}

/// Why a log holds nothing, if it does.
fn refusal_of(alloc: Global, log: &Log) -> Result<Option<RecordRefusal>, AllocError>
    ensures { IfOk result (λ refusal. refusal ≡ refusal_in log.now) }
{
    match log.read(alloc) {
        Ok(_) => Ok(None),
        Err(RecordRefusal::OutOfMemory) => Err(AllocError),
        Err(refusal) => Ok(Some(refusal)),
    }
}

/// Adds a copy of an entry.
fn push_copy(alloc: Global, log: &mut Log, entry: &[u8]) -> Result<(), AllocError>
    ensures { OnOk result (log.new ≡ with_text entry.now log.old) }
{
    let entry = Vec::from_slice(alloc, entry)?;
    log.push(entry)
}

/// Why texts hold nothing: the first entry with which they do, where those before it hold something.
fn first_fault(alloc: Global, log: &Log) -> Result<Failure, AllocError>
    requires { refusal_in log.now ≢ None }
    ensures { IfOk result (IsFirstFault log.now) }
{
    let mut part = Log::of(alloc, Vec::from_slice(alloc, log.whole())?);
    if let Some(refusal) = refusal_of(alloc, &part)? {
        return Ok(Failure::Record(refusal));
    }
    for (before, entry) in log.entries().iter().enumerate() {
        push_copy(alloc, &mut part, entry.as_slice())?;
        if let Some(refusal) = refusal_of(alloc, &part)? {
            return Ok(Failure::Entry(before + 1, refusal));
        }
    }
    unreachable!()
}

/// One whole record of what a record's file and the log's file beside it hold. Where no entry follows the record, it is the record's
/// file as it is.
pub fn whole_of(alloc: Global, whole: Vec<u8>, tail: &[u8]) -> Result<Vec<u8>, Failure>
    ensures kept { IfOk result (λ bytes. HoldsBoth whole.items tail.now bytes.items) }
    ensures alone { (texts : Texts) → AreTextsOf whole.items tail.now texts → texts.entries ≡ [] → IfOk result (λ bytes. bytes.items ≡ whole.items) }
    ensures refused { IfErr result (HoldNothing whole.items tail.now) }
{
    what_is_held_is_given();
    what_is_kept_is_a_record();
    let log = match texts_in(alloc, whole, tail) {
        Ok(log) => log,
        Err(LogFault::BadHead(place)) => return Err(Failure::BadHead(place)),
        Err(LogFault::OutOfMemory) => return Err(Failure::Memory),
    };
    if log.entries().is_empty() {
        return Ok(Vec::from_slice(alloc, log.whole())?);
    }
    match log.read(alloc) {
        Ok(record) => Ok(record.write(alloc)?),
        Err(RecordRefusal::OutOfMemory) => Err(Failure::Memory),
        Err(_) => Err(first_fault(alloc, &log)?),
    }
}
