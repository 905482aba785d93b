//! Why a file has no answer.
ghost use Rattle.std.specs.Prelude.{◌≡◌, IfOk};
ghost use Rattle.std.specs.String.{string_bytes};
ghost use Rattle.answers.specs.Failures.{wire_name, read_text, load_text, schedule_text, flaw_name, saved_text, entry_text, failure_line};
ghost use Rattle.vertices.specs.declared.refusal.LoadRefusal.TheVariants as load;
ghost use Rattle.answers.specs.declared.failure.Failure.TheVariants as failure;

use opsproto::OpRefusal;
use protowire::WireRefusal;
use saverecord::{Flaw, RecordRefusal};
use schedule::ScheduleRefusal;
use std::alloc::{AllocError, Global};
use vertices::LoadRefusal;

/// Why there is no answer for a file.
#[derive(Clone, Copy)]
pub enum Failure {
    /// Its bytes are not a definition.
    Read(OpRefusal),
    /// Its definition is not a graph.
    Load(LoadRefusal),
    /// Its bytes are not a schedule.
    Schedule(ScheduleRefusal),
    /// Its bytes are not a record.
    Record(RecordRefusal),
    /// This entry of the log beside it, from 1, is none, or doesn't fit what stands before it.
    Entry(usize, RecordRefusal),
    /// What stands before this entry of the log was damaged.
    BadHead(usize),
    Memory,
}

impl From<AllocError> for Failure {
    ghost from_gives = { λ _ e. e ≡ failure.Memory };

    fn from(_error: AllocError) -> Failure {
        Failure::Memory
    }
}

/// The name of a fault of the wire form.
fn wire_name(refusal: WireRefusal) -> &'static str
    ensures { result.now ≡ wire_name refusal }
{
    match refusal {
        WireRefusal::Truncated => "Truncated",
        WireRefusal::VarintTooLong => "VarintTooLong",
        WireRefusal::BadWireType => "BadWireType",
        WireRefusal::BadFieldNumber => "BadFieldNumber",
        WireRefusal::OutOfMemory => "OutOfMemory",
    }
}

fn read_text(alloc: Global, refusal: OpRefusal) -> Result<String, AllocError>
    ensures { IfOk result (λ text. string_bytes text ≡ read_text refusal) }
{
    match refusal {
        OpRefusal::Wire(wire) => String::from_str(alloc, wire_name(wire)),
        OpRefusal::NotUtf8(number) => format!(in alloc; "NotUtf8 {number}"),
        OpRefusal::TooLarge => String::from_str(alloc, "TooLarge"),
        OpRefusal::OutOfMemory => String::from_str(alloc, "OutOfMemory"),
    }
}

fn sharing_text(alloc: Global, place: usize, value: i32) -> Result<String, AllocError>
    ensures { IfOk result (λ text. string_bytes text ≡ load_text (load.UnknownSharing place value)) }
{
    let mut text = format!(in alloc; "UnknownSharing {place} ")?;
    let value = value.to_string(alloc)?;
    text.push_str(value.as_str())?;
    Ok(text)
}

fn load_text(alloc: Global, refusal: LoadRefusal) -> Result<String, AllocError>
    ensures { IfOk result (λ text. string_bytes text ≡ load_text refusal) }
{
    match refusal {
        LoadRefusal::EmptyDefinition => String::from_str(alloc, "EmptyDefinition"),
        LoadRefusal::BadOp(place) => format!(in alloc; "BadOp {place}"),
        LoadRefusal::NoResult => String::from_str(alloc, "NoResult"),
        LoadRefusal::BadInputDigest(place) => format!(in alloc; "BadInputDigest {place}"),
        LoadRefusal::MissingInput(place) => format!(in alloc; "MissingInput {place}"),
        LoadRefusal::NegativeIndex(place) => format!(in alloc; "NegativeIndex {place}"),
        LoadRefusal::NoOp(place) => format!(in alloc; "NoOp {place}"),
        LoadRefusal::NoMeta(place) => format!(in alloc; "NoMeta {place}"),
        LoadRefusal::NoArgs(place) => format!(in alloc; "NoArgs {place}"),
        LoadRefusal::NoMounts(place) => format!(in alloc; "NoMounts {place}"),
        LoadRefusal::NoRoot(place) => format!(in alloc; "NoRoot {place}"),
        LoadRefusal::BadMountInput(place) => format!(in alloc; "BadMountInput {place}"),
        LoadRefusal::NoCacheOpt(place) => format!(in alloc; "NoCacheOpt {place}"),
        LoadRefusal::UnknownSharing(place, value) => sharing_text(alloc, place, value),
        LoadRefusal::TooManyCacheMounts(place) => format!(in alloc; "TooManyCacheMounts {place}"),
        LoadRefusal::Cycle => String::from_str(alloc, "Cycle"),
        LoadRefusal::OutOfMemory => String::from_str(alloc, "OutOfMemory"),
    }
}

fn schedule_text(alloc: Global, refusal: ScheduleRefusal) -> Result<String, AllocError>
    ensures { IfOk result (λ text. string_bytes text ≡ schedule_text refusal) }
{
    match refusal {
        ScheduleRefusal::BadLine(number) => format!(in alloc; "BadLine {number}"),
        ScheduleRefusal::TooManyEvents => String::from_str(alloc, "TooManyEvents"),
        ScheduleRefusal::OutOfMemory => String::from_str(alloc, "OutOfMemory"),
        ScheduleRefusal::TooLarge => String::from_str(alloc, "TooLarge"),
    }
}

/// What is wrong with bytes that are not the one text of a record.
fn flaw_name(flaw: Flaw) -> &'static str
    ensures { result.now ≡ flaw_name flaw }
{
    match flaw {
        Flaw::Order => "Order",
        Flaw::Range => "Range",
        Flaw::Utf8 => "Utf8",
        Flaw::Trailing => "Trailing",
        Flaw::Relation => "Relation",
    }
}

fn saved_text(alloc: Global, refusal: RecordRefusal) -> Result<String, AllocError>
    ensures { IfOk result (λ text. string_bytes text ≡ saved_text refusal) }
{
    match refusal {
        RecordRefusal::Truncated => String::from_str(alloc, "Truncated"),
        RecordRefusal::BadMagic => String::from_str(alloc, "BadMagic"),
        RecordRefusal::BadDigest => String::from_str(alloc, "BadDigest"),
        RecordRefusal::NotCanonical(flaw) => {
            let flaw = flaw_name(flaw);
            format!(in alloc; "NotCanonical {flaw}")
        }
        RecordRefusal::OutOfMemory => String::from_str(alloc, "OutOfMemory"),
    }
}

/// The refusal of a log's entry.
fn entry_text(alloc: Global, place: usize, refusal: RecordRefusal) -> Result<String, AllocError>
    ensures { IfOk result (λ text. string_bytes text ≡ entry_text place refusal) }
{
    let mut text = saved_text(alloc, refusal)?;
    let place = place.to_string(alloc)?;
    text.push(' ')?;
    text.push_str(place.as_str())?;
    Ok(text)
}

impl Failure {
    /// Its line: `refused`, the refusal's name and its numbers, or that memory ran out.
    pub fn line(self, alloc: Global) -> Result<String, AllocError>
        ensures { IfOk result (λ text. string_bytes text ≡ failure_line self) }
    {
        let refusal = match self {
            Failure::Read(refusal) => read_text(alloc, refusal)?,
            Failure::Load(refusal) => load_text(alloc, refusal)?,
            Failure::Schedule(refusal) => schedule_text(alloc, refusal)?,
            Failure::Record(refusal) => saved_text(alloc, refusal)?,
            Failure::Entry(place, refusal) => entry_text(alloc, place, refusal)?,
            Failure::BadHead(place) => format!(in alloc; "BadHead {place}")?,
            Failure::Memory => return String::from_str(alloc, "out of memory\n"),
        };
        format!(in alloc; "refused {refusal}\n")
    }
}
