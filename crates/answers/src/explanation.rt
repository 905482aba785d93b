//! What `--explain` adds for the bytes of a file: why they are refused, in plain words. Tests alone say what is printed here.

use super::answered::RefusedEvent;
use super::command::Command;
use super::definition::graph_of;
use super::failure::Failure;
use super::line_fault::line_fault;
use super::replaying::replayed;
use saverecord::{Record, RecordRefusal};
use schedule::{ScheduleRefusal, read_schedule};
use std::alloc::{AllocError, Global};

/// Whether bytes are a text as a person writes it.
fn is_written(bytes: &[u8]) -> bool {
    let is_shown = |byte: &u8| byte.is_ascii_graphic() || byte.is_ascii_whitespace();
    bytes.iter().any(u8::is_ascii_graphic) && bytes.iter().all(is_shown)
}

/// What is said of a text in the place of a definition.
const WRITTEN: &str =
    "it is a text, and no definition: of a Dockerfile, BuildKit makes one (examples/README.md says how)";

/// What is wrong with a definition.
fn definition_fault(alloc: Global, bytes: &[u8]) -> Result<Option<String>, AllocError> {
    match graph_of(alloc, Vec::from_slice(alloc, bytes)?) {
        Ok(_) => Ok(None),
        Err(Failure::Read(_) | Failure::Load(_)) if is_written(bytes) => {
            Ok(Some(String::from_str(alloc, WRITTEN)?))
        }
        Err(Failure::Read(refusal)) => Ok(Some(format!(in alloc; "{refusal}")?)),
        Err(Failure::Load(refusal)) => Ok(Some(format!(in alloc; "{refusal}")?)),
        Err(_) => Err(AllocError),
    }
}

/// What is wrong with a record.
fn record_fault(alloc: Global, bytes: &[u8]) -> Result<Option<String>, AllocError> {
    let fault = match Record::read(alloc, bytes).err() {
        None => return Ok(None),
        Some(RecordRefusal::OutOfMemory) => return Err(AllocError),
        Some(_) if bytes.is_empty() => "it is empty, and no record",
        Some(RecordRefusal::Truncated) => "it is cut short",
        Some(RecordRefusal::BadDigest) => {
            "it is cut short or damaged: its digest isn't that of its bytes"
        }
        Some(refusal) => return Ok(Some(format!(in alloc; "{refusal}")?)),
    };
    Ok(Some(String::from_str(alloc, fault)?))
}

/// The line of this number, from 1.
fn line_at(text: &[u8], wanted: u64) -> &[u8] {
    let mut number: u64 = 0;
    for line in text.split(|byte| *byte == b'\n') {
        number = number.saturating_add(1);
        if number == wanted {
            return line;
        }
    }
    &[]
}

/// What is wrong with a schedule that is refused so.
fn schedule_fault(
    alloc: Global,
    bytes: &[u8],
    refusal: ScheduleRefusal,
) -> Result<String, AllocError> {
    match refusal {
        ScheduleRefusal::BadLine(number) => {
            let fault = line_fault(alloc, number, line_at(bytes, number))?;
            format!(in alloc; "line {number}: {fault}")
        }
        _ => format!(in alloc; "{refusal}"),
    }
}

/// A line for each event of a schedule that is refused, with its reason.
pub fn events_told(
    alloc: Global,
    name: &str,
    refused: &[RefusedEvent],
) -> Result<String, AllocError> {
    let mut lines = String::new(alloc);
    for RefusedEvent { number, refusal } in refused {
        write!(lines, "{name}: event {number}: {refusal}\n")?;
    }
    Ok(lines)
}

/// Why a file is refused, or what of it: its lines, and whether an event of a schedule is refused.
#[derive(Drop)]
pub struct Explanation {
    pub lines: String,
    pub has_refused_event: bool,
}

/// What is wrong with a schedule.
fn schedule_faults(alloc: Global, name: &str, bytes: &[u8]) -> Result<String, AllocError> {
    match read_schedule(alloc, bytes) {
        Ok(_) => Ok(String::new(alloc)),
        Err(ScheduleRefusal::OutOfMemory) => Err(AllocError),
        Err(refusal) => {
            let fault = schedule_fault(alloc, bytes, refusal)?;
            format!(in alloc; "{name}: {fault}\n")
        }
    }
}

/// What there is to say of a schedule that is drawn: the picture doesn't have all of its events.
fn drawing_explained(alloc: Global, name: &str, bytes: &[u8]) -> Result<Explanation, AllocError> {
    match replayed(alloc, bytes) {
        Ok(answer) => Ok(Explanation {
            lines: events_told(alloc, name, answer.refused.as_slice())?,
            has_refused_event: !answer.refused.is_empty(),
        }),
        Err(Failure::Schedule(_)) => Ok(Explanation {
            lines: schedule_faults(alloc, name, bytes)?,
            has_refused_event: false,
        }),
        Err(_) => Err(AllocError),
    }
}

/// A line of what is wrong with a file, if something is.
fn fault_line(alloc: Global, name: &str, fault: Option<String>) -> Result<String, AllocError> {
    match fault {
        Some(fault) => format!(in alloc; "{name}: {fault}\n"),
        None => Ok(String::new(alloc)),
    }
}

/// What there is to say of a file that is read for this command. Of the events of a schedule that is replayed, its
/// `Answer` tells.
pub fn explained(
    alloc: Global,
    command: Command,
    name: &str,
    bytes: &[u8],
) -> Result<Explanation, AllocError> {
    let lines = match command {
        Command::Draw(_) => return drawing_explained(alloc, name, bytes),
        Command::Replay => schedule_faults(alloc, name, bytes)?,
        Command::Record => fault_line(alloc, name, record_fault(alloc, bytes)?)?,
        Command::Check | Command::Keys | Command::Wants => {
            fault_line(alloc, name, definition_fault(alloc, bytes)?)?
        }
    };
    Ok(Explanation {
        lines,
        has_refused_event: false,
    })
}
