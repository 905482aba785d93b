//! What `--explain` adds of a run's files and of logs, in plain words, on the standard error. Tests alone say what is printed
//! here.

use answers::{Command, Explanation, Failure, graph_of};
use commandline::Request;
use farm::FailedJob;
use farm_base::{Key, Why};
use jobs::{Cause, Fault};
use opsproto::Kind;
use solverkeys::Keyed;
use std::alloc::{AllocError, Global};
use vertices::Vertex;

/// Adds what is wrong with the log beside a record.
pub(crate) fn push_log_fault(
    lines: &mut String,
    name: &str,
    failure: Failure,
) -> Result<(), AllocError> {
    match failure {
        Failure::Entry(place, refusal) => write!(lines, "{name}.log: entry {place}: {refusal}\n"),
        Failure::BadHead(place) => write!(
            lines,
            "{name}.log: the head of entry {place} is damaged\n"
        ),
        Failure::Record(refusal) => write!(lines, "{name}: {refusal}\n"),
        _ => Ok(()),
    }
}

/// Copies of files, by which it is said later why they failed.
pub(crate) fn copies_of(
    alloc: Global,
    files: &[(String, Option<Vec<u8>>)],
) -> Result<Vec<(String, Vec<u8>)>, AllocError> {
    let mut copies = Vec::new(alloc);
    for (name, bytes) in files {
        let bytes = match bytes {
            Some(bytes) => Vec::from_slice(alloc, bytes.as_slice())?,
            None => Vec::new(alloc),
        };
        copies.push((String::from_str(alloc, name.as_str())?, bytes))?;
    }
    Ok(copies)
}

/// The command of a vertex, its words parted by spaces, if it runs one.
fn command_of(alloc: Global, vertex: &Vertex) -> Result<Option<String>, AllocError> {
    let op = vertex.op.read(alloc)?;
    let Kind::Exec(exec) = op.kind() else {
        return Ok(None);
    };
    let Some(meta) = &exec.meta else {
        return Ok(None);
    };
    let mut command = String::new(alloc);
    for word in meta.args.as_slice() {
        if !command.is_empty() {
            command.push(' ')?;
        }
        command.push_str(word.as_str())?;
    }
    Ok(Some(command))
}

/// The step of a definition with this key: its place, and its command.
fn step_of(alloc: Global, bytes: &[u8], key: &Key) -> Result<String, AllocError> {
    let Ok(graph) = graph_of(alloc, Vec::from_slice(alloc, bytes)?) else {
        return String::from_str(alloc, "a step");
    };
    let keyed = Keyed::of(alloc, graph)?;
    let Some(number) = keyed.find(key) else {
        return String::from_str(alloc, "a step");
    };
    let vertex = keyed.graph().vertex(number);
    let place = vertex.place;
    match command_of(alloc, &vertex)? {
        Some(command) => format!(in alloc; "the step at place {place}, '{command}',"),
        None => format!(in alloc; "the step at place {place}, which runs no command,"),
    }
}

/// Why a step failed.
fn cause_told(alloc: Global, bytes: &[u8], cause: Cause) -> Result<String, AllocError> {
    match cause {
        Cause::Failed(key, Fault::Exit(status)) => {
            let step = step_of(alloc, bytes, &key)?;
            format!(in alloc; "{step} failed with status {status}")
        }
        Cause::Failed(key, Fault::Denied(Why::InstancesSpent)) => {
            let step = step_of(alloc, bytes, &key)?;
            format!(in alloc;
                "{step} was denied its folders: a PRIVATE folder has no instance left"
            )
        }
        Cause::Failed(key, Fault::Denied(Why::TicketsSpent)) => {
            let step = step_of(alloc, bytes, &key)?;
            format!(in alloc; "{step} was denied its folders: no ticket is left")
        }
        Cause::NoOutput(key, index) => {
            let step = step_of(alloc, bytes, &key)?;
            format!(in alloc; "{step} gave no output {index}")
        }
    }
}

/// A line for each file that failed, with its cause.
pub(crate) fn causes_told(
    alloc: Global,
    files: &[(String, Vec<u8>)],
    failed: &[FailedJob],
) -> Result<String, AllocError> {
    let mut lines = String::new(alloc);
    for job in failed {
        if let Some((name, bytes)) = files.get(job.place) {
            let told = cause_told(alloc, bytes.as_slice(), job.cause)?;
            write!(lines, "{name}: {told}\n")?;
        }
    }
    Ok(lines)
}

/// What there is to say of a file that is read for this request.
pub fn explained(
    alloc: Global,
    request: Request,
    name: &str,
    bytes: &[u8],
) -> Result<Explanation, AllocError> {
    let command = match request {
        Request::Print(command) => command,
        // What a run reads is read as `check` reads it.
        _ => Command::Check,
    };
    answers::explained(alloc, command, name, bytes)
}
