//! What `run` does with its files.
ghost use Rattle.std.specs.Prelude.{◌≡◌, ◌≢◌, ◌++◌, ◌∷◌, [], ℕ, List, map, None, IfOk, IfErr, IfSome, IfNone, OnOk};
ghost use Rattle.std.specs.List.{AllZip};
ghost use Rattle.std.specs.String.{string_bytes};
ghost use Rattle.std.specs.Io.KnownBytes.{Appends};
ghost use Rattle.processcommands.specs.declared.statuses.TheConstants.{DONE, FAULT, REFUSED};
ghost use Rattle.commands.specs.declared.running.InputFault.TheVariants as inputs;
ghost use Rattle.answers.specs.Answers.{SpellsGraph, IsNoGraph};
ghost use Rattle.filekeeper.specs.Disks.{calls_of, Leaves};
ghost use Rattle.filekeeper.specs.Settled.{IsPutOver, IsSettled};
ghost use Rattle.saverecord.specs.Texts.{whole_alone};
ghost use Rattle.solverkeys.specs.GraphKeys.{AreKeys};
ghost use Rattle.solverkeys.specs.Keyed.{KeyedParts};
ghost use Rattle.names.specs.declared.number.NodeId.{NodeId};
ghost use Rattle.commands.specs.Runs.{job_line, job_lines, commits_line, names_of, IsJobOf, IsRun, IsRunOf, IsRecordOf};

use super::acts::{print_failure, print_unreadable};
use answers::{Failure, graph_of};
use commandline::Order;
use farm::{Executor, FailedJob, Farm, FarmEnd, FarmFault, FarmStop, OpenGate};
use farm_base::NodeId;
use filekeeper::{Device, Disk, FileKeeper, HostDevice, put_record};
use jobs::Answer;
use processcommands::{DONE, FAULT, MEMORY, REFUSED, print};
use schedule::Setup;
use scripted::Scripted;
use solverkeys::Keyed;
use std::alloc::{AllocError, AllocFailed, Global};
use std::io::{self, Write};
use std::rt::Files;
use std::sync::Wait;
use std::thread::Threads;

/// The graph of a file's definition, with its keys.
fn keyed_of(alloc: Global, bytes: Vec<u8>) -> Result<Keyed, Failure>
    ensures found { IfOk result (λ keyed. SpellsGraph bytes.items keyed.graph) }
    ensures keys { IfOk result (λ keyed. AreKeys keyed.graph keyed.keys) }
    ensures refused { IfErr result (IsNoGraph bytes.items) }
{
    let graph = graph_of(alloc, bytes)?;
    let keyed = Keyed::of(alloc, graph)?;
    Ok(keyed)
}

/// The node of the file at this place: the files go to the nodes in turn.
fn node_of(place: usize, nodes: u32) -> NodeId {
    if nodes == 0 {
        return NodeId(1);
    }
    NodeId((place as u64 % nodes as u64) as u32 + 1)
}

/// Why there is no job for a file.
enum InputFault {
    /// The file of this name can't be read.
    Unreadable(String),
    /// The definition of this name is refused.
    Refused(String, Failure),
    Memory,
}

impl From<AllocError> for InputFault {
    ghost from_gives = { λ _ fault. fault ≡ inputs.Memory };

    fn from(_error: AllocError) -> InputFault {
        InputFault::Memory
    }
}

impl<T: Drop> From<AllocFailed<T>> for InputFault {
    ghost from_gives = { λ _ fault. fault ≡ inputs.Memory };

    fn from(_error: AllocFailed<T>) -> InputFault {
        InputFault::Memory
    }
}

/// The files' names, and a job for each.
#[derive(Drop)]
struct Inputs {
    names: Vec<String>,
    jobs: Vec<(NodeId, Keyed)>,
}

/// Adds the job of a file.
fn push_input(
    alloc: Global,
    inputs: &mut Inputs,
    nodes: u32,
    name: String,
    bytes: Option<Vec<u8>>,
) -> Result<(), InputFault>
    ensures names { OnOk result (map string_bytes inputs.new.names.items ≡ map string_bytes inputs.old.names.items ++ string_bytes name ∷ []) }
    ensures jobs { OnOk result ((job : NodeId × KeyedParts) × (inputs.new.jobs.items ≡ inputs.old.jobs.items ++ job ∷ []) × IsJobOf (name, bytes) job) }
{
    let Some(bytes) = bytes else {
        return Err(InputFault::Unreadable(name));
    };
    let keyed = match keyed_of(alloc, bytes) {
        Ok(keyed) => keyed,
        Err(failure) => return Err(InputFault::Refused(name, failure)),
    };
    let node = node_of(inputs.jobs.len(), nodes);
    inputs.names.push(name)?;
    inputs.jobs.push((node, keyed))?;
    Ok(())
}

/// A job for each file.
fn inputs_of(
    alloc: Global,
    nodes: u32,
    files: Vec<(String, Option<Vec<u8>>)>,
) -> Result<Inputs, InputFault>
    ensures names { IfOk result (λ inputs. map string_bytes inputs.names.items ≡ names_of files.items) }
    ensures jobs { IfOk result (λ inputs. AllZip IsJobOf files.items inputs.jobs.items) }
{
    let mut inputs = Inputs {
        names: Vec::new(alloc),
        jobs: Vec::new(alloc),
    };
    for (name, bytes) in files {
        push_input(alloc, &mut inputs, nodes, name, bytes)?;
    }
    Ok(inputs)
}

/// Adds the line of a file with its answer.
fn push_job(alloc: Global, text: &mut String, name: &str, answer: &Answer) -> Result<(), AllocError>
    ensures { OnOk result (string_bytes text.new ≡ string_bytes text.old ++ job_line name.now answer.now) }
{
    text.push_str(name)?;
    text.push_str(" ")?;
    match answer {
        Answer::Output(digest) => {
            let digest = digest.to_text(alloc)?;
            text.push_str(digest.as_str())?;
        }
        Answer::Failed => text.push_str("failed")?,
        Answer::Waiting => text.push_str("waiting")?,
    }
    text.push_str("\n")
}

/// The lines of the files, with their answers.
fn lines(alloc: Global, names: &[String], answers: &[Answer]) -> Result<String, AllocError>
    ensures { IfOk result (λ text. string_bytes text ≡ job_lines (map string_bytes names.now) answers.now) }
{
    let mut text = String::new(alloc);
    let mut rest = answers;
    for name in names {
        let [answer, others @ ..] = rest else {
            break;
        };
        push_job(alloc, &mut text, name.as_str(), answer)?;
        rest = others;
    }
    Ok(text)
}

/// What is printed for a run.
fn run_text(alloc: Global, names: &[String], end: &FarmEnd) -> Result<String, AllocError>
    ensures { IfOk result (λ text. string_bytes text ≡ job_lines (map string_bytes names.now) end.now.answers.items ++ commits_line end.now.commits) }
{
    let mut text = lines(alloc, names, end.answers.as_slice())?;
    let commits = end.commits.to_string(alloc)?;
    text.push_str("commits ")?;
    text.push_str(commits.as_str())?;
    text.push_str("\n")?;
    Ok(text)
}

/// The name of a fault.
fn fault_name(fault: FarmFault) -> &'static str {
    match fault {
        FarmFault::HistoryFull => "HistoryFull",
        FarmFault::ReceiptLost => "ReceiptLost",
        FarmFault::BadOutcome(_) => "BadOutcome",
        FarmFault::Memory => "Memory",
        FarmFault::BadSetup => "BadSetup",
        FarmFault::CoordinatorDown => "CoordinatorDown",
        FarmFault::Stalled => "Stalled",
        FarmFault::GateHeld(_) => "GateHeld",
        FarmFault::NoThread => "NoThread",
    }
}

/// Prints `fault` and its name, or that memory ran out.
fn print_fault<E: Write>(alloc: Global, fault: FarmFault, err: &mut E) -> u8
    ensures { (result ≢ DONE) × (result ≢ REFUSED) }
{
    if matches!(fault, FarmFault::Memory) {
        return print(err, "out of memory\n", MEMORY);
    }
    let name = fault_name(fault);
    match format!(in alloc; "fault {name}\n") {
        Ok(line) => print(err, line.as_str(), FAULT),
        Err(_) => print(err, "out of memory\n", MEMORY),
    }
}

/// Prints why there is no job for a file, and in which one, where there are several.
fn print_input_fault<E: Write>(
    alloc: Global,
    fault: InputFault,
    is_one_of_many: bool,
    err: &mut E,
) -> u8
    ensures { result ≢ DONE }
{
    match fault {
        InputFault::Unreadable(name) => print_unreadable(alloc, name.as_str(), err),
        InputFault::Memory => print_failure(alloc, Failure::Memory, err),
        InputFault::Refused(name, failure) => {
            let status = print_failure(alloc, failure, err);
            if !is_one_of_many || status != REFUSED {
                return status;
            }
            match format!(in alloc; "in {name}\n") {
                Ok(line) => print(err, line.as_str(), status),
                Err(_) => status,
            }
        }
    }
}

/// How a run ended.
#[derive(Drop)]
pub struct Ended {
    /// The status of the program.
    pub status: u8,
    /// Each file that failed, by its place from 0.
    pub failed: Vec<FailedJob>,
}

/// What a run leaves to print and to keep.
struct Report {
    text: String,
    /// The coordinator's record at the end.
    saved: Vec<u8>,
    /// Each file that failed.
    failed: Vec<FailedJob>,
}

/// A fault, and the coordinator's record then, if it can be told.
struct Stop {
    fault: FarmFault,
    saved: Option<Vec<u8>>,
}

impl From<AllocError> for Stop {
    ghost from_gives = { λ _ stop. stop.saved ≡ None };

    fn from(_error: AllocError) -> Stop {
        Stop {
            fault: FarmFault::Memory,
            saved: None,
        }
    }
}

/// What is kept of a run that a fault ended.
fn stop_of(stop: FarmStop) -> Stop
    ensures some { IfSome stop.left (λ left. IfSome result.saved (λ saved. saved.items ≡ left.saved.items)) }
    ensures none { IfNone stop.left (result.saved ≡ None) }
{
    let FarmStop { fault, left } = stop;
    match left {
        Some(left) => Stop {
            fault,
            saved: Some(left.saved),
        },
        None => Stop { fault, saved: None },
    }
}

/// Runs these jobs on a farm without disturbances.
fn make_report<R: Threads + Wait + Sync>(
    rt: &R,
    alloc: Global,
    setup: Setup,
    inputs: Inputs,
    executors: Vec<(NodeId, Box<dyn Executor + Send>)>,
) -> Result<Report, Stop>
    ensures run { IfOk result (λ report. IsRun setup (map string_bytes inputs.names.items) inputs.jobs.items (map (λ each. each.0) executors.items) (map (λ each. history each.1) executors.items)
        (string_bytes report.text) (map (λ each. each.place) report.failed.items)) }
    ensures saved { IfOk result (λ report. IsRecordOf setup report.saved.items) }
    // A record that a fault leaves is that of a farm of this setup.
    ensures left { IfErr result (λ stop. IfSome stop.saved (λ saved. IsRecordOf setup saved.items)) }
{
    let Inputs { names, jobs } = inputs;
    let plan = Vec::new(alloc);
    let end = match Farm::run(rt, alloc, setup, jobs, executors, plan, &OpenGate) {
        Ok(end) => end,
        Err(stop) => return Err(stop_of(stop)),
    };
    let text = run_text(alloc, names.as_slice(), &end)?;
    Ok(Report {
        text,
        saved: end.saved,
        failed: end.causes,
    })
}

/// Keeps a record on this disk, in the place of what it held. It prints a fault where that fails.
fn keep_on<D: Device, E: Write>(disk: &mut Disk<D>, saved: &[u8], err: &mut E) -> Option<u8>
    ensures kept { IfNone result (IsSettled (calls_of disk.new) (whole_alone saved.now)) }
    ensures none { IfNone result (err.new ≡ err.old) }
    ensures some { IfSome result (λ status. (status ≢ DONE) × (status ≢ REFUSED)) }
    // A crash at any moment leaves what it might have left before, or this record, with such a log or with none. So do the files after a fault.
    ensures any_moment { Leaves (IsPutOver saved.now (calls_of disk.old)) (calls_of disk.old) (calls_of disk.new) }
{
    match put_record(disk, saved) {
        Ok(()) => None,
        Err(error) => Some(print_save_fault(&error, err)),
    }
}

/// Keeps a record in the file of this path, if there is one.
fn keep<R: Files, E: Write>(
    files: &R,
    alloc: Global,
    path: Option<&str>,
    saved: &[u8],
    err: &mut E,
) -> Option<u8>
    ensures none { IfNone result (err.new ≡ err.old) }
    ensures some { IfSome result (λ status. (status ≢ DONE) × (status ≢ REFUSED)) }
{
    let path = path?;
    match HostDevice::new(files, alloc, path) {
        Ok(device) => keep_on(&mut Disk::new(device), saved, err),
        Err(_) => Some(print(err, "out of memory\n", MEMORY)),
    }
}

/// Tries whether a record can be kept in the file of this path. It prints a fault where it can't.
fn try_keep<R: Files, E: Write>(
    files: &R,
    alloc: Global,
    path: Option<&str>,
    err: &mut E,
) -> Option<u8>
    ensures { IfSome result (λ status. (status ≢ DONE) × (status ≢ REFUSED)) }
{
    let path = path?;
    match FileKeeper::try_put(files, alloc, path) {
        Ok(()) => None,
        Err(error) => Some(print_save_fault(&error, err)),
    }
}

/// Says that the record could not be kept.
fn print_save_fault<E: Write>(error: &io::Error, err: &mut E) -> u8
    ensures { (result ≢ DONE) × (result ≢ REFUSED) }
{
    match error.kind() {
        io::ErrorKind::OutOfMemory => print(err, "out of memory\n", MEMORY),
        _ => print(err, "fault SaveFault\n", FAULT),
    }
}

/// Keeps the record if a path is given for it, and prints the lines of the run.
fn print_report<R: Files, O: Write, E: Write>(
    files: &R,
    alloc: Global,
    report: Report,
    path: Option<&str>,
    out: &mut O,
    err: &mut E,
) -> Ended
    ensures done { result.status ≡ DONE → Appends (O.contents out.old) (O.contents out.new) (string_bytes report.text) }
    ensures failed { result.status ≡ DONE → result.failed.items ≡ report.failed.items }
    ensures never_refused { result.status ≢ REFUSED }
    ensures quiet { result.status ≢ DONE → result.status ≢ FAULT → out.new ≡ out.old }
{
    let Report {
        text,
        saved,
        failed,
    } = report;
    let status = match keep(files, alloc, path, saved.as_slice(), err) {
        Some(status) => status,
        None => print(out, text.as_str(), DONE),
    };
    Ended { status, failed }
}

/// Keeps the record of a run that a fault ended, if there is one and a path is given for it, and prints the fault.
fn print_stop<R: Files, E: Write>(
    files: &R,
    alloc: Global,
    stop: Stop,
    path: Option<&str>,
    err: &mut E,
) -> u8
    ensures { (result ≢ DONE) × (result ≢ REFUSED) }
{
    let Stop { fault, saved } = stop;
    if let Some(saved) = saved {
        let _unkept = keep(files, alloc, path, saved.as_slice(), err);
    }
    print_fault(alloc, fault, err)
}

/// Builds the definitions of files on a farm, by these executors. The coordinator's record goes to the path of the order, if it has
/// one, with a fault too. Nothing is printed before the farm's end.
pub fn solve<R: Files + AllocGlobal + Threads + Wait + Sync, O: Write, E: Write>(
    rt: &R,
    order: Order<'_>,
    files: Vec<(String, Option<Vec<u8>>)>,
    executors: Vec<(NodeId, Box<dyn Executor + Send>)>,
    out: &mut O,
    err: &mut E,
) -> Ended
    // At status 0 the standard output has the lines of a run of the files, and each that failed has its cause.
    ensures done { result.status ≡ DONE → (text : List ℕ)
        × IsRunOf (record { nodes = order.entry.nodes }) files.items (map (λ each. each.0) executors.items) (map (λ each. history each.1) executors.items)
        text (map (λ each. each.place) result.failed.items)
        × Appends (O.contents out.old) (O.contents out.new) text }
    ensures quiet { result.status ≢ DONE → result.status ≢ FAULT → out.new ≡ out.old }
{
    let alloc = rt.alloc();
    let Order { nodes, record_path } = order;
    let are_many = files.len() > 1;
    let inputs = match inputs_of(alloc, nodes, files) {
        Ok(inputs) => inputs,
        Err(fault) => return unanswered(alloc, print_input_fault(alloc, fault, are_many, err)),
    };
    if let Some(status) = try_keep(rt, alloc, record_path, err) {
        return unanswered(alloc, status);
    }
    match make_report(rt, alloc, Setup { nodes }, inputs, executors) {
        Ok(report) => print_report(rt, alloc, report, record_path, out, err),
        Err(stop) => unanswered(alloc, print_stop(rt, alloc, stop, record_path, err)),
    }
}

/// A run that ended with this status, and without answers.
fn unanswered(alloc: Global, status: u8) -> Ended
    ensures { result.status ≡ status }
{
    Ended {
        status,
        failed: Vec::new(alloc),
    }
}

/// Builds the definitions of files, by a scripted executor on each node.
pub fn run_scripts<R: Files + AllocGlobal + Threads + Wait + Sync, O: Write, E: Write>(
    rt: &R,
    order: Order<'_>,
    files: Vec<(String, Option<Vec<u8>>)>,
    out: &mut O,
    err: &mut E,
) -> Result<Ended, AllocError> {
    let alloc = rt.alloc();
    let mut executors = Vec::new(alloc);
    for number in 0..order.nodes {
        let executor: Box<dyn Executor + Send> = Box::new(alloc, Scripted::new(alloc))?;
        executors.push((NodeId(number + 1), executor))?;
    }
    Ok(solve(rt, order, files, executors, out, err))
}
