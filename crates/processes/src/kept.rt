//! What a coordinator's files hold, looked at before a keeper opens them.
ghost use Rattle.std.specs.Prelude.{◌≡◌, [], true, Some};
ghost use Rattle.processes.specs.Looked.{is_name, follows_record, IsFlawIn, IsFlawOf};

use super::fault::{Cause, ProcessFault};
use super::files::bytes_if_there;
use coordinator::{CoordRefusal, Coordinator, NotStarted};
use filekeeper::{FileKeeper, Gathered, LogFault, texts_in};
use saverecord::{Log, RecordRefusal};
use std::alloc::Global;
use std::io;
use std::rt::Files;

/// Whether these bytes name a record: those of the beginning of a farm are zeros.
fn is_name(name: &[u8]) -> bool
    ensures { result ≡ is_name name.now }
{
    name.iter().any(|byte| *byte != 0)
}

/// Whether a log follows a record, and not the beginning of a farm: its first entry names one.
fn follows_record(log: &[u8]) -> bool
    ensures { result ≡ follows_record log.now }
{
    log.len() >= 8 && is_name(&log[..8])
}

/// Why these texts hold no ledger, if they don't.
fn flaw_in(alloc: Global, texts: &Log) -> Option<Cause>
    ensures { IsFlawIn texts.now result }
{
    match texts.read(alloc) {
        Ok(_) => None,
        Err(RecordRefusal::OutOfMemory) => Some(Cause::OutOfMemory),
        Err(_) => Some(Cause::BadRecord),
    }
}

/// Why these bytes of a record's file and of its log's hold nothing, if they don't.
fn flaw_of(alloc: Global, whole: Vec<u8>, log: &[u8]) -> Option<Cause>
    ensures flaw { IsFlawOf whole.items log.now result }
    // So a log isn't taken without the record that it follows.
    ensures alone { whole.items ≡ [] → follows_record log.now ≡ true → result ≡ Some Cause.LogAlone }
{
    if whole.is_empty() && follows_record(log) {
        return Some(Cause::LogAlone);
    }
    match texts_in(alloc, whole, log) {
        Ok(texts) => flaw_in(alloc, &texts),
        Err(LogFault::OutOfMemory) => Some(Cause::OutOfMemory),
        Err(LogFault::BadHead(_)) => Some(Cause::BadRecord),
    }
}

/// Looks whether a coordinator can start from this path's files, and changes nothing of them: a keeper that opens them cuts off
/// what doesn't follow the record.
fn look<R: Files + AllocGlobal>(rt: &R, path: &str) -> io::Result<Option<Cause>> {
    let tail = format!(in rt.alloc(); "{path}.log")?;
    let whole = bytes_if_there(rt, path)?;
    let log = bytes_if_there(rt, tail.as_str())?;
    Ok(flaw_of(rt.alloc(), whole, log.as_slice()))
}

/// Why a coordinator didn't start.
fn not_started<R: Files + AllocGlobal>(
    rt: &R,
    path: &str,
    stopped: NotStarted<Gathered<FileKeeper<'_, R>>>,
) -> ProcessFault {
    match stopped.refusal {
        CoordRefusal::OutOfMemory => ProcessFault::out_of_memory(rt.alloc()),
        CoordRefusal::LoadFault => ProcessFault::of(rt.alloc(), path, Cause::NotLoaded),
        _ => ProcessFault::of(rt.alloc(), path, Cause::BadRecord),
    }
}

/// The coordinator of what this path's files hold.
pub(crate) fn started<'a, R: Files + AllocGlobal>(
    rt: &'a R,
    path: &str,
) -> Result<Coordinator<Gathered<FileKeeper<'a, R>>>, ProcessFault> {
    let alloc = rt.alloc();
    match look(rt, path) {
        Ok(None) => {}
        Ok(Some(flaw)) => return Err(ProcessFault::of(alloc, path, flaw)),
        Err(error) => return Err(ProcessFault::of_file(alloc, path, error)),
    }
    let keeper = match FileKeeper::open(rt, alloc, path) {
        Ok(keeper) => keeper,
        Err(error) => return Err(ProcessFault::of_file(alloc, path, error)),
    };
    match Coordinator::start(alloc, Gathered::new(keeper)) {
        Ok(coordinator) => Ok(coordinator),
        Err(stopped) => Err(not_started(rt, path, stopped)),
    }
}
