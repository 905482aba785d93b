//! What the commands `coordinator`, `node` and `merge` do.
ghost use Rattle.std.specs.Prelude.{◌≢◌};
ghost use Rattle.processcommands.specs.declared.statuses.TheConstants.{DONE};

use super::coordinator_process::run_coordinator;
use super::fault::{Cause, ProcessFault};
use super::merge_process::run_merge;
use super::node_process::run_node;
use processcommands::{DONE, FAULT, MEMORY, Process, REFUSED, print, print_usage, process_of};
use std::alloc::Global;
use std::fs::File;
use std::io::Write;
use std::rt::{Clock, Files};

/// The status of a process that ends so.
fn status_of(cause: &Cause) -> u8
    ensures { result ≢ DONE }
{
    match cause {
        Cause::OutOfMemory => MEMORY,
        Cause::KeyTooShort | Cause::BadKey => REFUSED,
        Cause::BadRecord | Cause::LogAlone => REFUSED,
        Cause::OtherNode(_) | Cause::BadLife | Cause::LivesSpent => REFUSED,
        Cause::BadListing | Cause::TooLong => REFUSED,
        Cause::Locked | Cause::NotKept | Cause::NotLoaded => FAULT,
        Cause::File(_) | Cause::Stream(_) => FAULT,
    }
}

/// Prints why a process ended before its input did, and what to do.
fn print_process_fault<E: Write>(alloc: Global, fault: &ProcessFault, err: &mut E) -> u8
    ensures { result ≢ DONE }
{
    match fault.text(alloc) {
        Ok(text) => print(err, text.as_str(), status_of(&fault.cause)),
        Err(_) => print(err, "out of memory\n", MEMORY),
    }
}

/// Is this process of a farm, up to the end of the standard input, or does this merge.
pub fn carry_out<
    R: Files<File = File> + Input + Clock + AllocGlobal + Clone + Drop,
    O: Write,
    E: Write,
>(rt: &R, process: Process<'_>, out: &mut O, err: &mut E) -> u8 {
    let ended = match process {
        Process::Coordinator(place) => run_coordinator(rt, place, out),
        Process::Node(place) => run_node(rt, place, out),
        Process::Merge(place) => run_merge(rt, place, out),
    };
    match ended {
        Ok(()) => DONE,
        Err(fault) => print_process_fault(rt.alloc(), &fault, err),
    }
}

/// Does what the words say. The texts of usage faults and help are `clap`'s.
pub fn run<R: Files<File = File> + Input + Clock + AllocGlobal + Clone + Drop, O: Write, E: Write>(
    rt: &R,
    words: &[String],
    out: &mut O,
    err: &mut E,
) -> u8 {
    match process_of(rt.alloc(), words) {
        Ok(process) => carry_out(rt, process, out, err),
        Err(error) => print_usage(rt.alloc(), &error, out, err),
    }
}
