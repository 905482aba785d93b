//! A node as a process.
ghost use Rattle.std.specs.Prelude.{◌≡◌, ◌-◌, max, OnOk, IfSome};
ghost use Rattle.nodefilter.specs.Rules.{ABatchIsARun, AKillIsARun, AStartIsARun};
ghost use Rattle.processes.specs.Farms.{EveryFarmStaysSafe, EveryRaidedFarmStaysSafe};
ghost use Rattle.processes.specs.Served.{IsNodeServed};

use super::LONGEST_LINE;
use super::fault::{Cause, ProcessFault};
use super::files::{lock_of, node_key_of};
use super::laws::a_farm_is_safe;
use farmwire::Keyring;
use names::{Life, NodeId};
use nodefilter::laws::{a_batch_is_a_run, a_kill_is_a_run, a_start_is_a_run};
use nodefilter::{Origin, StartFault, Started, start};
use nodestore::{FileStore, OpenFault, Store, open_store};
use processcommands::NodePlace;
use services::serve;
use std::alloc::Global;
use std::fs::File;
use std::io::{self, Read, Write};
use std::rt::{Clock, Files};
use std::time::{SystemTime, UNIX_EPOCH};

/// Greets, and answers each line of the reader, up to its end.
pub fn serve_node<S: Store, R: Read + Drop, W: Write>(
    alloc: Global,
    started: Started<S>,
    reader: R,
    writer: &mut W,
) -> io::Result<()>
    ensures served { OnOk result (IfSome (R.remaining reader) (λ text.
        IsNodeServed S.kept S.last_life S.had started text (W.contents writer.old) (W.contents writer.new))) }
    // So it is a node of protocol's processes, whatever lines come, and wherever it is killed and started again.
    ensures process { ABatchIsARun S.kept S.last_life S.had }
    ensures killed { AKillIsARun S.kept S.last_life S.had }
    ensures started { AStartIsARun S.kept S.last_life S.had }
{
    a_batch_is_a_run::<S>();
    a_kill_is_a_run::<S>();
    a_start_is_a_run::<S>();
    let Started {
        mut filter,
        greeting,
    } = started;
    serve(
        alloc,
        reader,
        writer,
        &mut filter,
        LONGEST_LINE,
        greeting.as_bytes(),
    )
}

/// The seconds since 1970, 0 where the clock doesn't tell them.
fn seconds<R: Clock>(rt: &R) -> u64 {
    match SystemTime::now(rt).map(|now| now.duration_since(UNIX_EPOCH)) {
        Ok(Ok(since)) => since.as_secs(),
        _ => 0,
    }
}

/// Why a node's folder can't be used.
fn not_opened(alloc: Global, path: &str, fault: OpenFault) -> ProcessFault {
    match fault {
        OpenFault::OtherNode(owner) => ProcessFault::of(alloc, path, Cause::OtherNode(owner)),
        OpenFault::BadLife => ProcessFault::of(alloc, path, Cause::BadLife),
        OpenFault::Io(error) => ProcessFault::of_file(alloc, path, error),
        OpenFault::OutOfMemory => ProcessFault::out_of_memory(alloc),
    }
}

/// Why a node's next life didn't begin.
fn not_started(alloc: Global, path: &str, fault: StartFault) -> ProcessFault {
    match fault {
        StartFault::LivesSpent => ProcessFault::of(alloc, path, Cause::LivesSpent),
        StartFault::NotKept => ProcessFault::of(alloc, path, Cause::NotKept),
        StartFault::OutOfMemory => ProcessFault::out_of_memory(alloc),
    }
}

/// The life after which the next one begins: the last one that was kept, and no less than the second before this one.
fn last_before(kept: Life, seconds: u64) -> Life
    ensures { result.0 ≡ max kept.0 (seconds - 1) }
{
    Life(kept.0.max(seconds.saturating_sub(1)))
}

/// Begins the next life of a node from what its folder has: greater than any before, and at least the seconds since 1970, so that
/// a folder that was lost isn't taken for the old process.
fn begun<'a, R: Files + Clock + AllocGlobal + Clone + Drop>(
    rt: &'a R,
    place: NodePlace<'_>,
    keys: Keyring,
) -> Result<Started<FileStore<'a, R>>, ProcessFault> {
    let alloc = rt.alloc();
    let (store, found) = match open_store(rt, alloc, place.store, place.node) {
        Ok(opened) => opened,
        Err(fault) => return Err(not_opened(alloc, place.store, fault)),
    };
    let last = last_before(store.last(), seconds(rt));
    let origin = Origin {
        me: place.node,
        nodes: place.nodes,
        keys,
        store,
        contents: found.contents,
        skipped: found.wrong,
        last,
    };
    match start(alloc, origin) {
        Ok(started) => Ok(started),
        Err(fault) => Err(not_started(alloc, place.store, fault)),
    }
}

/// Answers the lines of the standard input.
fn answer_input<S: Store, R: Input + AllocGlobal, W: Write>(
    rt: &R,
    started: Started<S>,
    writer: &mut W,
) -> Result<(), ProcessFault> {
    let alloc = rt.alloc();
    match serve_node(alloc, started, rt.reader(), writer) {
        Ok(()) => Ok(()),
        Err(error) => Err(ProcessFault::of_stream(alloc, error)),
    }
}

/// Takes the lock, begins the next life from what is kept, and answers the lines of the standard input up to its end. A start that is
/// refused changes nothing that is kept.
pub fn run_node<R: Files<File = File> + Input + Clock + AllocGlobal + Clone + Drop, W: Write>(
    rt: &R,
    place: NodePlace<'_>,
    writer: &mut W,
) -> Result<(), ProcessFault>
    // With such a coordinator as `run_coordinator` it is a farm of which the headline holds, and what is left of it where nodes were taken over.
    ensures farm { EveryFarmStaysSafe }
    ensures raided { EveryRaidedFarmStaysSafe }
{
    a_farm_is_safe();
    let keys = Keyring::Node(place.node, node_key_of(rt, place.key)?);
    let _lock = lock_of(rt, place.store)?;
    let started = begun(rt, place, keys)?;
    answer_input(rt, started, writer)
}
