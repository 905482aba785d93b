//! The coordinator as a process.
ghost use Rattle.std.specs.Prelude.{OnOk, IfSome};
ghost use Rattle.farmwire.specs.Sealed.{key_in};
ghost use Rattle.processes.specs.Farms.{EveryFarmStaysSafe, EveryRaidedFarmKeepsOut, EveryRaidedFarmStaysSafe};
ghost use Rattle.processes.specs.Served.{IsServed};
ghost use Rattle.coordinatorfilter.specs.Rules.{
  IsHonest,
  ABatchIsARun,
  AKillIsARun,
  APowerFailureIsARun,
  AStartIsARun,
  ABatchOverFilesIsARun,
  AKillOverFilesIsARun,
  APowerFailureOverFilesIsARun,
  AStartOverFilesIsARun,
  AReturnOverFilesIsARun,
  ACrashOverFilesIsARun,
};

use super::LONGEST_LINE;
use super::fault::ProcessFault;
use super::files::{key_of, lock_of};
use super::kept::started;
use super::laws::a_farm_is_safe;
use coordinatorfilter::CoordinatorFilter;
use coordinatorfilter::laws::{
    a_batch_is_a_run, a_batch_over_files_is_a_run, a_kill_is_a_run, a_power_failure_is_a_run,
    a_start_is_a_run, crashes_over_files_are_runs, ends_and_starts_over_files_are_runs,
};
use farmwire::Keyring;
use processcommands::CoordinatorPlace;
use saverecord::Keeper;
use services::serve;
use std::alloc::Global;
use std::fs::File;
use std::io::{self, BufWriter, Read, Write};
use std::rt::Files;

/// How many bytes of answers are written at once, at most.
const TOGETHER: usize = 65536;

/// What a coordinator says before the first line.
const GREETING: &str = "= started\n";

/// Greets, and answers each line of the reader, up to its end.
pub fn serve_coordinator<K: Keeper, R: Read + Drop, W: Write>(
    alloc: Global,
    filter: &mut CoordinatorFilter<K>,
    reader: R,
    writer: &mut W,
) -> io::Result<()>
    ensures served { OnOk result (IfSome (R.remaining reader) (λ text. IsServed K.saving K.loading K.syncing K.kept K.lasting (key_in filter.old.keys) text
        filter.old.coordinator filter.new.coordinator (W.contents writer.old) (W.contents writer.new))) }
    // So it is the coordinator of protocol's processes, whatever lines come, and wherever it is killed and started again.
    ensures process { IsHonest K.saving K.loading K.syncing K.kept K.lasting → ABatchIsARun K.saving K.loading K.syncing K.kept K.lasting }
    ensures killed { IsHonest K.saving K.loading K.syncing K.kept K.lasting → AKillIsARun K.saving K.loading K.kept }
    ensures power_failed { IsHonest K.saving K.loading K.syncing K.kept K.lasting → APowerFailureIsARun K.saving K.loading K.kept K.lasting }
    ensures started { IsHonest K.saving K.loading K.syncing K.kept K.lasting → AStartIsARun K.loading K.kept K.lasting }
{
    a_batch_is_a_run::<K>();
    a_kill_is_a_run::<K>();
    a_power_failure_is_a_run::<K>();
    a_start_is_a_run::<K>();
    serve(
        alloc,
        reader,
        writer,
        filter,
        LONGEST_LINE,
        GREETING.as_bytes(),
    )
}

/// Answers the lines of the standard input.
fn answer_input<K: Keeper, R: Input + AllocGlobal, W: Write>(
    rt: &R,
    filter: &mut CoordinatorFilter<K>,
    writer: &mut W,
) -> Result<(), ProcessFault> {
    let alloc = rt.alloc();
    let served = match BufWriter::with_capacity(alloc, TOGETHER, writer) {
        Ok(mut writer) => serve_coordinator(alloc, filter, rt.reader(), &mut writer),
        Err(error) => Err(error),
    };
    match served {
        Ok(()) => Ok(()),
        Err(error) => Err(ProcessFault::of_stream(alloc, error)),
    }
}

/// Takes the lock, starts from what is kept, and answers the lines of the standard input up to its end. A start that is refused
/// changes nothing that is kept.
pub fn run_coordinator<R: Files<File = File> + Input + AllocGlobal, W: Write>(
    rt: &R,
    place: CoordinatorPlace<'_>,
    writer: &mut W,
) -> Result<(), ProcessFault>
    ensures process { ABatchOverFilesIsARun }
    ensures killed { AKillOverFilesIsARun }
    ensures power_failed { APowerFailureOverFilesIsARun }
    ensures started { AStartOverFilesIsARun }
    ensures returned { AReturnOverFilesIsARun }
    ensures crashed { ACrashOverFilesIsARun }
    // With such nodes as `run_node` it is a farm of which the headline holds, and what is left of it where nodes were taken over.
    ensures farm { EveryFarmStaysSafe }
    ensures raided { EveryRaidedFarmStaysSafe }
    ensures withdrawn { EveryRaidedFarmKeepsOut }
{
    a_farm_is_safe();
    a_batch_over_files_is_a_run();
    ends_and_starts_over_files_are_runs();
    crashes_over_files_are_runs();
    let keys = Keyring::Farm(key_of(rt, place.key)?);
    let _lock = lock_of(rt, place.record)?;
    let coordinator = started(rt, place.record)?;
    let mut filter = CoordinatorFilter { coordinator, keys };
    let answered = answer_input(rt, &mut filter, writer);
    drop(filter);
    answered
}
