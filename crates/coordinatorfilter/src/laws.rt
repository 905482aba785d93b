//! Laws of lines, and of a coordinator's filter.
ghost use Rattle.names.specs.declared.limits.TheConstants.{NODES};
ghost use Rattle.farm_base.specs.declared.message.ToCoord.{ToCoord};
ghost use Rattle.farmwire.specs.Lawful as wire;
ghost use Rattle.protocol.specs.Lawful.{IsSaid};
ghost use Rattle.coordinatorfilter.specs.Rules.{
  IsHonest,
  ABatchIsARun,
  AKillIsARun,
  APowerFailureIsARun,
  AStartIsARun,
  ABatchOverFilesIsARun,
  AKillOverFilesIsARun,
  APowerFailureOverFilesIsARun,
  AStartOverFilesIsARun,
  AReturnOverFilesIsARun,
  ACrashOverFilesIsARun,
};

use saverecord::Keeper;

/// What a line says to a coordinator can be handled by it.
pub fn what_is_read_can_be_handled()
    ensures { (y : ToCoord) → wire.IsSaid y → IsSaid NODES y }
{}

/// What a filter does with lines that come together the coordinator of protocol's processes may do, with the messages of what it
/// writes; and what its disk has then lasts. So what is proved of processes holds of it.
pub fn a_batch_is_a_run<K: Keeper>()
    ensures { IsHonest K.saving K.loading K.syncing K.kept K.lasting → ABatchIsARun K.saving K.loading K.syncing K.kept K.lasting }
{}

/// The same over a `FileKeeper` that gathers.
pub fn a_batch_over_files_is_a_run()
    ensures { ABatchOverFilesIsARun }
{}

/// Where a filter is killed before what it answered is written, its coordinator is one that was killed: its record has what was decided
/// of the lines so far, or of the first of them.
pub fn a_kill_is_a_run<K: Keeper>()
    ensures { IsHonest K.saving K.loading K.syncing K.kept K.lasting → AKillIsARun K.saving K.loading K.kept }
{}

/// Where the power fails there, or in the sync that follows, its record has what was decided of the first of the lines.
pub fn a_power_failure_is_a_run<K: Keeper>()
    ensures { IsHonest K.saving K.loading K.syncing K.kept K.lasting → APowerFailureIsARun K.saving K.loading K.kept K.lasting }
{}

/// A coordinator that takes up its keeper's texts is one that starts from its record.
pub fn a_start_is_a_run<K: Keeper>()
    ensures { IsHonest K.saving K.loading K.syncing K.kept K.lasting → AStartIsARun K.loading K.kept K.lasting }
{}

/// Kills, power failures and starts over a `FileKeeper` that gathers.
pub fn ends_and_starts_over_files_are_runs()
    ensures kills { AKillOverFilesIsARun }
    ensures power_failures { APowerFailureOverFilesIsARun }
    ensures starts { AStartOverFilesIsARun }
{}

/// Kills and power failures at any moment over a `FileKeeper` that gathers, also after a save or a sync failed: what its device's calls
/// may leave is what the coordinator had decided of the first lines.
pub fn crashes_over_files_are_runs()
    ensures returns { AReturnOverFilesIsARun }
    ensures crashes { ACrashOverFilesIsARun }
{}
