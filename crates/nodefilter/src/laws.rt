//! Laws of a node's filter.
ghost use Rattle.nodefilter.specs.Rules.{ABatchIsARun, AKillIsARun, AStartIsARun};

use nodestore::Store;

/// What a node's filter does with lines that come together a node of protocol's processes may do, with the messages of what it
/// writes. So what is proved of processes holds of it.
pub fn a_batch_is_a_run<S: Store>()
    ensures { ABatchIsARun S.kept S.last_life S.had }
{}

/// Where a filter is killed before what it answered is written, its node is one that came as far and wrote nothing.
pub fn a_kill_is_a_run<S: Store>()
    ensures { AKillIsARun S.kept S.last_life S.had }
{}

/// What begins from what a node's store kept is the node, which lost the rest and begins its next life.
pub fn a_start_is_a_run<S: Store>()
    ensures { AStartIsARun S.kept S.last_life S.had }
{}
