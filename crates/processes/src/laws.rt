//! Laws of a farm of both programs.
ghost use Rattle.processes.specs.Farms.{EveryFarmIsARun, EveryFarmStaysSafe, EveryRaidedFarmKeepsOut, EveryRaidedFarmStaysSafe};

use protocol::laws::{
    a_hostile_node_spoils_only_what_it_was_leased, processes_are_the_farm,
    raided_processes_are_a_raided_farm,
};

/// A farm of these programs, killed and started anywhere, over a network that loses, repeats, delays and reorders lines, is a run of
/// the protocol's processes, whatever nodes were taken over and whatever lines were forged under their keys. So the others stay safe, and
/// where none was taken over the headline holds of all.
pub fn a_farm_is_safe()
    ensures run { EveryFarmIsARun }
    ensures raided { EveryRaidedFarmStaysSafe }
    ensures withdrawn { EveryRaidedFarmKeepsOut }
    ensures safe { EveryFarmStaysSafe }
{
    processes_are_the_farm();
    raided_processes_are_a_raided_farm();
    a_hostile_node_spoils_only_what_it_was_leased();
}
