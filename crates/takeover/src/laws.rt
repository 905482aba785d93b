//! The theorems of several coordinators.
ghost use Rattle.takeover.specs.TakeOver.{AnyCanTakeOver, FencedIsCommitted, OneIsSeveral, SeveralAreOne, SeveralAreTheFarm, SeveralStaySafe, TakeOversAreNoRestarts, WithdrawnStaysOutOfAll};

use protocol::laws::processes_are_the_farm;

/// Any number of coordinators over one store that compares and sets, of which none knows whether another runs, are one
/// coordinator: each run of them, with requests that are lost or come late, reads of what the store held before, kills
/// and pauses anywhere, has the record, the nodes and the lines of a run of the one, which is killed and starts where
/// another's request is taken. So the headline holds of them, with no premise that one runs at a time; and they can do
/// all that one does.
pub fn several_coordinators_are_one()
    ensures one { SeveralAreOne }
    ensures farm { SeveralAreTheFarm }
    ensures safe { SeveralStaySafe }
    ensures withdrawn { WithdrawnStaysOutOfAll }
    ensures all { OneIsSeveral }
    ensures any { AnyCanTakeOver }
{
    processes_are_the_farm();
}

/// Where each coordinator but the first takes over the whole ledger that the store has, they are one coordinator that
/// never stops, whichever of them die: no take-over ends a lease, or loses a parked ask.
pub fn take_overs_are_no_restarts()
    ensures { TakeOversAreNoRestarts }
{}

/// Why a coordinator may answer nothing without the store, be it only that a commit is fenced or counted before: in a run
/// of two coordinators, by rules without that, the one fences a commit, and the other commits it.
pub fn answers_need_the_store()
    ensures { FencedIsCommitted }
{}
