//! The theorems: what the definitions promise. A function whose proof needs one of them calls it.
ghost use Rattle.protocol.specs.Follows.{EveryScheduleIsSafe, EveryScheduleStaysSafe, EveryEventIsMoves, EveryDecisionFollows, FittingAskIsGranted};
ghost use Rattle.protocol.specs.Chronicle.{EveryScheduleHasAChronicle, EveryScheduleMeans, EveryVersionIsAnswered, NoParkedAskIsReady, FittingMessageIsGranted, NoParkedAskCouldBeGranted, EveryAskIsAnswered, EveryFarmIsSaved, EveryRecordCovers, RestartReadsTheRecord};
ghost use Rattle.protocol.specs.Lawful.{EveryLedgerStaysLawful, EveryFarmStaysLawful, EveryOpeningIsLawful};
ghost use Rattle.protocol.specs.Processes.{AllCanBeLost, EveryFarmIsProcesses, EndedStaysOut, OnlyHonestAreAFarm, ProcessesAreTheFarm, ProcessesStaySafe, WithdrawnStaysOut};
ghost use Rattle.protocol.specs.Hostile.{EveryRaidIsSafe, EveryRaidStaysSafe, EveryRaidedDecisionFollows, EveryMessageTouchesItsOwn, EveryNodeCanBePutOut};
ghost use Rattle.protocol.specs.HostileProcesses.{RaidedProcessesAreAFarm, RaidedProcessesStaySafe, RaidedWithdrawnStaysOut};
ghost use Rattle.protocol.specs.Rules.{EveryEventKeepsTheFarm, EveryMessageReaches, OnlyTheRetiredAreToldSo, EveryParkedAskIsHeldUp, TheOldHomeIsHeeded};
ghost use Rattle.protocol.specs.Witnesses.{RisingIsOfAnyTwo, FallingIsOfAnyTwo, PrivateAndSharedAreAlone, AnAcceptedBeginExecutes, WhatIsSparedGoesOn, WhatIsWantedIsWantedUnder, EveryEndIsSeen, TheseCallsEndLeases, WhatIsLearnedIsHeld};
ghost use Rattle.protocol.specs.Safe.{EveryRunIsSafe, EveryRunStaysSafe};

/// Every run of the world is safe, and stays so from any world to any later one: whatever is sent, lost,
/// repeated, reordered, withdrawn or restarted. `sha` gives each content its digest; two contents with one
/// digest are shown where they are the cause.
pub fn every_run_is_safe()
    ensures safe { EveryRunIsSafe }
    ensures stays { EveryRunStaysSafe }
{}

/// The one run that the rules give a schedule is such a run: so every schedule is safe, after each of its
/// prefixes, and stays so from each prefix to each longer one.
pub fn every_schedule_is_safe()
    ensures safe { EveryScheduleIsSafe }
    ensures stays { EveryScheduleStaysSafe }
{}

/// Every schedule has a chronicle: a world after each event, safe, led to by moves, in which the event meant what
/// its outcome says. So, in terms of events and answers alone: what is withdrawn, by a call, a retirement, a newer
/// life or a restart, is never committed later and is on no line; each line grows by what the answers name, and by
/// nothing else; no two executions have one PRIVATE instance or one tenure; two nodes hold one content for a version.
pub fn every_schedule_means()
    ensures chronicle { EveryScheduleHasAChronicle }
    ensures headline { EveryScheduleMeans }
    ensures versions { EveryVersionIsAnswered }
{}

/// Each event of a farm, from any world that it may be in, is a list of moves of the world, means what its outcome
/// says, and is refused exactly where there is a reason to.
pub fn every_event_is_moves()
    ensures { EveryEventIsMoves }
{}

/// Each decision of the coordinator on what it keeps is a list of steps of the machine that forgets nothing,
/// and leaves a ledger that agrees with it.
pub fn every_decision_follows()
    ensures { EveryDecisionFollows }
{}

/// An ask that the rules let be granted, of a node that isn't retired and of no older life, is granted in that call,
/// where no parked ask could be granted.
pub fn a_fitting_ask_is_granted()
    ensures { FittingAskIsGranted }
{}

/// In a run each Acquire that is delivered meets such a ledger.
pub fn a_fitting_message_is_granted()
    ensures { FittingMessageIsGranted }
{}

/// In no farm of a run could a parked ask be granted: what frees a slot tries them again.
pub fn no_parked_ask_is_ready()
    ensures { NoParkedAskIsReady }
{}

/// The same by the machine's free slots. An Acquire that is delivered is granted again where it is leased, is granted
/// where it could be, and is parked where a slot that it wants is leased.
pub fn every_ask_is_answered()
    ensures ready { NoParkedAskCouldBeGranted }
    ensures answered { EveryAskIsAnswered }
{}

/// A parked ask waits for a leased slot, or for another node that is the old home, and for nothing else.
pub fn every_parked_ask_is_held_up()
    ensures { EveryParkedAskIsHeldUp }
{}

/// On any ledger that has an old home: other nodes' asks for a tenure wait for it, it can't be retired, and its newer
/// life ends that.
pub fn the_old_home_is_heeded()
    ensures { TheOldHomeIsHeeded }
{}

/// No event changes how many nodes a farm has, and a refused one changes nothing, but where a save failed or a node's
/// greatest life was over.
pub fn every_event_keeps_the_farm()
    ensures { EveryEventKeepsTheFarm }
{}

/// A message reaches the node that it names: who is asked for a content sends it to who asked. Exactly the messages of
/// retired nodes are answered NodeRetired, and do nothing.
pub fn every_message_reaches_whom_it_names()
    ensures reaches { EveryMessageReaches }
    ensures retired { OnlyTheRetiredAreToldSo }
{}

/// While the coordinator is up the record is what the ledger saves, and after a failed save what a ledger of the machine
/// that it kept saves. It covers all that was sent, and is all that a restart reads.
pub fn every_record_is_enough()
    ensures saved { EveryFarmIsSaved }
    ensures covers { EveryRecordCovers }
    ensures reads { RestartReadsTheRecord }
{}

/// What the coordinator does with a ledger of which a record can be written leaves such a ledger: its nodes, lives,
/// asks and tickets are in their ranges, no two leases share a slot or are of one ask, and so on.
pub fn every_ledger_stays_lawful()
    ensures { EveryLedgerStaysLawful }
{}

/// So does each event of a farm, from its opening on.
pub fn every_farm_stays_lawful()
    ensures opening { EveryOpeningIsLawful }
    ensures stays { EveryFarmStaysLawful }
{}

/// The coordinator and the nodes as processes, which exchange lines over a network that loses, repeats and reorders
/// them, and are killed at any place, are a farm that some schedule leads to: each process's state is its part of it,
/// and all that was written of leases was sent there. So the theorems of schedules hold of processes: contents of one
/// version are one, lines on the disk only grow, and what was fenced or withdrawn is on none. Nor are they less than
/// a farm: what any schedule does processes can do.
pub fn processes_are_the_farm()
    ensures farm { ProcessesAreTheFarm }
    ensures safe { ProcessesStaySafe }
    ensures withdrawn { WithdrawnStaysOut }
    ensures ended { EndedStaysOut }
    ensures honest { OnlyHonestAreAFarm }
    ensures all { EveryFarmIsProcesses }
    ensures losses { AllCanBeLost }
{}

/// Some nodes were taken over, and whoever did so writes any line under their keys, at any time, beside what the rules
/// let all others do. What such a node spoils is what it was leased: each version on a line is of its ticket's own node
/// and lease, or of a prune; no lease ends but by its own node's word or the operator's; honest nodes hold one content
/// for a version and share no PRIVATE instance and no tenure; and of a retired node nothing counts any more.
pub fn a_hostile_node_spoils_only_what_it_was_leased()
    ensures safe { EveryRaidIsSafe }
    ensures stays { EveryRaidStaysSafe }
    ensures decisions { EveryRaidedDecisionFollows }
{}

/// So it is of the processes, whatever lines come under the keys of the nodes that were taken over: they are a raided
/// farm, on whose disk lines only grow, and whose honest nodes hold one content for a version.
pub fn raided_processes_are_a_raided_farm()
    ensures farm { RaidedProcessesAreAFarm }
    ensures safe { RaidedProcessesStaySafe }
    ensures withdrawn { RaidedWithdrawnStaysOut }
{}

/// Whatever message comes, sent or not, it touches no lease, line, life or retirement but of its own node: a line gets
/// at most one version, under a lease of that node and life which may write the slot; and one of a retired node does
/// nothing. And a Hello of a node's greatest life puts it out: it has no lease then, and can be retired.
pub fn a_message_touches_only_its_own()
    ensures touches { EveryMessageTouchesItsOwn }
    ensures out { EveryNodeCanBePutOut }
{}

/// What the words of the theorems reach, so that none of them speaks of less than it seems to: tickets that rise do so
/// between any two places, an accepted begin is an execution, one goes on until it is finished, aborted or its node
/// begins a new life, and a version that was learned and whose content is stored is held.
pub fn the_words_reach_what_they_say()
    ensures rising { RisingIsOfAnyTwo }
    ensures falling { FallingIsOfAnyTwo }
    ensures alone { PrivateAndSharedAreAlone }
    ensures executes { AnAcceptedBeginExecutes }
    ensures goes_on { WhatIsSparedGoesOn }
    ensures wanted { WhatIsWantedIsWantedUnder }
    ensures ends { EveryEndIsSeen }
    ensures calls { TheseCallsEndLeases }
    ensures held { WhatIsLearnedIsHeld }
{}
