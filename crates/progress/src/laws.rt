//! The theorems of progress.
ghost use Rattle.progress.specs.Fair.{EveryLeaseEnds, EveryOpenAskIsAnswered, OneFolderIsOne, ThereAreFairRuns};
ghost use Rattle.progress.specs.Progress.{AnAcceptedAskWaits, EveryAskCanBeAnswered, EveryLeaseCanBeGivenBack, EveryOpenAskCanBeAnswered, EveryOpenAskIsAnsweredByGivingBack, EveryOpenTenureIsAnsweredByGivingBack, EveryParkedAskCanBeAnswered, EveryParkedAskCanBeFreed, EveryTenureCanBeGivenBack, GivingBackGoesOn, YoungNodesAreUp};

use protocol::laws::{
    a_message_touches_only_its_own, every_event_keeps_the_farm, every_farm_stays_lawful,
    every_ledger_stays_lawful, every_schedule_is_safe, every_schedule_means,
};

/// In each farm that a schedule leads to: whichever live leases are given back, in whatever order, each Release makes the
/// leases and parked asks together fewer, no parked ask is lost, and while one is parked there is a lease to give back.
/// So each can be answered.
pub fn giving_back_goes_on()
    ensures goes { GivingBackGoesOn }
    ensures answered { EveryParkedAskCanBeAnswered }
{
    every_farm_stays_lawful();
    every_ledger_stays_lawful();
    every_schedule_is_safe();
}

/// In each farm that a schedule leads to, while the coordinator is up and no failed save is ahead, each parked ask that is for
/// no tenure is granted or denied after some withdrawals of leases that are no tenures, whatever the nodes do.
pub fn every_parked_ask_can_be_freed()
    ensures { EveryParkedAskCanBeFreed }
{
    every_farm_stays_lawful();
}

/// So each ask that was ever sent, of a node that isn't retired and of no older life, if it is for no tenure: once it is
/// delivered some withdrawals answer it. The coordinator has no deadlock.
pub fn every_ask_can_be_answered()
    ensures { EveryAskCanBeAnswered }
{
    every_farm_stays_lawful();
    every_schedule_is_safe();
    every_schedule_means();
}

/// So each open ask for a lease, of a node that isn't retired or down for good: no state of a farm, while the coordinator is
/// up and no failed save is ahead, is a deadlock for it.
pub fn every_open_ask_can_be_answered()
    ensures { EveryOpenAskCanBeAnswered }
{
    every_farm_stays_lawful();
    every_schedule_is_safe();
    every_schedule_means();
}

/// Each live lease that is no tenure, of a node that isn't down for good, can be given back: whatever state its ask is in,
/// a nudge, the Grant, an abort and the Release end it, or a Commit that is sent again, or the Hello of a newer life.
pub fn every_lease_can_be_given_back()
    ensures { EveryLeaseCanBeGivenBack }
{
    a_message_touches_only_its_own();
    every_event_keeps_the_farm();
    every_farm_stays_lawful();
    every_schedule_is_safe();
}

/// So where executions end, and what is sent again comes, each open ask for a lease is answered, in at most four events for
/// each lease and parked ask, and seven: nobody has to withdraw anything, and no node has to restart.
pub fn every_open_ask_is_answered_by_giving_back()
    ensures answered { EveryOpenAskIsAnsweredByGivingBack }
    ensures up { YoungNodesAreUp }
    ensures waits { AnAcceptedAskWaits }
{
    a_message_touches_only_its_own();
    every_event_keeps_the_farm();
    every_farm_stays_lawful();
    every_schedule_is_safe();
    every_schedule_means();
}

/// A tenure can be given back too: the asks of its node that use its folder are answered first, and end. So each open ask
/// that waits for at most one folder is answered, for a tenure too.
pub fn every_open_tenure_is_answered_by_giving_back()
    ensures ended { EveryTenureCanBeGivenBack }
    ensures answered { EveryOpenTenureIsAnsweredByGivingBack }
{
    a_message_touches_only_its_own();
    every_event_keeps_the_farm();
    every_farm_stays_lawful();
    every_schedule_is_safe();
    every_schedule_means();
}

/// In each fair run, in which each message that was sent arrives, nodes and coordinator say again what isn't answered, and what
/// was granted is given up or ends: each lease ends, and each open ask that waits for at most one folder is answered, for a
/// tenure too, of a node that goes on in its life.
pub fn every_open_ask_is_answered()
    ensures ended { EveryLeaseEnds }
    ensures answered { EveryOpenAskIsAnswered }
    ensures fair { ThereAreFairRuns }
    ensures one { OneFolderIsOne }
{
    a_message_touches_only_its_own();
    every_event_keeps_the_farm();
    every_farm_stays_lawful();
    every_schedule_is_safe();
    every_schedule_means();
}
