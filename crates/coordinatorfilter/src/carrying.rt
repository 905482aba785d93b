//! Calls that are carried out.
ghost use Rattle.std.specs.Prelude.{◌≡◌, IfOk, OnErr, filter, map};
ghost use Rattle.coordinator.specs.Held.{ledger, life_at};
ghost use Rattle.coordinator.specs.Settling.{Settles};
ghost use Rattle.ledger.specs.Settling.{is_save_fault};
ghost use Rattle.protocol.specs.Farm.{farm_limits};
ghost use Rattle.protocol.specs.Processes.{decided};
ghost use Rattle.coordinatorlines.specs.Calls.{called, MayBeMade};
ghost use Rattle.coordinatorfilter.specs.Carried.{RestartsIf, OnlyRestarts, ends, ended_of, ended_by, unheard, over_of, CarriesOut};

use super::reply::{Ended, Over, Reply};
use coordinator::{Coordinator, Handled};
use coordinatorlines::Call;
use events::{CoordNote, CoordRefusal};
use farm_base::{Items, Lease, Life, NodeId, NodeLife, ToCoord};
use ledger::is_save_fault;
use saverecord::Keeper;
use std::alloc::{AllocError, Global};

/// Restarts the coordinator, where this is due.
fn restart_if<K: Keeper>(
    coordinator: &mut Coordinator<K>,
    alloc: Global,
    due: bool,
) -> Option<Result<(), CoordRefusal>>
    ensures { RestartsIf due K.loading (K.kept coordinator.old.keeper) coordinator.old coordinator.new result }
{
    if due {
        Some(coordinator.restart(alloc))
    } else {
        None
    }
}

/// Makes the call.
fn answer<K: Keeper>(
    coordinator: &mut Coordinator<K>,
    alloc: Global,
    call: &Call,
) -> Result<Handled, CoordRefusal>
    requires { MayBeMade call.now }
    ensures { Settles K.saving (decided farm_limits (ledger coordinator.old.held) (called call.now)) coordinator.old coordinator.new result }
{
    match call {
        Call::Handle(message) => coordinator.handle(alloc, message),
        Call::Withdraw(ticket) => coordinator.withdraw(alloc, *ticket),
        Call::Retire(node) => coordinator.retire(alloc, *node),
        Call::Prune(slot) => coordinator.prune(alloc, slot),
        Call::Nudge => coordinator.nudge(alloc),
    }
}

/// Whether the call ends the lease, if it isn't refused.
fn ends(call: &Call, lease: &Lease) -> bool
    ensures { result ≡ ends (called call.now) lease.now }
{
    match call {
        Call::Withdraw(ticket) => lease.ticket.0 == ticket.0,
        Call::Retire(node) => lease.node.0 == node.0,
        _ => false,
    }
}

/// Those of these leases that the call ends, if it isn't refused.
fn ended_of(alloc: Global, call: &Call, live: &[Lease]) -> Result<Items<Ended>, AllocError>
    ensures { IfOk result (λ ended. ended ≡ map ended_of (filter (ends (called call.now)) live.now)) }
{
    let mut ended = Vec::new(alloc);
    for lease in live {
        if ends(call, lease) {
            ended.push(Ended {
                ticket: lease.ticket,
                node: lease.node,
            })?;
        }
    }
    Ok(Items::new(ended))
}

/// The leases that the call ends, if it isn't refused. Only the operator's calls end others' leases: for all else no lease is looked at.
fn ended_by(alloc: Global, call: &Call, live: &[Lease]) -> Result<Items<Ended>, AllocError>
    ensures { IfOk result (λ ended. ended ≡ ended_by (called call.now) live.now) }
{
    match call {
        Call::Withdraw(_) => ended_of(alloc, call, live),
        Call::Retire(_) => ended_of(alloc, call, live),
        _ => Ok(Items::new(Vec::new(alloc))),
    }
}

/// The greatest life seen of a node, 0 where none was.
fn life_seen(lives: &[NodeLife], node: NodeId) -> Life
    ensures { result.0 ≡ life_at lives.now node.0 }
{
    for seen in lives {
        if seen.node.0 == node.0 {
            return seen.life;
        }
    }
    Life(0)
}

/// The process of a message that isn't heard.
fn unheard(message: &ToCoord, note: &CoordNote, lives: &[NodeLife]) -> Option<Over>
    ensures { result ≡ unheard message.now note.now lives.now }
{
    match note {
        CoordNote::OldLife => Some(Over::Outdated(message.node, life_seen(lives, message.node))),
        CoordNote::NodeRetired => Some(Over::Gone(message.node)),
        _ => None,
    }
}

/// The process whose message isn't heard, where the call is one.
fn over_of(call: &Call, answer: &Result<Handled, CoordRefusal>, lives: &[NodeLife]) -> Option<Over>
    ensures { result ≡ over_of (called call.now) answer.now lives.now }
{
    let Call::Handle(message) = call else {
        return None;
    };
    let Ok(handled) = answer else {
        return None;
    };
    unheard(message, &handled.note, lives)
}

/// Carries a call out. While the coordinator is down, each call tries a restart first.
pub(crate) fn carry_out<K: Keeper>(
    coordinator: &mut Coordinator<K>,
    alloc: Global,
    call: &Call,
) -> Result<Reply, AllocError>
    requires { MayBeMade call.now }
    ensures done { IfOk result (CarriesOut K.saving K.loading K.kept (called call.now) coordinator.old coordinator.new) }
    ensures stopped { OnErr result (OnlyRestarts K.loading (K.kept coordinator.old.keeper) coordinator.old coordinator.new) }
{
    let down = coordinator.is_down();
    let before = restart_if(coordinator, alloc, down);
    let ended = ended_by(alloc, call, coordinator.leases())?;
    let answer = answer(coordinator, alloc, call);
    let over = over_of(call, &answer, coordinator.lives());
    let failed = is_save_fault(&answer);
    let after = restart_if(coordinator, alloc, failed);
    Ok(Reply {
        before,
        ended,
        answer,
        over,
        after,
    })
}
