//! What a message or a call does to the state that a ledger keeps, worked out before anything changes.
ghost use Rattle.std.specs.Prelude.{◌≡◌, IfOk, Ok, None};
ghost use Rattle.std.specs.Result.{result_err};
ghost use Rattle.names.specs.declared.limits.TheConstants.{NODES};
ghost use Rattle.protocol.specs.Farm.{farm_limits};
ghost use Rattle.protocol.specs.Lawful.{IsNumber, IsSaid};
ghost use Rattle.protocol.specs.Ledger.{begin_work, handled, withdrawn, retired, pruned};
ghost use Rattle.effects.specs.Held.{ledger};
ghost use Rattle.effects.specs.Keeps.{held, IsKeepable};
ghost use Rattle.effects.specs.Shown.{work_of};
ghost use Rattle.ledger.specs.Prepared.{IsPrepared};

use drafts::{Draft, has_ticket, is_home};
use effects::{Prepared, State};
use events::CoordRefusal;
use farm_base::{NodeId, Slot, Ticket, ToCoord};
use std::alloc::{AllocError, Global};

/// Works out what a message does. Nothing changes before `settle`.
pub(crate) fn prepare(
    alloc: Global,
    state: &State,
    message: &ToCoord,
) -> Result<Prepared, AllocError>
    requires keepable { IsKeepable state.now }
    requires said { IsSaid NODES message.now }
    ensures work { IfOk result (λ p. work_of (held state.now) p.effects.value
        ≡ handled farm_limits message.now (begin_work (ledger (held state.now)))) }
    ensures prepared { IfOk result (IsPrepared (held state.now)) }
{
    let mut draft = Draft::begin(alloc, state)?;
    draft.deliver(alloc, message)?;
    let prepared = draft.finish(alloc)?;
    Ok(prepared)
}

/// Why the lease of a ticket can't be withdrawn, or None if it can.
pub(crate) fn withdrawal_refusal(state: &State, ticket: Ticket) -> Option<CoordRefusal>
    ensures { result ≡ result_err (withdrawn farm_limits ticket (begin_work (ledger (held state.now)))) }
{
    match state.table.lease(ticket) {
        Some(lease) => {
            if lease.tenure {
                Some(CoordRefusal::Tenure)
            } else {
                None
            }
        }
        None => Some(CoordRefusal::NotLive),
    }
}

/// Works out the withdrawal of a lease, which adds nothing to the lines.
pub(crate) fn withdrawal(
    alloc: Global,
    state: &State,
    ticket: Ticket,
) -> Result<Prepared, AllocError>
    requires keepable { IsKeepable state.now }
    requires accepted { result_err (withdrawn farm_limits ticket (begin_work (ledger (held state.now)))) ≡ None }
    ensures work { IfOk result (λ p. withdrawn farm_limits ticket (begin_work (ledger (held state.now))) ≡ Ok (work_of (held state.now) p.effects.value)) }
    ensures prepared { IfOk result (IsPrepared (held state.now)) }
{
    let mut draft = Draft::begin(alloc, state)?;
    draft.withdraw(alloc, ticket)?;
    let prepared = draft.finish(alloc)?;
    Ok(prepared)
}

/// Why a node can't be retired, or None if it can.
pub(crate) fn retirement_refusal(state: &State, node: NodeId) -> Option<CoordRefusal>
    ensures { result ≡ result_err (retired farm_limits node (begin_work (ledger (held state.now)))) }
{
    if state.gone.contains(node) {
        Some(CoordRefusal::NodeRetired)
    } else if state.table.has_tenure_of(node) || is_home(node, state.old_home) {
        Some(CoordRefusal::TenureHeld)
    } else {
        None
    }
}

/// Works out the retirement of a node, which adds nothing to the lines.
pub(crate) fn retirement(alloc: Global, state: &State, node: NodeId) -> Result<Prepared, AllocError>
    requires keepable { IsKeepable state.now }
    requires accepted { result_err (retired farm_limits node (begin_work (ledger (held state.now)))) ≡ None }
    requires number { IsNumber NODES node }
    ensures work { IfOk result (λ p. retired farm_limits node (begin_work (ledger (held state.now))) ≡ Ok (work_of (held state.now) p.effects.value)) }
    ensures prepared { IfOk result (IsPrepared (held state.now)) }
{
    let mut draft = Draft::begin(alloc, state)?;
    draft.retire(alloc, node)?;
    let prepared = draft.finish(alloc)?;
    Ok(prepared)
}

/// Why the line of a slot can't be pruned, or None if it can.
pub(crate) fn prune_refusal(state: &State, slot: &Slot) -> Option<CoordRefusal>
    ensures { result ≡ result_err (pruned farm_limits slot.now (begin_work (ledger (held state.now)))) }
{
    if state.table.is_leased(slot) {
        Some(CoordRefusal::SlotLeased)
    } else if !state.lines.has_version(slot) {
        Some(CoordRefusal::NoSuchSlot)
    } else if has_ticket(state) {
        None
    } else {
        Some(CoordRefusal::TicketsSpent)
    }
}

/// Works out the prune of a slot's line.
pub(crate) fn pruning(alloc: Global, state: &State, slot: &Slot) -> Result<Prepared, AllocError>
    requires keepable { IsKeepable state.now }
    requires accepted { result_err (pruned farm_limits slot.now (begin_work (ledger (held state.now)))) ≡ None }
    ensures work { IfOk result (λ p. pruned farm_limits slot.now (begin_work (ledger (held state.now))) ≡ Ok (work_of (held state.now) p.effects.value)) }
    ensures prepared { IfOk result (IsPrepared (held state.now)) }
{
    let mut draft = Draft::begin(alloc, state)?;
    draft.prune(alloc, slot)?;
    let prepared = draft.finish(alloc)?;
    Ok(prepared)
}
