//! The record of what a coordinator keeps, the entry of an event, and what a restart makes of a record.
ghost use Rattle.std.specs.Prelude.{◌≡◌, ◌≤◌, ℕ, Bool, IfOk, filter, map};
ghost use Rattle.std.specs.List.Sorted.{IsStrictlyIncreasing};
ghost use Rattle.holdings.specs.Leases.{AreLeases};
ghost use Rattle.holdings.specs.Lives.{AreLives};
ghost use Rattle.protocol.specs.Ledger.{saves, reads, is_saved};
ghost use Rattle.saverecord.specs.Ledgers.{IsKept, ledger_of};
ghost use Rattle.saverecord.specs.Logs.{with_lives, IsChange, AreInOrder, with_gone as with_nodes};
ghost use Rattle.versions.specs.Additions.{IsReady};
ghost use Rattle.effects.specs.Keeps.{held, NotesSpent};
ghost use Rattle.effects.specs.Shown.{work_of, with_life, with_gone};
ghost use Rattle.effects.specs.Held.{ledger};
ghost use Rattle.effects.specs.Sound.{IsRightful};

use super::nodes::{lives_with, nodes_with};
use effects::{Effects, NewLife, ParkedAsks, SpentFolders, State};
use farm_base::{Items, Lease, NodeId, NodeLife};
use holdings::{Lives, RetiredNodes, TicketSource, is_saved};
use leases::LeaseTable;
use saverecord::{LogEntry, Record};
use std::alloc::{AllocError, Global};
use versions::Lines;

/// Drops the leases that the record doesn't have.
fn keep_saved(leases: &mut Vec<Lease>)
    ensures { leases.new.items ≡ filter is_saved leases.old.items }
{
    leases.retain(|lease| is_saved(lease));
}

/// The record of a state with what an event did to it.
pub(crate) fn record_of(
    alloc: Global,
    state: &State,
    effects: &Effects,
) -> Result<Record, AllocError>
    requires rightful { IsRightful (work_of (held state.now) effects.now).ledger }
    requires ready { IsReady state.now.lines effects.now.added }
    ensures ledger { IfOk result (λ r. ledger_of r ≡ reads (saves (work_of (held state.now) effects.now).ledger)) }
    ensures kept { IfOk result IsKept }
{
    let change = &effects.change;
    let (mut leases, retired) = change.table.over(&state.table).to_parts(alloc)?;
    keep_saved(&mut leases);
    let lives = lives_with(alloc, &state.lives, change.life)?;
    let retired_nodes = nodes_with(alloc, &state.gone, change.gone)?;
    let lines = state.lines.copy_with(alloc, &effects.added)?;
    Ok(Record {
        last: change.tickets.ceiling(),
        old_home: change.old_home,
        lives: Items::new(lives),
        retired_nodes: Items::new(retired_nodes),
        leases: Items::new(leases),
        retired: Items::new(retired),
        lines: Items::new(lines),
    })
}

/// The life that began, if one did.
fn begun(alloc: Global, life: Option<NewLife>) -> Result<Vec<NodeLife>, AllocError>
    ensures lives { IfOk result (λ lives. (f : ℕ → ℕ) → with_lives lives.items f ≡ with_life life f) }
    ensures order { IfOk result (λ lives. AreLives lives.items) }
{
    let mut lives = Vec::new(alloc);
    if let Some(NewLife { node, life }) = life {
        lives.push(NodeLife { node, life })?;
    }
    Ok(lives)
}

/// The node that was retired, if one was.
fn retired_now(alloc: Global, gone: Option<NodeId>) -> Result<Vec<NodeId>, AllocError>
    ensures nodes { IfOk result (λ nodes. (f : ℕ → Bool) → with_nodes nodes.items f ≡ with_gone gone f) }
    ensures order { IfOk result (λ nodes. IsStrictlyIncreasing (map (λ n. n.0) nodes.items)) }
{
    let mut nodes = Vec::new(alloc);
    if let Some(node) = gone {
        nodes.push(node)?;
    }
    Ok(nodes)
}

/// The entry of what an event did to a state.
pub(crate) fn entry_of(
    alloc: Global,
    state: &State,
    effects: &Effects,
) -> Result<LogEntry, AllocError>
    requires before { AreLeases (held state.now).live }
    requires block { state.now.tickets.ceiling ≤ effects.now.change.tickets.ceiling }
    requires ready { IsReady state.now.lines effects.now.added }
    ensures change { IfOk result (IsChange (saves (ledger (held state.now))) (saves (work_of (held state.now) effects.now).ledger)) }
    ensures order { IfOk result AreInOrder }
{
    let change = &effects.change;
    let ended = change.table.saved_ended(alloc, &state.table)?;
    let leases = change.table.saved_granted(alloc)?;
    let retired = change.table.newly_retired(alloc)?;
    let none = Lines::new(alloc);
    let lines = none.copy_with(alloc, &effects.added)?;
    Ok(LogEntry {
        last: change.tickets.ceiling(),
        old_home: change.old_home,
        lives: Items::new(begun(alloc, change.life)?),
        retired_nodes: Items::new(retired_now(alloc, change.gone)?),
        ended: Items::new(ended),
        leases: Items::new(leases),
        retired: Items::new(retired),
        lines: Items::new(lines),
    })
}

/// The state that a restart makes of a record. The leases that a coordinator doesn't save are over.
pub(crate) fn state_of(alloc: Global, read: Record) -> Result<State, AllocError>
    requires { IsKept read }
    ensures ledger { IfOk result (λ state. ledger (held state) ≡ reads (saves (ledger_of read))) }
    ensures noted { IfOk result NotesSpent }
{
    let mut leases = read.leases.into_vec();
    keep_saved(&mut leases);
    let table = LeaseTable::from_parts(alloc, leases, read.retired.into_vec())?;
    Ok(State {
        table,
        tickets: TicketSource::after(read.last),
        lives: Lives::of(read.lives.into_vec()),
        gone: RetiredNodes::of(read.retired_nodes.into_vec()),
        old_home: read.old_home,
        parked: ParkedAsks::new(alloc),
        spent: SpentFolders::new(alloc),
        lines: Lines::of(read.lines.into_vec()),
    })
}
