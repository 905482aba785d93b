ghost use Rattle.std.specs.Prelude.{◌≡◌, ◌<◌, ◌≤◌, ◌⊎◌, ℕ, length, slice_get, Some, IfOk};
ghost use Rattle.std.specs.Bool.{MatchBool};
ghost use Rattle.std.specs.List.{AllZip, Contains};
ghost use Rattle.keytable.specs.declared.entry.Entry.{Entry as SpecEntry};
ghost use Rattle.keytable.specs.Failing.{AreThere, HasOutput, IsReady};
ghost use Rattle.keytable.specs.Kept.{AreKept};
ghost use Rattle.jobs.specs.ReadyLists.{AreCursors, AreThereBefore, IsList, IsReadyAt, ListsAll, HasRoom, listed};
ghost use Rattle.keytable.specs.Tables.{IsTable};
ghost use Rattle.keytable.specs.Users.{AreUsers, IsUser};

use super::ready_list::ReadyList;
use super::task::Task;
use keytable::{Progress, Table, Users, output_of, outputs_of};
use names::Key;
use std::alloc::{AllocError, Global};

/// Whether each input names an output that is there. Those before the cursor do, and it moves on to the
/// first that doesn't.
fn are_there(table: &Table, inputs: &[(Key, u64)], cursor: &mut usize) -> bool
    requires table { IsTable table.now }
    requires before { AreThereBefore table.now.entries.items cursor.old inputs.now }
    ensures there { MatchBool result (AreThere table.now.entries.items inputs.now) (AreThere table.now.entries.items inputs.now → ⊥) }
    ensures before { AreThereBefore table.now.entries.items cursor.new inputs.now }
    ensures moves { cursor.old ≤ cursor.new }
{
    while let Some(input) = inputs.get(*cursor) {
        if output_of(table, input).is_none() {
            return false;
        }
        *cursor += 1;
    }
    true
}

/// Whether the key of a number can be solved. Its inputs are looked at from its cursor on.
fn is_ready(table: &Table, marks: &[bool], cursors: &mut Vec<usize>, number: usize) -> bool
    requires kept { AreKept table.now marks.now }
    requires within { number < length table.now.entries.items }
    requires cursors { AreCursors table.now.entries.items cursors.old.items }
    ensures ready { (entry : SpecEntry) → slice_get table.now.entries.items number ≡ Some entry
        → MatchBool result (IsReady table.now.entries.items entry) (IsReady table.now.entries.items entry → ⊥) }
    ensures cursors { AreCursors table.now.entries.items cursors.new.items }
{
    if marks[number] {
        return false;
    }
    let entry = &table.entries[number];
    match entry.progress {
        Progress::Waiting => are_there(table, entry.inputs.as_slice(), &mut cursors[number]),
        _ => false,
    }
}

/// Lists the key of a number where it is ready and isn't listed yet.
fn look_at(table: &Table, marks: &[bool], ready: &mut ReadyList, number: usize)
    requires kept { AreKept table.now marks.now }
    requires within { number < length table.now.entries.items }
    requires cursors { AreCursors table.now.entries.items ready.old.cursors.items }
    requires list { IsList table.now.entries.items ready.old }
    requires room { HasRoom (length table.now.entries.items) ready.old }
    ensures cursors { AreCursors table.now.entries.items ready.new.cursors.items }
    ensures list { IsList table.now.entries.items ready.new }
    ensures room { HasRoom (length table.now.entries.items) ready.new }
    ensures listed { IsReadyAt table.now.entries.items number → Contains (listed ready.new) number }
    ensures kept { (other : ℕ) → Contains (listed ready.old) other → Contains (listed ready.new) other }
{
    if is_ready(table, marks, &mut ready.cursors, number) {
        ready.add(table, number);
    }
}

/// Lists the ready keys from a number on that aren't listed yet.
pub(crate) fn list_ready(table: &Table, marks: &[bool], ready: &mut ReadyList, from: usize)
    requires kept { AreKept table.now marks.now }
    requires before { (number : ℕ) → number < from → IsReadyAt table.now.entries.items number → Contains (listed ready.old) number }
    requires cursors { AreCursors table.now.entries.items ready.old.cursors.items }
    requires list { IsList table.now.entries.items ready.old }
    requires room { HasRoom (length table.now.entries.items) ready.old }
    ensures cursors { AreCursors table.now.entries.items ready.new.cursors.items }
    ensures list { IsList table.now.entries.items ready.new }
    ensures all { ListsAll table.now.entries.items ready.new }
    ensures room { HasRoom (length table.now.entries.items) ready.new }
{
    for number in from..table.entries.len() {
        look_at(table, marks, ready, number);
    }
}

/// Lists the ready keys among the users of a key that aren't listed yet.
pub(crate) fn list_users(
    table: &Table,
    users: &Users,
    marks: &[bool],
    ready: &mut ReadyList,
    number: usize,
)
    requires kept { AreKept table.now marks.now }
    requires users { AreUsers table.now.entries.items users.now }
    requires count { length users.now.lasts.items ≡ length table.now.entries.items }
    requires within { number < length table.now.entries.items }
    requires cursors { AreCursors table.now.entries.items ready.old.cursors.items }
    requires list { IsList table.now.entries.items ready.old }
    requires room { HasRoom (length table.now.entries.items) ready.old }
    requires others { (other : ℕ) → IsReadyAt table.now.entries.items other → Contains (listed ready.old) other ⊎ IsUser table.now.entries.items other number }
    ensures cursors { AreCursors table.now.entries.items ready.new.cursors.items }
    ensures list { IsList table.now.entries.items ready.new }
    ensures all { ListsAll table.now.entries.items ready.new }
    ensures room { HasRoom (length table.now.entries.items) ready.new }
{
    let mut next = users.lasts[number];
    while let Some(place) = next {
        look_at(table, marks, ready, users.links[place].user);
        next = users.befores[place];
    }
}

/// The task of the key of a number. The outputs that its inputs name are there.
pub(crate) fn task_of(alloc: Global, table: &Table, number: usize) -> Result<Task, AllocError>
    requires table { IsTable table.now }
    requires there { (entry : SpecEntry) × (slice_get table.now.entries.items number ≡ Some entry) × AreThere table.now.entries.items entry.inputs }
    ensures key { IfOk result (λ task. (entry : SpecEntry) → slice_get table.now.entries.items number ≡ Some entry → entry.key ≡ task.key) }
    ensures inputs { IfOk result (λ task. (entry : SpecEntry) → slice_get table.now.entries.items number ≡ Some entry
        → AllZip (HasOutput table.now.entries.items) entry.inputs task.inputs.items) }
{
    let entry = &table.entries[number];
    let inputs = outputs_of(alloc, table, entry.inputs.as_slice())?;
    Ok(Task {
        key: entry.key,
        inputs,
    })
}
