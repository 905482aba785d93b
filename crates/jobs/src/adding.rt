ghost use Rattle.std.specs.Prelude.{◌≡◌, ◌≤◌, ◌-◌, ◌++◌, ◌∷◌, [], false, Some, slice_get, OnOk, OnErr, length, take, replicate};
ghost use Rattle.std.specs.Vec.{vec_capacity};
ghost use Rattle.names.specs.declared.digest.Key.{Key as SpecKey};
ghost use Rattle.solverkeys.specs.GraphKeys.{AreKeys};
ghost use Rattle.keytable.specs.Adding.{AreAdded};
ghost use Rattle.jobs.specs.Growth.{AreTabled, HasGrown, HasKept, HasMoreKeys};
ghost use Rattle.jobs.specs.Kept.{AreListed};
ghost use Rattle.keytable.specs.Reaching.{AreReached};
ghost use Rattle.jobs.specs.ReadyLists.{HasRoom, IsSameList};

use super::known_keys::KnownKeys;
use super::ready::list_ready;
use super::ready_list::ReadyList;
use keytable::{add_all, mark_new, reached, spread};
use names::Key;
use std::alloc::{AllocError, Global};
use vertices::Graph;

/// Makes room for `count` keys.
fn make_room(
    marks: &mut Vec<bool>,
    todo: &mut Vec<usize>,
    ready: &mut ReadyList,
    count: usize,
) -> Result<(), AllocError>
    ensures marks { marks.new.items ≡ marks.old.items }
    ensures marks_room { OnOk result (count ≤ vec_capacity marks.new) }
    ensures todo { todo.new.items ≡ todo.old.items }
    ensures todo_room { OnOk result (count ≤ vec_capacity todo.new) }
    ensures todo_capacity { vec_capacity todo.old ≤ vec_capacity todo.new }
    ensures list { IsSameList ready.old ready.new }
    ensures room { OnOk result (HasRoom count ready.new) }
    ensures cursors { ready.new.cursors.items ≡ ready.old.cursors.items }
    ensures cursor_room { OnOk result (count ≤ vec_capacity ready.new.cursors) }
{
    ready.reserve(count)?;
    todo.reserve(count)?;
    marks.reserve(count.saturating_sub(marks.len()))
}

/// Adds marks and cursors up to `count` keys, in the room that is there. None is marked, and no input is known.
fn fill(marks: &mut Vec<bool>, cursors: &mut Vec<usize>, count: usize)
    requires marks { count ≤ vec_capacity marks.old }
    requires cursors { count ≤ vec_capacity cursors.old }
    ensures marks { marks.new.items ≡ take count marks.old.items ++ replicate (count - length marks.old.items) false }
    ensures cursors { cursors.new.items ≡ take count cursors.old.items ++ replicate (count - length cursors.old.items) 0 }
{
    marks.resize(count, false).unwrap();
    cursors.resize(count, 0).unwrap();
}

/// Adds these keys, their users, their marks and their cursors, and makes room for them in the list. Where memory
/// runs out some keys may be there.
fn grow(
    alloc: Global,
    known: &mut KnownKeys,
    graph: &Graph,
    keys: &[Key],
    reached: &[bool],
) -> Result<(), AllocError>
    requires tabled { AreTabled known.old }
    requires keys { AreKeys graph.now keys.now }
    requires reached { AreReached graph.now reached.now }
    ensures grown { OnOk result (HasGrown graph.now keys.now known.old known.new) }
    ensures kept { HasKept known.old known.new }
    ensures err { OnErr result (HasMoreKeys known.old known.new) }
{
    add_all(alloc, &mut known.table, graph, keys, reached)?;
    let count = known.table.entries.len();
    make_room(&mut known.marks, &mut known.todo, &mut known.ready, count)?;
    known.users.extend(&known.table)?;
    fill(&mut known.marks, &mut known.ready.cursors, count);
    Ok(())
}

/// Adds these keys, marks those that fail, and lists those that are ready. Where memory runs out
/// nothing is changed.
fn extend(
    alloc: Global,
    known: &mut KnownKeys,
    graph: &Graph,
    keys: &[Key],
    reached: &[bool],
) -> Result<(), AllocError>
    requires listed { AreListed known.old }
    requires keys { AreKeys graph.now keys.now }
    requires reached { AreReached graph.now reached.now }
    ensures listed { AreListed known.new }
    ensures added { OnOk result (AreAdded graph.now keys.now known.old.table.entries.items known.new.table.entries.items) }
    ensures err { OnErr result (known.new.table.entries.items ≡ known.old.table.entries.items) }
{
    let count = known.table.entries.len();
    match grow(alloc, known, graph, keys, reached) {
        Ok(()) => {
            let flags = known.marks.as_mut_slice();
            mark_new(&known.table, flags, &mut known.todo, count);
            spread(&known.users, flags, &mut known.todo);
            let marks = known.marks.as_slice();
            list_ready(&known.table, marks, &mut known.ready, count);
            Ok(())
        }
        Err(error) => {
            known.table.truncate(count);
            Err(error)
        }
    }
}

/// The same, for the keys of the vertices that the graph's result depends on.
fn extend_reached(
    alloc: Global,
    known: &mut KnownKeys,
    graph: &Graph,
    keys: &[Key],
) -> Result<(), AllocError>
    requires listed { AreListed known.old }
    requires keys { AreKeys graph.now keys.now }
    ensures listed { AreListed known.new }
    ensures added { OnOk result (AreAdded graph.now keys.now known.old.table.entries.items known.new.table.entries.items) }
    ensures err { OnErr result (known.new.table.entries.items ≡ known.old.table.entries.items) }
{
    let reached = reached(alloc, graph)?;
    let flags = reached.as_slice();
    extend(alloc, known, graph, keys, flags)
}

/// Adds a job: its result, and the keys that this depends on. Where memory runs out nothing is changed.
pub(crate) fn add_job(
    alloc: Global,
    results: &mut Vec<(Key, u64)>,
    known: &mut KnownKeys,
    graph: &Graph,
    keys: &[Key],
) -> Result<(), AllocError>
    requires listed { AreListed known.old }
    requires keys { AreKeys graph.now keys.now }
    ensures listed { AreListed known.new }
    ensures results { OnOk result ((key : SpecKey) → slice_get keys.now graph.now.result.0 ≡ Some key → results.new.items ≡ results.old.items ++ (key, graph.now.result.1) ∷ []) }
    ensures added { OnOk result (AreAdded graph.now keys.now known.old.table.entries.items known.new.table.entries.items) }
    ensures err { OnErr result (known.new.table.entries.items ≡ known.old.table.entries.items) }
    ensures same_results { OnErr result (results.new.items ≡ results.old.items) }
{
    results.reserve(1)?;
    extend_reached(alloc, known, graph, keys)?;
    let (result, index) = graph.result();
    results.push_reserved((keys[result], index));
    Ok(())
}
