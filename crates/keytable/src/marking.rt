ghost use Rattle.std.specs.Prelude.{◌≡◌, ◌<◌, ◌≤◌, ◌+◌, ◌⊎◌, ℕ, true, [], length, slice_get, slice_set, Some};
ghost use Rattle.std.specs.Bool.{MatchBool};
ghost use Rattle.std.specs.List.{Contains};
ghost use Rattle.std.specs.Vec.{vec_len, vec_capacity};
ghost use Rattle.names.specs.declared.digest.Key.{Key as SpecKey};
ghost use Rattle.ordering.specs.Flags.{flag_at};
ghost use Rattle.ordering.specs.Sorting.{open_count};
ghost use Rattle.keytable.specs.declared.entry.Entry.{Entry as SpecEntry};
ghost use Rattle.keytable.specs.declared.entry.Progress.TheVariants.{Out};
ghost use Rattle.keytable.specs.Kept.{AreKept};
ghost use Rattle.keytable.specs.declared.users.Link.{Link as SpecLink};
ghost use Rattle.keytable.specs.Failing.{LacksOutput};
ghost use Rattle.keytable.specs.Marks.{IsLost, HasLost, MarksFail, KeepsMarks};
ghost use Rattle.keytable.specs.Spreading.{AreSpread, GetsMark, Lacks, Marking};
ghost use Rattle.keytable.specs.Tables.{IsTable};
ghost use Rattle.keytable.specs.Users.{AreLinked, AreUsers, IsUser};

use super::entry::Progress;
use super::outputs::output_at;
use super::table::Table;
use super::users::Users;
use farm_base::{Digest, Key};

/// Whether an input never comes.
fn is_lost(table: &Table, marks: &[bool], input: &(Key, u64)) -> bool
    requires table { IsTable table.now }
    requires count { length marks.now ≡ length table.now.entries.items }
    ensures { MatchBool result (IsLost table.now.entries.items marks.now input.now) (IsLost table.now.entries.items marks.now input.now → ⊥) }
{
    let Some(number) = table.number(&input.0) else {
        return false;
    };
    if marks[number] {
        return true;
    }
    match &table.entries[number].progress {
        Progress::Done(outputs) => output_at(outputs.as_slice(), input.1).is_none(),
        _ => false,
    }
}

/// Whether one of the inputs never comes.
fn has_lost(table: &Table, marks: &[bool], inputs: &[(Key, u64)]) -> bool
    requires table { IsTable table.now }
    requires count { length marks.now ≡ length table.now.entries.items }
    ensures { MatchBool result (HasLost table.now.entries.items marks.now inputs.now) (HasLost table.now.entries.items marks.now inputs.now → ⊥) }
{
    for input in inputs {
        if is_lost(table, marks, input) {
            return true;
        }
    }
    false
}

/// Marks a key that fails. Its users are to be looked at where it wasn't marked.
pub fn mark(marks: &mut [bool], todo: &mut Vec<usize>, number: usize)
    requires within { number < length marks.old }
    requires room { vec_len todo.old + open_count marks.old ≤ vec_capacity todo.old }
    ensures marks { Marking marks.old todo.old.items marks.new todo.new.items }
    ensures marked { flag_at marks.new number ≡ true }
    ensures only { (other : ℕ) → flag_at marks.new other ≡ true → flag_at marks.old other ≡ true ⊎ (number ≡ other) }
    ensures steps { vec_len todo.new + open_count marks.new ≡ vec_len todo.old + open_count marks.old }
    ensures capacity { vec_capacity todo.new ≡ vec_capacity todo.old }
{
    if !marks[number] {
        marks[number] = true;
        todo.push_reserved(number);
    }
}

/// Marks the users of a key that take an output that isn't among these.
fn mark_users(
    users: &Users,
    marks: &mut [bool],
    todo: &mut Vec<usize>,
    number: usize,
    outputs: &[Digest],
)
    requires linked { AreLinked users.now }
    requires all { length users.now.befores.items ≡ length users.now.links.items }
    requires within { number < length users.now.lasts.items }
    requires users { (place : ℕ) (link : SpecLink) → slice_get users.now.links.items place ≡ Some link → link.user < length marks.old }
    requires room { vec_len todo.old + open_count marks.old ≤ vec_capacity todo.old }
    ensures marks { Marking marks.old todo.old.items marks.new todo.new.items }
    ensures marked { (user : ℕ) → Lacks users.now.links.items number outputs.now user → flag_at marks.new user ≡ true }
    ensures only { (user : ℕ) → flag_at marks.new user ≡ true → flag_at marks.old user ≡ true ⊎ Lacks users.now.links.items number outputs.now user }
    ensures steps { vec_len todo.new + open_count marks.new ≡ vec_len todo.old + open_count marks.old }
    ensures capacity { vec_capacity todo.new ≡ vec_capacity todo.old }
{
    let mut next = users.lasts[number];
    while let Some(place) = next {
        let link = users.links[place];
        if output_at(outputs, link.index).is_none() {
            mark(marks, todo, link.user);
        }
        next = users.befores[place];
    }
}

/// Marks the users of the keys that are to be looked at, and theirs, each key once.
pub fn spread(users: &Users, marks: &mut [bool], todo: &mut Vec<usize>)
    requires linked { AreLinked users.now }
    requires all { length users.now.befores.items ≡ length users.now.links.items }
    requires count { length users.now.lasts.items ≡ length marks.old }
    requires users { (place : ℕ) (link : SpecLink) → slice_get users.now.links.items place ≡ Some link → link.user < length marks.old }
    requires marked { (number : ℕ) → Contains todo.old.items number → flag_at marks.old number ≡ true }
    requires others { AreSpread users.now.links.items marks.old todo.old.items }
    requires room { vec_len todo.old + open_count marks.old ≤ vec_capacity todo.old }
    ensures keeps { KeepsMarks marks.old marks.new }
    ensures only { (number : ℕ) → flag_at marks.new number ≡ true → GetsMark users.now.links.items marks.old number }
    ensures all_marked { AreSpread users.now.links.items marks.new [] }
    ensures todo { todo.new.items ≡ [] }
    ensures capacity { vec_capacity todo.new ≡ vec_capacity todo.old }
{
    while let Some(number) = todo.pop() {
        mark_users(users, marks, todo, number, &[]);
    }
}

/// Marks the keys from a number on that have an input that never comes.
pub fn mark_new(table: &Table, marks: &mut [bool], todo: &mut Vec<usize>, from: usize)
    requires table { IsTable table.now }
    requires count { length marks.old ≡ length table.now.entries.items }
    requires room { vec_len todo.old + open_count marks.old ≤ vec_capacity todo.old }
    ensures marks { Marking marks.old todo.old.items marks.new todo.new.items }
    ensures fail { MarksFail table.now.entries.items marks.old → MarksFail table.now.entries.items marks.new }
    ensures lacking { (number : ℕ) (entry : SpecEntry) (input : SpecKey × ℕ) → from ≤ number → slice_get table.now.entries.items number ≡ Some entry → Contains entry.inputs input
        → LacksOutput table.now.entries.items input → flag_at marks.new number ≡ true }
    ensures users { (user source : ℕ) → from ≤ user → IsUser table.now.entries.items user source → flag_at marks.new source ≡ true → flag_at marks.new user ≡ true ⊎ Contains todo.new.items source }
    ensures steps { vec_len todo.new + open_count marks.new ≡ vec_len todo.old + open_count marks.old }
    ensures capacity { vec_capacity todo.new ≡ vec_capacity todo.old }
{
    for number in from..table.entries.len() {
        if has_lost(table, marks, table.entries[number].inputs.as_slice()) {
            mark(marks, todo, number);
        }
    }
}

/// Sets the progress of a key that is being solved, and marks the keys that fail because of it.
pub fn settle(
    table: &mut Table,
    users: &Users,
    marks: &mut [bool],
    todo: &mut Vec<usize>,
    number: usize,
    progress: Progress,
)
    requires kept { AreKept table.old marks.old }
    requires users { AreUsers table.old.entries.items users.now }
    requires count { length users.now.lasts.items ≡ length table.old.entries.items }
    requires out { (entry : SpecEntry) × (slice_get table.old.entries.items number ≡ Some entry) × (entry.progress ≡ Out) }
    requires todo { todo.old.items ≡ [] }
    requires room { length table.old.entries.items ≤ vec_capacity todo.old }
    ensures kept { AreKept table.new marks.new }
    ensures entries { (entry : SpecEntry) → slice_get table.old.entries.items number ≡ Some entry
        → table.new.entries.items ≡ slice_set table.old.entries.items number (record entry { progress = progress }) }
    ensures todo { todo.new.items ≡ [] }
    ensures capacity { vec_capacity todo.new ≡ vec_capacity todo.old }
{
    table.set_progress(number, progress);
    match &table.entries[number].progress {
        Progress::Failed(_) => mark(marks, todo, number),
        Progress::Done(outputs) => mark_users(users, marks, todo, number, outputs.as_slice()),
        _ => {}
    }
    spread(users, marks, todo);
}
