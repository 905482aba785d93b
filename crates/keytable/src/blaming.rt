ghost use Rattle.std.specs.Prelude.{◌≡◌, ◌<◌, ◌≤◌, ◌+◌, ◌⊎◌, ℕ, true, [], length, slice_get, Some, IfOk, IfSome, IfNone};
ghost use Rattle.std.specs.Bool.{MatchBool};
ghost use Rattle.std.specs.List.{Contains};
ghost use Rattle.std.specs.Vec.{vec_capacity};
ghost use Rattle.names.specs.declared.digest.Key.{Key as SpecKey};
ghost use Rattle.ordering.specs.Flags.{flag_at};
ghost use Rattle.keytable.specs.declared.entry.Entry.{Entry as SpecEntry};
ghost use Rattle.keytable.specs.declared.users.Link.{Link as SpecLink};
ghost use Rattle.keytable.specs.Causes.{FailsItself, IsCause, IsFirstCause, IsFirstLacking, IsOwnCause};
ghost use Rattle.keytable.specs.Failing.{Fails, LacksOutput};
ghost use Rattle.keytable.specs.Kept.{AreKept};
ghost use Rattle.keytable.specs.Marks.{KeepsMarks};
ghost use Rattle.keytable.specs.Searching.{IsLooking};
ghost use Rattle.keytable.specs.Spreading.{AreSpread, Follows};
ghost use Rattle.keytable.specs.Tables.{IsTable};
ghost use Rattle.keytable.specs.Users.{AreLinked, AreUsers};

use super::cause::Cause;
use super::entry::Progress;
use super::marking::{mark, spread};
use super::outputs::output_at;
use super::table::Table;
use super::users::Users;
use farm_base::Key;
use std::alloc::{AllocError, Global};

/// Whether the key of an input is done without the output that the input names.
fn lacks_output(table: &Table, input: &(Key, u64)) -> bool
    requires { IsTable table.now }
    ensures { MatchBool result (LacksOutput table.now.entries.items input.now) (LacksOutput table.now.entries.items input.now → ⊥) }
{
    let Some(number) = table.number(&input.0) else {
        return false;
    };
    match &table.entries[number].progress {
        Progress::Done(outputs) => output_at(outputs.as_slice(), input.1).is_none(),
        _ => false,
    }
}

/// The first input whose key is done without the output that it names.
fn first_lacking(table: &Table, inputs: &[(Key, u64)]) -> Option<(Key, u64)>
    requires { IsTable table.now }
    ensures found { IfSome result (IsFirstLacking table.now.entries.items inputs.now) }
    ensures none { IfNone result ((input : SpecKey × ℕ) → Contains inputs.now input → LacksOutput table.now.entries.items input → ⊥) }
{
    for input in inputs {
        if lacks_output(table, input) {
            return Some(*input);
        }
    }
    None
}

/// Why the key of a number fails itself, if it does.
fn own_cause(table: &Table, number: usize) -> Option<Cause>
    requires table { IsTable table.now }
    requires within { number < length table.now.entries.items }
    ensures found { IfSome result (λ cause. (entry : SpecEntry) → slice_get table.now.entries.items number ≡ Some entry → IsOwnCause table.now.entries.items entry cause) }
    ensures none { IfNone result ((entry : SpecEntry) → slice_get table.now.entries.items number ≡ Some entry → FailsItself table.now.entries.items entry → ⊥) }
{
    let entry = &table.entries[number];
    if let Progress::Failed(fault) = &entry.progress {
        return Some(Cause::Failed(entry.key, *fault));
    }
    let (key, index) = first_lacking(table, entry.inputs.as_slice())?;
    Some(Cause::NoOutput(key, index))
}

/// Flags a key, and those that depend on it.
fn flag(users: &Users, flags: &mut [bool], todo: &mut Vec<usize>, number: usize)
    requires linked { AreLinked users.now }
    requires all { length users.now.befores.items ≡ length users.now.links.items }
    requires count { length users.now.lasts.items ≡ length flags.old }
    requires users { (place : ℕ) (link : SpecLink) → slice_get users.now.links.items place ≡ Some link → link.user < length flags.old }
    requires within { number < length flags.old }
    requires closed { AreSpread users.now.links.items flags.old [] }
    requires todo { todo.old.items ≡ [] }
    requires room { length flags.old ≤ vec_capacity todo.old }
    ensures closed { AreSpread users.now.links.items flags.new [] }
    ensures keeps { KeepsMarks flags.old flags.new }
    ensures flagged { flag_at flags.new number ≡ true }
    ensures only { (other : ℕ) → flag_at flags.new other ≡ true → flag_at flags.old other ≡ true ⊎ Follows users.now.links.items number other }
    ensures todo { todo.new.items ≡ [] }
    ensures capacity { vec_capacity todo.new ≡ vec_capacity todo.old }
{
    mark(flags, todo, number);
    spread(users, flags, todo);
}

/// Looks at the key of a number, where those below were looked at: the cause, if it is the first one of
/// the wanted key.
fn look_at(
    table: &Table,
    users: &Users,
    flags: &mut [bool],
    todo: &mut Vec<usize>,
    number: usize,
    wanted: usize,
) -> Option<Cause>
    requires table { IsTable table.now }
    requires users { AreUsers table.now.entries.items users.now }
    requires count { length users.now.lasts.items ≡ length table.now.entries.items }
    requires number { number < length table.now.entries.items }
    requires wanted { wanted < length table.now.entries.items }
    requires looking { IsLooking table.now.entries.items users.now.links.items wanted number flags.old }
    requires todo { todo.old.items ≡ [] }
    requires room { length table.now.entries.items ≤ vec_capacity todo.old }
    ensures found { IfSome result (λ cause. (entry : SpecEntry) → slice_get table.now.entries.items wanted ≡ Some entry → IsFirstCause table.now.entries.items entry.key cause) }
    ensures none { IfNone result (IsLooking table.now.entries.items users.now.links.items wanted (number + 1) flags.new) }
    ensures todo { todo.new.items ≡ [] }
    ensures capacity { vec_capacity todo.new ≡ vec_capacity todo.old }
{
    let cause = own_cause(table, number)?;
    flag(users, flags, todo, number);
    if flags[wanted] {
        return Some(cause);
    }
    None
}

/// The first cause of a key that fails.
fn first_cause(
    alloc: Global,
    table: &Table,
    users: &Users,
    wanted: usize,
) -> Result<Cause, AllocError>
    requires table { IsTable table.now }
    requires users { AreUsers table.now.entries.items users.now }
    requires count { length users.now.lasts.items ≡ length table.now.entries.items }
    requires fails { (entry : SpecEntry) × (slice_get table.now.entries.items wanted ≡ Some entry) × Fails table.now.entries.items entry.key }
    ensures { IfOk result (λ cause. (entry : SpecEntry) → slice_get table.now.entries.items wanted ≡ Some entry → IsFirstCause table.now.entries.items entry.key cause) }
{
    let count = table.entries.len();
    let mut all = vec![in alloc; false; count]?;
    let mut todo = Vec::with_capacity(alloc, count)?;
    let flags = all.as_mut_slice();
    for number in 0..count {
        if let Some(cause) = look_at(table, users, flags, &mut todo, number, wanted) {
            return Ok(cause);
        }
    }
    unreachable!()
}

/// Why the job with this result has no output, if its key fails or is done without it.
pub fn cause_of(
    alloc: Global,
    table: &Table,
    users: &Users,
    marks: &[bool],
    wanted: &(Key, u64),
) -> Result<Option<Cause>, AllocError>
    requires kept { AreKept table.now marks.now }
    requires users { AreUsers table.now.entries.items users.now }
    requires count { length users.now.lasts.items ≡ length table.now.entries.items }
    ensures { IfOk result (IsCause table.now.entries.items wanted.now) }
{
    let Some(number) = table.number(&wanted.0) else {
        return Ok(None);
    };
    if marks[number] {
        let cause = first_cause(alloc, table, users, number)?;
        return Ok(Some(cause));
    }
    if lacks_output(table, wanted) {
        return Ok(Some(Cause::NoOutput(wanted.0, wanted.1)));
    }
    Ok(None)
}
