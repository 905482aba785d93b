ghost use Rattle.std.specs.Prelude.{◌≡◌, slice_get, slice_set, Some};
ghost use Rattle.keytable.specs.declared.entry.Entry.{Entry as SpecEntry};
ghost use Rattle.keytable.specs.declared.entry.Progress.TheVariants.{Out, Waiting};
ghost use Rattle.jobs.specs.Kept.{AreListed};

use super::known_keys::KnownKeys;
use super::ready::list_users;
use keytable::{Progress, settle};

/// Sets the progress of a key that was handed out, marks the keys that fail because of it, and lists
/// those that it makes ready.
pub(crate) fn finish(known: &mut KnownKeys, number: usize, progress: Progress)
    requires listed { AreListed known.old }
    requires out { (entry : SpecEntry) × (slice_get known.old.table.entries.items number ≡ Some entry) × (entry.progress ≡ Out) }
    requires ends { progress ≡ Waiting → ⊥ }
    ensures listed { AreListed known.new }
    ensures users { known.new.users ≡ known.old.users }
    ensures entries { (entry : SpecEntry) → slice_get known.old.table.entries.items number ≡ Some entry
        → known.new.table.entries.items ≡ slice_set known.old.table.entries.items number (record entry { progress = progress }) }
{
    let (table, users) = (&mut known.table, &known.users);
    let (marks, todo) = (known.marks.as_mut_slice(), &mut known.todo);
    settle(table, users, marks, todo, number, progress);
    list_users(table, users, marks, &mut known.ready, number);
}
