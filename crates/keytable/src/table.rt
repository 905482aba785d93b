ghost use Rattle.std.specs.Prelude.{◌≡◌, ◌<◌, ◌++◌, ◌∷◌, ℕ, [], take, OnOk, OnErr, IfSome, IfNone, length, slice_get, slice_set, Some};
ghost use Rattle.std.specs.Vec.{vec_len, vec_capacity};
ghost use Rattle.keytable.specs.declared.entry.Entry.{Entry as SpecEntry};
ghost use Rattle.keytable.specs.declared.entry.Progress.TheVariants.{Out, Waiting};

use super::entry::{Entry, Progress};
use farm_base::{Items, Key};
use indexmap::IndexSet;
use std::alloc::{AllocError, Global};

/// The submitted keys, in order.
#[derive(Drop)]
pub struct Table {
    pub numbers: IndexSet<Key>,
    pub entries: Vec<Entry>,
}

impl Table {
    ghost use Rattle.keytable.specs.Failing.{IsSubmitted};
    ghost use Rattle.indexmap.specs.IndexSet.{IsUnique, insert_key};
    ghost use Rattle.keytable.specs.Adding.{IsFront};
    ghost use Rattle.keytable.specs.Tables.{IsTable, key_eq};

    pub fn new(alloc: Global) -> Self
        ensures table { IsTable result }
        ensures entries { result.entries.items ≡ [] }
    {
        Table {
            numbers: IndexSet::new(alloc),
            entries: Vec::new(alloc),
        }
    }

    /// The number of a key.
    pub fn number(&self, key: &Key) -> Option<usize>
        requires { IsTable self.now }
        ensures found { IfSome result (λ number. (entry : SpecEntry) × (slice_get self.now.entries.items number ≡ Some entry) × (entry.key ≡ key.now)) }
        ensures none { IfNone result ((number : ℕ) (entry : SpecEntry) → slice_get self.now.entries.items number ≡ Some entry → entry.key ≡ key.now → ⊥) }
    {
        self.numbers.get_index_of(key)
    }

    /// Makes room for an entry, and gives a key its number. Where memory runs out it has none.
    fn add_number(&mut self, key: Key) -> Result<(), AllocError>
        ensures entries { self.new.entries.items ≡ self.old.entries.items }
        ensures room { OnOk result (vec_len self.new.entries < vec_capacity self.new.entries) }
        ensures keys { OnOk result (self.new.numbers.keys ≡ insert_key key_eq self.old.numbers.keys key) }
        ensures unique { OnOk result (IsUnique key_eq self.new.numbers) }
        ensures err { OnErr result (self.new.numbers.keys ≡ self.old.numbers.keys) }
    {
        self.entries.reserve(1)?;
        self.numbers.insert_full(key)?;
        Ok(())
    }

    /// Adds a new key at the end.
    pub fn push(&mut self, key: Key, inputs: Items<(Key, u64)>) -> Result<(), AllocError>
        requires table { IsTable self.old }
        requires new { (number : ℕ) (entry : SpecEntry) → slice_get self.old.entries.items number ≡ Some entry → entry.key ≡ key → ⊥ }
        ensures front { IsFront self.old self.new }
        ensures table { OnOk result (IsTable self.new) }
        ensures entries { OnOk result (self.new.entries.items ≡ self.old.entries.items ++ record { key = key; inputs = inputs; progress = Waiting } ∷ []) }
        ensures err { OnErr result ((self.new.entries.items ≡ self.old.entries.items) × (self.new.numbers.keys ≡ self.old.numbers.keys)) }
    {
        self.add_number(key)?;
        self.entries.push_reserved(Entry {
            key,
            inputs,
            progress: Progress::Waiting,
        });
        Ok(())
    }

    /// Keeps the first `count` keys.
    pub fn truncate(&mut self, count: usize)
        ensures keys { self.new.numbers.keys ≡ take count self.old.numbers.keys }
        ensures unique { IsUnique key_eq self.new.numbers }
        ensures entries { self.new.entries.items ≡ take count self.old.entries.items }
    {
        self.numbers.truncate(count);
        self.entries.truncate(count);
    }

    /// Sets the progress of the key of a number.
    pub fn set_progress(&mut self, number: usize, progress: Progress)
        requires { number < length self.old.entries.items }
        ensures entries { (entry : SpecEntry) → slice_get self.old.entries.items number ≡ Some entry
            → self.new.entries.items ≡ slice_set self.old.entries.items number (record entry { progress = progress }) }
        ensures table { IsTable self.old → IsTable self.new }
    {
        self.entries[number].progress = progress;
    }

    /// The number of a key that is being solved.
    pub fn number_out(&self, key: &Key) -> Option<usize>
        requires { IsTable self.now }
        ensures found { IfSome result (λ number. (entry : SpecEntry) × (slice_get self.now.entries.items number ≡ Some entry) × (entry.key ≡ key.now) × (entry.progress ≡ Out)) }
        ensures none { IfNone result ((entry : SpecEntry) → IsSubmitted self.now.entries.items key.now entry → entry.progress ≡ Out → ⊥) }
    {
        let number = self.number(key)?;
        match self.entries[number].progress {
            Progress::Out => Some(number),
            _ => None,
        }
    }
}
