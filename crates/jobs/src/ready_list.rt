ghost use Rattle.std.specs.Prelude.{◌≡◌, ◌+◌, ◌<◌, ◌≤◌, ℕ, [], length, slice_get, drop, insert, OnOk};
ghost use Rattle.std.specs.Vec.{vec_len, vec_capacity};
ghost use Rattle.std.specs.List.{Contains};

use keytable::Table;
use names::Key;
use std::alloc::{AllocError, Global};

/// The keys that were handed out, in that order, and behind them the ready ones by rising number.
#[derive(Drop)]
pub(crate) struct ReadyList {
    /// How many of them were handed out.
    pub taken: usize,
    /// Their numbers.
    pub numbers: Vec<usize>,
    pub keys: Vec<Key>,
    /// For each submitted key how many of its first inputs are known to be there. What is there stays
    /// there, so they aren't looked at again.
    pub cursors: Vec<usize>,
}

/// Inserts an item in the room that is there.
fn put<T: Drop>(items: &mut Vec<T>, place: usize, item: T)
    requires place { place ≤ vec_len items.old }
    requires room { vec_len items.old < vec_capacity items.old }
    ensures items { items.new.items ≡ insert items.old.items place item }
    ensures capacity { vec_capacity items.old ≤ vec_capacity items.new }
{
    items.insert(place, item).unwrap();
}

impl ReadyList {
    ghost use Rattle.jobs.specs.ReadyLists.{AreCursors, IsList, IsReadyAt, IsSameList, ListsAll, HasRoom, listed};
    ghost use Rattle.keytable.specs.Tables.{IsTable};

    pub(crate) fn new(alloc: Global) -> Self
        ensures list { IsList [] result }
        ensures all { ListsAll [] result }
        ensures room { HasRoom 0 result }
        ensures cursors { AreCursors [] result.cursors.items }
    {
        ReadyList {
            taken: 0,
            numbers: Vec::new(alloc),
            keys: Vec::new(alloc),
            cursors: Vec::new(alloc),
        }
    }

    /// The ready keys.
    pub(crate) fn as_slice(&self) -> &[Key]
        requires { self.now.taken ≤ length self.now.keys.items }
        ensures { result.now ≡ drop self.now.taken self.now.keys.items }
    {
        &self.keys[self.taken..]
    }

    /// Makes room for `count` keys.
    pub(crate) fn reserve(&mut self, count: usize) -> Result<(), AllocError>
        ensures room { OnOk result (HasRoom count self.new) }
        ensures list { IsSameList self.old self.new }
        ensures cursors { self.new.cursors.items ≡ self.old.cursors.items }
        ensures cursor_room { OnOk result (count ≤ vec_capacity self.new.cursors) }
    {
        self.numbers
            .reserve(count.saturating_sub(self.numbers.len()))?;
        self.keys.reserve(count.saturating_sub(self.keys.len()))?;
        self.cursors
            .reserve(count.saturating_sub(self.cursors.len()))
    }

    /// The number of the first ready key.
    pub(crate) fn first(&self) -> Option<usize>
        ensures { result ≡ slice_get self.now.numbers.items self.now.taken }
    {
        self.numbers.get(self.taken).copied()
    }

    /// Adds a ready key at its place, where it isn't there yet. Its place is found by binary search, and
    /// the ready keys behind it move up.
    pub(crate) fn add(&mut self, table: &Table, number: usize)
        requires table { IsTable table.now }
        requires list { IsList table.now.entries.items self.old }
        requires room { HasRoom (length table.now.entries.items) self.old }
        requires ready { IsReadyAt table.now.entries.items number }
        ensures list { IsList table.now.entries.items self.new }
        ensures room { HasRoom (length table.now.entries.items) self.new }
        ensures added { Contains (listed self.new) number }
        ensures kept { (other : ℕ) → Contains (listed self.old) other → Contains (listed self.new) other }
        ensures cursors { self.new.cursors ≡ self.old.cursors }
    {
        let Err(place) = self.numbers[self.taken..].binary_search(&number) else {
            return;
        };
        let place = self.taken + place;
        put(&mut self.numbers, place, number);
        put(&mut self.keys, place, table.entries[number].key);
    }

    /// Takes the first ready key from the list.
    pub(crate) fn take(&mut self)
        requires { self.old.taken < length self.old.numbers.items }
        ensures taken { self.new.taken ≡ self.old.taken + 1 }
        ensures numbers { self.new.numbers.items ≡ self.old.numbers.items }
        ensures keys { self.new.keys.items ≡ self.old.keys.items }
        ensures cursors { self.new.cursors ≡ self.old.cursors }
        ensures room { (count : ℕ) → HasRoom count self.old → HasRoom count self.new }
    {
        self.taken += 1;
    }
}
