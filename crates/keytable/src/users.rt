ghost use Rattle.std.specs.Prelude.{◌≡◌, ◌<◌, ◌≤◌, ◌+◌, ℕ, [], OnOk, OnErr, length, slice_get, Some};
ghost use Rattle.std.specs.Vec.{vec_capacity};
ghost use Rattle.keytable.specs.Adding.{BeginsWith};

use super::table::Table;
use std::alloc::{AllocError, Global};

/// An input of a submitted key.
#[derive(Clone, Copy)]
pub struct Link {
    /// The number of the key whose output it takes.
    pub source: usize,
    /// The index of that output.
    pub index: u64,
    /// The number of the key that takes it.
    pub user: usize,
}

/// For each key a list of those that take its outputs.
#[derive(Drop)]
pub struct Users {
    /// The inputs of all keys, in order.
    pub links: Vec<Link>,
    /// For each of them the place of the one before it that has its source.
    pub befores: Vec<Option<usize>>,
    /// For each key the place of the last link that has it as its source.
    pub lasts: Vec<Option<usize>>,
}

impl Users {
    ghost use Rattle.keytable.specs.Tables.{IsTable};
    ghost use Rattle.keytable.specs.Users.{AreInputs, AreLinked, AreUsers, IsNoted, IsSameUsers};

    pub fn new(alloc: Global) -> Self
        ensures users { AreUsers [] result }
        ensures count { result.lasts.items ≡ [] }
    {
        Users {
            links: Vec::new(alloc),
            befores: Vec::new(alloc),
            lasts: Vec::new(alloc),
        }
    }

    /// Notes the inputs of the key of a number. Where memory runs out some are there.
    fn note(&mut self, table: &Table, number: usize) -> Result<(), AllocError>
        requires table { IsTable table.now }
        requires within { number < length table.now.entries.items }
        ensures front { BeginsWith self.old.links.items self.new.links.items }
        ensures inputs { AreInputs table.now.entries.items self.old.links.items → AreInputs table.now.entries.items self.new.links.items }
        ensures noted { OnOk result (IsNoted table.now.entries.items self.new.links.items number) }
        ensures befores { self.new.befores ≡ self.old.befores }
        ensures lasts { self.new.lasts ≡ self.old.lasts }
    {
        for (key, index) in table.entries[number].inputs.as_slice() {
            if let Some(source) = table.number(key) {
                self.links.push(Link {
                    source,
                    index: *index,
                    user: number,
                })?;
            }
        }
        Ok(())
    }

    /// Notes the inputs of the keys from a number on. Where memory runs out some are there.
    fn note_all(&mut self, table: &Table, from: usize) -> Result<(), AllocError>
        requires table { IsTable table.now }
        ensures front { BeginsWith self.old.links.items self.new.links.items }
        ensures inputs { AreInputs table.now.entries.items self.old.links.items → AreInputs table.now.entries.items self.new.links.items }
        ensures noted { OnOk result ((number : ℕ) → from ≤ number → number < length table.now.entries.items → IsNoted table.now.entries.items self.new.links.items number) }
        ensures befores { self.new.befores ≡ self.old.befores }
        ensures lasts { self.new.lasts ≡ self.old.lasts }
    {
        for number in from..table.entries.len() {
            self.note(table, number)?;
        }
        Ok(())
    }

    /// Puts the next link into the list of its source, in the room that is there.
    fn link_next(&mut self)
        requires linked { AreLinked self.old }
        requires more { length self.old.befores.items < length self.old.links.items }
        requires room { length self.old.befores.items < vec_capacity self.old.befores }
        requires sources { (link : _) → slice_get self.old.links.items (length self.old.befores.items) ≡ Some link → link.source < length self.old.lasts.items }
        ensures linked { AreLinked self.new }
        ensures links { self.new.links ≡ self.old.links }
        ensures befores { length self.new.befores.items ≡ length self.old.befores.items + 1 }
        ensures lasts { length self.new.lasts.items ≡ length self.old.lasts.items }
        ensures capacity { vec_capacity self.old.befores ≤ vec_capacity self.new.befores }
    {
        let place = self.befores.len();
        let source = self.links[place].source;
        let last = self.lasts[source];
        self.befores.push(last).unwrap();
        self.lasts[source] = Some(place);
    }

    /// Puts all links into the lists of their sources, in the room that is there.
    fn link_all(&mut self)
        requires linked { AreLinked self.old }
        requires room { length self.old.links.items ≤ vec_capacity self.old.befores }
        requires sources { (place : ℕ) (link : _) → slice_get self.old.links.items place ≡ Some link → link.source < length self.old.lasts.items }
        ensures linked { AreLinked self.new }
        ensures all { length self.new.befores.items ≡ length self.new.links.items }
        ensures links { self.new.links.items ≡ self.old.links.items }
        ensures lasts { length self.new.lasts.items ≡ length self.old.lasts.items }
    {
        while self.befores.len() < self.links.len() {
            self.link_next();
        }
    }

    /// Notes the inputs of the new keys, and makes room for their lists. Where memory runs out some are
    /// there.
    fn grow(&mut self, table: &Table) -> Result<(), AllocError>
        requires table { IsTable table.now }
        requires users { AreUsers table.now.entries.items self.old }
        requires count { length self.old.lasts.items ≤ length table.now.entries.items }
        ensures front { BeginsWith self.old.links.items self.new.links.items }
        ensures befores { self.new.befores.items ≡ self.old.befores.items }
        ensures err { OnErr result (self.new.lasts.items ≡ self.old.lasts.items) }
        ensures count { OnOk result (length self.new.lasts.items ≡ length table.now.entries.items) }
        ensures linked { OnOk result (AreLinked self.new) }
        ensures room { OnOk result (length self.new.links.items ≤ vec_capacity self.new.befores) }
        ensures inputs { AreInputs table.now.entries.items self.new.links.items }
        ensures noted { OnOk result ((number : ℕ) → number < length table.now.entries.items → IsNoted table.now.entries.items self.new.links.items number) }
    {
        let count = self.lasts.len();
        self.note_all(table, count)?;
        let more = self.links.len() - self.befores.len();
        self.befores.reserve(more)?;
        self.lasts.resize(table.entries.len(), None)?;
        Ok(())
    }

    /// Adds the new keys and their inputs. Where memory runs out nothing is changed.
    pub fn extend(&mut self, table: &Table) -> Result<(), AllocError>
        requires table { IsTable table.now }
        requires users { AreUsers table.now.entries.items self.old }
        requires count { length self.old.lasts.items ≤ length table.now.entries.items }
        ensures users { OnOk result (AreUsers table.now.entries.items self.new) }
        ensures count { OnOk result (length self.new.lasts.items ≡ length table.now.entries.items) }
        ensures err { OnErr result (IsSameUsers self.old self.new) }
    {
        let count = self.links.len();
        match self.grow(table) {
            Ok(()) => {
                self.link_all();
                Ok(())
            }
            Err(error) => {
                self.links.truncate(count);
                Err(error)
            }
        }
    }
}
