ghost use Rattle.std.specs.Prelude.{◌≡◌, ℕ, List, IfOk, OnOk, OnErr};
ghost use Rattle.saverecord.specs.Texts.{Texts, whole_alone, with_text};

use farm_base::Items;
use std::alloc::{AllocError, Global};
use std::marker::Model;

/// What a keeper keeps: a whole record, and an entry for each event since. No bytes of a whole record mean that none was
/// saved yet.
pub struct Log {
    whole: Vec<u8>,
    entries: Vec<Items<u8>>,
}

// By hand, so that letting go of one is one step of a proof.
impl Drop for Log {
    fn drop(self) {
        let Self {
            whole: _,
            entries: _,
        } = self;
    }
}

impl Model for Log {
    ghost use Rattle.saverecord.specs.Texts.{Texts};

    ghost Value = { Texts };

    ghost view = { λ l. record { whole = l.whole.items; entries = l.entries.items } };
}

impl Log {
    /// A whole record and no entry, without taking memory.
    pub fn of(alloc: Global, whole: Vec<u8>) -> Self
        ensures { result ≡ whole_alone whole.items }
    {
        Log {
            whole,
            entries: Vec::new(alloc),
        }
    }

    /// The bytes of the whole record.
    pub fn whole(&self) -> &[u8]
        ensures { result.now ≡ self.now.whole }
    {
        self.whole.as_slice()
    }

    /// The entries, in order.
    pub fn entries(&self) -> &[Items<u8>]
        ensures { result.now ≡ self.now.entries }
    {
        self.entries.as_slice()
    }

    /// Puts a whole record in the place of all, without taking memory.
    pub fn replace(&mut self, whole: Vec<u8>)
        ensures { self.new ≡ whole_alone whole.items }
    {
        self.whole = whole;
        self.entries.clear();
    }

    /// Adds an entry.
    pub fn push(&mut self, entry: Vec<u8>) -> Result<(), AllocError>
        ensures ok { OnOk result (self.new ≡ with_text entry.items self.old) }
        ensures err { OnErr result (self.new ≡ self.old) }
    {
        self.entries.push(Items::new(entry))?;
        Ok(())
    }

    /// Takes the last entry away, without wanting memory.
    pub fn pop(&mut self)
        ensures { (t : Texts) (entry : List ℕ) → self.old ≡ with_text entry t → self.new ≡ t }
    {
        self.entries.pop();
    }

    /// The same texts.
    pub fn copy(&self, alloc: Global) -> Result<Self, AllocError>
        ensures { IfOk result (λ copy. copy ≡ self.now) }
    {
        let whole = Vec::from_slice(alloc, self.whole.as_slice())?;
        let entries = copied(alloc, self.entries.as_slice())?;
        Ok(Log { whole, entries })
    }
}

/// A copy of each entry.
fn copied(alloc: Global, entries: &[Items<u8>]) -> Result<Vec<Items<u8>>, AllocError>
    ensures { IfOk result (λ copies. copies.items ≡ entries.now) }
{
    let mut copies = Vec::with_capacity(alloc, entries.len())?;
    for entry in entries {
        copies.push(Items::new(Vec::from_slice(alloc, entry.as_slice())?))?;
    }
    Ok(copies)
}
