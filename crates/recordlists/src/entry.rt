//! The lists of a record.
ghost use Rattle.std.specs.Prelude.{◌≡◌, ℕ, List, ◌++◌, None, option_copied, OnOk};
ghost use Rattle.recordparts.specs.Parts.{Gives};
ghost use Rattle.recordlists.specs.Entries.{Reader, each_at, counted_at, list_at};
ghost use Rattle.recordlists.specs.EntryFits.{IsTypedList};
ghost use Rattle.recordlists.specs.EntrySpelling.{counted};

use farm_base::Items;
use recordparts::{Layout, RecordRefusal, take_u64};
use std::alloc::{AllocError, Global};

/// An entry of a list.
pub trait Entry: Drop + Sized {
    /// How it is read after the entry before it.
    ghost reads: { Reader Self };

    /// Its one spelling.
    ghost spells: { Self → List ℕ };

    /// What its type guarantees.
    ghost typed: { Self → Type 0 };

    fn take<'a>(
        alloc: Global,
        layout: Layout,
        before: Option<&Self>,
        bytes: &'a [u8],
    ) -> Result<(Self, &'a [u8]), RecordRefusal>
        ensures { Gives (λ x. (x.0, x.1.now)) result (reads layout (option_copied before.entry) bytes.now) };

    fn put(&self, out: &mut Vec<u8>) -> Result<(), AllocError>
        ensures spelled { OnOk result (out.new.items ≡ out.old.items ++ spells self.now) }
        ensures typed { OnOk result (typed self.now) };
}

/// Reads `count` entries.
fn take_each<X: Entry>(
    alloc: Global,
    layout: Layout,
    count: u64,
    bytes: &[u8],
) -> Result<(Items<X>, &[u8]), RecordRefusal>
    ensures { Gives (λ x. (x.0, x.1.now)) result (each_at X.reads layout None count bytes.now) }
{
    let mut entries: Vec<X> = Vec::new(alloc);
    let mut rest = bytes;
    for _ in 0..count {
        let (entry, after) = match X::take(alloc, layout, entries.last(), rest) {
            Ok(read) => read,
            Err(refusal) => return Err(refusal),
        };
        entries.push(entry)?;
        rest = after;
    }
    Ok((Items::new(entries), rest))
}

/// Reads a count from `low` to `high`, and then as many entries.
#[tactic(auto, unfolding(crate::specs::Entries::counted_at))]
pub(crate) fn take_counted<X: Entry>(
    alloc: Global,
    layout: Layout,
    low: u64,
    high: u64,
    bytes: &[u8],
) -> Result<(Items<X>, &[u8]), RecordRefusal>
    ensures { Gives (λ x. (x.0, x.1.now)) result (counted_at X.reads layout low high bytes.now) }
{
    let (count, rest) = take_u64(bytes, low, high)?;
    take_each(alloc, layout, count, rest)
}

/// A list of any length.
pub fn take_list<X: Entry>(
    alloc: Global,
    layout: Layout,
    bytes: &[u8],
) -> Result<(Items<X>, &[u8]), RecordRefusal>
    ensures { Gives (λ x. (x.0, x.1.now)) result (list_at X.reads layout bytes.now) }
{
    take_counted(alloc, layout, 0, u64::MAX, bytes)
}

/// Writes the count, and each entry.
pub fn put_counted<X: Entry>(out: &mut Vec<u8>, entries: &[X]) -> Result<(), AllocError>
    ensures spelled { OnOk result (out.new.items ≡ out.old.items ++ counted X.spells entries.now) }
    ensures typed { OnOk result (IsTypedList X.typed entries.now) }
{
    out.extend_from_slice(&(entries.len() as u64).to_be_bytes())?;
    for entry in entries {
        entry.put(out)?;
    }
    Ok(())
}
