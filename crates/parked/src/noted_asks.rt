//! Which of the asks that wait want each folder, and which are each node's.
ghost use Rattle.std.specs.Prelude.{◌≡◌, ℕ, ◌≤◌, true, false, None, OnOk, IfOk, IfSome};
ghost use Rattle.std.specs.List.Sorted.{IsNonDecreasing};
ghost use Rattle.std.specs.Ordering.{nat_cmp};
ghost use Rattle.std.specs.BTreeSet.{contains};
ghost use Rattle.indexmap.specs.IndexMap.{get};
ghost use Rattle.protocol.specs.Lists.{In};
ghost use Rattle.protocol.specs.Names.{FolderName, NodeId, Want};
ghost use Rattle.parked.specs.Numbers.{numbers_from};
ghost use Rattle.parked.specs.Noted.{has_number, notes_want, notes_node, notes_some, notes_one, AreIndexed, IsIndexed, Keeps, KeepsOf, Reaches};

use super::numbers::{after, is_among};
use farm_base::{Copied, FolderName, NodeId, Parked, Slot, Want};
use indexmap::IndexMap;
use std::alloc::{AllocError, Global};
use std::collections::BTreeSet;
use std::hash::Hash;

/// The numbers of the asks that want each folder, and of those of each node. Other numbers may be there too: of asks that are
/// over, or that never came to wait since their event failed.
#[derive(Drop)]
pub struct NotedAsks {
    by_folder: IndexMap<FolderName, BTreeSet<u64>>,
    by_node: IndexMap<NodeId, BTreeSet<u64>>,
}

/// Notes a number beside those of a key. The answer is whether it has any.
fn note_more<K: Eq + Hash + Drop>(
    noted: &mut IndexMap<K, BTreeSet<u64>>,
    key: &K,
    number: u64,
) -> Result<bool, AllocError>
    ensures added { IfOk result (λ known. known ≡ true → has_number (get K.eq noted.new key.now) number ≡ true) }
    ensures none { IfOk result (λ known. known ≡ false → get K.eq noted.new key.now ≡ None) }
    ensures kept { (n : ℕ) → has_number (get K.eq noted.old key.now) n ≡ true → has_number (get K.eq noted.new key.now) n ≡ true }
    ensures others { (k : K) → K.eq key.now k ≡ false → get K.eq noted.new k ≡ get K.eq noted.old k }
{
    let Some(numbers) = noted.get_mut(key) else {
        return Ok(false);
    };
    numbers.insert(number)?;
    Ok(true)
}

/// Notes the first number of a key.
fn note_first<K: Eq + Hash + Drop>(
    alloc: Global,
    noted: &mut IndexMap<K, BTreeSet<u64>>,
    key: K,
    number: u64,
) -> Result<(), AllocError>
    ensures added { OnOk result (has_number (get K.eq noted.new key) number ≡ true) }
    ensures others { (k : K) → K.eq key k ≡ false → get K.eq noted.new k ≡ get K.eq noted.old k }
{
    let mut numbers = BTreeSet::new(alloc);
    numbers.insert(number)?;
    noted.insert(key, numbers)?;
    Ok(())
}

/// Removes the first numbers, up to one of an ask that waits.
fn drop_gone(numbers: &mut BTreeSet<u64>, waiting: &[u64])
    requires { IsNonDecreasing waiting.now }
    ensures { (n : ℕ) → In n waiting.now → contains nat_cmp numbers.old n ≡ true → contains nat_cmp numbers.new n ≡ true }
{
    while let Some(first) = first_gone(numbers, waiting) {
        numbers.remove(&first);
    }
}

/// The first of the numbers, if its ask doesn't wait.
fn first_gone(numbers: &BTreeSet<u64>, waiting: &[u64]) -> Option<u64>
    requires { IsNonDecreasing waiting.now }
    ensures gone { IfSome result (λ first. In first waiting.now → ⊥) }
    ensures there { IfSome result (λ first. contains nat_cmp numbers.now first ≡ true) }
{
    let first = *numbers.first()?;
    if is_among(waiting, first) {
        None
    } else {
        Some(first)
    }
}

/// Drops the first numbers of a key, up to one of an ask that waits.
fn drop_first<K: Eq + Hash + Drop>(noted: &mut IndexMap<K, BTreeSet<u64>>, key: &K, waiting: &[u64])
    requires { IsNonDecreasing waiting.now }
    ensures kept { (n : ℕ) → In n waiting.now → has_number (get K.eq noted.old key.now) n ≡ true → has_number (get K.eq noted.new key.now) n ≡ true }
    ensures others { (k : K) → K.eq key.now k ≡ false → get K.eq noted.new k ≡ get K.eq noted.old k }
{
    let Some(numbers) = noted.get_mut(key) else {
        return;
    };
    drop_gone(numbers, waiting);
    if numbers.is_empty() {
        noted.swap_remove(key);
    }
}

/// The first of the numbers from this one on.
fn first_from(numbers: &BTreeSet<u64>, from: u64) -> Option<u64>
    ensures { (n : ℕ) → from ≤ n → contains nat_cmp numbers.now n ≡ true → Reaches result n }
{
    numbers.range(from..).next().copied()
}

/// The lesser of two numbers, where there are some.
fn least(a: Option<u64>, b: Option<u64>) -> Option<u64>
    ensures left { (n : ℕ) → Reaches a n → Reaches result n }
    ensures right { (n : ℕ) → Reaches b n → Reaches result n }
{
    match (a, b) {
        (Some(a), Some(b)) => Some(a.min(b)),
        (Some(a), None) => Some(a),
        (None, b) => b,
    }
}

impl NotedAsks {
    /// Nothing is noted.
    pub(crate) fn new(alloc: Global) -> Self
        ensures folders { (f : FolderName) (n : ℕ) → notes_want result f n ≡ false }
        ensures nodes { (m : NodeId) (n : ℕ) → notes_node result m n ≡ false }
    {
        NotedAsks {
            by_folder: IndexMap::new(alloc),
            by_node: IndexMap::new(alloc),
        }
    }

    /// Notes that the ask with this number wants the folder.
    fn add(&mut self, alloc: Global, folder: &FolderName, number: u64) -> Result<(), AllocError>
        ensures added { OnOk result (notes_want self.new folder.now number ≡ true) }
        ensures kept { Keeps self.old self.new }
    {
        if !note_more(&mut self.by_folder, folder, number)? {
            note_first(alloc, &mut self.by_folder, folder.copy(alloc)?, number)?;
        }
        Ok(())
    }

    /// Notes that the ask with this number is the node's.
    fn add_node(&mut self, alloc: Global, node: NodeId, number: u64) -> Result<(), AllocError>
        ensures added { OnOk result (notes_node self.new node number ≡ true) }
        ensures kept { Keeps self.old self.new }
    {
        if !note_more(&mut self.by_node, &node, number)? {
            note_first(alloc, &mut self.by_node, node, number)?;
        }
        Ok(())
    }

    /// Notes that the ask with this number wants the folders.
    fn add_wants(&mut self, alloc: Global, wants: &[Want], number: u64) -> Result<(), AllocError>
        ensures added { OnOk result ((w : Want) → In w wants.now → notes_want self.new w.folder number ≡ true) }
        ensures kept { Keeps self.old self.new }
    {
        for want in wants {
            self.add(alloc, &want.folder, number)?;
        }
        Ok(())
    }

    /// Notes an ask with this number.
    fn add_ask(&mut self, alloc: Global, p: &Parked, number: u64) -> Result<(), AllocError>
        ensures added { OnOk result (IsIndexed self.new number p.now) }
        ensures kept { Keeps self.old self.new }
    {
        self.add_wants(alloc, p.wants.as_slice(), number)?;
        self.add_node(alloc, p.node, number)
    }

    /// Notes these asks, whose numbers are in turn from this one on.
    pub(crate) fn add_asks(
        &mut self,
        alloc: Global,
        asks: &[Parked],
        from: u64,
    ) -> Result<(), AllocError>
        ensures added { OnOk result (AreIndexed self.new asks.now (numbers_from from asks.now)) }
        ensures kept { Keeps self.old self.new }
    {
        let mut number = from;
        for p in asks {
            self.add_ask(alloc, p, number)?;
            number = after(number);
        }
        Ok(())
    }

    /// Drops the first numbers of the folders of wants, up to one of an ask that waits.
    fn drop_wants(&mut self, wants: &[Want], waiting: &[u64])
        requires { IsNonDecreasing waiting.now }
        ensures { KeepsOf waiting.now self.old self.new }
    {
        for want in wants {
            drop_first(&mut self.by_folder, &want.folder, waiting);
        }
    }

    /// Drops the first numbers of the folders that an ask wants, and of its node, up to one of an ask that waits.
    fn drop_ask(&mut self, p: &Parked, waiting: &[u64])
        requires { IsNonDecreasing waiting.now }
        ensures { KeepsOf waiting.now self.old self.new }
    {
        self.drop_wants(p.wants.as_slice(), waiting);
        drop_first(&mut self.by_node, &p.node, waiting);
    }

    /// The same for the asks at these places.
    pub(crate) fn drop_over(&mut self, asks: &[Parked], over: &[usize], waiting: &[u64])
        requires { IsNonDecreasing waiting.now }
        ensures { KeepsOf waiting.now self.old self.new }
    {
        for place in over {
            if let Some(p) = asks.get(*place) {
                self.drop_ask(p, waiting);
            }
        }
    }

    /// Whether a number is noted of an ask of the node.
    pub(crate) fn has_some_of(&self, node: NodeId) -> bool
        ensures { (n : ℕ) → notes_node self.now node n ≡ true → result ≡ true }
    {
        self.by_node.get(&node).is_some()
    }

    /// The first ask, by its number from this one on, that may want the folder.
    fn first_of(&self, folder: &FolderName, from: u64) -> Option<u64>
        ensures { (n : ℕ) → from ≤ n → notes_want self.now folder.now n ≡ true → Reaches result n }
    {
        match self.by_folder.get(folder) {
            Some(numbers) => first_from(numbers, from),
            None => None,
        }
    }

    /// The same of the folder of one of the slots.
    fn first_of_slots(&self, slots: &[(Slot, bool)], from: u64) -> Option<u64>
        ensures { (n : ℕ) → from ≤ n → notes_some self.now slots.now n ≡ true → Reaches result n }
    {
        let mut first = None;
        for held in slots {
            first = least(first, self.first_of(held.0.folder(), from));
        }
        first
    }

    /// The same of one of the folders.
    fn first_of_folders(&self, folders: &[FolderName], from: u64) -> Option<u64>
        ensures { (n : ℕ) → from ≤ n → notes_one self.now folders.now n ≡ true → Reaches result n }
    {
        let mut first = None;
        for folder in folders {
            first = least(first, self.first_of(folder, from));
        }
        first
    }

    /// The same of the folder of one of the slots, or of one of the folders.
    pub(crate) fn first_of_all(
        &self,
        slots: &[(Slot, bool)],
        folders: &[FolderName],
        from: u64,
    ) -> Option<u64>
        ensures slots { (n : ℕ) → from ≤ n → notes_some self.now slots.now n ≡ true → Reaches result n }
        ensures folders { (n : ℕ) → from ≤ n → notes_one self.now folders.now n ≡ true → Reaches result n }
    {
        least(
            self.first_of_slots(slots, from),
            self.first_of_folders(folders, from),
        )
    }
}
