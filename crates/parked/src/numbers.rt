//! The numbers of the asks that wait, in order of arrival.
ghost use Rattle.std.specs.Prelude.{◌≡◌, ◌+◌, ◌≤◌, ◌++◌, ◌∷◌, [], true, All, drop, length, vec_len, OnOk};
ghost use Rattle.std.specs.Vec.{vec_capacity};
ghost use Rattle.std.specs.List.Sorted.{IsNonDecreasing};
ghost use Rattle.protocol.specs.Lists.{In};
ghost use Rattle.parked.specs.Numbers.{number_after, numbers_from, number_behind};
ghost use Rattle.parked.specs.Over.{still_waiting};

use super::over::Over;
use super::passing::{behind, take_out, trimmed};
use farm_base::Parked;
use std::alloc::{AllocError, Global};

/// A number for each ask that waits, rising. The greatest number is given more than once.
#[derive(Drop)]
pub struct Numbers {
    /// The numbers, those first whose asks are over.
    pub items: Vec<u64>,
    /// How many asks are over.
    pub start: usize,
    /// What the next ask gets.
    pub next: u64,
    ghost inside: { start ≤ vec_len items },
    ghost rising: { IsNonDecreasing (drop start items.items) },
    ghost below: { All (λ n. n ≤ next) (drop start items.items) },
}

/// Whether the number is among these.
pub(crate) fn is_among(numbers: &[u64], number: u64) -> bool
    requires { IsNonDecreasing numbers.now }
    ensures { In number numbers.now → result ≡ true }
{
    numbers.binary_search(&number).is_ok()
}

/// The number after this one. The greatest comes again.
pub(crate) fn after(number: u64) -> u64
    ensures { result ≡ number_after number }
{
    if number < u64::MAX {
        number + 1
    } else {
        number
    }
}

/// Appends a number, for which there is room.
fn put(numbers: &mut Vec<u64>, number: u64)
    requires { vec_len numbers.old + 1 ≤ vec_capacity numbers.old }
    ensures items { numbers.new.items ≡ numbers.old.items ++ number ∷ [] }
    ensures len { vec_len numbers.new ≡ vec_len numbers.old + 1 }
    ensures capacity { vec_capacity numbers.old ≤ vec_capacity numbers.new }
{
    numbers.push(number).unwrap();
}

/// Appends a number for each of the asks, for which there is room, and gives the number after them.
fn put_all(numbers: &mut Vec<u64>, next: u64, asks: &[Parked]) -> u64
    requires { vec_len numbers.old + length asks.now ≤ vec_capacity numbers.old }
    ensures items { numbers.new.items ≡ numbers.old.items ++ numbers_from next asks.now }
    ensures next { result ≡ number_behind next asks.now }
{
    let mut number = next;
    for _ in asks {
        put(numbers, number);
        number = after(number);
    }
    number
}

impl Numbers {
    /// No ask waits.
    pub(crate) fn new(alloc: Global) -> Self
        ensures { drop result.start result.items.items ≡ [] }
    {
        Numbers {
            items: Vec::new(alloc),
            start: 0,
            next: 0,
        }
    }

    /// The numbers of the asks that wait.
    pub(crate) fn as_slice(&self) -> &[u64]
        ensures { result.now ≡ drop self.now.start self.now.items.items }
    {
        behind(self.items.as_slice(), self.start)
    }

    /// Makes room for more.
    pub(crate) fn reserve(&mut self, count: usize) -> Result<(), AllocError>
        ensures same { drop self.new.start self.new.items.items ≡ drop self.old.start self.old.items.items }
        ensures next { self.new.next ≡ self.old.next }
        ensures room { OnOk result (vec_len self.new.items + count ≤ vec_capacity self.new.items) }
    {
        self.items.reserve(count)
    }

    /// The numbers without those at these places, and with one for each of these asks, for which there is room.
    pub(crate) fn changed(self, over: &Over, since: &[Parked]) -> Self
        requires { vec_len self.items + length since.now ≤ vec_capacity self.items }
        ensures { drop result.start result.items.items ≡ still_waiting over.now.places.items (drop self.start self.items.items) ++ numbers_from self.next since.now }
    {
        let Numbers { items, start, next } = self;
        let mut items = items;
        let start = take_out(&mut items, start, over);
        let next = put_all(&mut items, next, since);
        let (items, start) = trimmed(items, start);
        Numbers { items, start, next }
    }
}
