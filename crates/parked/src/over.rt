//! Places of what is over.
ghost use Rattle.std.specs.Prelude.{◌≡◌, ℕ, ◌<◌, ◌≤◌, ◌∷◌, [], ◌++◌, length, slice_index_or, OnOk, if◌then◌else◌};
ghost use Rattle.parked.specs.Over.{is_over_at, later_over, Begins, AreRising};

use std::alloc::{AllocError, Global};

/// The places of the items of a list that are over, rising.
#[derive(Drop)]
pub struct Over {
    pub places: Vec<usize>,
    pub ghost rising: { AreRising places.items },
}

/// Whether the first of these places is this one, and the places behind it.
pub fn split_over(over: &[usize], place: usize) -> (bool, &[usize])
    ensures first { result.0 ≡ is_over_at place over.now }
    ensures rest { result.1.now ≡ later_over place over.now }
{
    match over.split_first() {
        Some((first, rest)) => {
            if *first == place {
                (true, rest)
            } else {
                (false, over)
            }
        }
        None => (false, over),
    }
}

/// The first of these places, or this one if it is before them.
pub fn first_over(over: &[usize], place: usize) -> usize
    ensures before { result ≤ place }
    ensures first { Begins result over.now }
    ensures forward { (k : ℕ) → k ≤ place → Begins k over.now → k ≤ result }
{
    match over.first() {
        Some(first) => place.min(*first),
        None => place,
    }
}

impl Over {
    /// None is over.
    pub fn new(alloc: Global) -> Self
        ensures { result.places.items ≡ [] }
    {
        Over {
            places: Vec::new(alloc),
        }
    }

    pub fn as_slice(&self) -> &[usize]
        ensures { result.now ≡ self.now.places.items }
    {
        self.places.as_slice()
    }

    /// Notes a place behind the others, if what is there is over.
    pub fn note_if(&mut self, place: usize, is_over: bool) -> Result<(), AllocError>
        requires { (k : ℕ) → k < length self.old.places.items → slice_index_or self.old.places.items k 0 < place }
        ensures { OnOk result (self.new.places.items ≡ (if is_over then self.old.places.items ++ place ∷ [] else self.old.places.items)) }
    {
        if is_over {
            self.places.push(place)?;
        }
        Ok(())
    }
}
