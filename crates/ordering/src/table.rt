ghost use Rattle.std.specs.Prelude.{◌≡◌, ◌++◌, ◌∷◌, ℕ, [], List, Some, length, if◌then◌else◌, OnOk, IfOk, IfSome, IfNone, slice_get, OnErr};

use names::Digest;
use std::alloc::{AllocError, Global};
use std::collections::HashMap;

/// The vertices of a list of digests: the first place of each digest.
#[derive(Drop)]
pub struct Table {
    numbers: HashMap<Digest, usize>,
    places: Vec<usize>,
}

impl Table {
    ghost use Rattle.names.specs.declared.digest.Digest.{Digest};
    ghost use Rattle.ordering.specs.Firsts.{IsFirstAt, IsTable, number_in, places_in};

    /// An empty table.
    pub fn new(alloc: Global) -> Self
        ensures table { IsTable [] result }
        ensures places { places_in result ≡ [] }
    {
        Table {
            numbers: HashMap::new(alloc),
            places: Vec::new(alloc),
        }
    }

    /// An empty table, with room for `expected` digests.
    pub fn with_room(alloc: Global, expected: usize) -> Result<Self, AllocError>
        ensures table { IfOk result (IsTable []) }
        ensures places { IfOk result (λ table. places_in table ≡ []) }
    {
        Ok(Table {
            numbers: HashMap::with_capacity(alloc, expected)?,
            places: Vec::with_capacity(alloc, expected)?,
        })
    }

    /// Adds the digest at the next place, where it is new. Answers whether it was.
    pub fn add(&mut self, place: usize, digest: Digest) -> Result<bool, AllocError>
        ensures table { OnOk result ((digests : List Digest) → length digests ≡ place → IsTable digests self.old
            → IsTable (digests ++ digest ∷ []) self.new) }
        ensures places { IfOk result (λ new. places_in self.new ≡ (if new then places_in self.old ++ place ∷ [] else places_in self.old)) }
        ensures err { OnErr result ((places_in self.new ≡ places_in self.old) × ((wanted : Digest) → number_in self.new wanted ≡ number_in self.old wanted)) }
    {
        if self.numbers.contains_key(&digest) {
            return Ok(false);
        }
        let number = self.places.len();
        self.places.reserve(1)?;
        self.numbers.insert(digest, number)?;
        self.places.push_reserved(place);
        Ok(true)
    }

    /// The number of the vertex with this digest.
    pub fn number(&self, digest: &Digest) -> Option<usize>
        ensures { result ≡ number_in self.now digest.now }
    {
        self.numbers.get(digest).copied()
    }

    /// The place of the vertex with this digest.
    pub fn place(&self, digest: &Digest) -> Option<usize>
        requires { (digests : List Digest) × IsTable digests self.now }
        ensures found { IfSome result (λ place. (digests : List Digest) → IsTable digests self.now → IsFirstAt digests place digest.now) }
        ensures missing { IfNone result ((digests : List Digest) → IsTable digests self.now
            → (place : ℕ) → slice_get digests place ≡ Some digest.now → ⊥) }
    {
        let number = self.number(digest)?;
        Some(self.places[number])
    }

    /// The places of the vertices, rising.
    pub fn places(&self) -> &[usize]
        ensures { result.now ≡ places_in self.now }
    {
        self.places.as_slice()
    }
}
