ghost use Rattle.std.specs.Prelude.{◌≡◌, ℕ, ◌<◌, ◌^◌, IfSome, IsSome, ◌↔◌, nat_eq};
ghost use Rattle.std.specs.Ordering.{nat_cmp, on, as_partial_cmp};
ghost use Rattle.std.specs.Cmp.{partial_order_from_own_ties};
ghost use Rattle.std.specs.Cmp.Rules.{comparing, hashing};
ghost use Rattle.std.specs.Hash as fed;
ghost use Rattle.std.proofs.Common.{rules};
ghost use Rattle.names.specs.Modes.{mode_index};

use super::copied::Copied;
use super::digest::Key;
use super::text::Text;
use std::alloc::{AllocError, Global};
use std::cmp::Ordering;
use std::hash::{Hash, Hasher};
use std::marker::Model;

/// How a cache mount is shared. Modes are ordered as they stand here.
#[derive(Clone, Copy, Debug)]
pub enum Mode {
    Shared,
    Private,
    Locked,
}

impl Mode {
    fn place(self) -> u8
        ensures { result ≡ mode_index self }
    {
        match self {
            Mode::Shared => 0,
            Mode::Private => 1,
            Mode::Locked => 2,
        }
    }
}

impl PartialEq for Mode {
    ghost eq = { on mode_index nat_eq };

    ghost laws = { Prim.search (comparing, rules) };

    fn eq(&self, other: &Mode) -> bool {
        self.place() == other.place()
    }
}

impl Eq for Mode {
    ghost laws = { Prim.search (comparing, rules) };
}

impl Ord for Mode {
    ghost cmp = { on mode_index nat_cmp };

    ghost total = { Prim.search (comparing, rules) };

    ghost matches_partial_cmp = { Prim.search (comparing, rules) };

    ghost matches_eq = { Prim.search (comparing, rules) };

    fn cmp(&self, other: &Mode) -> Ordering {
        self.place().cmp(&other.place())
    }
}

impl PartialOrd for Mode {
    ghost partial_cmp = { as_partial_cmp (on mode_index nat_cmp) };

    ghost laws = { partial_order_from_own_ties (Prim.search (comparing, rules)) (Prim.search (comparing, rules)) };

    fn partial_cmp(&self, other: &Mode) -> Option<Ordering> {
        Some(self.cmp(other))
    }
}

impl Hash for Mode {
    ghost hash_input = { λ mode. fed.u8 (mode_index mode) };

    ghost respects_eq = { Prim.search (hashing, rules) };

    fn hash<H: Hasher>(&self, state: &mut H) {
        self.place().hash(state);
    }
}

/// The index of an output, at most 2^63 - 1.
#[derive(Clone, Copy, Debug, PartialEq, Eq, PartialOrd, Ord, Hash)]
pub struct Index {
    value: u64,
}

impl Model for Index {
    ghost Value = { ℕ };

    ghost view = { λ i. i.value };

    ghost invariant = { λ i. i.value < 2 ^ 63 };

    ghost inverse = { λ n. record { value = n } };
}

impl Index {
    /// One more than the greatest index.
    pub const LIMIT: u64 = 1 << 63;

    /// This index, None where it is 2^63 or more.
    pub fn new(value: u64) -> Option<Self>
        ensures found { IsSome result ↔ (value < 2 ^ 63) }
        ensures value { IfSome result (λ i. i ≡ value) }
    {
        if value < Self::LIMIT {
            Some(Index { value })
        } else {
            None
        }
    }

    /// The index as a number.
    pub fn get(self) -> u64
        ensures value { result ≡ self }
        ensures range { result < 2 ^ 63 }
    {
        self.value
    }
}

/// The output of a vertex, with which a folder begins.
#[derive(Clone, Copy, Debug, PartialEq, Eq, PartialOrd, Ord, Hash)]
pub struct Base {
    pub key: Key,
    pub index: Index,
}

/// The folder of a cache mount. Names are ordered by their fields, as they stand here.
#[derive(Debug, PartialEq, Eq, PartialOrd, Ord, Hash)]
pub struct FolderName {
    pub id: Text,
    pub mode: Mode,
    pub base: Option<Base>,
}

// By hand, so that letting go of one is one step of a proof, which no other crate makes again.
impl Drop for FolderName {
    fn drop(self) {
        let Self {
            id: _,
            mode: _,
            base: _,
        } = self;
    }
}

impl Copied for FolderName {
    fn copy(&self, alloc: Global) -> Result<Self, AllocError> {
        Ok(FolderName {
            id: self.id.copy(alloc)?,
            mode: self.mode,
            base: self.base,
        })
    }
}
