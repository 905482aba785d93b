ghost use Rattle.std.specs.Prelude.{◌≡◌, ◌<◌, ◌≤◌, ◌↔◌, ◌≢◌, ◌∷◌, [], vec_len, IsPermutation, Err, IfOk, IsErrOf};
ghost use Rattle.std.specs.List.{IsDistinct, IsAllAdjacentAnswer};
ghost use Rattle.std.specs.Ordering.{is_lt};
ghost use Rattle.names.specs.Folders.{folder_cmp, folder_eq};
ghost use Rattle.farm_base.specs.Wanted.{folders, IsWants};

use names::{Copied, FolderName, Items};
use std::alloc::{AllocError, Global};
use std::marker::Model;
use thiserror::Error;

/// A folder that an execution uses.
#[derive(PartialEq, Eq, PartialOrd, Ord, Hash)]
pub struct Want {
    pub folder: FolderName,
    pub writable: bool,
}

// By hand, so that letting go of one is one step of a proof, which no other crate makes again.
impl Drop for Want {
    fn drop(self) {
        let Self {
            folder: _,
            writable: _,
        } = self;
    }
}

impl Copied for Want {
    fn copy(&self, alloc: Global) -> Result<Self, AllocError> {
        Ok(Want {
            folder: self.folder.copy(alloc)?,
            writable: self.writable,
        })
    }
}

/// What an execution wants: at most 16 folders, each once, by rising folder.
pub struct Wants {
    wants: Items<Want>,
}

// By hand, so that letting go of one is one step of a proof, which no other crate makes again.
impl Drop for Wants {
    fn drop(self) {
        let Self { wants: _ } = self;
    }
}

impl Model for Wants {
    ghost use Rattle.std.specs.Prelude.{List};
    ghost use Rattle.farm_base.specs.declared.want.Want.{Want};
    ghost use Rattle.farm_base.specs.Wanted.{IsWants};

    ghost Value = { List Want };

    ghost view = { λ w. w.wants };

    ghost invariant = { λ w. IsWants w.wants };
}

/// Why these are not the wants of an execution.
#[derive(Debug, Drop, PartialEq, Eq, Error)]
pub enum WantsRefusal {
    #[error("more than 16 folders")]
    TooManyWants,
    #[error("a folder twice")]
    SameFolderTwice,
    #[error("out of memory")]
    OutOfMemory,
}

impl Wants {
    /// The greatest number of wants.
    pub const LIMIT: usize = 16;

    /// The wants by rising folder.
    pub fn of(wants: Vec<Want>) -> Result<Self, WantsRefusal>
        ensures same { IfOk result (IsPermutation wants.items) }
        ensures sorted { IfOk result IsWants }
        ensures too_many { IsErrOf result WantsRefusal.TooManyWants ↔ (16 < vec_len wants) }
        ensures twice { IsErrOf result WantsRefusal.SameFolderTwice
            ↔ ((vec_len wants ≤ 16) × ¬ IsDistinct folder_eq (folders wants.items)) }
        ensures memory { result ≢ Err WantsRefusal.OutOfMemory }
    {
        if wants.len() > Self::LIMIT {
            return Err(WantsRefusal::TooManyWants);
        }
        let mut wants = wants;
        if wants.sort().is_err() {
            return Err(WantsRefusal::OutOfMemory);
        }
        if !rises(wants.as_slice()) {
            return Err(WantsRefusal::SameFolderTwice);
        }
        Ok(Wants {
            wants: Items::new(wants),
        })
    }

    /// The want of this folder alone.
    pub fn one(alloc: Global, folder: FolderName, writable: bool) -> Result<Self, AllocError>
        ensures { IfOk result (λ wants. wants ≡ record { folder = folder; writable = writable } ∷ []) }
    {
        let mut wants = Vec::with_capacity(alloc, 1)?;
        wants.push(Want { folder, writable })?;
        Ok(Wants {
            wants: Items::new(wants),
        })
    }

    /// The wants, by rising folder.
    pub fn as_slice(&self) -> &[Want]
        ensures same { result.now ≡ self.now }
        ensures sorted { IsWants result.now }
    {
        self.wants.as_slice()
    }
}

impl TryFrom<Vec<Want>> for Wants {
    ghost use Rattle.farm_base.specs.declared.want.WantsRefusal.{WantsRefusal};

    type Error = WantsRefusal;

    ghost try_from_gives = { λ given result. IfOk result (λ wants. IsPermutation given.items wants × IsWants wants)
        × (IsErrOf result WantsRefusal.TooManyWants ↔ (16 < vec_len given))
        × (IsErrOf result WantsRefusal.SameFolderTwice ↔ ((vec_len given ≤ 16) × ¬ IsDistinct folder_eq (folders given.items)))
        × (result ≢ Err WantsRefusal.OutOfMemory) };

    fn try_from(wants: Vec<Want>) -> Result<Self, WantsRefusal> {
        Wants::of(wants)
    }
}

impl Copied for Wants {
    fn copy(&self, alloc: Global) -> Result<Self, AllocError> {
        Ok(Wants {
            wants: self.wants.copy(alloc)?,
        })
    }
}

/// Whether each folder is below the next.
fn rises(wants: &[Want]) -> bool
    ensures { IsAllAdjacentAnswer (λ a b answer. answer ≡ is_lt (folder_cmp a.folder b.folder)) wants.now result }
{
    wants.is_sorted_by(is_below)
}

/// Whether the folder of one is below that of the other.
fn is_below(one: &Want, other: &Want) -> bool
    ensures { result ≡ is_lt (folder_cmp one.now.folder other.now.folder) }
{
    one.folder.cmp(&other.folder).is_lt()
}
