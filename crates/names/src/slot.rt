ghost use Rattle.std.specs.Prelude.{◌≡◌, IsTrue, ◌↔◌};
ghost use Rattle.names.specs.Slots.{IsInstance};

use super::copied::Copied;
use super::folder::{FolderName, Mode};
use super::limits::INSTANCES;
use std::alloc::{AllocError, Global};
use std::marker::Model;

/// The one slot of a SHARED or LOCKED folder, or an instance of a PRIVATE one. Slots are ordered by folder and instance.
#[derive(Debug, PartialEq, Eq, PartialOrd, Ord, Hash)]
pub struct Slot {
    folder: FolderName,
    instance: u32,
}

// By hand, so that letting go of one is one step of a proof, which no other crate makes again.
impl Drop for Slot {
    fn drop(self) {
        let Self {
            folder: _,
            instance: _,
        } = self;
    }
}

impl Model for Slot {
    ghost use Rattle.names.specs.Slots.{SlotParts, IsInstance};

    ghost Value = { SlotParts };

    ghost view = { λ s. record { folder = s.folder; instance = s.instance } };

    ghost invariant = { λ s. IsInstance s.folder.mode s.instance };

    ghost inverse = { λ d. record { folder = d.folder; instance = d.instance } };
}

impl Slot {
    /// Whether a folder of this mode has this instance.
    pub fn has_instance(mode: Mode, instance: u32) -> bool
        ensures { IsTrue result ↔ IsInstance mode instance }
    {
        match mode {
            Mode::Shared => instance == 0,
            Mode::Private => 1 <= instance && instance <= INSTANCES,
            Mode::Locked => instance == 0,
        }
    }

    /// A slot of the folder: instance 0 of a SHARED or LOCKED one, 1 to 4,096 of a PRIVATE one.
    pub fn new(folder: FolderName, instance: u32) -> Self
        requires { IsInstance folder.mode instance }
        ensures folder { result.folder ≡ folder }
        ensures instance { result.instance ≡ instance }
    {
        Slot { folder, instance }
    }

    /// The folder that the slot is of.
    pub fn folder(&self) -> &FolderName
        ensures { result.now ≡ self.now.folder }
    {
        &self.folder
    }

    /// The number of the instance, 0 where the folder is not PRIVATE.
    pub fn instance(&self) -> u32
        ensures value { result ≡ self.now.instance }
        ensures valid { IsInstance self.now.folder.mode result }
    {
        self.instance
    }
}

impl Copied for Slot {
    fn copy(&self, alloc: Global) -> Result<Self, AllocError> {
        let folder = self.folder.copy(alloc)?;
        Ok(Slot {
            folder,
            instance: self.instance,
        })
    }
}

/// A slot of a lease, and whether it may be written.
impl Copied for (Slot, bool) {
    fn copy(&self, alloc: Global) -> Result<Self, AllocError> {
        Ok((self.0.copy(alloc)?, self.1))
    }
}
