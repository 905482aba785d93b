//! A keeper whose entries are gathered.
ghost use Rattle.std.specs.Prelude.{◌≡◌, Err};
ghost use Rattle.filekeeper.specs.Keepers.{GatherSaves};

use saverecord::{Keeper, KeeperRefusal, Log, SaveFault};
use std::alloc::{AllocError, Global};
use std::marker::Model;

/// A keeper that gathers what is appended: one sync makes many entries last. What it keeps isn't to be told before that.
#[derive(Drop)]
pub struct Gathered<K: Keeper>(K);

impl<K: Keeper> Model for Gathered<K> {
    ghost Value = { K };

    ghost view = { λ g. g.0 };
}

impl<K: Keeper> Gathered<K> {
    /// Gathers over this keeper.
    pub fn new(keeper: K) -> Self
        ensures { result ≡ keeper }
    {
        Gathered(keeper)
    }

    /// The keeper.
    pub fn keeper(&self) -> &K
        ensures { result.now ≡ self.now }
    {
        &self.0
    }
}

impl<K: Keeper> Keeper for Gathered<K> {
    ghost use Rattle.filekeeper.specs.Keepers.{GatherSaves};

    ghost kept = { K.kept };

    ghost lasting = { K.lasting };

    ghost failed = { K.failed };

    ghost saving = { GatherSaves K.kept K.gathering K.saving };

    ghost loading = { K.loading };

    ghost gathering = { K.gathering };

    ghost syncing = { K.syncing };

    fn save(&mut self, bytes: Vec<u8>) -> Result<(), SaveFault> {
        self.0.save(bytes)
    }

    fn append(&mut self, entry: Vec<u8>) -> Result<(), KeeperRefusal> {
        match self.0.gather(entry) {
            Ok(()) => Ok(()),
            Err(_) => Err(KeeperRefusal::OutOfMemory),
        }
    }

    fn gather(&mut self, entry: Vec<u8>) -> Result<(), AllocError> {
        self.0.gather(entry)
    }

    fn sync(&mut self) -> Result<(), SaveFault> {
        self.0.sync()
    }

    fn load(&mut self, alloc: Global) -> Result<Log, KeeperRefusal> {
        self.0.load(alloc)
    }

    fn failures(&self) -> u64 {
        self.0.failures()
    }
}
