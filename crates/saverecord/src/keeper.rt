//! Who keeps the texts of a record.
ghost use Rattle.std.specs.Prelude.{◌≡◌, ◌≢◌, ◌⊎◌, ◌≤◌, ℕ, Bool, Option, Err, IfOk, OnOk, OnErr, Some, None};
ghost use Rattle.std.specs.Result.{is_ok, result_err};
ghost use Rattle.saverecord.specs.Keepers.{HasFailed, MemorySaves, MemoryLoads, MemoryGathers, MemorySyncs};
ghost use Rattle.saverecord.specs.Texts.{Texts, whole_alone, with_text};

use super::log::Log;
use super::refusal::{KeeperRefusal, SaveFault};
use events::Kept;
use std::alloc::{AllocError, Global};
use std::marker::Model;

/// Keeps a whole record, and the entries that follow it.
pub trait Keeper: Drop {
    ghost use Rattle.saverecord.specs.Texts.{Texts, whole_alone, with_text};
    ghost use Rattle.saverecord.specs.declared.refusal.KeeperRefusal.{KeeperRefusal};

    /// What a load gives.
    ghost kept: { Self → Texts };

    /// What lasts: a crash leaves these texts, and of the entries that were gathered behind them the first ones, or none.
    ghost lasting: { Self → Texts };

    /// How often the device failed.
    ghost failed: { Self → ℕ };

    /// What a save or an append that would keep these texts may leave, and whether it succeeds.
    ghost saving: { Self → Texts → Bool → Self → Type 0 };

    /// What a load may refuse, and leave.
    ghost loading: { Self → Option KeeperRefusal → Self → Type 0 };

    /// What gathering an entry leaves, once these texts are kept.
    ghost gathering: { Self → Texts → Self → Type 0 };

    /// What a sync leaves, and whether it succeeds.
    ghost syncing: { Self → Bool → Self → Type 0 };

    /// Keeps this whole record in place of all earlier texts. It takes no memory.
    fn save(&mut self, bytes: Vec<u8>) -> Result<(), SaveFault>
        ensures exact { saving self.old (whole_alone bytes.items) (is_ok result) self.new }
        ensures ok { OnOk result (kept self.new ≡ whole_alone bytes.items) }
        ensures fault { OnErr result ((kept self.new ≡ kept self.old) ⊎ (kept self.new ≡ whole_alone bytes.items)) }
        ensures cause { OnErr result (HasFailed (failed self.old) (failed self.new)) }
        ensures count { failed self.old ≤ failed self.new }
        ensures lasts { OnOk result (lasting self.new ≡ kept self.new) };

    /// Keeps this entry behind the texts that are kept. Where it wants memory that isn't there, nothing changes.
    fn append(&mut self, entry: Vec<u8>) -> Result<(), KeeperRefusal>
        ensures exact { result ≢ Err KeeperRefusal.OutOfMemory → saving self.old (with_text entry.items (kept self.old)) (is_ok result) self.new }
        ensures ok { OnOk result (kept self.new ≡ with_text entry.items (kept self.old)) }
        ensures fault { OnErr result ((kept self.new ≡ kept self.old) ⊎ (kept self.new ≡ with_text entry.items (kept self.old))) }
        ensures cause { result ≡ Err KeeperRefusal.Fault → HasFailed (failed self.old) (failed self.new) }
        ensures same { result ≡ Err KeeperRefusal.OutOfMemory → self.new ≡ self.old }
        ensures count { failed self.old ≤ failed self.new };

    /// Keeps this entry behind the texts that are kept, and leaves it to the next sync, save or load to make it last.
    fn gather(&mut self, entry: Vec<u8>) -> Result<(), AllocError>
        ensures exact { OnOk result (gathering self.old (with_text entry.items (kept self.old)) self.new) }
        ensures ok { OnOk result (kept self.new ≡ with_text entry.items (kept self.old)) }
        ensures same { OnErr result (self.new ≡ self.old) }
        ensures count { failed self.new ≡ failed self.old };

    /// Makes all that is kept last. It takes no memory.
    fn sync(&mut self) -> Result<(), SaveFault>
        ensures exact { syncing self.old (is_ok result) self.new }
        ensures lasts { OnOk result (lasting self.new ≡ kept self.new) }
        ensures fault { OnErr result (lasting self.new ≡ lasting self.old) }
        ensures kept { kept self.new ≡ kept self.old }
        ensures cause { OnErr result (HasFailed (failed self.old) (failed self.new)) }
        ensures count { failed self.old ≤ failed self.new };

    /// The texts that are kept, which it makes last.
    fn load(&mut self, alloc: Global) -> Result<Log, KeeperRefusal>
        ensures exact { loading self.old (result_err result) self.new }
        ensures texts { IfOk result (λ log. log ≡ kept self.old) }
        ensures kept { kept self.new ≡ kept self.old }
        ensures cause { result ≡ Err KeeperRefusal.Fault → HasFailed (failed self.old) (failed self.new) }
        ensures count { failed self.old ≤ failed self.new }
        ensures lasts { OnOk result (lasting self.new ≡ kept self.new) };

    /// How often the device failed. The count stays at its greatest value.
    fn failures(&self) -> u64
        ensures { result ≡ failed self.now };
}

/// Keeps the texts in memory. It fails only where it was told to.
pub struct MemoryKeeper {
    log: Log,
    armed: Option<Kept>,
    saves: u64,
    failures: u64,
}

// By hand, so that letting go of one is one step of a proof.
impl Drop for MemoryKeeper {
    fn drop(self) {
        let Self {
            log: _,
            armed: _,
            saves: _,
            failures: _,
        } = self;
    }
}

impl Model for MemoryKeeper {
    ghost use Rattle.saverecord.specs.Keepers.{Memory};

    ghost Value = { Memory };

    ghost view = { λ k. record { texts = k.log; armed = k.armed; saves = k.saves; failures = k.failures } };
}

impl MemoryKeeper {
    /// Keeps a whole record, or nothing where these are no bytes, without taking memory. Nothing has failed yet.
    pub fn new(alloc: Global, bytes: Vec<u8>) -> Self
        ensures { result ≡ record { texts = whole_alone bytes.items; armed = None; saves = 0; failures = 0 } }
    {
        MemoryKeeper {
            log: Log::of(alloc, bytes),
            armed: None,
            saves: 0,
            failures: 0,
        }
    }

    /// The texts that a load gives.
    pub fn log(&self) -> &Log
        ensures { result.now ≡ self.now.texts }
    {
        &self.log
    }

    /// The number of successful saves and appends. It stays at its greatest value.
    pub fn saves(&self) -> u64
        ensures { result ≡ self.now.saves }
    {
        self.saves
    }

    /// Makes the next save, append or sync fail, and a save or an append leave this. Until then a later call replaces this one.
    pub fn fail_next(&mut self, kept: Kept)
        ensures { self.new ≡ record self.old { armed = Some kept } }
    {
        self.armed = Some(kept);
    }
}

impl Keeper for MemoryKeeper {
    ghost kept = { λ m. m.texts };

    ghost lasting = { λ m. m.texts };

    ghost failed = { λ m. m.failures };

    ghost saving = { MemorySaves };

    ghost loading = { MemoryLoads };

    ghost gathering = { MemoryGathers };

    ghost syncing = { MemorySyncs };

    fn save(&mut self, bytes: Vec<u8>) -> Result<(), SaveFault>
        ensures exact { MemorySaves self.old (whole_alone bytes.items) (is_ok result) self.new }
        ensures ok { OnOk result (self.new.texts ≡ whole_alone bytes.items) }
        ensures fault { OnErr result ((self.new.texts ≡ self.old.texts) ⊎ (self.new.texts ≡ whole_alone bytes.items)) }
        ensures cause { OnErr result (HasFailed self.old.failures self.new.failures) }
        ensures count { self.old.failures ≤ self.new.failures }
    {
        let Some(kept) = self.armed else {
            self.log.replace(bytes);
            self.saves = self.saves.saturating_add(1);
            return Ok(());
        };
        self.armed = None;
        self.failures = self.failures.saturating_add(1);
        if matches!(kept, Kept::New) {
            self.log.replace(bytes);
        }
        Err(SaveFault)
    }

    fn append(&mut self, entry: Vec<u8>) -> Result<(), KeeperRefusal>
        ensures exact { result ≢ Err KeeperRefusal.OutOfMemory → MemorySaves self.old (with_text entry.items self.old.texts) (is_ok result) self.new }
        ensures ok { OnOk result (self.new.texts ≡ with_text entry.items self.old.texts) }
        ensures fault { OnErr result ((self.new.texts ≡ self.old.texts) ⊎ (self.new.texts ≡ with_text entry.items self.old.texts)) }
        ensures cause { result ≡ Err KeeperRefusal.Fault → HasFailed self.old.failures self.new.failures }
        ensures same { result ≡ Err KeeperRefusal.OutOfMemory → self.new ≡ self.old }
        ensures count { self.old.failures ≤ self.new.failures }
    {
        let armed = self.armed;
        if !matches!(armed, Some(Kept::Old)) && self.log.push(entry).is_err() {
            return Err(KeeperRefusal::OutOfMemory);
        }
        if armed.is_none() {
            self.saves = self.saves.saturating_add(1);
            return Ok(());
        }
        self.armed = None;
        self.failures = self.failures.saturating_add(1);
        Err(KeeperRefusal::Fault)
    }

    fn gather(&mut self, entry: Vec<u8>) -> Result<(), AllocError>
        ensures exact { OnOk result (MemoryGathers self.old (with_text entry.items self.old.texts) self.new) }
        ensures ok { OnOk result (self.new.texts ≡ with_text entry.items self.old.texts) }
        ensures same { OnErr result (self.new ≡ self.old) }
        ensures count { self.new.failures ≡ self.old.failures }
    {
        self.log.push(entry)
    }

    fn sync(&mut self) -> Result<(), SaveFault>
        ensures exact { MemorySyncs self.old (is_ok result) self.new }
        ensures kept { self.new.texts ≡ self.old.texts }
        ensures cause { OnErr result (HasFailed self.old.failures self.new.failures) }
        ensures count { self.old.failures ≤ self.new.failures }
    {
        if self.armed.is_none() {
            return Ok(());
        }
        self.armed = None;
        self.failures = self.failures.saturating_add(1);
        Err(SaveFault)
    }

    fn load(&mut self, alloc: Global) -> Result<Log, KeeperRefusal>
        ensures exact { MemoryLoads self.old (result_err result) self.new }
        ensures texts { IfOk result (λ log. log ≡ self.old.texts) }
        ensures kept { self.new.texts ≡ self.old.texts }
        ensures cause { result ≡ Err KeeperRefusal.Fault → HasFailed self.old.failures self.new.failures }
        ensures count { self.old.failures ≤ self.new.failures }
    {
        match self.log.copy(alloc) {
            Ok(log) => Ok(log),
            Err(_) => Err(KeeperRefusal::OutOfMemory),
        }
    }

    fn failures(&self) -> u64 {
        self.failures
    }
}
