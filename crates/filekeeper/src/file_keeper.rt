//! Keeps a record in files.
ghost use Rattle.std.specs.Prelude.{◌≡◌, ◌≢◌, ◌≤◌, ◌⊎◌, ◌↔◌, true, IsTrue, IfOk, OnOk, OnErr, Err};
ghost use Rattle.std.specs.Result.{is_ok, result_err};
ghost use Rattle.filekeeper.specs.Keepers.{Filed, FileSaves, FileLoads, FileGathers, FileSyncs, IsDurable, IsOpened, LeavesAny, LoadsTexts, MayLast, SavesTexts, SyncsTexts, failed_once, file_texts, lasts, left_by};
ghost use Rattle.filekeeper.specs.Settled.{WereRead};
ghost use Rattle.saverecord.specs.Keepers.{HasFailed};
ghost use Rattle.saverecord.specs.Texts.{whole_alone, with_text};

use super::disk::Disk;
use super::host_device::HostDevice;
use super::record_files::RecordFiles;
use saverecord::{Keeper, KeeperRefusal, Log, SaveFault};
use std::alloc::{AllocError, Global};
use std::io::{self, ErrorKind};
use std::marker::Model;
use std::rt::Files;

/// Keeps a record in a file, and the entries after it in a second one (the path with `.log` behind it). A save writes a
/// third file (`.new`), which then takes the record's place, and empties the log. So after a crash the files hold the
/// old texts or the new ones: the calls of `RecordFiles`, which it consists of, say so. A save after which they could hold the new
/// record with the old one's entries is refused.
///
/// In the log each entry stands behind the name of the record that it follows, its length, and a check of both. Entries
/// of another record, and what was cut short, are none: opening and loading cut them off. A damaged head is a fault.
///
/// After a fault it may be that nothing but a load is done.
#[derive(Drop)]
pub struct FileKeeper<'a, R: Files> {
    files: RecordFiles<HostDevice<'a, R>>,
    failures: u64,
}

/// A copy of the texts.
fn copied(alloc: Global, log: &Log) -> Result<Log, KeeperRefusal>
    ensures texts { IfOk result (λ copy. copy ≡ log.now) }
    ensures fault { result ≢ Err KeeperRefusal.Fault }
{
    match log.copy(alloc) {
        Ok(copy) => Ok(copy),
        Err(_) => Err(KeeperRefusal::OutOfMemory),
    }
}

impl<'a, R: Files> Model for FileKeeper<'a, R> {
    ghost use Rattle.filekeeper.specs.Keepers.{Filed};
    ghost use Rattle.filekeeper.specs.RecordFiles.{calls_in, texts_in, how_many_last, is_settled};

    ghost Value = { Filed };

    ghost view = { λ k. record { texts = texts_in k.files; lasting = how_many_last k.files; settled = is_settled k.files; calls = calls_in k.files; failures = k.failures } };
}

impl<'a, R: Files> FileKeeper<'a, R> {
    ghost use Rattle.filekeeper.specs.RecordFiles.{calls_in, texts_in, how_many_last, is_settled};

    /// Keeps the texts of these files. Nothing has failed yet.
    fn of(files: RecordFiles<HostDevice<'a, R>>) -> Self
        ensures kept { (result.texts ≡ texts_in files.entry) × (result.lasting ≡ how_many_last files.entry) × (result.failures ≡ 0) }
        ensures left { (result.settled ≡ is_settled files.entry) × (result.calls ≡ calls_in files.entry) }
    {
        FileKeeper { files, failures: 0 }
    }

    /// Keeps a record in the file of this path and its log, beginning with what they hold; where there is no file, no
    /// record was saved yet. A save also writes the path with `.new` behind it.
    pub fn open(files: &'a R, alloc: Global, path: &str) -> io::Result<Self>
        ensures { IfOk result IsOpened }
    {
        let device = HostDevice::new(files, alloc, path)?;
        let files = RecordFiles::open(alloc, Disk::new(device))?;
        Ok(FileKeeper::of(files))
    }

    /// Tries whether a record can be put in the file of this path, and changes nothing that stands there.
    pub fn try_put(files: &'a R, alloc: Global, path: &str) -> io::Result<()> {
        HostDevice::new(files, alloc, path)?.try_put()
    }

    /// The texts that it keeps. The files hold them, but for entries that are gathered only.
    pub fn log(&self) -> &Log
        ensures { result.now ≡ self.now.texts }
    {
        self.files.log()
    }

    /// Counts a failure of the device.
    fn failed(&mut self)
        ensures exact { self.new ≡ failed_once self.old }
        ensures cause { HasFailed self.old.failures self.new.failures }
        ensures count { self.old.failures ≤ self.new.failures }
    {
        self.failures = self.failures.saturating_add(1);
    }

    /// Writes the entries that are gathered only. It fails while the files are unsettled, also where no entry is gathered: a record that was
    /// saved may not last then. A failure is counted.
    fn write(&mut self) -> Result<(), SaveFault>
        ensures exact { SyncsTexts self.old (is_ok result) self.new }
        ensures any_moment { LeavesAny (MayLast self.old) self.old self.new }
        ensures durable { OnOk result (IsDurable self.new) }
        ensures cause { OnErr result (HasFailed self.old.failures self.new.failures) }
        ensures count { self.old.failures ≤ self.new.failures }
    {
        if self.files.sync().is_err() {
            self.failed();
            return Err(SaveFault);
        }
        Ok(())
    }

    /// Puts a record of these bytes in the place of all texts. A failure is counted.
    fn put_whole(&mut self, bytes: Vec<u8>) -> Result<(), SaveFault>
        ensures exact { SavesTexts self.old (whole_alone bytes.items) (is_ok result) self.new }
        ensures any_moment { LeavesAny (λ left. MayLast self.old left ⊎ (left ≡ whole_alone bytes.items)) self.old self.new }
        ensures durable { OnOk result (IsDurable self.new) }
        ensures cause { OnErr result (HasFailed self.old.failures self.new.failures) }
        ensures count { self.old.failures ≤ self.new.failures }
    {
        if self.files.replace(bytes).is_err() {
            self.failed();
            return Err(SaveFault);
        }
        Ok(())
    }

    /// Adds an entry, and writes it.
    fn add(&mut self, entry: Vec<u8>) -> Result<(), KeeperRefusal>
        ensures exact { result ≢ Err KeeperRefusal.OutOfMemory → SavesTexts self.old (with_text entry.items self.old.texts) (is_ok result) self.new }
        ensures any_moment { LeavesAny (λ left. MayLast self.old left ⊎ (left ≡ with_text entry.items self.old.texts)) self.old self.new }
        ensures durable { OnOk result (IsDurable self.new) }
        ensures cause { result ≡ Err KeeperRefusal.Fault → HasFailed self.old.failures self.new.failures }
        ensures same { result ≡ Err KeeperRefusal.OutOfMemory → self.new ≡ self.old }
        ensures count { self.old.failures ≤ self.new.failures }
    {
        if self.files.gather(entry).is_err() {
            return Err(KeeperRefusal::OutOfMemory);
        }
        if self.write().is_err() {
            self.files.drop_last();
            return Err(KeeperRefusal::Fault);
        }
        Ok(())
    }

    /// Has the files hold all texts.
    fn load_files(&mut self, alloc: Global) -> io::Result<()>
        ensures ok { OnOk result (self.new ≡ left_by self.new.calls true (lasts self.old)) }
        ensures err { OnErr result ((self.new ≡ left_by self.new.calls self.new.settled self.old)
            ⊎ (self.new ≡ left_by self.new.calls self.new.settled (lasts self.old))) }
        ensures any_moment { LeavesAny (MayLast self.old) self.old self.new }
        ensures durable { OnOk result (IsDurable self.new) }
        ensures read { OnOk result (WereRead (file_texts self.old) self.old.calls self.new.calls) }
    {
        self.files.load(alloc)
    }

    /// The texts, which the files hold then.
    fn load_texts(&mut self, alloc: Global) -> Result<Log, KeeperRefusal>
        ensures exact { LoadsTexts self.old (result_err result) self.new }
        ensures texts { IfOk result (λ log. log ≡ self.old.texts) }
        ensures any_moment { LeavesAny (MayLast self.old) self.old self.new }
        ensures durable { OnOk result (IsDurable self.new) }
        ensures cause { result ≡ Err KeeperRefusal.Fault → HasFailed self.old.failures self.new.failures }
        ensures count { self.old.failures ≤ self.new.failures }
        ensures read { OnOk result (WereRead (file_texts self.old) self.old.calls self.new.calls) }
    {
        match self.load_files(alloc) {
            Ok(()) => copied(alloc, self.log()),
            Err(error) => Err(self.refusal_of(&error)),
        }
    }

    /// Why a load is refused with this error. A fault is counted. Entries that are gathered only can't be told to last, so that want of
    /// memory is as a fault then.
    fn refusal_of(&mut self, error: &io::Error) -> KeeperRefusal
        ensures memory { result ≡ KeeperRefusal.OutOfMemory → (self.new ≡ self.old) × (self.old ≡ lasts self.old) }
        ensures fault { result ≡ KeeperRefusal.Fault → (self.new ≡ failed_once self.old) × HasFailed self.old.failures self.new.failures }
        ensures calls { self.new.calls ≡ self.old.calls }
        ensures count { self.old.failures ≤ self.new.failures }
    {
        if error.kind() == ErrorKind::OutOfMemory && self.has_all() {
            return KeeperRefusal::OutOfMemory;
        }
        self.failed();
        KeeperRefusal::Fault
    }

    /// Whether no entry is gathered only.
    fn has_all(&self) -> bool
        ensures { IsTrue result ↔ (self.now ≡ lasts self.now) }
    {
        self.files.has_all()
    }
}

impl<'a, R: Files> Keeper for FileKeeper<'a, R> {
    ghost use Rattle.filekeeper.specs.Keepers.{FileSaves, FileLoads, FileGathers, FileSyncs, file_texts};

    ghost kept = { λ k. k.texts };

    ghost lasting = { file_texts };

    ghost failed = { λ k. k.failures };

    ghost saving = { FileSaves };

    ghost loading = { FileLoads };

    ghost gathering = { FileGathers };

    ghost syncing = { FileSyncs };

    fn save(&mut self, bytes: Vec<u8>) -> Result<(), SaveFault>
        ensures exact { FileSaves self.old (whole_alone bytes.items) (is_ok result) self.new }
        ensures ok { OnOk result (self.new.texts ≡ whole_alone bytes.items) }
        ensures fault { OnErr result ((self.new.texts ≡ self.old.texts) ⊎ (self.new.texts ≡ whole_alone bytes.items)) }
        ensures cause { OnErr result (HasFailed self.old.failures self.new.failures) }
        ensures count { self.old.failures ≤ self.new.failures }
        ensures lasts { OnOk result (file_texts self.new ≡ self.new.texts) }
    {
        self.put_whole(bytes)
    }

    fn append(&mut self, entry: Vec<u8>) -> Result<(), KeeperRefusal>
        ensures exact { result ≢ Err KeeperRefusal.OutOfMemory → FileSaves self.old (with_text entry.items self.old.texts) (is_ok result) self.new }
        ensures ok { OnOk result (self.new.texts ≡ with_text entry.items self.old.texts) }
        ensures fault { OnErr result ((self.new.texts ≡ self.old.texts) ⊎ (self.new.texts ≡ with_text entry.items self.old.texts)) }
        ensures cause { result ≡ Err KeeperRefusal.Fault → HasFailed self.old.failures self.new.failures }
        ensures same { result ≡ Err KeeperRefusal.OutOfMemory → self.new ≡ self.old }
        ensures count { self.old.failures ≤ self.new.failures }
    {
        self.add(entry)
    }

    fn gather(&mut self, entry: Vec<u8>) -> Result<(), AllocError>
        ensures exact { OnOk result (FileGathers self.old (with_text entry.items self.old.texts) self.new) }
        ensures ok { OnOk result (self.new.texts ≡ with_text entry.items self.old.texts) }
        ensures same { OnErr result (self.new ≡ self.old) }
        ensures count { self.new.failures ≡ self.old.failures }
    {
        self.files.gather(entry)
    }

    fn sync(&mut self) -> Result<(), SaveFault>
        ensures exact { FileSyncs self.old (is_ok result) self.new }
        ensures lasts { OnOk result (file_texts self.new ≡ self.new.texts) }
        ensures fault { OnErr result (file_texts self.new ≡ file_texts self.old) }
        ensures kept { self.new.texts ≡ self.old.texts }
        ensures cause { OnErr result (HasFailed self.old.failures self.new.failures) }
        ensures count { self.old.failures ≤ self.new.failures }
    {
        self.write()
    }

    fn load(&mut self, alloc: Global) -> Result<Log, KeeperRefusal>
        ensures exact { FileLoads self.old (result_err result) self.new }
        ensures texts { IfOk result (λ log. log ≡ self.old.texts) }
        ensures kept { self.new.texts ≡ self.old.texts }
        ensures cause { result ≡ Err KeeperRefusal.Fault → HasFailed self.old.failures self.new.failures }
        ensures count { self.old.failures ≤ self.new.failures }
        ensures lasts { OnOk result (file_texts self.new ≡ self.new.texts) }
        ensures read { OnOk result (WereRead (file_texts self.old) self.old.calls self.new.calls) }
    {
        self.load_texts(alloc)
    }

    fn failures(&self) -> u64 {
        self.failures
    }
}
