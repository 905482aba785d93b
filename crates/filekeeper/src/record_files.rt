//! The texts of a record in its files, over a device that may lose what it wasn't told to sync.
ghost use Rattle.std.specs.Prelude.{◌≡◌, ◌≢◌, ◌<◌, ◌≤◌, ◌⊎◌, ◌↔◌, ◌++◌, ◌∷◌, ◌+◌, [], ℕ, List, true, length, take, IfOk, IfSome, OnOk, OnErr, IsErr, IsTrue, Decides, All};
ghost use Rattle.filekeeper.specs.Disks.{calls_of, Files, IsTidied, Leaves, MayLeave, MaySee};
ghost use Rattle.filekeeper.specs.Framing.{framed, log_bytes, AreTextsOf, IsTold};
ghost use Rattle.filekeeper.specs.Keepers.{IsLeft};
ghost use Rattle.filekeeper.specs.Settled.{AreStanding, Clashes, HoldsAny, HoldsOneOf, HoldsSome, HasRead, IsAddedTo, IsCut, IsPutOver, IsSettled, IsTakenUp, StandsIn, WereRead};
ghost use Rattle.saverecord.specs.Texts.{Texts, whole_alone};
ghost use Rattle.filekeeper.specs.declared.device_call.DeviceCall.TheVariants.{WriteDraft, RenameDraft};

use super::device::Device;
use super::disk::Disk;
use super::framing::{LogFault, are_same, head_of, name_of, take_entries};
use names::Items;
use saverecord::Log;
use std::alloc::{AllocError, Global};
use std::io::{self, ErrorKind};

/// The texts of a record in its files.
///
/// While it is settled a crash leaves the texts that it knows to last, and nothing else. A call that fails may leave it unsettled: the
/// files have then the texts from before the call or those that it was to leave, and `sync` and `replace` are refused until `reload` has
/// read them. `gather` touches no file.
#[derive(Drop)]
pub struct RecordFiles<D: Device> {
    pub(crate) disk: Disk<D>,
    pub(crate) log: Log,
    /// How many of the entries the log's file has.
    pub(crate) lasting: usize,
    /// How many bytes of it these take.
    len: usize,
    pub(crate) settled: bool,
    ghost told: { All IsTold log.entries },
    ghost within: { lasting ≤ length log.entries },
    ghost lens: { len ≡ length (log_bytes log.whole (take lasting log.entries)) },
    ghost left: { settled ≡ true → IsSettled (calls_of disk) (record log { entries = take lasting log.entries }) },
    ghost standing: { AreStanding (calls_of disk) (record log { entries = take lasting log.entries }) },
}

/// What reading a log's file ends with.
fn log_error(fault: LogFault) -> io::Error {
    match fault {
        LogFault::BadHead(_) => io::Error::from(ErrorKind::InvalidData),
        LogFault::OutOfMemory => io::Error::from(ErrorKind::OutOfMemory),
    }
}

/// The texts of a record's bytes and of its log's, and how many bytes of the log the entries take.
fn texts_of(alloc: Global, whole: Vec<u8>, tail: &[u8]) -> io::Result<(Log, usize)>
    ensures texts { IfOk result (λ found. AreTextsOf whole.items tail.now found.0) }
    ensures len { IfOk result (λ found. found.1 ≡ length (log_bytes found.0.whole found.0.entries)) }
{
    let mut log = Log::of(alloc, whole);
    match take_entries(alloc, &mut log, tail) {
        Ok(left) => Ok((log, tail.len() - left)),
        Err(fault) => Err(log_error(fault)),
    }
}

/// The texts of the files. What the log has behind the entries that follow the record is cut off.
///
/// A process that was killed, or a sync that failed, may have left a name or an entry that the device doesn't have. So it waits until
/// the device has both, and the log isn't cut before the record's name is there: else a crash could bring back the record before it,
/// whose entries are gone.
pub fn take_up<D: Device>(alloc: Global, disk: &mut Disk<D>) -> io::Result<(Log, usize)>
    ensures read { IfOk result (λ found. HasRead (calls_of disk.old) found.0 (calls_of disk.new)) }
    ensures settled { IfOk result (λ found. IsSettled (calls_of disk.new) found.0) }
    ensures len { IfOk result (λ found. found.1 ≡ length (log_bytes found.0.whole found.0.entries)) }

    // A crash at any moment leaves what it might have left before, but for what stands behind the entries that were read.
    ensures any_moment { Leaves (IsTakenUp (calls_of disk.old) (calls_of disk.new)) (calls_of disk.old) (calls_of disk.new) }
{
    let whole = disk.read_record(alloc)?;
    let tail = disk.read_log(alloc)?;
    let (log, len) = texts_of(alloc, whole, tail.as_slice())?;
    disk.tidy(len)?;
    Ok((log, len))
}

/// Puts a record of these bytes in the place of what the files hold, of which it reads nothing, and empties the log.
pub fn put_record<D: Device>(disk: &mut Disk<D>, bytes: &[u8]) -> io::Result<()>
    ensures settled { OnOk result (IsSettled (calls_of disk.new) (whole_alone bytes.now)) }

    // A crash at any moment leaves what it might have left before, or this record, with such a log or with none.
    ensures any_moment { Leaves (IsPutOver bytes.now (calls_of disk.old)) (calls_of disk.old) (calls_of disk.new) }
{
    disk.write_draft(bytes)?;
    disk.rename_draft()?;
    disk.tidy(0)
}

/// What stands in a log behind these entries of the record, if they stand there.
fn behind<'b>(whole: &[u8], entries: &[Items<u8>], bytes: &'b [u8]) -> Option<&'b [u8]>
    ensures { IfSome result (λ rest. bytes.now ≡ log_bytes whole.now entries.now ++ rest.now) }
{
    let mut rest = bytes;
    for entry in entries {
        let after = rest.strip_prefix(&head_of(whole, entry.as_slice()))?;
        rest = after.strip_prefix(entry.as_slice())?;
    }
    Some(rest)
}

/// The length of a log with one entry more.
fn longer(len: usize, entry: &[u8]) -> Option<usize>
    ensures { (whole : List ℕ) → IfSome result (λ longer. longer ≡ len + length (framed whole entry.now)) }
{
    let headed = len.checked_add(24)?;
    let longer = headed.checked_add(entry.len())?;
    Some(longer)
}

/// Adds entries to a log that has `len` bytes, and waits until the device has them: how many bytes it has then.
fn add<D: Device>(
    disk: &mut Disk<D>,
    whole: &[u8],
    entries: &[Items<u8>],
    len: usize,
) -> io::Result<usize>
    ensures len { IfOk result (λ longer. longer ≡ len + length (log_bytes whole.now entries.now)) }
    ensures settled { (old : List (List ℕ)) → IsSettled (calls_of disk.old) (record { whole = whole.now; entries = old })
        → OnOk result (IsSettled (calls_of disk.new) (record { whole = whole.now; entries = old ++ entries.now })) }
    ensures seen { (old : List (List ℕ)) → IsSettled (calls_of disk.old) (record { whole = whole.now; entries = old })
        → (f : Files) → MaySee (calls_of disk.new) f → IsAddedTo (record { whole = whole.now; entries = old }) entries.now f }
    ensures any_moment { (old : List (List ℕ)) → IsSettled (calls_of disk.old) (record { whole = whole.now; entries = old })
        → Leaves (IsAddedTo (record { whole = whole.now; entries = old }) entries.now) (calls_of disk.old) (calls_of disk.new) }
{
    let mut len = len;
    for entry in entries {
        let Some(longer) = longer(len, entry.as_slice()) else {
            return Err(io::Error::from(ErrorKind::FileTooLarge));
        };
        disk.append(&head_of(whole, entry.as_slice()))?;
        disk.append(entry.as_slice())?;
        len = longer;
    }
    disk.sync_log()?;
    Ok(len)
}

/// What is answered until the files are read again.
fn unsettled() -> io::Error {
    io::Error::from(ErrorKind::Other)
}

impl<D: Device> RecordFiles<D> {
    ghost use Rattle.filekeeper.specs.RecordFiles.{calls_in, texts_in, lasting_in, gathered_in, how_many_last, is_settled};
    ghost use Rattle.saverecord.specs.Texts.{with_text};

    /// The texts of the device's files. What the log has behind them is cut off, as by `take_up`.
    pub fn open(alloc: Global, disk: Disk<D>) -> io::Result<Self>
        ensures texts { IfOk result (λ files. HasRead (calls_of disk) (texts_in files) (calls_in files)) }
        ensures lasts { IfOk result (λ files. (how_many_last files ≡ length (texts_in files).entries) × (is_settled files ≡ true)) }
    {
        let mut disk = disk;
        let (log, len) = take_up(alloc, &mut disk)?;
        let lasting = log.entries().len();
        Ok(RecordFiles {
            disk,
            log,
            lasting,
            len,
            settled: true,
        })
    }

    /// The texts that it keeps. The files hold them, but for entries that are gathered only.
    pub fn log(&self) -> &Log
        ensures { result.now ≡ texts_in self.now }
    {
        &self.log
    }

    /// Whether each crash leaves the texts that last, and nothing else.
    pub fn is_settled(&self) -> bool
        ensures { result ≡ is_settled self.now }
    {
        self.settled
    }

    /// Whether no entry is gathered only.
    pub fn has_all(&self) -> bool
        ensures { IsTrue result ↔ (how_many_last self.now ≡ length (texts_in self.now).entries) }
    {
        self.lasting == self.log.entries().len()
    }

    /// Adds an entry, and leaves it to the next `sync` to write it.
    pub fn gather(&mut self, entry: Vec<u8>) -> Result<(), AllocError>
        ensures ok { OnOk result (texts_in self.new ≡ with_text entry.items (texts_in self.old)) }
        ensures err { OnErr result (texts_in self.new ≡ texts_in self.old) }
        ensures lasts { how_many_last self.new ≡ how_many_last self.old }
        ensures lasting { lasting_in self.new ≡ lasting_in self.old }
        ensures settled { is_settled self.new ≡ is_settled self.old }
        ensures calls { calls_in self.new ≡ calls_in self.old }
    {
        self.log.push(entry)
    }

    /// Takes the last entry away, which is gathered only.
    pub(crate) fn drop_last(&mut self)
        requires { how_many_last self.old < length (texts_in self.old).entries }
        ensures texts { (t : Texts) (entry : List ℕ) → texts_in self.old ≡ with_text entry t → texts_in self.new ≡ t }
        ensures lasts { how_many_last self.new ≡ how_many_last self.old }
        ensures settled { is_settled self.new ≡ is_settled self.old }
        ensures calls { calls_in self.new ≡ calls_in self.old }
    {
        self.log.pop();
    }

    /// Writes the entries that are gathered only, and waits until the device has them. After an error they are gathered only as before.
    pub fn sync(&mut self) -> io::Result<()>
        ensures ok { OnOk result ((how_many_last self.new ≡ length (texts_in self.new).entries) × (is_settled self.new ≡ true)) }
        ensures err { OnErr result (how_many_last self.new ≡ how_many_last self.old) }
        ensures texts { texts_in self.new ≡ texts_in self.old }
        ensures settled { OnOk result (is_settled self.old ≡ true) }
        ensures unsettled { OnErr result ((self.new ≡ self.old) ⊎ (is_settled self.old ≡ true)) }

        // A crash at any moment leaves what lasted, and the first of the entries that were gathered.
        ensures any_moment { is_settled self.old ≡ true → Leaves (HoldsSome (lasting_in self.old) (gathered_in self.old)) (calls_in self.old) (calls_in self.new) }
    {
        if !self.settled {
            return Err(unsettled());
        }
        if self.lasting == self.log.entries().len() {
            return Ok(());
        }
        self.settled = false;
        match add(
            &mut self.disk,
            self.log.whole(),
            &self.log.entries()[self.lasting..],
            self.len,
        ) {
            Ok(len) => {
                self.lasting = self.log.entries().len();
                self.len = len;
                self.settled = true;
                Ok(())
            }
            Err(error) => {
                self.settled = self.disk.tidy(self.len).is_ok();
                Err(error)
            }
        }
    }

    /// Whether the entries that last would be taken for entries of these other bytes, which have the record's name.
    fn clashes(&self, bytes: &[u8]) -> bool
        ensures { Decides result (Clashes bytes.now (lasting_in self.now)) }
    {
        let whole = self.log.whole();
        self.lasting > 0 && are_same(&name_of(bytes), &name_of(whole)) && bytes != whole
    }

    /// Puts a record of these bytes in the record's place.
    fn put(&mut self, bytes: &[u8]) -> io::Result<()>
        requires settled { is_settled self.old ≡ true }
        requires no_clash { ¬ Clashes bytes.now (lasting_in self.old) }
        ensures done { OnOk result (calls_in self.new ≡ (RenameDraft true, []) ∷ (WriteDraft true, bytes.now) ∷ calls_in self.old) }
        ensures texts { (texts_in self.new ≡ texts_in self.old) × (how_many_last self.new ≡ how_many_last self.old) }
        ensures any_moment { bytes.now ≢ (texts_in self.old).whole
            → Leaves (HoldsOneOf (lasting_in self.old) (whole_alone bytes.now)) (calls_in self.old) (calls_in self.new) }
    {
        self.disk.write_draft(bytes)?;
        self.settled = false;
        self.disk.rename_draft()
    }

    /// Empties the log behind a record of these bytes.
    fn empty(&mut self, bytes: Vec<u8>) -> io::Result<()>
        requires { (f : Files) → MaySee (calls_in self.old) f → f.whole ≡ bytes.items }
        ensures ok { OnOk result (is_settled self.new ≡ true) }
        ensures texts { (texts_in self.new ≡ whole_alone bytes.items) × (how_many_last self.new ≡ 0) }
        ensures any_moment { Leaves (IsTidied 0 (calls_in self.old)) (calls_in self.old) (calls_in self.new) }
    {
        self.settled = false;
        self.lasting = 0;
        self.len = 0;
        self.log.replace(bytes);
        self.disk.tidy(0)?;
        self.settled = true;
        Ok(())
    }

    /// Puts a record of these bytes in the place of all texts. After an error it has the texts from before or these. It refuses a record
    /// that a crash could leave with entries of the one before it.
    pub fn replace(&mut self, bytes: Vec<u8>) -> io::Result<()>
        ensures ok { OnOk result ((texts_in self.new ≡ whole_alone bytes.items) × (how_many_last self.new ≡ 0) × (is_settled self.new ≡ true)) }
        ensures err { OnErr result (((texts_in self.new ≡ texts_in self.old) × (how_many_last self.new ≡ how_many_last self.old))
            ⊎ ((texts_in self.new ≡ whole_alone bytes.items) × (how_many_last self.new ≡ 0))) }
        ensures settled { OnOk result (is_settled self.old ≡ true) }
        ensures unsettled { OnErr result ((self.new ≡ self.old) ⊎ (is_settled self.old ≡ true)) }

        // Nothing is touched where other bytes have the name that entries follow.
        ensures clash { Clashes bytes.items (lasting_in self.old) → IsErr result × (self.new ≡ self.old) }

        // A crash at any moment leaves the old texts or the new ones.
        ensures any_moment { is_settled self.old ≡ true
            → Leaves (HoldsOneOf (lasting_in self.old) (whole_alone bytes.items)) (calls_in self.old) (calls_in self.new) }
    {
        if !self.settled {
            return Err(unsettled());
        }
        if self.clashes(bytes.as_slice()) {
            return Err(io::Error::from(ErrorKind::InvalidInput));
        }
        if bytes.as_slice() == self.log.whole() {
            return self.empty(bytes);
        }
        self.put(bytes.as_slice())?;
        self.empty(bytes)
    }

    /// Whether the lasting texts stand in these bytes of the record's file and of its log's.
    fn stands_in(&self, whole: &[u8], tail: &[u8]) -> bool
        ensures { result ≡ true → StandsIn (lasting_in self.now) whole.now tail.now }
    {
        whole == self.log.whole()
            && behind(whole, &self.log.entries()[..self.lasting], tail).is_some()
    }

    /// Reads the files again, and looks whether the lasting texts are there. What the log has behind them is cut off. It is settled
    /// then.
    pub fn reload(&mut self, alloc: Global) -> io::Result<()>
        ensures ok { OnOk result (is_settled self.new ≡ true) }
        ensures read { OnOk result (WereRead (lasting_in self.old) (calls_in self.old) (calls_in self.new)) }
        ensures texts { (texts_in self.new ≡ texts_in self.old) × (how_many_last self.new ≡ how_many_last self.old) }

        // A crash at any moment leaves what it might have left before, but for what stands behind the entries that last.
        ensures any_moment { Leaves (IsCut (lasting_in self.old) (calls_in self.old)) (calls_in self.old) (calls_in self.new) }
    {
        self.settled = false;
        let whole = self.disk.read_record(alloc)?;
        let tail = self.disk.read_log(alloc)?;
        if !self.stands_in(whole.as_slice(), tail.as_slice()) {
            return Err(io::Error::from(ErrorKind::InvalidData));
        }
        self.disk.tidy(self.len)?;
        self.settled = true;
        Ok(())
    }

    /// Has the files hold all texts, and reads them again. It is settled then.
    pub(crate) fn load(&mut self, alloc: Global) -> io::Result<()>
        ensures ok { OnOk result ((how_many_last self.new ≡ length (texts_in self.new).entries) × (is_settled self.new ≡ true)) }
        ensures err { OnErr result ((how_many_last self.new ≡ how_many_last self.old) ⊎ (how_many_last self.new ≡ length (texts_in self.new).entries)) }
        ensures texts { texts_in self.new ≡ texts_in self.old }

        // A crash at any moment leaves what it might have left before, or what lasted, and the first of the entries that were gathered.
        ensures any_moment { Leaves (λ f. MayLeave (calls_in self.old) f ⊎ HoldsAny (IsLeft (lasting_in self.old) (texts_in self.old)) f)
            (calls_in self.old) (calls_in self.new) }
        ensures read { OnOk result (WereRead (lasting_in self.old) (calls_in self.old) (calls_in self.new)) }
    {
        if self.settled {
            self.sync()?;
        }
        self.reload(alloc)?;
        self.sync()
    }
}
