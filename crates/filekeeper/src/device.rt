//! What a keeper asks of a file system.
ghost use Rattle.std.specs.Prelude.{◌≡◌, ◌∷◌, [], IfOk, OnErr};
ghost use Rattle.std.specs.Result.{is_ok};
ghost use Rattle.filekeeper.specs.declared.device_call.DeviceCall.TheVariants.{ReadRecord, ReadLog, WriteDraft, RenameDraft, SyncNames, Append, Cut, SyncLog};

use super::device_call::History;
use std::alloc::Global;
use std::io;

/// The files of a record, as a file system keeps them: that of the record, a draft that can take its place, and the log.
///
/// Each call notes in `made` what it did, and nothing else can be noted. That it did what it notes, and that the device is as
/// docs/FORMATS.md says ("What a crash leaves"), is trusted. In short: a draft takes the record's name whole or not at all; what is added to
/// the log is there up to some byte; a log is cut or it isn't; and once a sync has succeeded a crash leaves what a read gives, also where
/// an earlier sync had failed.
pub trait Device: Drop {
    /// The bytes of the record's file, none where there is no file.
    fn read_record(&mut self, alloc: Global, made: &mut History) -> io::Result<Vec<u8>>
        ensures done { IfOk result (λ bytes. made.new.calls ≡ (ReadRecord, bytes.items) ∷ made.old.calls) }
        ensures failed { OnErr result (made.new.calls ≡ made.old.calls) };

    /// The bytes of the log's file, none where there is no file.
    fn read_log(&mut self, alloc: Global, made: &mut History) -> io::Result<Vec<u8>>
        ensures done { IfOk result (λ bytes. made.new.calls ≡ (ReadLog, bytes.items) ∷ made.old.calls) }
        ensures failed { OnErr result (made.new.calls ≡ made.old.calls) };

    /// Writes a draft of these bytes, and waits until the device has it.
    fn write_draft(&mut self, bytes: &[u8], made: &mut History) -> io::Result<()>
        ensures { made.new.calls ≡ (WriteDraft (is_ok result), bytes.now) ∷ made.old.calls };

    /// The draft takes the record's name.
    fn rename_draft(&mut self, made: &mut History) -> io::Result<()>
        ensures { made.new.calls ≡ (RenameDraft (is_ok result), []) ∷ made.old.calls };

    /// Waits until the device has the names of the files.
    fn sync_names(&mut self, made: &mut History) -> io::Result<()>
        ensures { made.new.calls ≡ (SyncNames (is_ok result), []) ∷ made.old.calls };

    /// Adds these bytes to the log.
    fn append(&mut self, bytes: &[u8], made: &mut History) -> io::Result<()>
        ensures { made.new.calls ≡ (Append (is_ok result), bytes.now) ∷ made.old.calls };

    /// Cuts the log to its first `len` bytes.
    fn cut(&mut self, len: usize, made: &mut History) -> io::Result<()>
        ensures { made.new.calls ≡ (Cut len (is_ok result), []) ∷ made.old.calls };

    /// Waits until the device has the log.
    fn sync_log(&mut self, made: &mut History) -> io::Result<()>
        ensures { made.new.calls ≡ (SyncLog (is_ok result), []) ∷ made.old.calls };
}
