//! A device, with the calls that were made of it.
ghost use Rattle.std.specs.Prelude.{◌≡◌, ◌∷◌, [], true, IfOk, OnOk, OnErr};
ghost use Rattle.std.specs.Result.{is_ok};
ghost use Rattle.filekeeper.specs.declared.device_call.DeviceCall.TheVariants.{ReadRecord, ReadLog, WriteDraft, RenameDraft, SyncNames, Append, Cut, SyncLog};

use super::device::Device;
use super::device_call::History;
use std::alloc::Global;
use std::io;

/// A device, and the history of its calls: what a crash may leave is said of them.
#[derive(Drop)]
pub struct Disk<D: Device> {
    device: D,
    pub(crate) history: History,
}

impl<D: Device> Disk<D> {
    ghost use Rattle.filekeeper.specs.Disks.{calls_of, IsTidied, Leaves};

    /// Nothing was called yet.
    pub fn new(device: D) -> Self
        ensures { calls_of result ≡ [] }
    {
        Disk {
            device,
            history: History::new(),
        }
    }

    /// The bytes of the record's file.
    pub fn read_record(&mut self, alloc: Global) -> io::Result<Vec<u8>>
        ensures done { IfOk result (λ bytes. calls_of self.new ≡ (ReadRecord, bytes.items) ∷ calls_of self.old) }
        ensures failed { OnErr result (calls_of self.new ≡ calls_of self.old) }
    {
        self.device.read_record(alloc, &mut self.history)
    }

    /// The bytes of the log's file.
    pub fn read_log(&mut self, alloc: Global) -> io::Result<Vec<u8>>
        ensures done { IfOk result (λ bytes. calls_of self.new ≡ (ReadLog, bytes.items) ∷ calls_of self.old) }
        ensures failed { OnErr result (calls_of self.new ≡ calls_of self.old) }
    {
        self.device.read_log(alloc, &mut self.history)
    }

    /// Writes a draft, and waits until the device has it.
    pub fn write_draft(&mut self, bytes: &[u8]) -> io::Result<()>
        ensures { calls_of self.new ≡ (WriteDraft (is_ok result), bytes.now) ∷ calls_of self.old }
    {
        self.device.write_draft(bytes, &mut self.history)
    }

    /// The draft takes the record's name.
    pub fn rename_draft(&mut self) -> io::Result<()>
        ensures { calls_of self.new ≡ (RenameDraft (is_ok result), []) ∷ calls_of self.old }
    {
        self.device.rename_draft(&mut self.history)
    }

    /// Waits until the device has the names of the files.
    pub fn sync_names(&mut self) -> io::Result<()>
        ensures { calls_of self.new ≡ (SyncNames (is_ok result), []) ∷ calls_of self.old }
    {
        self.device.sync_names(&mut self.history)
    }

    /// Adds bytes to the log.
    pub fn append(&mut self, bytes: &[u8]) -> io::Result<()>
        ensures { calls_of self.new ≡ (Append (is_ok result), bytes.now) ∷ calls_of self.old }
    {
        self.device.append(bytes, &mut self.history)
    }

    /// Cuts the log to its first bytes.
    pub fn cut(&mut self, len: usize) -> io::Result<()>
        ensures { calls_of self.new ≡ (Cut len (is_ok result), []) ∷ calls_of self.old }
    {
        self.device.cut(len, &mut self.history)
    }

    /// Waits until the device has the log.
    pub fn sync_log(&mut self) -> io::Result<()>
        ensures { calls_of self.new ≡ (SyncLog (is_ok result), []) ∷ calls_of self.old }
    {
        self.device.sync_log(&mut self.history)
    }

    /// Waits until the device has the names, cuts the log to its first bytes, and waits until the device has it. Where that is done a
    /// crash leaves what a read gives.
    pub fn tidy(&mut self, len: usize) -> io::Result<()>
        ensures done { OnOk result (calls_of self.new ≡ (SyncLog true, []) ∷ (Cut len true, []) ∷ (SyncNames true, []) ∷ calls_of self.old) }
        ensures any_moment { Leaves (IsTidied len (calls_of self.old)) (calls_of self.old) (calls_of self.new) }
    {
        self.sync_names()?;
        self.cut(len)?;
        self.sync_log()
    }
}
