//! The files of a record in a folder of the host.
ghost use Rattle.std.specs.Prelude.{◌≡◌};
ghost use Rattle.filekeeper.specs.Calls.{noted};

use super::device::Device;
use super::device_call::{DeviceCall, History};
use std::alloc::{AllocError, Global};
use std::fs::{self, OpenFile, OpenOptions};
use std::io::{self, ErrorKind, Read, Write};
use std::rt::Files;

/// The record in the file of a path, its draft in that path with `.new` behind it, its log in that with `.log`.
#[derive(Drop)]
pub struct HostDevice<'a, R: Files> {
    files: &'a R,
    path: String,
    draft: String,
    tail: String,
    /// The folder of all three.
    folder: String,
    /// The log's file, once it was added to.
    log: Option<R::File>,
    /// Whether the device may lack the log's name.
    is_new: bool,
    /// Whether a record took its place here. A cut makes the log's file then, where there is none.
    renamed: bool,
}

/// The folder that a path is in.
fn folder_of(path: &str) -> &str {
    match path.rsplit_once('/') {
        Some(("", _)) => "/",
        Some((folder, _)) => folder,
        None => ".",
    }
}

/// The bytes of a file, none where there is no file.
fn read_file<R: Files>(files: &R, alloc: Global, path: &str) -> io::Result<Vec<u8>> {
    let mut bytes = Vec::new(alloc);
    match fs::open(files, path) {
        Ok(mut file) => {
            file.read_to_end(&mut bytes)?;
            Ok(bytes)
        }
        Err(error) if error.kind() == ErrorKind::NotFound => Ok(bytes),
        Err(error) => Err(error),
    }
}

impl History {
    /// Notes a call with these bytes.
    fn note(&mut self, _calls: &[DeviceCall], _bytes: &[u8])
        ensures { self.new.calls ≡ noted _calls.now _bytes.now self.old.calls }
    {}
}

impl<'a, R: Files> HostDevice<'a, R> {
    /// The files of this path, none of which is touched yet.
    pub fn new(files: &'a R, alloc: Global, path: &str) -> Result<Self, AllocError> {
        Ok(HostDevice {
            files,
            path: String::from_str(alloc, path)?,
            draft: format!(in alloc; "{path}.new")?,
            tail: format!(in alloc; "{path}.log")?,
            folder: String::from_str(alloc, folder_of(path))?,
            log: None,
            is_new: true,
            renamed: false,
        })
    }

    /// Tries whether the record's file can be replaced, and changes nothing that stands there.
    pub(crate) fn try_put(&self) -> io::Result<()> {
        if let Ok(found) = fs::metadata(self.files, self.path.as_str()) {
            if found.is_dir() {
                return Err(io::Error::from(ErrorKind::IsADirectory));
            }
        }
        fs::create(self.files, self.draft.as_str())?.sync_all()?;
        self.remove_draft()
    }

    /// Takes the draft away.
    fn remove_draft(&self) -> io::Result<()> {
        fs::remove_file(self.files, self.draft.as_str())
    }

    /// Writes the draft's file, and waits until the device has it.
    fn put_draft(&self, bytes: &[u8]) -> io::Result<()> {
        let mut file = fs::create(self.files, self.draft.as_str())?;
        file.write_all(bytes)?;
        file.sync_all()
    }

    /// Gives the draft the record's name, or takes it away where that fails.
    fn put_record(&mut self) -> io::Result<()> {
        if let Err(error) = fs::rename(self.files, self.draft.as_str(), self.path.as_str()) {
            let _removed = self.remove_draft();
            return Err(error);
        }
        self.renamed = true;
        Ok(())
    }

    /// Waits until the device has the folder's names.
    fn sync_folder(&self) -> io::Result<()> {
        fs::open(self.files, self.folder.as_str())?.sync_all()
    }

    /// The log's file, opened with these options.
    fn open_log(&self, options: &mut OpenOptions) -> io::Result<R::File> {
        options.open(self.files, self.tail.as_str())
    }

    /// Adds bytes to the log's file.
    fn add_bytes(&mut self, bytes: &[u8]) -> io::Result<()> {
        if self.log.is_none() {
            self.log = Some(self.open_log(OpenOptions::new().append(true).create(true))?);
        }
        match &mut self.log {
            Some(file) => file.write_all(bytes),
            None => Ok(()),
        }
    }

    /// Cuts the log's file.
    fn cut_file(&self, len: usize) -> io::Result<()> {
        match self.open_log(OpenOptions::new().write(true).create(self.renamed)) {
            Ok(file) => file.set_len(len as u64),
            Err(error) if error.kind() == ErrorKind::NotFound => Ok(()),
            Err(error) => Err(error),
        }
    }

    /// Waits until the device has the log's file, and its name.
    fn sync_file(&mut self) -> io::Result<()> {
        match self.open_log(OpenOptions::new().read(true)) {
            Ok(file) => file.sync_all()?,
            Err(error) if error.kind() == ErrorKind::NotFound => return Ok(()),
            Err(error) => return Err(error),
        }
        // An append or a cut may have made the file.
        if self.is_new {
            self.sync_folder()?;
            self.is_new = false;
        }
        Ok(())
    }
}

impl<'a, R: Files> Device for HostDevice<'a, R> {
    fn read_record(&mut self, alloc: Global, made: &mut History) -> io::Result<Vec<u8>> {
        let bytes = read_file(self.files, alloc, self.path.as_str())?;
        made.note(&[DeviceCall::ReadRecord], bytes.as_slice());
        Ok(bytes)
    }

    fn read_log(&mut self, alloc: Global, made: &mut History) -> io::Result<Vec<u8>> {
        let bytes = read_file(self.files, alloc, self.tail.as_str())?;
        made.note(&[DeviceCall::ReadLog], bytes.as_slice());
        Ok(bytes)
    }

    fn write_draft(&mut self, bytes: &[u8], made: &mut History) -> io::Result<()> {
        let result = self.put_draft(bytes);
        made.note(&[DeviceCall::WriteDraft(result.is_ok())], bytes);
        result
    }

    fn rename_draft(&mut self, made: &mut History) -> io::Result<()> {
        let result = self.put_record();
        made.note(&[DeviceCall::RenameDraft(result.is_ok())], &[]);
        result
    }

    fn sync_names(&mut self, made: &mut History) -> io::Result<()> {
        let result = self.sync_folder();
        made.note(&[DeviceCall::SyncNames(result.is_ok())], &[]);
        result
    }

    fn append(&mut self, bytes: &[u8], made: &mut History) -> io::Result<()> {
        let result = self.add_bytes(bytes);
        made.note(&[DeviceCall::Append(result.is_ok())], bytes);
        result
    }

    fn cut(&mut self, len: usize, made: &mut History) -> io::Result<()> {
        let result = self.cut_file(len);
        made.note(&[DeviceCall::Cut(len, result.is_ok())], &[]);
        result
    }

    fn sync_log(&mut self, made: &mut History) -> io::Result<()> {
        let result = self.sync_file();
        made.note(&[DeviceCall::SyncLog(result.is_ok())], &[]);
        result
    }
}
