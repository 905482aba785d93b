//! Keeps a node's contents and its last life in a folder.
ghost use Rattle.std.specs.Prelude.{◌≡◌, false, Some, IfOk, OnOk, OnErr};
ghost use Rattle.names.specs.Contents.{content_digest};
ghost use Rattle.nodestore.specs.Stores.{has_digest, with_digest, with_life, HasFound, StayKept};

use super::life::{life_in, life_text};
use names::{Content, Digest, Key, Life, NodeId};
use std::alloc::{AllocError, Global};
use std::fs::{self, OpenFile};
use std::io::{self, ErrorKind, Read, Write};
use std::marker::Model;
use std::rt::Files;
use thiserror::Error;

/// Keeps contents in the files `contents/DIGEST` of a folder, and in its file `life` the node and its last life. Each is written
/// beside, synced and renamed, and then its folder is synced: so whatever ends the process, a file that is there is whole.
///
/// What is proved is said of what it knows to be kept, which changes by its own methods alone: what these do with files is trusted, and
/// that a device keeps what was synced.
#[derive(Drop)]
pub struct FileStore<'a, R: Files> {
    files: &'a R,
    alloc: Global,
    node: NodeId,
    folder: String,
    /// The contents that are known to be kept.
    digests: Vec<Digest>,
    last: Life,
}

impl<'a, R: Files> Model for FileStore<'a, R> {
    ghost use Rattle.nodestore.specs.Stores.{Filed};

    ghost Value = { Filed };

    ghost view = { λ s. record { digests = s.digests.items; last = s.last } };
}

/// Why a node's folder can't be used.
#[derive(Debug, Drop, Error)]
pub enum OpenFault {
    /// It has the life of this other node.
    #[error("it is the folder of node {0}")]
    OtherNode(u32),
    #[error("its file `life` is damaged")]
    BadLife,
    #[error("{0}")]
    Io(io::Error),
    #[error("out of memory")]
    OutOfMemory,
}

/// What a folder has of contents.
#[derive(Drop)]
pub struct Found {
    pub contents: Vec<Content>,
    /// The digests that files have as their names, but not their bytes.
    pub wrong: Vec<Digest>,
}

impl From<AllocError> for OpenFault {
    fn from(_error: AllocError) -> OpenFault {
        OpenFault::OutOfMemory
    }
}

impl From<io::Error> for OpenFault {
    fn from(error: io::Error) -> OpenFault {
        match error.kind() {
            ErrorKind::OutOfMemory => OpenFault::OutOfMemory,
            _ => OpenFault::Io(error),
        }
    }
}

/// Writes a file, and waits until the device has it.
fn write_synced<R: Files>(files: &R, path: &str, bytes: &[u8]) -> io::Result<()> {
    let mut file = fs::create(files, path)?;
    file.write_all(bytes)?;
    file.sync_all()
}

/// Waits until the device has the names in a folder.
fn sync_names<R: Files>(files: &R, folder: &str) -> io::Result<()> {
    fs::open(files, folder)?.sync_all()
}

/// Writes a draft, puts it in its place, and waits until the device has both.
fn put_draft<R: Files>(
    files: &R,
    folder: &str,
    draft: &str,
    path: &str,
    bytes: &[u8],
) -> io::Result<()> {
    write_synced(files, draft, bytes)?;
    fs::rename(files, draft, path)?;
    sync_names(files, folder)
}

/// Writes a file beside, waits until the device has it, and puts it in its place; then it waits for the folder's names.
fn put_file<R: Files>(
    files: &R,
    alloc: Global,
    folder: &str,
    name: &str,
    bytes: &[u8],
) -> io::Result<()> {
    let path = format!(in alloc; "{folder}/{name}")?;
    let draft = format!(in alloc; "{folder}/{name}.new")?;
    put_draft(files, folder, draft.as_str(), path.as_str(), bytes)
}

/// All that a file has left to read.
fn bytes_of<F: Read + Drop>(alloc: Global, file: F) -> io::Result<Vec<u8>> {
    let mut file = file;
    let mut bytes = Vec::new(alloc);
    file.read_to_end(&mut bytes)?;
    Ok(bytes)
}

/// The bytes of a file, if it is there.
fn read_file<R: Files>(files: &R, alloc: Global, path: &str) -> io::Result<Option<Vec<u8>>> {
    match fs::open(files, path) {
        Ok(file) => Ok(Some(bytes_of(alloc, file)?)),
        Err(error) if error.kind() == ErrorKind::NotFound => Ok(None),
        Err(error) => Err(error),
    }
}

/// The last life that a folder has, 0 where it has none.
fn last_life<R: Files>(
    files: &R,
    alloc: Global,
    folder: &str,
    node: NodeId,
) -> Result<Life, OpenFault> {
    let path = format!(in alloc; "{folder}/life")?;
    let Some(bytes) = read_file(files, alloc, path.as_str())? else {
        return Ok(Life(0));
    };
    let Ok(text) = str::from_utf8(bytes.as_slice()) else {
        return Err(OpenFault::BadLife);
    };
    match life_in(text) {
        Some((owner, life)) if owner == node => Ok(life),
        Some((owner, _)) => Err(OpenFault::OtherNode(owner.0)),
        None => Err(OpenFault::BadLife),
    }
}

impl<'a, R: Files> FileStore<'a, R> {
    /// Takes the content of this digest as kept, where its file has such bytes.
    fn find(&mut self, alloc: Global, digest: Digest, found: &mut Found) -> io::Result<()>
        requires { HasFound self.old found.old }
        ensures { HasFound self.new found.new }
    {
        let name = Key(digest).to_text(alloc)?;
        let path = format!(in alloc; "{}/contents/{}", self.folder, name)?;
        let Some(bytes) = read_file(self.files, alloc, path.as_str())? else {
            return Ok(());
        };
        let content = Content::of(bytes);
        if content.digest() != digest {
            found.wrong.push(digest)?;
            return Ok(());
        }
        self.digests.push(content.digest())?;
        found.contents.push(content)?;
        Ok(())
    }

    /// Takes the contents of these digests as kept, where their files have such bytes.
    fn find_all(&mut self, alloc: Global, digests: &[Digest]) -> io::Result<Found>
        ensures { IfOk result (λ found. HasFound self.new found) }
    {
        let mut found = Found {
            contents: Vec::new(alloc),
            wrong: Vec::new(alloc),
        };
        for digest in digests {
            self.find(alloc, *digest, &mut found)?;
        }
        Ok(found)
    }

    /// Whether a content is known to be kept.
    pub(crate) fn has(&self, digest: Digest) -> bool
        ensures { result ≡ has_digest self.now digest }
    {
        self.digests.iter().any(|kept| *kept == digest)
    }

    /// The last life that is kept, 0 where there was none.
    pub fn last(&self) -> Life
        ensures { result ≡ self.now.last }
    {
        self.last
    }

    /// Puts a content in its file.
    fn put_content(&self, content: &Content) -> io::Result<()> {
        let folder = format!(in self.alloc; "{}/contents", self.folder)?;
        let name = Key(content.digest()).to_text(self.alloc)?;
        put_file(
            self.files,
            self.alloc,
            folder.as_str(),
            name.as_str(),
            content.bytes(),
        )
    }

    /// Puts a content in its file, and knows it to be kept then.
    pub(crate) fn write_content(&mut self, content: &Content) -> io::Result<()>
        ensures done { OnOk result (self.new ≡ with_digest (content_digest content.now) self.old) }
        ensures failed { OnErr result (self.new ≡ self.old) }
    {
        self.digests.reserve(1)?;
        self.put_content(content)?;
        self.digests.push_reserved(content.digest());
        Ok(())
    }

    /// Removes the file of a content, if it is there, and waits until the device has no such name.
    fn remove_file(&self, digest: Digest) -> io::Result<()> {
        let folder = format!(in self.alloc; "{}/contents", self.folder)?;
        let name = Key(digest).to_text(self.alloc)?;
        let path = format!(in self.alloc; "{folder}/{name}")?;
        match fs::remove_file(self.files, path.as_str()) {
            Err(error) if error.kind() != ErrorKind::NotFound => Err(error),
            _ => sync_names(self.files, folder.as_str()),
        }
    }

    /// Removes a content, and doesn't know it to be kept any more, also where that fails.
    pub(crate) fn remove_content(&mut self, digest: Digest) -> io::Result<()>
        ensures gone { has_digest self.new digest ≡ false }
        ensures others { StayKept has_digest (Some digest) self.old self.new }
        ensures life { self.new.last ≡ self.old.last }
    {
        self.digests.retain(|kept| *kept != digest);
        self.remove_file(digest)
    }

    /// Puts a life in its file.
    fn put_life(&self, life: Life) -> io::Result<()> {
        let text = life_text(self.alloc, self.node, life)?;
        put_file(
            self.files,
            self.alloc,
            self.folder.as_str(),
            "life",
            text.as_bytes(),
        )
    }

    /// Puts a life in its file, and knows it to be the last one then.
    pub(crate) fn write_life(&mut self, life: Life) -> io::Result<()>
        ensures done { OnOk result (self.new ≡ with_life life self.old) }
        ensures failed { OnErr result (self.new ≡ self.old) }
    {
        self.put_life(life)?;
        self.last = life;
        Ok(())
    }

    /// The bytes of a file of the agent's, if it is there.
    pub(crate) fn read_bytes(&self, alloc: Global, path: &str) -> io::Result<Option<Vec<u8>>> {
        read_file(self.files, alloc, path)
    }

    /// Puts bytes in a file of the agent's.
    pub(crate) fn write_bytes(&self, path: &str, bytes: &[u8]) -> io::Result<()> {
        fs::create(self.files, path)?.write_all(bytes)
    }
}

/// The digests that files of a folder have as their names. What was being written when a process ended has another name.
fn digests_in<R: Files + Alloc + Clone + Drop>(
    rt: &R,
    alloc: Global,
    folder: &str,
) -> io::Result<Vec<Digest>> {
    let mut digests = Vec::new(alloc);
    for entry in fs::read_dir(rt, folder)? {
        let entry = entry?;
        if let Ok(key) = Key::parse(entry.file_name()) {
            digests.push(key.0)?;
        }
    }
    Ok(digests)
}

/// The digests of the contents that a node's folder has. A process that was killed may have left names that the device doesn't have.
fn kept_digests<R: Files + Alloc + Clone + Drop>(
    rt: &R,
    alloc: Global,
    folder: &str,
) -> io::Result<Vec<Digest>> {
    let contents = format!(in alloc; "{folder}/contents")?;
    let digests = digests_in(rt, alloc, contents.as_str())?;
    sync_names(rt, contents.as_str())?;
    Ok(digests)
}

/// The store of a node's folder, which is made where there is none. No content is taken as kept yet.
fn empty_store<'a, R: Files>(
    files: &'a R,
    alloc: Global,
    folder: &str,
    node: NodeId,
) -> Result<FileStore<'a, R>, OpenFault> {
    let contents = format!(in alloc; "{folder}/contents")?;
    fs::create_dir_all(files, contents.as_str())?;
    let last = last_life(files, alloc, folder, node)?;
    Ok(FileStore {
        files,
        alloc,
        node,
        folder: String::from_str(alloc, folder)?,
        digests: Vec::new(alloc),
        last,
    })
}

/// Opens a node's folder, and makes it where there is none: its last life and its contents.
pub fn open_store<'a, R: Files + Alloc + Clone + Drop>(
    files: &'a R,
    alloc: Global,
    folder: &str,
    node: NodeId,
) -> Result<(FileStore<'a, R>, Found), OpenFault>
    ensures { IfOk result (λ opened. HasFound opened.0 opened.1) }
{
    let mut store = empty_store(files, alloc, folder, node)?;
    let digests = kept_digests(files, alloc, folder)?;
    let found = store.find_all(alloc, digests.as_slice())?;
    Ok((store, found))
}
