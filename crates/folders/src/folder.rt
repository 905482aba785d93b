ghost use Rattle.std.specs.Prelude.{◌≡◌, ◌<◌, [], length, Ok, Err, IfOk, OnOk, OnErr};
ghost use Rattle.std.specs.Option.{option_copied};
ghost use Rattle.folders.specs.Files.{Files, path_cmp, content_at, folder_bytes, most_bytes, IsFolder};
ghost use Rattle.folders.specs.Edits.{edited_all};
ghost use Rattle.folders.specs.Reading.{Gives, folder_of};

use super::edit::Edit;
use super::edited_folder::EditedFolder;
use super::file::{File, copy_files};
use super::reading::read_files;
use super::refusal::{EditRefusal, FolderRefusal};
use super::writing::push_files;
use names::Copied;
use std::alloc::{AllocError, Global};
use std::cmp::Ordering;
use std::marker::Model;

/// The files of a folder: the content of each path.
///
/// Contracts see a finite map, as the list of the paths, rising by their bytes, with the content of each. A path is any
/// UTF-8 text. There are at most 16 MiB of folder bytes.
pub struct Folder {
    files: Vec<File>,
    /// The size of the folder bytes.
    size: usize,
}

// By hand, so that letting go of one is one step of a proof, which no other crate makes again.
impl Drop for Folder {
    fn drop(self) {
        let Self { files: _, size: _ } = self;
    }
}

impl Model for Folder {
    ghost use Rattle.std.specs.Prelude.{◌≡◌, length};
    ghost use Rattle.folders.specs.Files.{Files, folder_bytes, IsFolder};

    ghost Value = { Files };

    ghost view = { λ f. f.files.items };

    ghost invariant = { λ f. IsFolder f.files.items × (f.size ≡ length (folder_bytes f.files.items)) };
}

/// The order of a file's path and another path.
fn compared(file: &File, path: &str) -> Ordering
    ensures { result ≡ path_cmp file.now.0 path.now }
{
    file.0.as_str().cmp(path)
}

impl Folder {
    /// The empty folder.
    pub fn new(alloc: Global) -> Self
        ensures { result ≡ [] }
    {
        Folder {
            files: Vec::new(alloc),
            size: 0,
        }
    }

    /// The folder that these folder bytes spell.
    ///
    /// For each file, by rising path: the length of the path (four bytes, big endian), the path, the length of the content
    /// (four bytes, big endian), the content. A refusal is the first fault: more than 16 MiB, and then file by file a path
    /// that ends early, that isn't UTF-8, that isn't above the one before it, a content that ends early.
    pub fn read(alloc: Global, bytes: &[u8]) -> Result<Self, FolderRefusal>
        // The bytes that were read are those that spell the folder.
        ensures spelled { IfOk result (λ folder. bytes.now ≡ folder_bytes folder) }
        ensures folder { IfOk result IsFolder }
        // The bytes of any folder are read, unless memory runs out.
        ensures only { (files : Files) → IsFolder files → bytes.now ≡ folder_bytes files → Gives (λ folder. folder) result (Ok files) }
        // A refusal is the first fault.
        ensures exact { Gives (λ folder. folder) result (folder_of bytes.now) }
    {
        let files = read_files(alloc, bytes)?;
        Ok(Folder {
            files,
            size: bytes.len(),
        })
    }

    /// The folder bytes, which `read` reads back.
    pub fn to_bytes(&self, alloc: Global) -> Result<Vec<u8>, AllocError>
        ensures bytes { IfOk result (λ v. v.items ≡ folder_bytes self.now) }
        ensures again { IfOk result (λ v. folder_of v.items ≡ Ok self.now) }
        ensures folder { IsFolder self.now }
    {
        let mut bytes = Vec::with_capacity(alloc, self.size)?;
        push_files(&mut bytes, self.files.as_slice())?;
        Ok(bytes)
    }

    /// Makes the edits, one after the other. A refusal changes nothing.
    ///
    /// The folder after all edits counts, not those in between: it is `TooLarge` where it would have more than 16 MiB of
    /// folder bytes.
    pub fn apply(&mut self, alloc: Global, edits: &[Edit]) -> Result<(), EditRefusal>
        ensures ok { OnOk result (self.new ≡ edited_all self.old edits.now) }
        ensures folder { IsFolder self.new }
        ensures too_large { result ≡ Err EditRefusal.TooLarge → most_bytes < length (folder_bytes (edited_all self.old edits.now)) }
        ensures err { OnErr result (self.new ≡ self.old) }
    {
        let (files, size) = self.edited(alloc, edits)?.into_files(alloc)?;
        self.files = files;
        self.size = size;
        Ok(())
    }

    /// The folder as these edits would make it, one after the other. It copies no file.
    ///
    /// The folder after all edits counts, as for `apply`.
    pub fn edited<'a>(
        &'a self,
        alloc: Global,
        edits: &'a [Edit],
    ) -> Result<EditedFolder<'a>, EditRefusal>
        ensures edited { IfOk result (λ folder. folder ≡ edited_all self.now edits.now) }
        ensures folder { IfOk result IsFolder }
        ensures too_large { result ≡ Err EditRefusal.TooLarge → most_bytes < length (folder_bytes (edited_all self.now edits.now)) }
    {
        EditedFolder::of(alloc, self.files.as_slice(), edits)
    }

    /// The content of the file at this path, if there is one. It takes no memory.
    pub fn get(&self, path: &str) -> Option<&[u8]>
        ensures { option_copied result ≡ content_at self.now path.now }
    {
        let files = self.files.as_slice();
        match files.binary_search_by(|file| compared(file, path)) {
            Ok(place) => Some(files[place].1.as_slice()),
            Err(_) => None,
        }
    }
}

impl Copied for Folder {
    fn copy(&self, alloc: Global) -> Result<Self, AllocError> {
        Ok(Folder {
            files: copy_files(alloc, self.files.as_slice())?,
            size: self.size,
        })
    }
}
