//! The SHARED folders that a node has open.
ghost use Rattle.std.specs.Prelude.{◌≡◌, ◌<◌, [], map, length, Some, None, Err, slice_get, set, vec_len, IfOk, IfErr, IfSome, IfNone, IsOk, OnErr, OnOk, is_some};
ghost use Rattle.std.specs.List.{find};
ghost use Rattle.names.specs.Slots.{SlotParts};
ghost use Rattle.names.specs.declared.folder.FolderName.{FolderName as Name};
ghost use Rattle.folders.specs.Edits.{edited_all};
ghost use Rattle.folders.specs.Files.{folder_bytes, most_bytes};
ghost use Rattle.executions.specs.declared.live_shared.Open.{Open as SpecOpen};
ghost use Rattle.executions.specs.Leased.{held, leased};
ghost use Rattle.slotfolders.specs.Seen.{folder_at, read_all};
ghost use Rattle.executions.specs.Live.{is_named, files_in, IsTenureOf, Opens, Views, Applies, Closes, Pops};
ghost use Rattle.executions.specs.Keeping.{opened, AreOnce, IsFirstRefusal};

use super::refusal::SharedRefusal;
use farm_base::{Content, Copied, FolderName, Items, Ticket};
use farmboard::Running;
use folders::{Edit, EditRefusal, Folder};
use slotfolders::{Batch, RunRefusal, find, has_changed, read_leased};
use std::alloc::{AllocError, Global};
use std::marker::Model;

/// A SHARED folder that is open.
pub(crate) struct Open {
    folder: FolderName,
    /// The execution of its tenure.
    running: Running,
    /// How many batches there were when it was opened.
    since: usize,
    /// The folder as it is now.
    files: Folder,
}

/// The SHARED folders that a node has open, and all batches of edits that were ever made to them. It isn't dropped while
/// it has tokens: `close` and `pop` give them back.
pub struct LiveShared {
    batches: Vec<Batch>,
    folders: Vec<Open>,
}

impl Model for LiveShared {
    ghost use Rattle.std.specs.Prelude.{map};
    ghost use Rattle.executions.specs.Live.{Live};
    ghost use Rattle.executions.specs.Keeping.{opened, IsKept};

    ghost Value = { Live };

    ghost view = { λ s. record { batches = s.batches.items; folders = map opened s.folders.items } };

    ghost invariant = { λ s. IsKept s.batches.items s.folders.items };
}

/// The place of the open folder of a name.
fn place_of(folders: &[Open], name: &FolderName) -> Option<usize>
    ensures some { IfSome result (λ place. (o : SpecOpen) × (slice_get folders.now place ≡ Some o) × (find (is_named name.now) (map opened folders.now) ≡ Some (opened o))) }
    ensures none { IfNone result (find (is_named name.now) (map opened folders.now) ≡ None) }
{
    for (place, open) in folders.iter().enumerate() {
        if *name == open.folder {
            return Some(place);
        }
    }
    None
}

impl LiveShared {
    /// Nothing is open, and there are no batches.
    pub fn new(alloc: Global) -> Self
        ensures { result ≡ record { batches = []; folders = [] } }
    {
        LiveShared {
            batches: Vec::new(alloc),
            folders: Vec::new(alloc),
        }
    }

    /// All batches, in the order in which they were made.
    pub fn batches(&self) -> &[Batch]
        ensures value { result.now ≡ self.now.batches }
        ensures once { AreOnce self.now.batches }
    {
        self.batches.as_slice()
    }

    /// Whether the folder is open.
    pub fn is_open(&self, folder: &FolderName) -> bool
        ensures { result ≡ is_some (files_in self.now folder.now) }
    {
        place_of(self.folders.as_slice(), folder).is_some()
    }

    /// A copy of an open folder.
    pub fn view(&self, alloc: Global, folder: &FolderName) -> Result<Folder, SharedRefusal>
        ensures { Views self.now folder.now result }
    {
        let Some(place) = place_of(self.folders.as_slice(), folder) else {
            return Err(SharedRefusal::NotOpen);
        };
        Ok(self.folders[place].files.copy(alloc)?)
    }

    /// Opens the folder of a tenure, as it was when the tenure began. A refusal hands the execution back: `BadContents`, or
    /// `OutOfMemory`.
    pub fn open_folder(
        &mut self,
        alloc: Global,
        running: Running,
    ) -> Result<(), (Running, SharedRefusal)>
        requires { (folder : Name) × IsTenureOf running folder × (files_in self.old folder ≡ None) }
        ensures { (folder : Name) → IsTenureOf running folder → Opens self.old folder running result self.new }
    {
        match first_files(alloc, &running) {
            Ok((folder, files)) => self.push(folder, running, files),
            Err(refusal) => Err((running, refusal)),
        }
    }

    /// Opens a folder with these files.
    fn push(
        &mut self,
        folder: FolderName,
        running: Running,
        files: Folder,
    ) -> Result<(), (Running, SharedRefusal)>
        requires closed { files_in self.old folder ≡ None }
        requires read { IsOk (read_all (held running)) }
        requires files { files ≡ folder_at (leased running) folder }
        ensures { Opens self.old folder running result self.new }
    {
        if self.folders.reserve(1).is_err() {
            return Err((running, SharedRefusal::OutOfMemory));
        }
        let since = self.batches.len();
        self.folders.push_reserved(Open {
            folder,
            running,
            since,
            files,
        });
        Ok(())
    }

    /// Makes a batch of edits under the ticket of the execution that made them. A refusal changes nothing.
    pub fn apply(
        &mut self,
        alloc: Global,
        ticket: Ticket,
        folder: &FolderName,
        edits: Vec<Edit>,
    ) -> Result<(), SharedRefusal>
        ensures { Applies self.old ticket folder.now edits.items result self.new }
    {
        let Some(place) = place_of(self.folders.as_slice(), folder) else {
            return Err(SharedRefusal::NotOpen);
        };
        if has_changed(self.batches.as_slice(), ticket, folder) {
            return Err(SharedRefusal::Twice);
        }
        let name = folder.copy(alloc)?;
        self.batches.reserve(1)?;
        change(alloc, &mut self.folders, place, edits.as_slice())?;
        self.batches.push_reserved(Batch {
            ticket,
            folder: name,
            edits: Items::new(edits),
        });
        Ok(())
    }

    /// Closes a folder: gives its tenure back, with the content of the folder. A refusal changes nothing.
    pub fn close(
        &mut self,
        alloc: Global,
        folder: &FolderName,
    ) -> Result<(Running, Content), SharedRefusal>
        ensures { Closes self.old folder.now result self.new }
    {
        let Some(place) = place_of(self.folders.as_slice(), folder) else {
            return Err(SharedRefusal::NotOpen);
        };
        let bytes = self.folders[place].files.to_bytes(alloc)?;
        let content = Content::of(bytes).shared(alloc)?;
        let Open {
            folder: _,
            running,
            since: _,
            files: _,
        } = self.folders.remove(place);
        Ok((running, content))
    }

    /// Gives up the folder that was opened last: gives its tenure back, without the content. It takes no memory.
    pub fn pop(&mut self) -> Option<Running>
        ensures { Pops self.old result self.new }
    {
        let Open {
            folder: _,
            running,
            since: _,
            files: _,
        } = self.folders.pop()?;
        Some(running)
    }

    /// All batches that were made. Nothing may be open: `close` and `pop` give the tenures back.
    pub fn into_batches(self) -> Vec<Batch>
        requires { self.folders ≡ [] }
        ensures { result.items ≡ self.batches }
    {
        let LiveShared { batches, folders } = self;
        folders.into_iter().destroy_empty();
        batches
    }
}

/// Makes edits in the open folder at a place.
fn change(
    alloc: Global,
    folders: &mut Vec<Open>,
    place: usize,
    edits: &[Edit],
) -> Result<(), EditRefusal>
    requires { place < vec_len folders.old }
    ensures ok { OnOk result ((o : SpecOpen) × (slice_get folders.old.items place ≡ Some o)
        × (folders.new.items ≡ set folders.old.items place (record o { files = edited_all o.files edits.now }))) }
    ensures err { OnErr result (folders.new.items ≡ folders.old.items) }
    ensures large { result ≡ Err EditRefusal.TooLarge → (o : SpecOpen) × (slice_get folders.old.items place ≡ Some o)
        × (most_bytes < length (folder_bytes (edited_all o.files edits.now))) }
{
    let open = &mut folders[place];
    open.files.apply(alloc, edits)
}

/// The folder of a tenure, and its files when the tenure began.
fn first_files(alloc: Global, running: &Running) -> Result<(FolderName, Folder), SharedRefusal>
    requires { (folder : Name) × IsTenureOf running.now folder }
    ensures files { IfOk result (λ made. IsTenureOf running.now made.0 × (made.1 ≡ folder_at (leased running.now) made.0)) }
    ensures read { IfOk result (λ made. IsOk (read_all (held running.now))) }
    ensures bad { result ≡ Err SharedRefusal.BadContents → (slot : SlotParts) × (read_all (held running.now) ≡ Err slot) }
    ensures refusals { IfErr result IsFirstRefusal }
{
    let [want, ..] = running.wants().as_slice() else {
        unreachable!();
    };
    let slots = running.grant().slots.as_slice();
    let folders = match read_leased(alloc, slots, running.bases()) {
        Ok(folders) => folders,
        Err(RunRefusal::BadContents(_)) => return Err(SharedRefusal::BadContents),
        Err(RunRefusal::BadEdits | RunRefusal::OutOfMemory) => {
            return Err(SharedRefusal::OutOfMemory);
        }
    };
    let files = match find(folders.as_slice(), &want.folder) {
        Some(folder) => folder.copy(alloc)?,
        None => Folder::new(alloc),
    };
    Ok((want.folder.copy(alloc)?, files))
}
