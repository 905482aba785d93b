//! The folders that an execution under a lease sees.
ghost use Rattle.std.specs.Prelude.{◌≡◌, [], IfOk};
ghost use Rattle.std.specs.List.{zip};
ghost use Rattle.std.specs.Map.{lookup};
ghost use Rattle.std.specs.Option.{option_copied};
ghost use Rattle.std.specs.Result.{result_map_both};
ghost use Rattle.names.specs.Folders.{folder_eq};
ghost use Rattle.slotfolders.specs.Seen.{read_one, read_all, folder_seen, IsOpened};

use super::refusal::RunRefusal;
use farm_base::{Content, Copied, FolderName, GrantedSlot, Items, Mode};
use folders::{Folder, FolderRefusal};
use std::alloc::Global;

/// A folder and its name.
pub type NamedFolder = (FolderName, Folder);

/// The folders of a lease's slots, and the SHARED ones that were handed in.
#[derive(Drop)]
pub struct Seen {
    leased: Items<NamedFolder>,
    shared: Items<NamedFolder>,
    /// The folder that is seen under a name that none has.
    empty: Folder,
    ghost is_empty: { empty ≡ [] },
}

/// The folder of a name, if one has it.
pub fn find<'a, F>(folders: &'a [(FolderName, F)], name: &FolderName) -> Option<&'a F>
    ensures { option_copied result ≡ lookup (folder_eq name.now) folders.now }
{
    for (other, folder) in folders {
        if *name == *other {
            return Some(folder);
        }
    }
    None
}

impl Seen {
    /// The folders that the contents of a lease's slots spell, and SHARED ones: `BadContents`, `OutOfMemory`.
    pub fn of(
        alloc: Global,
        slots: &[GrantedSlot],
        contents: &[Content],
        shared: Vec<NamedFolder>,
    ) -> Result<Self, RunRefusal>
        ensures leased { IsOpened (result_map_both (λ seen. seen.leased) (λ refusal. refusal) result) (read_all (zip slots.now contents.now)) }
        ensures shared { IfOk result (λ seen. seen.shared ≡ shared.items) }
    {
        Ok(Seen {
            leased: read_leased(alloc, slots, contents)?,
            shared: Items::new(shared),
            empty: Folder::new(alloc),
        })
    }

    /// The folder of a name. It is empty where none has the name.
    pub fn folder(&self, name: &FolderName) -> &Folder
        ensures { result.now ≡ folder_seen self.now.leased self.now.shared name.now }
    {
        let found = match name.mode {
            Mode::Shared => find(self.shared.as_slice(), name),
            Mode::Private => find(self.leased.as_slice(), name),
            Mode::Locked => find(self.leased.as_slice(), name),
        };
        match found {
            Some(folder) => folder,
            None => &self.empty,
        }
    }
}

/// The folder that the content of a slot spells.
fn read_slot(
    alloc: Global,
    slot: &GrantedSlot,
    content: &Content,
) -> Result<NamedFolder, RunRefusal>
    ensures { IsOpened result (read_one (slot.now, content.now)) }
{
    match Folder::read(alloc, content.bytes()) {
        Ok(folder) => Ok((slot.slot.folder().copy(alloc)?, folder)),
        Err(FolderRefusal::OutOfMemory) => Err(RunRefusal::OutOfMemory),
        Err(
            FolderRefusal::Truncated
            | FolderRefusal::PathOrder
            | FolderRefusal::NotUtf8
            | FolderRefusal::TooLarge,
        ) => Err(RunRefusal::BadContents(slot.slot.copy(alloc)?)),
    }
}

/// The folders that the contents of a lease's slots spell.
pub fn read_leased(
    alloc: Global,
    slots: &[GrantedSlot],
    contents: &[Content],
) -> Result<Items<NamedFolder>, RunRefusal>
    ensures { IsOpened result (read_all (zip slots.now contents.now)) }
{
    let mut folders = Vec::new(alloc);
    let mut rest = contents;
    for slot in slots {
        let [content, others @ ..] = rest else {
            break;
        };
        folders.push(read_slot(alloc, slot, content)?)?;
        rest = others;
    }
    Ok(Items::new(folders))
}
