//! What edits leave in the slots of a lease.
ghost use Rattle.std.specs.Prelude.{◌≡◌, true, false, IfOk, Err};
ghost use Rattle.names.specs.Slots.{SlotParts};
ghost use Rattle.std.specs.List.{list_all, list_any};
ghost use Rattle.folders.specs.Edits.{edited_all};
ghost use Rattle.slotfolders.specs.Left.{may_write, is_of, differ, are_allowed, is_small, changed, can_be_made, is_left, left_in, lefts};
ghost use Rattle.slotfolders.specs.Seen.{folder_seen};

use super::refusal::RunRefusal;
use super::seen::{Seen, find};
use farm_base::{Content, Copied, FolderName, GrantedSlot, Items, Left, Mode, Slot, Want};
use folders::{Edit, EditRefusal, EditedFolder};
use std::alloc::{AllocError, Global};

/// Edits of a folder, by its name.
pub type FolderEdits = (FolderName, Items<Edit>);

/// A folder after its edits, and its name.
type Changed<'a> = (FolderName, EditedFolder<'a>);

/// Whether the folder is wanted to be written.
fn may_write(wants: &[Want], name: &FolderName) -> bool
    ensures { result ≡ may_write wants.now name.now }
{
    wants
        .iter()
        .any(|want| *name == want.folder && want.writable)
}

/// Whether each folder may be written.
fn may_all_be_written(wants: &[Want], edits: &[FolderEdits]) -> bool
    ensures { result ≡ list_all (λ e. may_write wants.now e.0) edits.now }
{
    edits.iter().all(|edit| may_write(wants, &edit.0))
}

/// Whether some edits are of this folder.
fn is_among(name: &FolderName, edits: &[FolderEdits]) -> bool
    ensures { result ≡ list_any (is_of name.now) edits.now }
{
    edits.iter().any(|other| *name == other.0)
}

/// Whether no two are of one folder. It goes as deep as there are different folders.
fn differ(edits: &[FolderEdits]) -> bool
    ensures { result ≡ differ edits.now }
{
    match edits {
        [] => true,
        [first, rest @ ..] => !is_among(&first.0, rest) && differ(rest),
    }
}

/// Whether each folder may be written, and no two are the same.
fn are_allowed(wants: &[Want], edits: &[FolderEdits]) -> bool
    ensures { result ≡ are_allowed wants.now edits.now }
{
    may_all_be_written(wants, edits) && differ(edits)
}

/// A folder after its edits.
fn change<'a>(
    alloc: Global,
    seen: &'a Seen,
    edit: &'a FolderEdits,
) -> Result<Changed<'a>, EditRefusal>
    ensures folder { IfOk result (λ folder. folder ≡ (edit.now.0, edited_all (folder_seen seen.now.leased seen.now.shared edit.now.0) edit.now.1)) }
    ensures small { IfOk result (λ folder. is_small folder ≡ true) }
    ensures large { result ≡ Err EditRefusal.TooLarge → is_small (edit.now.0, edited_all (folder_seen seen.now.leased seen.now.shared edit.now.0) edit.now.1) ≡ false }
{
    let folder = seen.folder(&edit.0).edited(alloc, edit.1.as_slice())?;
    Ok((edit.0.copy(alloc)?, folder))
}

/// Each folder after its edits.
fn changed<'a>(
    alloc: Global,
    seen: &'a Seen,
    edits: &'a [FolderEdits],
) -> Result<Vec<Changed<'a>>, EditRefusal>
    ensures folders { IfOk result (λ folders. folders.items ≡ changed (folder_seen seen.now.leased seen.now.shared) edits.now) }
    ensures small { IfOk result (λ folders. list_all is_small folders.items ≡ true) }
    ensures large { result ≡ Err EditRefusal.TooLarge → list_all is_small (changed (folder_seen seen.now.leased seen.now.shared) edits.now) ≡ false }
{
    let mut folders = Vec::new(alloc);
    for edit in edits {
        if folders.push(change(alloc, seen, edit)?).is_err() {
            return Err(EditRefusal::OutOfMemory);
        }
    }
    Ok(folders)
}

/// Whether a slot gets a content at the end.
fn is_left(slot: &GrantedSlot) -> bool
    ensures { result ≡ is_left slot.now }
{
    slot.writable && !matches!(slot.slot.folder().mode, Mode::Shared)
}

/// A slot and the bytes of its folder, as it was changed or seen.
fn left(
    alloc: Global,
    seen: &Seen,
    changed: &[Changed<'_>],
    slot: &Slot,
) -> Result<Left, AllocError>
    ensures { IfOk result (λ left. left ≡ left_in (folder_seen seen.now.leased seen.now.shared) changed.now slot.now) }
{
    let bytes = match find(changed, slot.folder()) {
        Some(folder) => folder.to_bytes(alloc)?,
        None => seen.folder(slot.folder()).to_bytes(alloc)?,
    };
    Ok(Left {
        slot: slot.copy(alloc)?,
        content: Content::of(bytes).shared(alloc)?,
    })
}

/// The content of each slot that gets one.
fn lefts(
    alloc: Global,
    seen: &Seen,
    changed: &[Changed<'_>],
    slots: &[GrantedSlot],
) -> Result<Vec<Left>, AllocError>
    ensures { IfOk result (λ v. v.items ≡ lefts (folder_seen seen.now.leased seen.now.shared) changed.now slots.now) }
{
    let mut lefts = Vec::new(alloc);
    for slot in slots {
        if is_left(slot) {
            lefts.push(left(alloc, seen, changed, &slot.slot)?)?;
        }
    }
    Ok(lefts)
}

/// What edits leave in the slots of a lease, if they can be made: `BadEdits`, `OutOfMemory`.
pub fn left_by(
    alloc: Global,
    seen: &Seen,
    wants: &[Want],
    slots: &[GrantedSlot],
    edits: &[FolderEdits],
) -> Result<Vec<Left>, RunRefusal>
    ensures fit { IfOk result (λ v. can_be_made (folder_seen seen.now.leased seen.now.shared) wants.now edits.now ≡ true) }
    ensures left { IfOk result (λ v. v.items ≡ lefts (folder_seen seen.now.leased seen.now.shared) (changed (folder_seen seen.now.leased seen.now.shared) edits.now) slots.now) }
    ensures bad { result ≡ Err RunRefusal.BadEdits → can_be_made (folder_seen seen.now.leased seen.now.shared) wants.now edits.now ≡ false }
    ensures contents { (slot : SlotParts) → result ≡ Err (RunRefusal.BadContents slot) → ⊥ }
{
    if !are_allowed(wants, edits) {
        return Err(RunRefusal::BadEdits);
    }
    match changed(alloc, seen, edits) {
        Ok(changed) => Ok(lefts(alloc, seen, &changed, slots)?),
        Err(EditRefusal::TooLarge) => Err(RunRefusal::BadEdits),
        Err(EditRefusal::OutOfMemory) => Err(RunRefusal::OutOfMemory),
    }
}
