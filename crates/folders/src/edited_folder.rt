ghost use Rattle.std.specs.Prelude.{◌≡◌, ◌<◌, ◌^◌, ◌++◌, length, Ok, Err, IfOk, OnOk};
ghost use Rattle.std.specs.List.Sorted.{IsStrictlySortedBy};
ghost use Rattle.std.specs.Map.{keys_of};
ghost use Rattle.folders.specs.Edits.{edited_all, lent};
ghost use Rattle.folders.specs.Files.{path_cmp, folder_bytes, most_bytes, IsFolder};
ghost use Rattle.folders.specs.Reading.{folder_of};

use super::applying::{Plan, edited_plan, size_of};
use super::edit::Edit;
use super::file::{File, file_of};
use super::refusal::EditRefusal;
use super::writing::push_file;
use std::alloc::{AllocError, Global};
use std::marker::Model;

/// A folder after edits, whose files are lent: by the folder that was edited, or by the edits. `Folder::edited` makes it.
///
/// Contracts see what they see of a `Folder`.
#[derive(Drop)]
pub struct EditedFolder<'a> {
    plan: Plan<'a>,
    /// The size of the folder bytes.
    size: usize,
}

impl<'a> Model for EditedFolder<'a> {
    ghost use Rattle.std.specs.Prelude.{◌≡◌, length};
    ghost use Rattle.folders.specs.Edits.{lent};
    ghost use Rattle.folders.specs.Files.{Files, folder_bytes, IsFolder};

    ghost Value = { Files };

    ghost view = { λ f. lent f.plan };

    ghost invariant = { λ f. IsFolder (lent f.plan) × (f.size ≡ length (folder_bytes (lent f.plan))) };
}

impl<'a> EditedFolder<'a> {
    /// The folder of these files after some edits.
    pub(crate) fn of(
        alloc: Global,
        files: &'a [File],
        edits: &'a [Edit],
    ) -> Result<Self, EditRefusal>
        requires { IsStrictlySortedBy path_cmp (keys_of files.now) }
        ensures edited { IfOk result (λ folder. folder ≡ edited_all files.now edits.now) }
        ensures folder { IfOk result IsFolder }
        ensures too_large { result ≡ Err EditRefusal.TooLarge → most_bytes < length (folder_bytes (edited_all files.now edits.now)) }
    {
        let plan = edited_plan(alloc, files, edits)?;
        match size_of(&plan) {
            Some(size) => Ok(EditedFolder { plan, size }),
            None => Err(EditRefusal::TooLarge),
        }
    }

    /// The folder bytes, which `Folder::read` reads back.
    pub fn to_bytes(&self, alloc: Global) -> Result<Vec<u8>, AllocError>
        ensures bytes { IfOk result (λ v. v.items ≡ folder_bytes self.now) }
        ensures again { IfOk result (λ v. folder_of v.items ≡ Ok self.now) }
        ensures folder { IsFolder self.now }
    {
        let mut bytes = Vec::with_capacity(alloc, self.size)?;
        push_plan(&mut bytes, &self.plan)?;
        Ok(bytes)
    }

    /// Copies of the files, and the size of their folder bytes.
    pub(crate) fn into_files(self, alloc: Global) -> Result<(Vec<File>, usize), AllocError>
        ensures files { IfOk result (λ made. made.0.items ≡ self.entry) }
        ensures size { IfOk result (λ made. made.1 ≡ length (folder_bytes self.entry)) }
        ensures folder { IsFolder self.entry }
    {
        let files = files_of_plan(alloc, &self.plan)?;
        Ok((files, self.size))
    }
}

/// Copies of the files.
fn files_of_plan(alloc: Global, plan: &Plan<'_>) -> Result<Vec<File>, AllocError>
    ensures { IfOk result (λ files. files.items ≡ lent plan.now) }
{
    let mut files = Vec::with_capacity(alloc, plan.len())?;
    for (path, content) in plan {
        files.push(file_of(alloc, path, content)?)?;
    }
    Ok(files)
}

/// Appends the files, one after the other.
fn push_plan(out: &mut Vec<u8>, plan: &Plan<'_>) -> Result<(), AllocError>
    requires { length (folder_bytes (lent plan.now)) < 2 ^ 32 }
    ensures { OnOk result (out.new.items ≡ out.old.items ++ folder_bytes (lent plan.now)) }
{
    for (path, content) in plan {
        push_file(out, path, content)?;
    }
    Ok(())
}
