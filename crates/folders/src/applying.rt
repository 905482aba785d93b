//! Editing the files of a folder.
ghost use Rattle.std.specs.Prelude.{◌≡◌, ◌+◌, ◌<◌, ◌≤◌, length, IfOk, OnOk, IfSome, IfNone};
ghost use Rattle.std.specs.List.{AllByRecursion};
ghost use Rattle.std.specs.List.Sorted.{IsStrictlySortedBy};
ghost use Rattle.std.specs.Map.{keys_of};
ghost use Rattle.std.specs.Str.{IsUtf8};
ghost use Rattle.folders.specs.Edits.{edited, edited_all, lent};
ghost use Rattle.folders.specs.Files.{path_cmp, file_bytes, folder_bytes, most_bytes};

use super::edit::Edit;
use super::file::File;
use super::reading::MOST_BYTES;
use std::alloc::{AllocError, Global};
use std::collections::BTreeMap;

/// Files by path, lent by a folder or by the edits that put them.
pub(crate) type Plan<'a> = BTreeMap<&'a str, &'a [u8]>;

/// The files of a folder.
fn plan_of<'a>(alloc: Global, files: &'a [File]) -> Result<Plan<'a>, AllocError>
    requires { IsStrictlySortedBy path_cmp (keys_of files.now) }
    ensures { IfOk result (λ plan. lent plan ≡ files.now) }
{
    let mut plan = BTreeMap::new(alloc);
    for (path, content) in files {
        plan.insert(path.as_str(), content.as_slice())?;
    }
    Ok(plan)
}

/// Makes an edit.
fn edit_one<'a>(plan: &mut Plan<'a>, edit: &'a Edit) -> Result<(), AllocError>
    ensures { OnOk result (lent plan.new ≡ edited (lent plan.old) edit.now) }
{
    match edit {
        Edit::Put(path, content) => {
            plan.insert(path.as_str(), content.as_slice())?;
        }
        Edit::Remove(path) => {
            plan.remove(path.as_str());
        }
    }
    Ok(())
}

/// The files of a folder after some edits.
pub(crate) fn edited_plan<'a>(
    alloc: Global,
    files: &'a [File],
    edits: &'a [Edit],
) -> Result<Plan<'a>, AllocError>
    requires { IsStrictlySortedBy path_cmp (keys_of files.now) }
    ensures files { IfOk result (λ plan. lent plan ≡ edited_all files.now edits.now) }
    ensures rise { IfOk result (λ plan. IsStrictlySortedBy path_cmp (keys_of (lent plan))) }
{
    let mut plan = plan_of(alloc, files)?;
    for edit in edits {
        edit_one(&mut plan, edit)?;
    }
    Ok(plan)
}

/// The size of the folder bytes with one more file, if it is within the limit.
fn size_with(size: usize, path: &str, content: &[u8]) -> Option<usize>
    requires { size ≤ most_bytes }
    ensures sum { IfSome result (λ sum. sum ≡ size + length (file_bytes (path.now, content.now))) }
    ensures small { IfSome result (λ sum. sum ≤ most_bytes) }
    ensures utf8 { IsUtf8 path.now }
    ensures large { IfNone result (most_bytes < size + length (file_bytes (path.now, content.now))) }
{
    let sum = (size + 8)
        .checked_add(path.len())?
        .checked_add(content.len())?;
    if sum <= MOST_BYTES { Some(sum) } else { None }
}

/// The size of the files' folder bytes, if it is within the limit.
pub(crate) fn size_of(plan: &Plan<'_>) -> Option<usize>
    ensures size { IfSome result (λ size. size ≡ length (folder_bytes (lent plan.now))) }
    ensures small { IfSome result (λ size. size ≤ most_bytes) }
    ensures utf8 { IfSome result (λ size. AllByRecursion IsUtf8 (keys_of (lent plan.now))) }
    ensures large { IfNone result (most_bytes < length (folder_bytes (lent plan.now))) }
{
    let mut size = 0;
    for (path, content) in plan {
        size = size_with(size, path, content)?;
    }
    Some(size)
}
