//! Edits of folders, and the folder bytes after them, spelled by hand.

use farm_base::{Items, Text};
use folders::{Edit, EditRefusal, Folder};
use std::alloc::{AllocError, Global};
use std::test::Fail;

/// Edits of one folder, one row after the other: paths with the content that is put, or `None` where the file is removed;
/// and the folder bytes after them, in hexadecimal.
const ROWS: [(&[(&str, Option<&str>)], &str); 7] = [
    (&[("b", Some("x"))], "00000001620000000178"),
    (&[("a", Some(""))], "00000001610000000000000001620000000178"),
    (
        &[("b", Some("yz"))],
        "000000016100000000000000016200000002797a",
    ),
    (&[("c", None)], "000000016100000000000000016200000002797a"),
    (
        &[("c", Some("x")), ("c", Some("y")), ("c", None)],
        "000000016100000000000000016200000002797a",
    ),
    (
        &[("a", None), ("a", Some("w"))],
        "00000001610000000177000000016200000002797a",
    ),
    (&[("b", None), ("a", None)], ""),
];

fn put(alloc: Global, path: &str, content: &[u8]) -> Result<Edit, AllocError> {
    let path = Text::new(String::from_str(alloc, path)?);
    let content = Vec::from_slice(alloc, content)?;
    Ok(Edit::Put(path, Items::new(content)))
}

fn remove(alloc: Global, path: &str) -> Result<Edit, AllocError> {
    Ok(Edit::Remove(Text::new(String::from_str(alloc, path)?)))
}

/// The edits of a row.
fn edits_of(alloc: Global, row: &[(&str, Option<&str>)]) -> Result<Vec<Edit>, AllocError> {
    let mut edits = Vec::new(alloc);
    for (path, content) in row {
        edits.push(match content {
            Some(content) => put(alloc, *path, content.as_bytes())?,
            None => remove(alloc, *path)?,
        })?;
    }
    Ok(edits)
}

/// Whether the edits of a row leave these folder bytes.
fn leave(
    alloc: Global,
    folder: &mut Folder,
    row: &[(&str, Option<&str>)],
    wanted: &str,
) -> Result<bool, Fail> {
    let edits = edits_of(alloc, row)?;
    folder.apply(alloc, &edits)?;
    let bytes = folder.to_bytes(alloc)?;
    Ok(hex::encode(alloc, &bytes)?.as_str() == wanted)
}

/// Whether all rows do.
fn all_leave(alloc: Global, folder: &mut Folder) -> Result<bool, Fail> {
    for (row, wanted) in &ROWS {
        if !leave(alloc, folder, *row, *wanted)? {
            return Ok(false);
        }
    }
    Ok(true)
}

#[test]
fn edits_of_a_folder(rt: HostRuntime) -> Result<(), Fail> {
    let mut folder = Folder::new(rt.alloc());
    assert!(rt; all_leave(rt.alloc(), &mut folder)?);
    Ok(())
}

/// The edit that puts a file `b` that takes `size` folder bytes.
fn put_large(alloc: Global, size: usize) -> Result<Edit, Fail> {
    let content = vec![in alloc; 0; size.saturating_sub(9)]?;
    Ok(put(alloc, "b", &content)?)
}

/// The folder `{a: x}`.
const SMALL: [u8; 10] = [0, 0, 0, 1, b'a', 0, 0, 0, 1, b'x'];

/// How many folder bytes the file takes that is put beside `a`, whether it is then removed, whether the edits are
/// refused, and the size of the folder after them. Only the folder after all edits must fit.
const LARGE: [(usize, bool, bool, usize); 3] = [
    ((16 << 20) - 9, false, true, 10),
    ((16 << 20) - 10, false, false, 16 << 20),
    (32 << 20, true, false, 10),
];

/// The edits of a row.
fn large(alloc: Global, size: usize, removed: bool) -> Result<Vec<Edit>, Fail> {
    let mut edits = vec![in alloc; put_large(alloc, size)?]?;
    if removed {
        edits.push(remove(alloc, "b")?)?;
    }
    Ok(edits)
}

/// Whether edits are refused as too large, and whether they are made.
fn applied(alloc: Global, folder: &mut Folder, edits: &[Edit]) -> (bool, bool) {
    let result = folder.apply(alloc, edits);
    (
        matches!(&result, Err(EditRefusal::TooLarge)),
        result.is_ok(),
    )
}

/// Whether a folder has its small file still, and this size.
fn has_size(alloc: Global, folder: &Folder, size: usize) -> Result<bool, Fail> {
    let bytes = folder.to_bytes(alloc)?;
    Ok(bytes.starts_with(&SMALL) && bytes.len() == size)
}

/// Whether the edits end as wanted.
fn ends_so(alloc: Global, edits: &[Edit], refused: bool, wanted: usize) -> Result<bool, Fail> {
    let mut folder = Folder::read(alloc, &SMALL)?;
    let ends = applied(alloc, &mut folder, edits);
    Ok(ends == (refused, !refused) && has_size(alloc, &folder, wanted)?)
}

#[test]
fn large_edits(rt: HostRuntime) -> Result<(), Fail> {
    for (size, removed, refused, wanted) in &LARGE {
        let edits = large(rt.alloc(), *size, *removed)?;
        assert!(rt; ends_so(rt.alloc(), &edits, *refused, *wanted)?);
    }
    Ok(())
}
