//! Folders as bytes, spelled by hand.

use folders::{Folder, FolderRefusal};
use std::alloc::Global;
use std::test::Fail;

/// Bytes in hexadecimal, and why they are refused, if they are.
const ROWS: [(&str, Option<FolderRefusal>); 20] = [
    ("", None),
    ("00000001610000000178", None),
    ("0000000000000000", None),
    // `a` before `ab`, and `z` before `é`.
    ("0000000161000000000000000261620000000178", None),
    ("000000017a0000000000000002c3a900000000", None),
    (
        "0000000161000000017800000001610000000178",
        Some(FolderRefusal::PathOrder),
    ),
    (
        "0000000261620000000000000001610000000178",
        Some(FolderRefusal::PathOrder),
    ),
    // The order of a path comes before its content, and its characters before its order.
    (
        "00000001620000000000000001610000",
        Some(FolderRefusal::PathOrder),
    ),
    (
        "00000002c3a90000000000000001800000",
        Some(FolderRefusal::NotUtf8),
    ),
    ("00000001ff00000000", Some(FolderRefusal::NotUtf8)),
    ("00000001ff", Some(FolderRefusal::NotUtf8)),
    ("00000002c080", Some(FolderRefusal::NotUtf8)),
    ("00000003eda080", Some(FolderRefusal::NotUtf8)),
    ("000000016100000001", Some(FolderRefusal::Truncated)),
    ("0000000161000000", Some(FolderRefusal::Truncated)),
    ("00000001", Some(FolderRefusal::Truncated)),
    ("00000002ff", Some(FolderRefusal::Truncated)),
    ("000000", Some(FolderRefusal::Truncated)),
    ("ffffffff61", Some(FolderRefusal::Truncated)),
    ("0000000161ffffffff78", Some(FolderRefusal::Truncated)),
];

/// Why bytes are refused.
fn refusal(alloc: Global, bytes: &[u8]) -> Option<FolderRefusal> {
    Folder::read(alloc, bytes).err()
}

/// The folder that the digits spell.
fn spelled(alloc: Global, digits: &str) -> Result<Folder, Fail> {
    let bytes = hex::decode(alloc, digits)?;
    Ok(Folder::read(alloc, &bytes)?)
}

/// Whether a folder that is read of the bytes has these bytes again.
fn is_again(alloc: Global, bytes: &[u8]) -> Result<bool, Fail> {
    let folder = Folder::read(alloc, bytes)?;
    Ok(folder.to_bytes(alloc)?.as_slice() == bytes)
}

/// Whether the digits are refused so, or are a folder's.
fn is_so(alloc: Global, digits: &str, wanted: Option<FolderRefusal>) -> Result<bool, Fail> {
    let bytes = hex::decode(alloc, digits)?;
    match wanted {
        None => is_again(alloc, &bytes),
        Some(_) => Ok(refusal(alloc, &bytes) == wanted),
    }
}

#[test]
fn folders_and_faults(rt: HostRuntime) -> Result<(), Fail> {
    for (digits, wanted) in &ROWS {
        assert!(rt; is_so(rt.alloc(), *digits, *wanted)?, "{digits}");
    }
    Ok(())
}

/// The folder `{a: x}`.
const SMALL: &str = "00000001610000000178";

/// Whether each beginning of these bytes, but for none and all of them, is refused as cut.
fn are_cut(alloc: Global, bytes: &[u8]) -> bool {
    for len in 1..bytes.len() {
        if !matches!(
            refusal(alloc, &bytes[..len]),
            Some(FolderRefusal::Truncated)
        ) {
            return false;
        }
    }
    true
}

#[test]
fn folders_cut_short(rt: HostRuntime) -> Result<(), Fail> {
    let bytes = hex::decode(rt.alloc(), SMALL)?;
    assert!(rt; are_cut(rt.alloc(), &bytes));
    Ok(())
}

#[test]
fn files_of_a_folder(rt: HostRuntime) -> Result<(), Fail> {
    let folder = spelled(rt.alloc(), SMALL)?;
    assert!(rt; folder.get("a") == Some(b"x".as_slice()));
    assert!(rt; folder.get("").is_none() && folder.get("b").is_none());
    Ok(())
}

/// The size is checked before all else, and 16 MiB is not too large.
#[test]
fn the_greatest_size(rt: HostRuntime) -> Result<(), Fail> {
    let mut bytes = vec![in rt.alloc(); 0; 16 << 20]?;
    let refused = refusal(rt.alloc(), &bytes);
    assert!(rt; matches!(refused, Some(FolderRefusal::PathOrder)));
    bytes.push(0)?;
    let refused = refusal(rt.alloc(), &bytes);
    assert!(rt; matches!(refused, Some(FolderRefusal::TooLarge)));
    Ok(())
}
