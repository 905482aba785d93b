//! Orders of entries, worked out by hand.

use super::build::{digest_of, digests};
use farm_base::Digest;
use std::alloc::{AllocError, Global};
use std::test::Fail;
use vertices::order;

/// For each entry the byte that its digest is made of and those of its inputs; then the places in order, or the refusal.
const ROWS: [(&[(u8, &[u8])], &str); 5] = [
    (&[(1, &[2]), (2, &[])], "1 0 "),
    (&[(1, &[2]), (2, &[1])], "Cycle"),
    (&[(1, &[1])], "Cycle"),
    // A missing input is reported before a cycle.
    (&[(1, &[1]), (2, &[3])], "MissingInput(1)"),
    // Of two entries with one digest the first is the vertex.
    (&[(1, &[]), (2, &[1]), (1, &[2])], "0 1 "),
];

/// The places in order, or the refusal.
fn shown(alloc: Global, entries: &[(Digest, Vec<Digest>)]) -> Result<String, AllocError> {
    let mut text = String::new(alloc);
    match order(alloc, entries) {
        Err(refusal) => write!(text, "{refusal:?}")?,
        Ok(places) => {
            for place in &places {
                write!(text, "{place} ")?;
            }
        }
    }
    Ok(text)
}

/// The entries of a row.
fn entries_of(
    alloc: Global,
    row: &[(u8, &[u8])],
) -> Result<Vec<(Digest, Vec<Digest>)>, AllocError> {
    let mut entries = Vec::new(alloc);
    for (byte, inputs) in row {
        entries.push((digest_of(*byte), digests(alloc, *inputs)?))?;
    }
    Ok(entries)
}

/// Whether the entries of a row are ordered so.
fn are_ordered(alloc: Global, row: &[(u8, &[u8])], wanted: &str) -> Result<bool, AllocError> {
    let entries = entries_of(alloc, row)?;
    Ok(shown(alloc, &entries)?.as_str() == wanted)
}

#[test]
fn orders(rt: HostRuntime) -> Result<(), Fail> {
    for (row, wanted) in &ROWS {
        assert!(rt; are_ordered(rt.alloc(), *row, *wanted)?);
    }
    Ok(())
}
