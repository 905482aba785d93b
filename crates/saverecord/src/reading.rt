//! Reading a record.
ghost use Rattle.std.specs.Prelude.{◌≡◌, ◌≤◌, length, take, codes, IfOk, Ok};
ghost use Rattle.saverecord.specs.declared.record.Record.{Record};
ghost use Rattle.saverecord.specs.Fits.{IsRecord, IsTypedRecord};
ghost use Rattle.saverecord.specs.Spelling.{record_bytes};
ghost use Rattle.recordparts.specs.Parts.{Gives};
ghost use Rattle.saverecord.specs.Records.{retired_nodes_at, body_at, whole_body, layout_of, signed, opened, place_for, has_life, with_life, with_home, from_first, judged, record_of};

use super::record::Record;
use super::relation::{agrees, is_at_home};
use super::writing::MAGIC;
use farm_base::{Items, Life, NodeId, NodeLife, Ticket};
use recordlists::take_list;
use recordparts::{Flaw, Layout, RecordRefusal, take_home, take_u64};
use sha2::Sha256;
use std::alloc::{AllocError, Global};

#[tactic(auto, unfolding(crate::specs::Records::retired_nodes_at))]
fn take_retired_nodes(
    alloc: Global,
    layout: Layout,
    bytes: &[u8],
) -> Result<(Items<NodeId>, &[u8]), RecordRefusal>
    ensures { Gives (λ x. (x.0, x.1.now)) result (retired_nodes_at layout bytes.now) }
{
    if layout.has_retired_nodes() {
        take_list(alloc, layout, bytes)
    } else {
        Ok((Items::new(Vec::new(alloc)), bytes))
    }
}

#[tactic(auto, unfolding(crate::specs::Records::body_at))]
fn take_body(alloc: Global, layout: Layout, bytes: &[u8]) -> Result<(Record, &[u8]), RecordRefusal>
    ensures { Gives (λ x. (x.0, x.1.now)) result (body_at layout bytes.now) }
{
    let (last, rest) = take_u64(bytes, 0, u64::MAX)?;
    let (old_home, rest) = take_home(rest)?;
    let (lives, rest) = take_list(alloc, layout, rest)?;
    let (retired_nodes, rest) = take_retired_nodes(alloc, layout, rest)?;
    let (leases, rest) = take_list(alloc, layout, rest)?;
    let (retired, rest) = take_list(alloc, layout, rest)?;
    let (lines, rest) = take_list(alloc, layout, rest)?;
    let record = Record {
        last: Ticket(last),
        old_home,
        lives,
        retired_nodes,
        leases,
        retired,
        lines,
    };
    Ok((record, rest))
}

/// The parts of a record that fill all the bytes.
#[tactic(auto, unfolding(crate::specs::Records::whole_body))]
fn whole_body(alloc: Global, layout: Layout, bytes: &[u8]) -> Result<Record, RecordRefusal>
    ensures { Gives (λ r. r) result (whole_body layout bytes.now) }
{
    let (record, rest) = take_body(alloc, layout, bytes)?;
    if !rest.is_empty() {
        return Err(RecordRefusal::NotCanonical(Flaw::Trailing));
    }
    Ok(record)
}

/// The layout that a magic stands for.
#[tactic(auto, unfolding(crate::specs::Records::layout_of))]
fn layout_of(magic: &[u8]) -> Result<Layout, RecordRefusal>
    ensures { result ≡ layout_of magic.now }
{
    if magic == b"BKFARM01".as_slice() {
        Ok(Layout::First)
    } else if magic == b"BKFARM02".as_slice() {
        Ok(Layout::Second)
    } else if magic == MAGIC.as_slice() {
        Ok(Layout::Third)
    } else {
        Err(RecordRefusal::BadMagic)
    }
}

/// The bytes between magic and digest, where the digest is that of all before it.
#[tactic(auto, unfolding(crate::specs::Records::signed))]
pub(crate) fn signed(bytes: &[u8]) -> Result<&[u8], RecordRefusal>
    requires { 40 ≤ length bytes.now }
    ensures { Gives (λ x. x.now) result (signed bytes.now) }
{
    let (signed, written) = bytes.split_at(bytes.len() - 32);
    let digest: [u8; 32] = <Sha256 as sha2::Digest>::digest(signed);
    if digest.as_slice() != written {
        return Err(RecordRefusal::BadDigest);
    }
    Ok(&signed[8..])
}

/// The layout, and the bytes between magic and digest.
#[tactic(auto, unfolding(crate::specs::Records::opened_by))]
fn open(bytes: &[u8]) -> Result<(Layout, &[u8]), RecordRefusal>
    ensures { Gives (λ x. (x.0, x.1.now)) result (opened bytes.now) }
{
    if bytes.len() < 40 {
        return Err(RecordRefusal::Truncated);
    }
    let layout = layout_of(&bytes[..8])?;
    let body = signed(bytes)?;
    Ok((layout, body))
}

/// The place of the first life of a node above this one.
fn place_for(node: NodeId, lives: &[NodeLife]) -> usize
    ensures value { result ≡ place_for node lives.now }
    ensures range { result ≤ length lives.now }
{
    for (i, seen) in lives.iter().enumerate() {
        if node.0 < seen.node.0 {
            return i;
        }
    }
    lives.len()
}

fn has_life(node: NodeId, lives: &[NodeLife]) -> bool
    ensures { result ≡ has_life node lives.now }
{
    lives.iter().any(|seen| seen.node == node)
}

/// Adds life 1 of the node in its place, if the lives have none of the node.
#[tactic(auto, unfolding(crate::specs::Records::with_life))]
fn with_life(node: NodeId, lives: Items<NodeLife>) -> Result<Items<NodeLife>, AllocError>
    ensures { IfOk result (λ added. added ≡ with_life node lives) }
{
    let mut lives = lives.into_vec();
    if !has_life(node, &lives) {
        let place = place_for(node, &lives);
        let life = Life(1);
        lives.insert(place, NodeLife { node, life })?;
    }
    Ok(Items::new(lives))
}

fn with_home(home: Option<NodeId>, lives: Items<NodeLife>) -> Result<Items<NodeLife>, AllocError>
    ensures { IfOk result (λ added. added ≡ with_home home lives) }
{
    match home {
        None => Ok(lives),
        Some(node) => with_life(node, lives),
    }
}

/// A record of version 1, whose home becomes the old home.
fn from_first(before: Record) -> Result<Record, AllocError>
    ensures { IfOk result (λ r. r ≡ from_first before) }
{
    let Record {
        last,
        old_home,
        lives,
        retired_nodes,
        leases,
        retired,
        lines,
    } = before;
    let lives = with_home(old_home, lives)?;
    Ok(Record {
        last,
        old_home,
        lives,
        retired_nodes,
        leases,
        retired,
        lines,
    })
}

/// The record, if its parts agree.
#[tactic(auto, unfolding(crate::specs::Records::judged))]
fn judged(layout: Layout, read: Record) -> Result<Record, RecordRefusal>
    ensures { Gives (λ r. r) result (judged layout read) }
{
    if !agrees(&read) {
        return Err(RecordRefusal::NotCanonical(Flaw::Relation));
    }
    match layout {
        Layout::First => {
            if !is_at_home(&read) {
                return Err(RecordRefusal::NotCanonical(Flaw::Relation));
            }
            Ok(from_first(read)?)
        }
        Layout::Second => Ok(read),
        Layout::Third => Ok(read),
    }
}

/// The record that the bytes spell, or their first fault.
#[tactic(auto, unfolding(crate::specs::Records::record_of))]
fn record_of(alloc: Global, bytes: &[u8]) -> Result<Record, RecordRefusal>
    ensures { Gives (λ r. r) result (record_of bytes.now) }
{
    let (layout, body) = open(bytes)?;
    let record = whole_body(alloc, layout, body)?;
    judged(layout, record)
}

impl Record {
    /// Reads a record of version 1, 2 or 3.
    pub fn read(alloc: Global, bytes: &[u8]) -> Result<Self, RecordRefusal>
        // The first fault from the left decides.
        ensures exact { Gives (λ r. r) result (record_of bytes.now) }
        // What is read can be written.
        ensures fits { IfOk result IsRecord }
        // Of version 3 only bytes that `write` gives are read.
        ensures found { IfOk result (λ r. take 8 bytes.now ≡ codes "BKFARM03" → bytes.now ≡ record_bytes r) }
        // What is written is read, unless memory runs out.
        ensures only { (r : Record) → IsRecord r → IsTypedRecord r → bytes.now ≡ record_bytes r → Gives (λ x. x) result (Ok r) }
    {
        record_of(alloc, bytes)
    }
}
