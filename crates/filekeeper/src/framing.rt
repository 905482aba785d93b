//! How entries lie in the file of a log.
ghost use Rattle.std.specs.Prelude.{◌≡◌, [], Ok, None, IfOk, IfErr, IfSome, Decides};
ghost use Rattle.filekeeper.specs.declared.framing.LogFault.TheVariants as faults;
ghost use Rattle.filekeeper.specs.Framing.{name_of, check_of, head_of, HasNone, IsEntry, IsFault, IsTold, AreTaken, AreTextsOf, TellNone};
ghost use Rattle.saverecord.specs.Texts.{whole_alone};

use saverecord::Log;
use sha2::{Digest, Sha256};
use std::alloc::{AllocError, Global};
use thiserror::Error;

/// Why the file of a log tells no entries.
#[derive(Clone, Copy, Debug, PartialEq, Eq, Error)]
pub enum LogFault {
    /// What stands before this entry, from 1, was damaged.
    #[error("the head of entry {0} is damaged")]
    BadHead(usize),
    #[error("out of memory")]
    OutOfMemory,
}

impl From<AllocError> for LogFault {
    ghost from_gives = { λ _ fault. fault ≡ faults.OutOfMemory };

    fn from(_error: AllocError) -> LogFault {
        LogFault::OutOfMemory
    }
}

/// The name of a record in the log: its last eight bytes, which are of its digest; zeros where it has fewer.
pub(crate) fn name_of(whole: &[u8]) -> [u8; 8]
    ensures { result ≡ name_of whole.now }
{
    match whole.last_chunk::<8>() {
        None => [0; 8],
        Some(name) => *name,
    }
}

/// What stands between the head of an entry and the entry: eight bytes of the head's SHA-256.
fn check_of(name: &[u8; 8], len: &[u8; 8]) -> [u8; 8]
    ensures { result ≡ check_of name.now len.now }
{
    let mut hasher = Sha256::new();
    hasher.update(name.as_slice());
    hasher.update(len.as_slice());
    let digest: [u8; 32] = hasher.finalize();
    match digest.first_chunk::<8>() {
        None => [0; 8],
        Some(check) => *check,
    }
}

/// The head of an entry that follows this record.
pub(crate) fn head_of(whole: &[u8], entry: &[u8]) -> [u8; 24]
    ensures { result ≡ head_of whole.now entry.now }
{
    let name = name_of(whole);
    let len = (entry.len() as u64).to_be_bytes();
    let check = check_of(&name, &len);
    let [a, b, c, d, e, f, g, h] = name;
    let [i, j, k, l, m, n, o, p] = len;
    let [q, r, s, t, u, v, w, x] = check;
    [
        a, b, c, d, e, f, g, h, i, j, k, l, m, n, o, p, q, r, s, t, u, v, w, x,
    ]
}

/// Whether eight bytes are the same as others.
pub(crate) fn are_same(some: &[u8; 8], others: &[u8; 8]) -> bool
    ensures { Decides result (some.now ≡ others.now) }
{
    some.as_slice() == others.as_slice()
}

/// An entry of a log, and what stands behind it.
type Taken<'b> = Option<(&'b [u8], &'b [u8])>;

/// The first entry of a log whose entries follow this record. None where it follows another one, or was cut short. The
/// number is that of the entry, whose head may have been damaged.
fn first_entry<'b>(whole: &[u8], bytes: &'b [u8], number: usize) -> Result<Taken<'b>, LogFault>
    ensures entry { IfOk result (λ taken. IsEntry whole.now bytes.now taken) }
    ensures told { IfOk result (λ taken. IfSome taken (λ p. IsTold p.0.now)) }
    ensures none { result ≡ Ok None → HasNone whole.now bytes.now }
    ensures fault { IfErr result (IsFault bytes.now number) }
{
    let Some((name, rest)) = bytes.split_first_chunk::<8>() else {
        return Ok(None);
    };
    let Some((len, rest)) = rest.split_first_chunk::<8>() else {
        return Ok(None);
    };
    let Some((check, rest)) = rest.split_first_chunk::<8>() else {
        return Ok(None);
    };
    if !are_same(check, &check_of(name, len)) {
        return Err(LogFault::BadHead(number));
    }
    let len = u64::from_be_bytes(*len);
    if !are_same(name, &name_of(whole)) || len > rest.len() as u64 {
        return Ok(None);
    }
    Ok(Some(rest.split_at(len as usize)))
}

/// Adds the entries that follow the record, and gives how many bytes stand behind them.
pub(crate) fn take_entries(alloc: Global, log: &mut Log, bytes: &[u8]) -> Result<usize, LogFault>
    ensures taken { IfOk result (AreTaken log.old bytes.now log.new) }
    ensures none { bytes.now ≡ [] → IfOk result (λ left. log.new ≡ log.old) }
    ensures fault { IfErr result (TellNone log.old.whole bytes.now) }
{
    let mut rest = bytes;
    for number in 0..bytes.len() {
        let Some((entry, after)) = first_entry(log.whole(), rest, number.saturating_add(1))? else {
            return Ok(rest.len());
        };
        let entry = Vec::from_slice(alloc, entry)?;
        log.push(entry)?;
        rest = after;
    }
    Ok(rest.len())
}

/// The texts that these bytes of a record's file and of its log's hold, as `FileKeeper::open` takes them: entries that follow
/// another record, and what was cut short, are none. It changes no file.
pub fn texts_in(alloc: Global, whole: Vec<u8>, tail: &[u8]) -> Result<Log, LogFault>
    ensures texts { IfOk result (AreTextsOf whole.items tail.now) }
    ensures whole { IfOk result (λ log. log.whole ≡ whole.items) }
    ensures none { tail.now ≡ [] → IfOk result (λ log. log ≡ whole_alone whole.items) }
    ensures fault { IfErr result (TellNone whole.items tail.now) }
{
    let mut log = Log::of(alloc, whole);
    let _left = take_entries(alloc, &mut log, tail)?;
    Ok(log)
}
