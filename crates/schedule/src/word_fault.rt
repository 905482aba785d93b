//! What is wrong with a single word.
ghost use Rattle.std.specs.Prelude.{◌≡◌, IfOk};
ghost use Rattle.std.specs.List.{list_all};
ghost use Rattle.schedule.specs.declared.verb.Wanted.{Wanted};
ghost use Rattle.schedule.specs.Lacks.{is_lower_digit, content_lack, IsSlotLack, IsPartsLack, IsLeftLack, Judges};

use super::fault::WordFault;
use super::verb::Wanted;
use super::word::{bytes_of, kept_of, left_of};
use farm_base::Mode;
use farm_base::reading::number;
use std::alloc::{AllocError, Global};
use words::{ReadRefusal, digest_of, folder_of, last_split, node_of, slot_of, ticket_of, want_of};

fn node_fault(word: &str) -> Option<WordFault>
    ensures { Judges Wanted.Node word.now result }
{
    match node_of(word) {
        Some(_) => None,
        None => Some(WordFault::NoNode),
    }
}

fn restarted_fault(word: &str) -> Option<WordFault>
    ensures { Judges Wanted.NodeOrCoordinator word.now result }
{
    match word {
        "coordinator" => None,
        _ => node_fault(word),
    }
}

fn message_fault(word: &str) -> Option<WordFault>
    ensures { Judges Wanted.Message word.now result }
{
    match number(word) {
        Some(_) => None,
        None => Some(WordFault::NoMessage),
    }
}

fn ticket_fault(word: &str) -> Option<WordFault>
    ensures { Judges Wanted.Ticket word.now result }
{
    match ticket_of(word) {
        Some(_) => None,
        None => Some(WordFault::NoTicket),
    }
}

fn digest_fault(word: &str) -> Option<WordFault>
    ensures { Judges Wanted.Digest word.now result }
{
    match digest_of(word) {
        Some(_) => None,
        None => Some(WordFault::NoDigest),
    }
}

fn kept_fault(word: &str) -> Option<WordFault>
    ensures { Judges Wanted.Kept word.now result }
{
    match kept_of(word) {
        Some(_) => None,
        None => Some(WordFault::NotKept),
    }
}

fn folder_fault(alloc: Global, word: &str) -> Result<Option<WordFault>, AllocError>
    ensures { IfOk result (Judges Wanted.Folder word.now) }
{
    match want_of(alloc, word) {
        Ok(_) => Ok(None),
        Err(ReadRefusal::BadForm) => Ok(Some(WordFault::NoFolder)),
        Err(ReadRefusal::OutOfMemory) => Err(AllocError),
    }
}

fn shared_fault(alloc: Global, word: &str) -> Result<Option<WordFault>, AllocError>
    ensures { IfOk result (Judges Wanted.SharedFolder word.now) }
{
    match folder_of(alloc, word) {
        Ok(folder) => match folder.mode {
            Mode::Shared => Ok(None),
            Mode::Private | Mode::Locked => Ok(Some(WordFault::NotShared)),
        },
        Err(ReadRefusal::BadForm) => Ok(Some(WordFault::NoFolder)),
        Err(ReadRefusal::OutOfMemory) => Err(AllocError),
    }
}

/// Why a word is no slot.
fn slot_lack(alloc: Global, word: &str) -> Result<WordFault, AllocError>
    ensures { IfOk result (IsSlotLack word.now) }
{
    match folder_of(alloc, word) {
        Ok(_) => Ok(WordFault::NoInstance),
        Err(ReadRefusal::BadForm) => Ok(WordFault::NoSlot),
        Err(ReadRefusal::OutOfMemory) => Err(AllocError),
    }
}

fn slot_fault(alloc: Global, word: &str) -> Result<Option<WordFault>, AllocError>
    ensures { IfOk result (Judges Wanted.Slot word.now) }
{
    match slot_of(alloc, word) {
        Ok(_) => Ok(None),
        Err(ReadRefusal::BadForm) => Ok(Some(slot_lack(alloc, word)?)),
        Err(ReadRefusal::OutOfMemory) => Err(AllocError),
    }
}

fn is_digit(byte: u8) -> bool
    ensures { result ≡ is_lower_digit byte }
{
    byte.is_ascii_digit() || (b'a' <= byte && byte <= b'f')
}

fn are_digits(word: &[u8]) -> bool
    ensures { result ≡ list_all is_lower_digit word.now }
{
    word.iter().all(|byte| is_digit(*byte))
}

/// Why a word is no content.
fn content_lack(word: &str) -> WordFault
    ensures { result ≡ content_lack word.now }
{
    if are_digits(word.as_bytes()) {
        WordFault::OddDigits
    } else {
        WordFault::NoDigits
    }
}

fn content_fault(alloc: Global, word: &str) -> Result<Option<WordFault>, AllocError>
    ensures { IfOk result (Judges Wanted.Content word.now) }
{
    match bytes_of(alloc, word) {
        Ok(_) => Ok(None),
        Err(ReadRefusal::BadForm) => Ok(Some(content_lack(word))),
        Err(ReadRefusal::OutOfMemory) => Err(AllocError),
    }
}

/// Why these words around a `=` are no slot with its content.
fn parts_lack(alloc: Global, slot: &str, digits: &str) -> Result<WordFault, AllocError>
    ensures { IfOk result (IsPartsLack slot.now digits.now) }
{
    match slot_fault(alloc, slot)? {
        Some(fault) => Ok(fault),
        None => Ok(content_lack(digits)),
    }
}

/// Why a word is no slot with its content.
fn left_lack(alloc: Global, word: &str) -> Result<WordFault, AllocError>
    ensures { IfOk result (IsLeftLack word.now) }
{
    match last_split(word, '=') {
        Some((slot, digits)) => parts_lack(alloc, slot, digits),
        None => Ok(WordFault::NoLeft),
    }
}

fn left_fault(alloc: Global, word: &str) -> Result<Option<WordFault>, AllocError>
    ensures { IfOk result (Judges Wanted.Left word.now) }
{
    match left_of(alloc, word) {
        Ok(_) => Ok(None),
        Err(ReadRefusal::BadForm) => Ok(Some(left_lack(alloc, word)?)),
        Err(ReadRefusal::OutOfMemory) => Err(AllocError),
    }
}

/// Why a word doesn't stand for what is wanted, unless it does.
pub(crate) fn word_fault(
    alloc: Global,
    wanted: Wanted,
    word: &str,
) -> Result<Option<WordFault>, AllocError>
    ensures { IfOk result (Judges wanted word.now) }
{
    match wanted {
        Wanted::Node => Ok(node_fault(word)),
        Wanted::NodeOrCoordinator => Ok(restarted_fault(word)),
        Wanted::Message => Ok(message_fault(word)),
        Wanted::Ticket => Ok(ticket_fault(word)),
        Wanted::Folder => folder_fault(alloc, word),
        Wanted::SharedFolder => shared_fault(alloc, word),
        Wanted::Slot => slot_fault(alloc, word),
        Wanted::Left => left_fault(alloc, word),
        Wanted::Content => content_fault(alloc, word),
        Wanted::Digest => Ok(digest_fault(word)),
        Wanted::Kept => Ok(kept_fault(word)),
    }
}
