//! What single words spell, and the words of a text.
ghost use Rattle.std.specs.Prelude.{◌≡◌, ◌≢◌, ℕ, ◌<◌, Bool, List, ◌++◌, ◌∷◌, slice_index, IfOk, IfSome, IfNone};
ghost use Rattle.names.specs.declared.digest.Digest.{Digest};
ghost use Rattle.names.specs.declared.folder.FolderName.{FolderName};
ghost use Rattle.names.specs.declared.number.NodeId.{NodeId};
ghost use Rattle.names.specs.declared.number.Ticket.{Ticket};
ghost use Rattle.names.specs.Decimals.{Lacks};
ghost use Rattle.names.specs.Digests.{IsDigest};
ghost use Rattle.names.specs.Names.{folder_text, slot_text, IsName, IsSlot};
ghost use Rattle.names.specs.Slots.{SlotParts};
ghost use Rattle.words.specs.Words.{words, texts, node_text, ticket_text, digits_text, why_text, access_text, IsNode, IsTicket};

use super::refusal::ReadRefusal;
use farm_base::laws::{is_name, is_slot};
use farm_base::reading::{after, number};
use farm_base::{Digest, FolderName, FolderRefusal, Key, NodeId, Slot, SlotRefusal, Ticket, Why};
use std::alloc::{AllocError, Global};

/// The node of a word.
pub fn node_of(word: &str) -> Option<NodeId>
    ensures found { IfSome result (λ node. word.now ≡ node_text node) }
    ensures fits { IfSome result IsNode }
    ensures only { IfNone result ((node : NodeId) → IsNode node → word.now ≢ node_text node) }
{
    let value = number(word)?;
    if value <= u32::MAX as u64 {
        Some(NodeId(value as u32))
    } else {
        None
    }
}

/// The ticket of a word.
pub fn ticket_of(word: &str) -> Option<Ticket>
    ensures found { IfSome result (λ ticket. word.now ≡ ticket_text ticket) }
    ensures fits { IfSome result IsTicket }
    ensures only { IfNone result ((ticket : Ticket) → IsTicket ticket → word.now ≢ ticket_text ticket) }
{
    Some(Ticket(number(word)?))
}

/// The digest of a word.
pub fn digest_of(word: &str) -> Option<Digest>
    ensures found { IfSome result (λ digest. word.now ≡ digits_text digest) }
    ensures fits { IfSome result IsDigest }
    ensures only { IfNone result ((digest : Digest) → IsDigest digest → word.now ≢ digits_text digest) }
{
    let Ok(key) = Key::parse(word) else {
        return None;
    };
    let _bytes = key.0.bytes();
    Some(key.0)
}

/// The word of a refusal.
pub fn why_name(why: Why) -> &'static str
    ensures { result.now ≡ why_text why }
{
    match why {
        Why::InstancesSpent => "InstancesSpent",
        Why::TicketsSpent => "TicketsSpent",
    }
}

/// What stands behind `ro=`, or the whole word, and whether it may be written.
pub fn access_of(word: &str) -> (&str, bool)
    ensures spelled { word.now ≡ access_text result.1 ++ result.0.now }
    ensures only { (writable : Bool) (rest : List ℕ) → slice_index rest 0 ≢ 114 → word.now ≡ access_text writable ++ rest
        → (result.1 ≡ writable) × (result.0.now ≡ rest) }
{
    match after(word, "ro=") {
        Some(rest) => (rest, false),
        None => (word, true),
    }
}

/// The folder of a word.
pub fn folder_of(alloc: Global, word: &str) -> Result<FolderName, ReadRefusal>
    ensures spelled { IfOk result (λ folder. word.now ≡ folder_text folder) }
    ensures name { IfOk result IsName }
    ensures only { result ≡ Err ReadRefusal.BadForm → (folder : FolderName) → IsName folder → word.now ≢ folder_text folder }
{
    match FolderName::parse(alloc, word) {
        Err(FolderRefusal::OutOfMemory) => Err(ReadRefusal::OutOfMemory),
        Err(FolderRefusal::BadFolder) => Err(ReadRefusal::BadForm),
        Ok(folder) => {
            is_name(&folder);
            Ok(folder)
        }
    }
}

/// The slot of a word.
pub fn slot_of(alloc: Global, word: &str) -> Result<Slot, ReadRefusal>
    ensures spelled { IfOk result (λ slot. word.now ≡ slot_text slot) }
    ensures slot { IfOk result IsSlot }
    ensures only { result ≡ Err ReadRefusal.BadForm → (slot : SlotParts) → IsSlot slot → word.now ≢ slot_text slot }
{
    match Slot::parse(alloc, word) {
        Err(SlotRefusal::OutOfMemory) => Err(ReadRefusal::OutOfMemory),
        Err(SlotRefusal::BadSlot) => Err(ReadRefusal::BadForm),
        Ok(slot) => {
            is_slot(&slot);
            Ok(slot)
        }
    }
}

/// The parts before and after the last occurrence of a character.
pub fn last_split<'a>(text: &'a str, at: char) -> Option<(&'a str, &'a str)>
    requires { at < 128 }
    ensures found { IfSome result (λ parts. (text.now ≡ parts.0.now ++ at ∷ parts.1.now) × Lacks at parts.1.now) }
    ensures only { IfNone result (Lacks at text.now) }
{
    text.rsplit_once(at)
}

/// The words of a text.
pub fn words_of<'a>(alloc: Global, text: &'a str) -> Result<Vec<&'a str>, AllocError>
    ensures { IfOk result (λ v. texts v.items ≡ words text.now) }
{
    text.split(' ').collect(alloc)
}
