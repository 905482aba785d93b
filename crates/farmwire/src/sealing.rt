//! The line of a message: its text, and behind it its MAC under the key of a node, or a dash.
ghost use Rattle.std.specs.Prelude.{◌≡◌, ◌≢◌, ◌↔◌, ℕ, List, Err, IsTrue, IfOk, IfErr, IfSome, IfNone};
ghost use Rattle.std.specs.String.{string_bytes};
ghost use Rattle.farm_base.specs.declared.message.Message.{Message};
ghost use Rattle.names.specs.declared.number.NodeId.{NodeId};
ghost use Rattle.farmwire.specs.Lawful.{IsLawful};
ghost use Rattle.farmwire.specs.Lines.{message_text};
ghost use Rattle.farmwire.specs.Sealed.{IsShort, IsUnder, IsSealed, IsSpelled, IsGenuine, IsFault, Names, unsealed};
ghost use Rattle.protocol.specs.Hostile.{key_of};
ghost use Rattle.seals.specs.Keyrings.{key_in, HasMac};

use super::reading::read;
use super::refusal::{LineFault, SealRefusal, WriteRefusal};
use super::word::node_of;
use super::writing::write;
use farm_base::reading::split;
use farm_base::{Message, NodeId, ToNode};
use seals::{Keyring, before_mac};
use std::alloc::{AllocError, Global};
use words::ReadRefusal;

/// How many bytes a line has at most, with its end: 24 MiB.
pub const LINE_LIMIT: usize = 24 << 20;

/// The node under whose key a message stands: the one that says it, or that the coordinator tells. A content is asked for and
/// brought under none.
fn key_of(message: &Message) -> Option<NodeId>
    ensures { result ≡ key_of message.now }
{
    match message {
        Message::ToCoord(said) => Some(said.node),
        Message::ToNode(ToNode::FromCoord(told)) => Some(told.node()),
        Message::ToNode(ToNode::Fetch(_)) => None,
        Message::ToNode(ToNode::Blob { .. }) => None,
    }
}

/// A text with a dash in place of a MAC.
fn unsealed(text: String) -> Result<String, AllocError>
    ensures { IfOk result (λ line. string_bytes line ≡ unsealed (string_bytes text)) }
{
    let mut line = text;
    line.push_str(" -")?;
    Ok(line)
}

/// The text under the key of this node, if that is here, or under none.
fn under(
    alloc: Global,
    keys: &Keyring,
    node: Option<NodeId>,
    text: String,
) -> Result<Option<String>, AllocError>
    ensures under { IfOk result (λ found. IfSome found (λ line. IsUnder (key_in keys.now) node (string_bytes text) (string_bytes line))) }
    ensures none { IfOk result (λ found. IfNone found ((line : List ℕ) → IsUnder (key_in keys.now) node (string_bytes text) line → ⊥)) }
{
    match node {
        Some(node) => keys.sealed(alloc, node, text),
        None => Ok(Some(unsealed(text)?)),
    }
}

/// The line of a message, without its end: its text, a space, and the digits of the text's MAC under the key of its node, or a
/// dash where it has none.
pub fn seal(alloc: Global, keys: &Keyring, message: &Message) -> Result<String, SealRefusal>
    ensures sealed { IfOk result (λ line. IsSealed (key_in keys.now) (string_bytes line) message.now) }
    ensures unlawful { result ≡ Err SealRefusal.Unlawful → IsLawful message.now → ⊥ }
    ensures no_key { result ≡ Err SealRefusal.NoKey → (line : List ℕ) → IsUnder (key_in keys.now) (key_of message.now) (message_text message.now) line → ⊥ }
    ensures long { result ≡ Err SealRefusal.TooLong
        → (line : List ℕ) → IsUnder (key_in keys.now) (key_of message.now) (message_text message.now) line → IsShort line → ⊥ }
{
    let text = match write(alloc, message) {
        Ok(text) => text,
        Err(WriteRefusal::Unlawful) => return Err(SealRefusal::Unlawful),
        Err(WriteRefusal::OutOfMemory) => return Err(SealRefusal::OutOfMemory),
    };
    let Some(line) = under(alloc, keys, key_of(message), text)? else {
        return Err(SealRefusal::NoKey);
    };
    if line.len() >= LINE_LIMIT {
        return Err(SealRefusal::TooLong);
    }
    Ok(line)
}

/// The node that the second word of a text names.
fn named(text: &[u8]) -> Option<NodeId>
    ensures found { IfSome result (Names text.now) }
    ensures only { IfNone result ((node : NodeId) → Names text.now node → ⊥) }
{
    let Ok(text) = str::from_utf8(text) else {
        return None;
    };
    let (_verb, behind) = split(text, ' ')?;
    let (node, _behind) = split(behind, ' ')?;
    node_of(node)
}

/// The text of a line that has its MAC under the key of the node that it names, and that node.
fn genuine<'a>(
    alloc: Global,
    keys: &Keyring,
    line: &'a [u8],
) -> Result<Option<(NodeId, &'a [u8])>, AllocError>
    ensures found { IfOk result (λ found. IfSome found (λ it. Names it.1.now it.0 × HasMac (key_in keys.now) it.0 it.1.now line.now)) }
    ensures none { IfOk result (λ found. IfNone found ((text : List ℕ) → IsGenuine (key_in keys.now) line.now text → ⊥)) }
{
    let Some(front) = before_mac(line) else {
        return Ok(None);
    };
    let Some(node) = named(front) else {
        return Ok(None);
    };
    match keys.text_of(alloc, node, line)? {
        Some(text) => Ok(Some((node, text))),
        None => Ok(None),
    }
}

/// Whether a message that stands under the first key stands under the other one.
fn is_same(owner: Option<NodeId>, node: Option<NodeId>) -> bool
    ensures { IsTrue result ↔ (owner ≡ node) }
{
    match (owner, node) {
        (Some(owner), Some(node)) => owner.0 == node.0,
        (None, None) => true,
        _ => false,
    }
}

/// The message that a text spells, where it stands under the key of this node, or under none.
fn read_under(alloc: Global, node: Option<NodeId>, text: &[u8]) -> Result<Message, ReadRefusal>
    ensures spelled { IfOk result (λ message. IsSpelled text.now message × (key_of message ≡ node)) }
    ensures only { result ≡ Err ReadRefusal.BadForm → (message : Message) → IsSpelled text.now message → key_of message ≢ node }
{
    let message = read(alloc, text)?;
    if is_same(key_of(&message), node) {
        Ok(message)
    } else {
        Err(ReadRefusal::BadForm)
    }
}

/// The text before the dash of a line.
fn before_dash(line: &[u8]) -> Option<&[u8]>
    ensures found { IfSome result (λ text. line.now ≡ unsealed text.now) }
    ensures none { IfNone result ((text : List ℕ) → line.now ≢ unsealed text) }
{
    match line {
        [text @ .., b' ', b'-'] => Some(text),
        _ => None,
    }
}

/// The message of a line that isn't too long, with this text before its dash.
fn open_unsealed(
    alloc: Global,
    keys: &Keyring,
    line: &[u8],
    text: &[u8],
) -> Result<Message, LineFault>
    requires short { IsShort line.now }
    requires dash { line.now ≡ unsealed text.now }
    ensures opened { IfOk result (IsSealed (key_in keys.now) line.now) }
    ensures refused { IfErr result (IsFault (key_in keys.now) line.now) }
{
    match read_under(alloc, None, text) {
        Ok(message) => Ok(message),
        Err(ReadRefusal::BadForm) => Err(LineFault::BadForm),
        Err(ReadRefusal::OutOfMemory) => Err(LineFault::OutOfMemory),
    }
}

/// The message of a line that isn't too long, and has no dash.
fn open_sealed(alloc: Global, keys: &Keyring, line: &[u8]) -> Result<Message, LineFault>
    requires short { IsShort line.now }
    requires sealed { (text : List ℕ) → line.now ≢ unsealed text }
    ensures opened { IfOk result (IsSealed (key_in keys.now) line.now) }
    ensures refused { IfErr result (IsFault (key_in keys.now) line.now) }
{
    let Some((node, text)) = genuine(alloc, keys, line)? else {
        return Err(LineFault::BadMac);
    };
    match read_under(alloc, Some(node), text) {
        Ok(message) => Ok(message),
        Err(ReadRefusal::BadForm) => Err(LineFault::BadForm),
        Err(ReadRefusal::OutOfMemory) => Err(LineFault::OutOfMemory),
    }
}

/// The message of a line, which stands here without its end. Of one that is sealed nothing is read before its MAC was looked at but the
/// node that it names.
pub fn open(alloc: Global, keys: &Keyring, line: &[u8]) -> Result<Message, LineFault>
    ensures opened { IfOk result (IsSealed (key_in keys.now) line.now) }
    ensures refused { IfErr result (IsFault (key_in keys.now) line.now) }
{
    if line.len() >= LINE_LIMIT {
        return Err(LineFault::TooLong);
    }
    match before_dash(line) {
        Some(text) => open_unsealed(alloc, keys, line, text),
        None => open_sealed(alloc, keys, line),
    }
}
