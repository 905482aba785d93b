//! The text of a message.
ghost use Rattle.std.specs.Prelude.{◌≡◌, [], ◌∷◌, ◌++◌, map, codes, decimal, true, false, IfOk, OnOk};
ghost use Rattle.std.specs.String.{string_bytes};
ghost use Rattle.farmwire.specs.Lawful.{IsLawful};
ghost use Rattle.words.specs.Words.{node_text, digits_text};
ghost use Rattle.farmwire.specs.Lines.{life_text, bytes_text, kind_text, tenure_text, grant_words, said_words, told_words, message_words};
ghost use Rattle.farmwire.specs.Sealed.{IsSpelled};
ghost use Rattle.farmwire.specs.Words.{spaced, line_of, joined};
ghost use Rattle.farm_base.specs.declared.message.FromCoord.TheVariants.{Granted};

use super::item::push_items;
use super::lawful::is_lawful;
use super::refusal::WriteRefusal;
use base64::engine::general_purpose::STANDARD;
use farm_base::{
    Content, Fetch, FromCoord, Grant, Key, LeaseKind, Life, Message, NodeId, Request, ToCoord,
    ToNode, Want,
};
use std::alloc::{AllocError, Global};
use words::why_name;

/// Adds a word behind a space.
pub fn push_word(text: &mut String, word: &str) -> Result<(), AllocError>
    ensures { OnOk result (string_bytes text.new ≡ string_bytes text.old ++ spaced (word.now ∷ [])) }
{
    text.push(' ')?;
    text.push_str(word)
}

/// Adds a number behind a space.
pub fn push_number(alloc: Global, text: &mut String, value: u64) -> Result<(), AllocError>
    ensures { OnOk result (string_bytes text.new ≡ string_bytes text.old ++ spaced (decimal value ∷ [])) }
{
    let digits = value.to_string(alloc)?;
    push_word(text, digits.as_str())
}

/// Adds a folder for each want.
fn push_folders(alloc: Global, text: &mut String, wants: &[Want]) -> Result<(), AllocError>
    ensures { OnOk result (string_bytes text.new ≡ string_bytes text.old ++ spaced (map tenure_text wants.now)) }
{
    for want in wants {
        let folder = want.folder.to_text(alloc)?;
        push_word(text, folder.as_str())?;
    }
    Ok(())
}

/// `VERB N L`.
fn front(alloc: Global, verb: &str, node: NodeId, life: Life) -> Result<String, AllocError>
    ensures { IfOk result (λ text. string_bytes text ≡ line_of verb.now (node_text node ∷ life_text life ∷ [])) }
{
    let mut text = String::from_str(alloc, verb)?;
    push_number(alloc, &mut text, node.0 as u64)?;
    push_number(alloc, &mut text, life.0)?;
    Ok(text)
}

/// `VERB N L` and a number.
fn numbered(
    alloc: Global,
    verb: &str,
    node: NodeId,
    life: Life,
    value: u64,
) -> Result<String, AllocError>
    ensures { IfOk result (λ text. string_bytes text ≡ line_of verb.now (node_text node ∷ life_text life ∷ decimal value ∷ [])) }
{
    let mut text = front(alloc, verb, node, life)?;
    push_number(alloc, &mut text, value)?;
    Ok(text)
}

/// What a life of a node says.
fn said_text(alloc: Global, message: &ToCoord) -> Result<String, AllocError>
    ensures { IfOk result (λ text. string_bytes text ≡ joined (said_words message.now.node message.now.life message.now.request)) }
{
    let (node, life) = (message.node, message.life);
    match &message.request {
        Request::Hello => front(alloc, "hello", node, life),
        Request::Acquire {
            ask,
            wants,
            tenure: true,
        } => {
            let mut text = numbered(alloc, "tenure", node, life, ask.0)?;
            push_folders(alloc, &mut text, wants.as_slice())?;
            Ok(text)
        }
        Request::Acquire {
            ask,
            wants,
            tenure: false,
        } => {
            let mut text = numbered(alloc, "acquire", node, life, ask.0)?;
            push_items(alloc, &mut text, wants.as_slice())?;
            Ok(text)
        }
        Request::Commit { ticket, news } => {
            let mut text = numbered(alloc, "commit", node, life, ticket.0)?;
            push_items(alloc, &mut text, news.as_slice())?;
            Ok(text)
        }
        Request::Release { ticket } => numbered(alloc, "release", node, life, ticket.0),
    }
}

/// The word of a lease's kind.
pub fn kind_name(kind: LeaseKind) -> &'static str
    ensures { result.now ≡ kind_text kind }
{
    match kind {
        LeaseKind::Plain => "plain",
        LeaseKind::Shared => "shared",
        LeaseKind::Tenure => "tenure",
    }
}

/// Adds what a grant says, without its verb.
pub fn push_grant(alloc: Global, text: &mut String, grant: &Grant) -> Result<(), AllocError>
    ensures { OnOk result (string_bytes text.new ≡ string_bytes text.old ++ spaced (grant_words grant.now)) }
{
    push_number(alloc, text, grant.node.0 as u64)?;
    push_number(alloc, text, grant.life.0)?;
    push_number(alloc, text, grant.ask.0)?;
    push_number(alloc, text, grant.ticket.0)?;
    push_word(text, kind_name(grant.kind))?;
    push_items(alloc, text, grant.slots.as_slice())
}

/// A grant.
fn grant_text(alloc: Global, grant: &Grant) -> Result<String, AllocError>
    ensures { IfOk result (λ text. string_bytes text ≡ joined (told_words (Granted grant.now))) }
{
    let mut text = String::from_str(alloc, "granted")?;
    push_grant(alloc, &mut text, grant)?;
    Ok(text)
}

/// What the coordinator tells.
fn told_text(alloc: Global, message: &FromCoord) -> Result<String, AllocError>
    ensures { IfOk result (λ text. string_bytes text ≡ joined (told_words message.now)) }
{
    match message {
        FromCoord::Granted(grant) => grant_text(alloc, grant),
        FromCoord::Committed {
            node,
            life,
            ticket,
            versions,
        } => {
            let mut text = numbered(alloc, "committed", *node, *life, ticket.0)?;
            push_items(alloc, &mut text, versions.as_slice())?;
            Ok(text)
        }
        FromCoord::Fenced { node, life, ticket } => {
            numbered(alloc, "fenced", *node, *life, ticket.0)
        }
        FromCoord::Denied {
            node,
            life,
            ask,
            why,
        } => {
            let mut text = numbered(alloc, "denied", *node, *life, ask.0)?;
            push_word(&mut text, why_name(*why))?;
            Ok(text)
        }
        FromCoord::Recall { node, life, ticket } => {
            numbered(alloc, "recall", *node, *life, ticket.0)
        }
    }
}

/// A question for a content.
fn fetch_text(alloc: Global, fetch: &Fetch) -> Result<String, AllocError>
    ensures { IfOk result (λ text. string_bytes text
        ≡ line_of (codes "fetch") (node_text fetch.now.node ∷ node_text fetch.now.from ∷ digits_text fetch.now.digest ∷ [])) }
{
    let digest = Key(fetch.digest).to_text(alloc)?;
    let mut text = String::from_str(alloc, "fetch")?;
    push_number(alloc, &mut text, fetch.node.0 as u64)?;
    push_number(alloc, &mut text, fetch.from.0 as u64)?;
    push_word(&mut text, digest.as_str())?;
    Ok(text)
}

/// A content.
fn blob_text(alloc: Global, node: NodeId, content: &Content) -> Result<String, AllocError>
    ensures { IfOk result (λ text. string_bytes text ≡ line_of (codes "blob") (node_text node ∷ bytes_text content.now ∷ [])) }
{
    let mut text = String::from_str(alloc, "blob")?;
    push_number(alloc, &mut text, node.0 as u64)?;
    text.push(' ')?;
    STANDARD.encode_string(content.bytes(), &mut text)?;
    Ok(text)
}

/// The words of a message, parted by spaces.
fn message_line(alloc: Global, message: &Message) -> Result<String, AllocError>
    ensures { IfOk result (λ text. string_bytes text ≡ joined (message_words message.now)) }
{
    match message {
        Message::ToCoord(message) => said_text(alloc, message),
        Message::ToNode(ToNode::FromCoord(message)) => told_text(alloc, message),
        Message::ToNode(ToNode::Fetch(fetch)) => fetch_text(alloc, fetch),
        Message::ToNode(ToNode::Blob { node, content }) => blob_text(alloc, *node, content),
    }
}

/// The text of a message. `Unlawful` comes exactly where the message is not lawful, as one with a tenure without a SHARED
/// folder; no message of the protocol is so.
pub fn write(alloc: Global, message: &Message) -> Result<String, WriteRefusal>
    ensures spelled { IfOk result (λ text. IsSpelled (string_bytes text) message.now) }
    ensures unlawful { result ≡ Err WriteRefusal.Unlawful → IsLawful message.now → ⊥ }
{
    if is_lawful(message) {
        Ok(message_line(alloc, message)?)
    } else {
        Err(WriteRefusal::Unlawful)
    }
}
