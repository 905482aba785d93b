//! The message that a text spells.
ghost use Rattle.std.specs.Prelude.{◌≡◌, List, ◌∷◌, [], ◌≢◌, IfOk, IfSome, IfNone};
ghost use Rattle.std.specs.List.{IsAllAdjacentAnswer};
ghost use Rattle.std.specs.Ordering.{is_lt};
ghost use Rattle.farm_base.specs.declared.message.Message.{Message};
ghost use Rattle.farm_base.specs.declared.want.Want.{Want};
ghost use Rattle.names.specs.Folders.{folder_cmp};
ghost use Rattle.names.specs.declared.number.Life.{Life};
ghost use Rattle.names.specs.declared.number.NodeId.{NodeId};
ghost use Rattle.names.specs.declared.number.Ticket.{Ticket};
ghost use Rattle.farmwire.specs.Lawful.{IsNode, IsLife, IsTicket};
ghost use Rattle.words.specs.Words.{node_text, ticket_text, texts, words};
ghost use Rattle.farmwire.specs.Lines.{life_text};
ghost use Rattle.farmwire.specs.Sealed.{IsSpelled};
ghost use Rattle.farmwire.specs.Words.{said, told, SpellWants, Says, SpelledBy};

use super::item::items_of;
use super::verb::{Verb, verb_of};
use super::word::{ask_of, bytes_of, kind_of, life_of, node_of, ticket_of, why_of};
use farm_base::{
    Content, Fetch, FromCoord, Grant, Items, Life, Message, Mode, NodeId, Request, Ticket, ToCoord,
    ToNode, Want, Wants,
};
use std::alloc::Global;
use words::{ReadRefusal, digest_of, folder_of, words_of};

/// What a life of a node says.
fn said(node: NodeId, life: Life, request: Request) -> Message
    ensures { result ≡ said node life request }
{
    Message::ToCoord(ToCoord {
        node,
        life,
        request,
    })
}

/// What the coordinator tells.
fn told(message: FromCoord) -> Message
    ensures { result ≡ told message }
{
    Message::ToNode(ToNode::FromCoord(message))
}

/// Whether each folder is below the next.
fn rises(wants: &[Want]) -> bool
    ensures { IsAllAdjacentAnswer (λ a b answer. answer ≡ is_lt (folder_cmp a.folder b.folder)) wants.now result }
{
    wants.is_sorted_by(is_below)
}

/// Whether the folder of one is below that of the other.
fn is_below(one: &Want, other: &Want) -> bool
    ensures { result ≡ is_lt (folder_cmp one.now.folder other.now.folder) }
{
    one.folder.cmp(&other.folder).is_lt()
}

/// The wants of these words, whose folders rise.
fn wants_of(alloc: Global, words: &[&str]) -> Result<Wants, ReadRefusal>
    ensures spelled { IfOk result (SpellWants (texts words.now)) }
    ensures only { result ≡ Err ReadRefusal.BadForm → (wants : List Want) → SpellWants (texts words.now) wants → ⊥ }
{
    let wants: Vec<Want> = items_of(alloc, words)?;
    if !rises(wants.as_slice()) {
        return Err(ReadRefusal::BadForm);
    }
    Ok(Wants::of(wants)?)
}

/// `hello N L`.
fn hello_of(words: &[&str]) -> Result<Message, ReadRefusal>
    ensures spelled { IfOk result (Says Verb.Hello (texts words.now)) }
    ensures only { result ≡ Err ReadRefusal.BadForm → (m : Message) → Says Verb.Hello (texts words.now) m → ⊥ }
{
    let [node, life] = words else {
        return Err(ReadRefusal::BadForm);
    };
    let node = node_of(node).ok_or(ReadRefusal::BadForm)?;
    let life = life_of(life).ok_or(ReadRefusal::BadForm)?;
    Ok(said(node, life, Request::Hello))
}

/// `acquire N L A FOLDER..`.
fn acquire_of(alloc: Global, words: &[&str]) -> Result<Message, ReadRefusal>
    ensures spelled { IfOk result (Says Verb.Acquire (texts words.now)) }
    ensures only { result ≡ Err ReadRefusal.BadForm → (m : Message) → Says Verb.Acquire (texts words.now) m → ⊥ }
{
    let [node, life, ask, folders @ ..] = words else {
        return Err(ReadRefusal::BadForm);
    };
    let node = node_of(node).ok_or(ReadRefusal::BadForm)?;
    let life = life_of(life).ok_or(ReadRefusal::BadForm)?;
    let ask = ask_of(ask).ok_or(ReadRefusal::BadForm)?;
    let wants = wants_of(alloc, folders)?;
    let request = Request::Acquire {
        ask,
        wants,
        tenure: false,
    };
    Ok(said(node, life, request))
}

/// `tenure N L A FOLDER`.
fn tenure_of(alloc: Global, words: &[&str]) -> Result<Message, ReadRefusal>
    ensures spelled { IfOk result (Says Verb.Tenure (texts words.now)) }
    ensures only { result ≡ Err ReadRefusal.BadForm → (m : Message) → Says Verb.Tenure (texts words.now) m → ⊥ }
{
    let [node, life, ask, folder] = words else {
        return Err(ReadRefusal::BadForm);
    };
    let node = node_of(node).ok_or(ReadRefusal::BadForm)?;
    let life = life_of(life).ok_or(ReadRefusal::BadForm)?;
    let ask = ask_of(ask).ok_or(ReadRefusal::BadForm)?;
    let folder = folder_of(alloc, folder)?;
    let Mode::Shared = folder.mode else {
        return Err(ReadRefusal::BadForm);
    };
    let wants = Wants::one(alloc, folder, true)?;
    let request = Request::Acquire {
        ask,
        wants,
        tenure: true,
    };
    Ok(said(node, life, request))
}

/// `commit N L T SLOT=DIGEST..`.
fn commit_of(alloc: Global, words: &[&str]) -> Result<Message, ReadRefusal>
    ensures spelled { IfOk result (Says Verb.Commit (texts words.now)) }
    ensures only { result ≡ Err ReadRefusal.BadForm → (m : Message) → Says Verb.Commit (texts words.now) m → ⊥ }
{
    let [node, life, ticket, slots @ ..] = words else {
        return Err(ReadRefusal::BadForm);
    };
    let node = node_of(node).ok_or(ReadRefusal::BadForm)?;
    let life = life_of(life).ok_or(ReadRefusal::BadForm)?;
    let ticket = ticket_of(ticket).ok_or(ReadRefusal::BadForm)?;
    let news = Items::new(items_of(alloc, slots)?);
    Ok(said(node, life, Request::Commit { ticket, news }))
}

/// `N L T`.
fn lease_of(words: &[&str]) -> Option<(NodeId, Life, Ticket)>
    ensures found { IfSome result (λ x. (texts words.now ≡ node_text x.0 ∷ life_text x.1 ∷ ticket_text x.2 ∷ [])
        × IsNode x.0 × IsLife x.1 × IsTicket x.2) }
    ensures only { IfNone result ((node : NodeId) (life : Life) (ticket : Ticket) → IsNode node → IsLife life → IsTicket ticket
        → texts words.now ≢ node_text node ∷ life_text life ∷ ticket_text ticket ∷ []) }
{
    let [node, life, ticket] = words else {
        return None;
    };
    Some((node_of(node)?, life_of(life)?, ticket_of(ticket)?))
}

/// `release N L T`.
fn release_of(words: &[&str]) -> Result<Message, ReadRefusal>
    ensures spelled { IfOk result (Says Verb.Release (texts words.now)) }
    ensures only { result ≡ Err ReadRefusal.BadForm → (m : Message) → Says Verb.Release (texts words.now) m → ⊥ }
{
    let (node, life, ticket) = lease_of(words).ok_or(ReadRefusal::BadForm)?;
    Ok(said(node, life, Request::Release { ticket }))
}

/// `granted N L A T KIND [ro=]SLOT=BASE:DIGEST..`.
fn granted_of(alloc: Global, words: &[&str]) -> Result<Message, ReadRefusal>
    ensures spelled { IfOk result (Says Verb.Granted (texts words.now)) }
    ensures only { result ≡ Err ReadRefusal.BadForm → (m : Message) → Says Verb.Granted (texts words.now) m → ⊥ }
{
    let [node, life, ask, ticket, kind, slots @ ..] = words else {
        return Err(ReadRefusal::BadForm);
    };
    let node = node_of(node).ok_or(ReadRefusal::BadForm)?;
    let life = life_of(life).ok_or(ReadRefusal::BadForm)?;
    let ask = ask_of(ask).ok_or(ReadRefusal::BadForm)?;
    let ticket = ticket_of(ticket).ok_or(ReadRefusal::BadForm)?;
    let kind = kind_of(kind).ok_or(ReadRefusal::BadForm)?;
    let slots = Items::new(items_of(alloc, slots)?);
    Ok(told(FromCoord::Granted(Grant {
        ticket,
        node,
        life,
        ask,
        kind,
        slots,
    })))
}

/// `committed N L T SLOT=NUMBER:DIGEST..`.
fn committed_of(alloc: Global, words: &[&str]) -> Result<Message, ReadRefusal>
    ensures spelled { IfOk result (Says Verb.Committed (texts words.now)) }
    ensures only { result ≡ Err ReadRefusal.BadForm → (m : Message) → Says Verb.Committed (texts words.now) m → ⊥ }
{
    let [node, life, ticket, slots @ ..] = words else {
        return Err(ReadRefusal::BadForm);
    };
    let node = node_of(node).ok_or(ReadRefusal::BadForm)?;
    let life = life_of(life).ok_or(ReadRefusal::BadForm)?;
    let ticket = ticket_of(ticket).ok_or(ReadRefusal::BadForm)?;
    let versions = Items::new(items_of(alloc, slots)?);
    Ok(told(FromCoord::Committed {
        node,
        life,
        ticket,
        versions,
    }))
}

/// `fenced N L T`.
fn fenced_of(words: &[&str]) -> Result<Message, ReadRefusal>
    ensures spelled { IfOk result (Says Verb.Fenced (texts words.now)) }
    ensures only { result ≡ Err ReadRefusal.BadForm → (m : Message) → Says Verb.Fenced (texts words.now) m → ⊥ }
{
    let (node, life, ticket) = lease_of(words).ok_or(ReadRefusal::BadForm)?;
    Ok(told(FromCoord::Fenced { node, life, ticket }))
}

/// `denied N L A` and the reason.
fn denied_of(words: &[&str]) -> Result<Message, ReadRefusal>
    ensures spelled { IfOk result (Says Verb.Denied (texts words.now)) }
    ensures only { result ≡ Err ReadRefusal.BadForm → (m : Message) → Says Verb.Denied (texts words.now) m → ⊥ }
{
    let [node, life, ask, why] = words else {
        return Err(ReadRefusal::BadForm);
    };
    let node = node_of(node).ok_or(ReadRefusal::BadForm)?;
    let life = life_of(life).ok_or(ReadRefusal::BadForm)?;
    let ask = ask_of(ask).ok_or(ReadRefusal::BadForm)?;
    let why = why_of(why).ok_or(ReadRefusal::BadForm)?;
    Ok(told(FromCoord::Denied {
        node,
        life,
        ask,
        why,
    }))
}

/// `recall N L T`.
fn recall_of(words: &[&str]) -> Result<Message, ReadRefusal>
    ensures spelled { IfOk result (Says Verb.Recall (texts words.now)) }
    ensures only { result ≡ Err ReadRefusal.BadForm → (m : Message) → Says Verb.Recall (texts words.now) m → ⊥ }
{
    let (node, life, ticket) = lease_of(words).ok_or(ReadRefusal::BadForm)?;
    Ok(told(FromCoord::Recall { node, life, ticket }))
}

/// `fetch N FROM DIGEST`.
fn fetch_of(words: &[&str]) -> Result<Message, ReadRefusal>
    ensures spelled { IfOk result (Says Verb.Fetch (texts words.now)) }
    ensures only { result ≡ Err ReadRefusal.BadForm → (m : Message) → Says Verb.Fetch (texts words.now) m → ⊥ }
{
    let [node, from, digest] = words else {
        return Err(ReadRefusal::BadForm);
    };
    let node = node_of(node).ok_or(ReadRefusal::BadForm)?;
    let from = node_of(from).ok_or(ReadRefusal::BadForm)?;
    let digest = digest_of(digest).ok_or(ReadRefusal::BadForm)?;
    Ok(Message::ToNode(ToNode::Fetch(Fetch { node, from, digest })))
}

/// `blob N BYTES`.
fn blob_of(alloc: Global, words: &[&str]) -> Result<Message, ReadRefusal>
    ensures spelled { IfOk result (Says Verb.Blob (texts words.now)) }
    ensures only { result ≡ Err ReadRefusal.BadForm → (m : Message) → Says Verb.Blob (texts words.now) m → ⊥ }
{
    let [node, bytes] = words else {
        return Err(ReadRefusal::BadForm);
    };
    let node = node_of(node).ok_or(ReadRefusal::BadForm)?;
    let content = Content::of(bytes_of(alloc, bytes)?);
    Ok(Message::ToNode(ToNode::Blob { node, content }))
}

/// The message of a verb and the words after it.
fn said_by(alloc: Global, verb: Verb, words: &[&str]) -> Result<Message, ReadRefusal>
    ensures spelled { IfOk result (Says verb (texts words.now)) }
    ensures only { result ≡ Err ReadRefusal.BadForm → (m : Message) → Says verb (texts words.now) m → ⊥ }
{
    match verb {
        Verb::Hello => hello_of(words),
        Verb::Acquire => acquire_of(alloc, words),
        Verb::Tenure => tenure_of(alloc, words),
        Verb::Commit => commit_of(alloc, words),
        Verb::Release => release_of(words),
        Verb::Granted => granted_of(alloc, words),
        Verb::Committed => committed_of(alloc, words),
        Verb::Fenced => fenced_of(words),
        Verb::Denied => denied_of(words),
        Verb::Recall => recall_of(words),
        Verb::Fetch => fetch_of(words),
        Verb::Blob => blob_of(alloc, words),
    }
}

/// The message that these words spell.
fn spelled_by(alloc: Global, words: &[&str]) -> Result<Message, ReadRefusal>
    ensures spelled { IfOk result (SpelledBy (texts words.now)) }
    ensures only { result ≡ Err ReadRefusal.BadForm → (m : Message) → SpelledBy (texts words.now) m → ⊥ }
{
    let [verb, others @ ..] = words else {
        return Err(ReadRefusal::BadForm);
    };
    let verb = verb_of(verb).ok_or(ReadRefusal::BadForm)?;
    said_by(alloc, verb, others)
}

/// The message that a text spells. It is lawful, so a coordinator can handle what is for it.
pub fn read(alloc: Global, text: &[u8]) -> Result<Message, ReadRefusal>
    ensures spelled { IfOk result (IsSpelled text.now) }
    ensures only { result ≡ Err ReadRefusal.BadForm → (m : Message) → IsSpelled text.now m → ⊥ }
{
    let Ok(text) = str::from_utf8(text) else {
        return Err(ReadRefusal::BadForm);
    };
    let words = words_of(alloc, text)?;
    spelled_by(alloc, words.as_slice())
}
