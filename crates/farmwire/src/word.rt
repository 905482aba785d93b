//! The words of a text, for the grammars of the layers above too.
ghost use Rattle.std.specs.Prelude.{◌≡◌, ◌≢◌, ℕ, ◌<◌, List, IfOk, IfSome, IfNone};
ghost use Rattle.farm_base.specs.declared.lease.LeaseKind.{LeaseKind};
ghost use Rattle.farm_base.specs.declared.message.Why.{Why};
ghost use Rattle.names.specs.declared.number.Ask.{Ask};
ghost use Rattle.names.specs.declared.number.Life.{Life};
ghost use Rattle.names.specs.declared.number.NodeId.{NodeId};
ghost use Rattle.names.specs.declared.number.Ticket.{Ticket};
ghost use Rattle.names.specs.Digests.{IsBytes};
ghost use Rattle.std.specs.Prelude.{decimal};
ghost use Rattle.farmwire.specs.Lawful.{IsNode, IsCounted, IsLife, IsAsk, IsTicket};
ghost use Rattle.words.specs.Words.{node_text, ticket_text, why_text};
ghost use Rattle.farmwire.specs.Lines.{life_text, ask_text, bytes_text, kind_text};

use base64::DecodeAllocError;
use base64::engine::general_purpose::STANDARD;
use farm_base::reading::number;
use farm_base::{Ask, LeaseKind, Life, NODES, NodeId, Ticket, Why};
use std::alloc::Global;
use words::ReadRefusal;

/// The node of a word.
pub fn node_of(word: &str) -> Option<NodeId>
    ensures found { IfSome result (λ node. word.now ≡ node_text node) }
    ensures fits { IfSome result IsNode }
    ensures only { IfNone result ((node : NodeId) → IsNode node → word.now ≢ node_text node) }
{
    let node = words::node_of(word)?;
    if 1 <= node.0 && node.0 <= NODES {
        Some(node)
    } else {
        None
    }
}

/// The number from 1 on of a word.
fn counted(word: &str) -> Option<u64>
    ensures found { IfSome result (λ value. word.now ≡ decimal value) }
    ensures fits { IfSome result IsCounted }
    ensures only { IfNone result ((value : ℕ) → IsCounted value → word.now ≢ decimal value) }
{
    let value = number(word)?;
    if 1 <= value { Some(value) } else { None }
}

/// The life of a word. The greatest is none.
pub fn life_of(word: &str) -> Option<Life>
    ensures found { IfSome result (λ life. word.now ≡ life_text life) }
    ensures fits { IfSome result IsLife }
    ensures only { IfNone result ((life : Life) → IsLife life → word.now ≢ life_text life) }
{
    let value = counted(word)?;
    if value < u64::MAX {
        Some(Life(value))
    } else {
        None
    }
}

/// The ask of a word.
pub fn ask_of(word: &str) -> Option<Ask>
    ensures found { IfSome result (λ ask. word.now ≡ ask_text ask) }
    ensures fits { IfSome result IsAsk }
    ensures only { IfNone result ((ask : Ask) → IsAsk ask → word.now ≢ ask_text ask) }
{
    Some(Ask(counted(word)?))
}

/// The ticket of a word.
pub fn ticket_of(word: &str) -> Option<Ticket>
    ensures found { IfSome result (λ ticket. word.now ≡ ticket_text ticket) }
    ensures fits { IfSome result IsTicket }
    ensures only { IfNone result ((ticket : Ticket) → IsTicket ticket → word.now ≢ ticket_text ticket) }
{
    let ticket = words::ticket_of(word)?;
    if 1 <= ticket.0 { Some(ticket) } else { None }
}

/// The kind of a lease.
pub fn kind_of(word: &str) -> Option<LeaseKind>
    ensures found { IfSome result (λ kind. word.now ≡ kind_text kind) }
    ensures only { IfNone result ((kind : LeaseKind) → word.now ≢ kind_text kind) }
{
    match word {
        "plain" => Some(LeaseKind::Plain),
        "shared" => Some(LeaseKind::Shared),
        "tenure" => Some(LeaseKind::Tenure),
        _ => None,
    }
}

/// Why an ask is denied.
pub fn why_of(word: &str) -> Option<Why>
    ensures found { IfSome result (λ why. word.now ≡ why_text why) }
    ensures only { IfNone result ((why : Why) → word.now ≢ why_text why) }
{
    match word {
        "InstancesSpent" => Some(Why::InstancesSpent),
        "TicketsSpent" => Some(Why::TicketsSpent),
        _ => None,
    }
}

/// The bytes of a word.
pub fn bytes_of(alloc: Global, word: &str) -> Result<Vec<u8>, ReadRefusal>
    ensures spelled { IfOk result (λ bytes. word.now ≡ bytes_text bytes.items) }
    ensures bytes { IfOk result (λ bytes. IsBytes bytes.items) }
    ensures only { result ≡ Err ReadRefusal.BadForm → (bytes : List ℕ) → IsBytes bytes → word.now ≢ bytes_text bytes }
{
    match STANDARD.decode(alloc, word.as_bytes()) {
        Ok(bytes) => Ok(bytes),
        Err(DecodeAllocError::OutOfMemory) => Err(ReadRefusal::OutOfMemory),
        Err(DecodeAllocError::DecodeError(_)) => Err(ReadRefusal::BadForm),
    }
}
