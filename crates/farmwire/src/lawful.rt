//! Which messages have a line.
ghost use Rattle.std.specs.Prelude.{◌↔◌, IsTrue};
ghost use Rattle.farmwire.specs.Lawful.{IsNode, IsCounted, IsLife, IsTenure, IsRequest, IsSaid, IsGrant, IsTold, IsFetch, IsLawful};

use super::item::are_lawful;
use farm_base::laws::is_name;
use farm_base::{
    Fetch, FromCoord, Grant, Life, Message, Mode, NODES, NodeId, Request, ToCoord, ToNode, Want,
};

fn is_node(node: NodeId) -> bool
    ensures { IsTrue result ↔ IsNode node }
{
    1 <= node.0 && node.0 <= NODES
}

fn is_counted(value: u64) -> bool
    ensures { IsTrue result ↔ IsCounted value }
{
    1 <= value
}

fn is_life(life: Life) -> bool
    ensures { IsTrue result ↔ IsLife life }
{
    1 <= life.0 && life.0 < u64::MAX
}

/// Whether these are the wants of a tenure.
fn is_tenure(wants: &[Want]) -> bool
    ensures { IsTrue result ↔ IsTenure wants.now }
{
    let [want] = wants else {
        return false;
    };
    is_name(&want.folder);
    matches!(want.folder.mode, Mode::Shared) && want.writable
}

fn is_request(request: &Request) -> bool
    ensures { IsTrue result ↔ IsRequest request.now }
{
    match request {
        Request::Hello => true,
        Request::Acquire { ask, wants, tenure } => {
            are_lawful(wants.as_slice());
            is_counted(ask.0) && (!*tenure || is_tenure(wants.as_slice()))
        }
        Request::Commit { ticket, news } => {
            are_lawful(news.as_slice());
            is_counted(ticket.0)
        }
        Request::Release { ticket } => is_counted(ticket.0),
    }
}

fn is_said(message: &ToCoord) -> bool
    ensures { IsTrue result ↔ IsSaid message.now }
{
    is_node(message.node) && is_life(message.life) && is_request(&message.request)
}

fn is_grant(grant: &Grant) -> bool
    ensures { IsTrue result ↔ IsGrant grant.now }
{
    are_lawful(grant.slots.as_slice());
    is_node(grant.node)
        && is_life(grant.life)
        && is_counted(grant.ask.0)
        && is_counted(grant.ticket.0)
}

fn is_told(message: &FromCoord) -> bool
    ensures { IsTrue result ↔ IsTold message.now }
{
    match message {
        FromCoord::Granted(grant) => is_grant(grant),
        FromCoord::Committed {
            node,
            life,
            ticket,
            versions,
        } => {
            are_lawful(versions.as_slice());
            is_node(*node) && is_life(*life) && is_counted(ticket.0)
        }
        FromCoord::Fenced { node, life, ticket } => {
            is_node(*node) && is_life(*life) && is_counted(ticket.0)
        }
        FromCoord::Denied {
            node,
            life,
            ask,
            ..
        } => is_node(*node) && is_life(*life) && is_counted(ask.0),
        FromCoord::Recall { node, life, ticket } => {
            is_node(*node) && is_life(*life) && is_counted(ticket.0)
        }
    }
}

fn is_fetch(fetch: &Fetch) -> bool
    ensures { IsTrue result ↔ IsFetch fetch.now }
{
    let _digest = fetch.digest.bytes();
    is_node(fetch.node) && is_node(fetch.from)
}

/// Whether a message's numbers are in their ranges, so that it has a line. Each message of the protocol is so.
pub fn is_lawful(message: &Message) -> bool
    ensures { IsTrue result ↔ IsLawful message.now }
{
    match message {
        Message::ToCoord(message) => is_said(message),
        Message::ToNode(ToNode::FromCoord(message)) => is_told(message),
        Message::ToNode(ToNode::Fetch(fetch)) => is_fetch(fetch),
        Message::ToNode(ToNode::Blob { node, content }) => {
            let _bytes = content.bytes();
            is_node(*node)
        }
    }
}
