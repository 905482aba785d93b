ghost use Rattle.std.specs.Prelude.{◌≡◌, ◌+◌, ◌<◌, [], List, Bool, false, IfOk, Some, slice_get, vec_len};
ghost use Rattle.protocol.specs.Names.{Want};
ghost use Rattle.protocol.specs.Farm.{farm_limits};
ghost use Rattle.events.specs.declared.ask.KeptAsk.{KeptAsk};
ghost use Rattle.nodeasks.specs.declared.ask_row.AskRow.{AskRow};
ghost use Rattle.protocol.specs.Lists.{nth};
ghost use Rattle.protocol.specs.Nodes.{heard, unless_spent, brought, denied, dropped, fetched, finished, gives_back, granted, takes, learned, first, recallable, recalled};
ghost use Rattle.names.specs.Contents.{content_digest};
ghost use Rattle.nodecore.specs.Shown.{forgets, shown, place, work_of, message_work, hearing, Does, Answers};

use super::message::NodeDone;
use super::node_core::NodeCore;
use events::{How, NodeNote, NodeRefusal};
use farm_base::{
    Ask, Confirmed, Content, Copied, Digest, FromCoord, Grant, Items, Message, NodeId, Request,
    Ticket, ToNode, Why,
};
use nodeasks::{AskChange, Sought, any_base, is_open, keeps, row_of};
use nodecontents::{bases, confirmed, learn};
use std::alloc::{AllocError, Global};

/// What sends nothing.
pub(crate) fn silent(alloc: Global, note: NodeNote) -> NodeDone
    ensures { result ≡ record { note = note; sends = [] } }
{
    NodeDone {
        note,
        sends: Items::new(Vec::new(alloc)),
    }
}

impl NodeCore {
    /// Gives back a lease that no ask waits for.
    fn give_back(&self, alloc: Global, grant: &Grant) -> Result<NodeDone, AllocError>
        ensures { IfOk result (λ done. gives_back (place self.now) grant.now false (shown self.now) ≡ work_of (shown self.now) done) }
    {
        let ticket = grant.ticket;
        let sends = self.say(alloc, Request::Release { ticket })?;
        Ok(NodeDone {
            note: NodeNote::GaveBack(ticket),
            sends,
        })
    }

    /// An open ask has its lease.
    fn take(&mut self, alloc: Global, row: usize, grant: &Grant) -> Result<NodeDone, AllocError>
        requires { row < vec_len self.old.asks.rows }
        ensures work { (at : AskRow) (wants : List Want) (tenure : Bool)
            → slice_get self.old.asks.rows.items row ≡ Some at
            → at.kept ≡ KeptAsk.Open wants tenure
            → grant.now.ask.0 ≡ at.place + 1
            → Does (takes farm_limits (place self.old) grant.now wants (shown self.old)) (shown self.old) (shown self.new) result }
        ensures place { place self.new ≡ place self.old }
        ensures told { forgets self.new ≡ forgets self.old }
    {
        let sends = self.fetches(alloc, grant.slots.as_slice())?;
        let bases = bases(alloc, grant.slots.as_slice())?;
        let told = grant.copy(alloc)?;
        let held = grant.copy(alloc)?;
        self.by_ticket.reserve()?;
        self.versions.reserve(bases.len())?;
        learn(&mut self.versions, bases);
        self.by_ticket.note(grant.ticket, self.asks.rows[row].place);
        self.asks.change(row, AskChange::Grant(held));
        Ok(NodeDone {
            note: NodeNote::Took(told),
            sends: Items::new(sends),
        })
    }

    /// A lease was granted.
    pub(crate) fn grant(&mut self, alloc: Global, grant: &Grant) -> Result<NodeDone, AllocError>
        ensures work { Does (granted farm_limits (place self.old) grant.now (shown self.old) (nth (shown self.old).asks grant.now.ask.0)) (shown self.old) (shown self.new) result }
        ensures place { place self.new ≡ place self.old }
        ensures told { forgets self.new ≡ forgets self.old }
    {
        let Some(row) = self.asks.row_of_ask(grant.ask) else {
            return self.give_back(alloc, grant);
        };
        if is_open(&self.asks.rows[row].kept) {
            return self.take(alloc, row, grant);
        }
        if keeps(&self.asks.rows[row].kept, grant.ticket) {
            return Ok(silent(alloc, NodeNote::Nothing));
        }
        self.give_back(alloc, grant)
    }

    /// The news under the ticket do not count.
    pub(crate) fn drop_news(&mut self, alloc: Global, ticket: Ticket) -> NodeDone
        ensures work { dropped ticket (shown self.old) (first (finished ticket) (shown self.old).asks 0) ≡ work_of (shown self.new) result }
        ensures place { place self.new ≡ place self.old }
        ensures told { forgets self.new ≡ forgets self.old }
    {
        let Some(row) = row_of(&self.asks, &self.by_ticket, Sought::Finished, ticket) else {
            return silent(alloc, NodeNote::Nothing);
        };
        self.end(row, ticket, How::Fenced(ticket));
        silent(alloc, NodeNote::Dropped(ticket))
    }

    /// The news under the ticket count.
    pub(crate) fn learn_news(
        &mut self,
        alloc: Global,
        ticket: Ticket,
        versions: &Items<Confirmed>,
    ) -> Result<NodeDone, AllocError>
        ensures work { Does (learned ticket versions.now (shown self.old) (first (finished ticket) (shown self.old).asks 0)) (shown self.old) (shown self.new) result }
        ensures place { place self.new ≡ place self.old }
        ensures told { forgets self.new ≡ forgets self.old }
    {
        let Some(row) = row_of(&self.asks, &self.by_ticket, Sought::Finished, ticket) else {
            return Ok(silent(alloc, NodeNote::Nothing));
        };
        let named = confirmed(alloc, versions.as_slice())?;
        let versions = versions.copy(alloc)?;
        self.versions.reserve(named.len())?;
        learn(&mut self.versions, named);
        self.end(row, ticket, How::Committed { ticket, versions });
        Ok(silent(alloc, NodeNote::Learned(ticket)))
    }

    /// An open ask is denied.
    pub(crate) fn deny(&mut self, alloc: Global, ask: Ask, why: Why) -> NodeDone
        ensures work { denied ask why (shown self.old) (nth (shown self.old).asks ask.0) ≡ work_of (shown self.new) result }
        ensures place { place self.new ≡ place self.old }
        ensures told { forgets self.new ≡ forgets self.old }
    {
        let Some(row) = self.asks.row_of_ask(ask) else {
            return silent(alloc, NodeNote::Nothing);
        };
        if !is_open(&self.asks.rows[row].kept) {
            return silent(alloc, NodeNote::Nothing);
        }
        self.asks.change(row, AskChange::End(How::Denied(why)));
        silent(alloc, NodeNote::Denied(why))
    }

    /// Another node asks for the tenure under the ticket.
    pub(crate) fn recall(&mut self, alloc: Global, ticket: Ticket) -> NodeDone
        ensures work { recalled ticket (shown self.old) (first (recallable ticket) (shown self.old).asks 0) ≡ work_of (shown self.new) result }
        ensures place { place self.new ≡ place self.old }
        ensures told { forgets self.new ≡ forgets self.old }
    {
        let Some(row) = row_of(&self.asks, &self.by_ticket, Sought::Recallable, ticket) else {
            return silent(alloc, NodeNote::Nothing);
        };
        self.asks.change(row, AskChange::Recall);
        silent(alloc, NodeNote::Recalled(ticket))
    }

    /// Answers a node that asks for a content.
    pub(crate) fn lend(
        &self,
        alloc: Global,
        from: NodeId,
        digest: Digest,
    ) -> Result<NodeDone, AllocError>
        ensures { IfOk result (λ done. fetched from (shown self.now) ((shown self.now).store digest) ≡ work_of (shown self.now) done) }
    {
        let Some(content) = self.contents.get(&digest) else {
            return Ok(silent(alloc, NodeNote::Nothing));
        };
        let content = content.copy(alloc)?;
        let mut sends = Vec::new(alloc);
        sends.push(Message::ToNode(ToNode::Blob {
            node: from,
            content,
        }))?;
        Ok(NodeDone {
            note: NodeNote::SentBlob,
            sends: Items::new(sends),
        })
    }

    /// Stores a content that a granted ask is based on, where it is not stored.
    pub(crate) fn bring(&mut self, alloc: Global, content: &Content) -> Result<NodeDone, AllocError>
        ensures work { Does (brought content_digest content.now (shown self.old)) (shown self.old) (shown self.new) result }
        ensures place { place self.new ≡ place self.old }
        ensures told { forgets self.new ≡ forgets self.old }
    {
        let digest = content.digest();
        if self.contents.has(&digest) || !any_base(&self.asks, digest) {
            return Ok(silent(alloc, NodeNote::Nothing));
        }
        let copy = content.copy(alloc)?;
        self.contents.reserve(1)?;
        self.contents.store(copy);
        Ok(silent(alloc, NodeNote::BlobTaken))
    }

    /// Does what a message of the coordinator says.
    fn hear(&mut self, alloc: Global, message: &FromCoord) -> Result<NodeDone, AllocError>
        ensures work { Does (heard farm_limits (place self.old) message.now (shown self.old)) (shown self.old) (shown self.new) result }
        ensures place { place self.new ≡ place self.old }
        ensures told { forgets self.new ≡ forgets self.old }
    {
        if message.life().0 != self.life.0 {
            return Ok(silent(alloc, NodeNote::OldLife));
        }
        match message {
            FromCoord::Granted(grant) => self.grant(alloc, grant),
            FromCoord::Committed {
                ticket,
                versions,
                ..
            } => self.learn_news(alloc, *ticket, versions),
            FromCoord::Fenced { ticket, .. } => Ok(self.drop_news(alloc, *ticket)),
            FromCoord::Denied { ask, why, .. } => Ok(self.deny(alloc, *ask, *why)),
            FromCoord::Recall { ticket, .. } => Ok(self.recall(alloc, *ticket)),
        }
    }

    /// Does what a message says.
    fn receive(&mut self, alloc: Global, message: &ToNode) -> Result<NodeDone, AllocError>
        ensures work { Does (message_work (place self.old) (shown self.old) message.now) (shown self.old) (shown self.new) result }
        ensures place { place self.new ≡ place self.old }
        ensures told { forgets self.new ≡ forgets self.old }
    {
        match message {
            ToNode::FromCoord(message) => self.hear(alloc, message),
            ToNode::Fetch(fetch) => self.lend(alloc, fetch.from, fetch.digest),
            ToNode::Blob { content, .. } => self.bring(alloc, content),
        }
    }

    /// Hears a message. One for another node or another life changes nothing, nor does one that nothing here
    /// waits for; a lease that nothing waits for is given back.
    pub fn handle(&mut self, alloc: Global, message: &ToNode) -> Result<NodeDone, NodeRefusal>
        ensures answer { Answers (unless_spent (shown self.old) (hearing (place self.old) (shown self.old) message.now)) (shown self.old) (shown self.new) result }
        ensures place { place self.new ≡ place self.old }
        ensures told { forgets self.new ≡ forgets self.old }
    {
        if self.spent {
            return Err(NodeRefusal::LivesSpent);
        }
        if message.node() != self.node {
            return Ok(silent(alloc, NodeNote::Nothing));
        }
        let Ok(done) = self.receive(alloc, message) else {
            return Err(NodeRefusal::OutOfMemory);
        };
        Ok(done)
    }
}
