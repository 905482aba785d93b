//! How an execution ends at a node with what it leaves.
ghost use Rattle.std.specs.Prelude.{◌≡◌, ◌<◌, ◌+◌, slice_get, Some, vec_len};
ghost use Rattle.protocol.specs.Nodes.{HeldGrant, finished_with, leaving};
ghost use Rattle.names.specs.Contents.{content_digest};
ghost use Rattle.events.specs.declared.ask.KeptAsk.{KeptAsk};
ghost use Rattle.nodeasks.specs.declared.ask_row.AskRow.{AskRow};
ghost use Rattle.nodecore.specs.Shown.{forgets, place, shown, Answers, Does};

use super::message::NodeDone;
use super::node_core::NodeCore;
use events::{NodeNote, NodeRefusal};
use farm_base::{Copied, Left, Request, Ticket};
use nodeasks::{AskChange, Sought, in_use, row_of, slots};
use nodecontents::{fits, news_of};
use std::alloc::{AllocError, Global};

impl NodeCore {
    /// Ends an execution with what it leaves in each slot that it may write, in the order of its grant.
    pub fn finish(
        &mut self,
        alloc: Global,
        ticket: Ticket,
        lefts: Vec<Left>,
    ) -> Result<NodeDone, NodeRefusal>
        ensures answer { Answers (finished_with content_digest (place self.old) ticket lefts.items (shown self.old)) (shown self.old) (shown self.new) result }
        ensures place { place self.new ≡ place self.old }
        ensures told { forgets self.new ≡ forgets self.old }
    {
        if self.spent {
            return Err(NodeRefusal::LivesSpent);
        }
        let Some(row) = row_of(&self.asks, &self.by_ticket, Sought::Running, ticket) else {
            return Err(NodeRefusal::NotRunning);
        };
        if in_use(&self.asks, row) {
            return Err(NodeRefusal::TenureInUse);
        }
        if !fits(lefts.as_slice(), slots(&self.asks.rows[row].kept)) {
            return Err(NodeRefusal::WrongNews);
        }
        let Ok(done) = self.leave(alloc, row, ticket, lefts) else {
            return Err(NodeRefusal::OutOfMemory);
        };
        Ok(done)
    }

    /// Sends the news of an execution, or gives its lease back where it wrote nothing.
    fn leave(
        &mut self,
        alloc: Global,
        row: usize,
        ticket: Ticket,
        lefts: Vec<Left>,
    ) -> Result<NodeDone, AllocError>
        requires { row < vec_len self.old.asks.rows }
        ensures work { (at : AskRow) (h : HeldGrant)
            → slice_get self.old.asks.rows.items row ≡ Some at
            → at.kept ≡ KeptAsk.Running h.wants h.grant h.recalled
            → h.grant.ticket ≡ ticket
            → Does (leaving content_digest (place self.old) (at.place + 1) h lefts.items (shown self.old)) (shown self.old) (shown self.new) result }
        ensures place { place self.new ≡ place self.old }
        ensures told { forgets self.new ≡ forgets self.old }
    {
        if lefts.is_empty() {
            return self.give_up(alloc, row, ticket, NodeNote::Finished(ticket));
        }
        let news = news_of(alloc, lefts.as_slice())?;
        let request = Request::Commit {
            ticket,
            news: news.copy(alloc)?,
        };
        let sends = self.say(alloc, request)?;
        self.contents.reserve(lefts.len())?;
        self.asks.change(row, AskChange::Finish(news));
        self.contents.store_all(lefts);
        Ok(NodeDone {
            note: NodeNote::Finished(ticket),
            sends,
        })
    }
}
