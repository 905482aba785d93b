//! How executions begin.
ghost use Rattle.std.specs.Prelude.{◌≡◌, ◌≢◌, Ok, Err, IfOk, IfErr, IfSome, IfNone};
ghost use Rattle.events.specs.declared.answer.EventNote.TheVariants as note;
ghost use Rattle.events.specs.declared.answer.NodeNote.TheVariants as node_note;

use super::board::Board;
use super::tokens::{Granted, Look, Running};
use events::{Event, NodeRefusal};
use farm_base::{Content, Copied, Grant, Items, Life, NodeId, Ticket};
use farmhistory::{BoardRefusal, copies_of};
use std::alloc::{AllocError, Global};

/// What an execution begins with.
#[derive(Drop)]
struct Lent {
    life: Life,
    grant: Grant,
    /// In the order of the lease's slots.
    bases: Items<Content>,
}

impl Board {
    ghost use Rattle.farmhistory.specs.History.{farm_of, outcome_of, Took, Did};
    ghost use Rattle.farmboard.specs.Begins.{begin_of, Looks, AreBases, Lends, IsBegunOf, IsUsed};

    /// What `begin` would say of a grant now.
    pub fn look(&self, token: &Granted) -> Look
        ensures { Looks self.now token.now result }
    {
        let Some(core) = self.world().node(token.node) else {
            return Look::Gone;
        };
        match core.lease_to_begin(token.grant.ticket) {
            Ok(_) => Look::Ready,
            Err(NodeRefusal::ContentsMissing) => Look::Missing,
            Err(_) => Look::Gone,
        }
    }

    /// What an execution under the ticket would begin with, if the world would accept its Begin.
    fn lend(&self, alloc: Global, node: NodeId, ticket: Ticket) -> Result<Option<Lent>, AllocError>
        ensures some { IfOk result (λ found. IfSome found (λ lent. Lends (farm_of self.now) node ticket lent.life lent.grant lent.bases)) }
        ensures none { IfOk result (λ found. IfNone found ((outcome : _) → outcome_of self.now (Event.Begin node ticket) ≢ Ok outcome)) }
    {
        let Some(core) = self.world().node(node) else {
            return Ok(None);
        };
        let Ok(grant) = core.lease_to_begin(ticket) else {
            return Ok(None);
        };
        let bases = copies_of(alloc, core, grant.slots.as_slice())?;
        Ok(Some(Lent {
            life: core.life(),
            grant: grant.copy(alloc)?,
            bases: Items::new(bases),
        }))
    }

    /// Begins an execution. It has copies of its lease and of the contents that its slots begin from, as its node has
    /// them. Refused, it hands the token back.
    pub fn begin(
        &mut self,
        alloc: Global,
        token: Granted,
    ) -> Result<Running, (Granted, BoardRefusal)>
        ensures ok { IfOk result (λ running. Did self.old (begin_of token) self.new (note.Node (node_note.Begun token.grant.ticket))) }
        ensures token { IfOk result (IsBegunOf token) }
        ensures used { IfOk result (IsUsed (farm_of self.new)) }
        ensures bases { IfOk result (λ running. AreBases running.grant running.bases) }
        ensures err { IfErr result (λ refused. (refused.0 ≡ token) × Took self.old (begin_of token) self.new (Err refused.1)) }
    {
        let Ok(lent) = self.lend(alloc, token.node, token.grant.ticket) else {
            return Err((token, BoardRefusal::OutOfMemory));
        };
        match self.take(alloc, Event::Begin(token.node, token.grant.ticket)) {
            Err(refusal) => Err((token, refusal)),
            Ok(_) => match lent {
                Some(lent) => Ok(running(token, lent)),
                None => unreachable!(),
            },
        }
    }
}

/// The execution of the ask, with what it begins with.
fn running(token: Granted, lent: Lent) -> Running
    ensures { result ≡ record { node = token.node; life = lent.life; wants = token.wants; grant = lent.grant; bases = lent.bases } }
{
    let Granted {
        node,
        life: _,
        wants,
        grant: _,
    } = token;
    let Lent { life, grant, bases } = lent;
    Running {
        node,
        life,
        wants,
        grant,
        bases,
    }
}
