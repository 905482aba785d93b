//! How leases are given back.
ghost use Rattle.std.specs.Prelude.{◌≡◌, IfOk, IfErr};

use super::board::Board;
use super::tokens::{Ended, Granted, Running, abandon_granted, abandon_running};
use events::Event;
use farm_base::{Life, NodeId, Ticket};
use farmhistory::BoardRefusal;
use std::alloc::Global;

impl Board {
    ghost use Rattle.farmhistory.specs.History.{farm_of};
    ghost use Rattle.farmboard.specs.Begins.{is_held, is_running, GivesBack, KeepsLease};

    /// Whether an ask of the node, in this life, is granted under the ticket and not begun.
    fn is_held(&self, node: NodeId, life: Life, ticket: Ticket) -> bool
        ensures { result ≡ is_held (farm_of self.now) node life ticket }
    {
        match self.in_life(node, life) {
            Some(core) => !core.is_spent() && core.is_held(ticket),
            None => false,
        }
    }

    /// Whether the node, in this life, executes under the ticket.
    fn is_running(&self, node: NodeId, life: Life, ticket: Ticket) -> bool
        ensures { result ≡ is_running (farm_of self.now) node life ticket }
    {
        match self.in_life(node, life) {
            Some(core) => !core.is_spent() && core.is_running(ticket),
            None => false,
        }
    }

    /// Gives a lease back that was not used. `Stale` appends nothing. Refused, it hands the token back.
    pub fn give_back(
        &mut self,
        alloc: Global,
        token: Granted,
    ) -> Result<Ended, (Granted, BoardRefusal)>
        ensures ok { IfOk result (GivesBack (is_held (farm_of self.old) token.node token.life token.grant.ticket) self.old (Event.Abort token.node token.grant.ticket) token.grant.ticket self.new) }
        ensures err { IfErr result (λ refused. (refused.0 ≡ token) × KeepsLease (is_held (farm_of self.old) token.node token.life token.grant.ticket) self.old (Event.Abort token.node token.grant.ticket) self.new refused.1) }
    {
        if !self.is_held(token.node, token.life, token.grant.ticket) {
            abandon_granted(token);
            return Ok(Ended::Stale);
        }
        match self.disturb(alloc, Event::Abort(token.node, token.grant.ticket)) {
            Ok(()) => {
                abandon_granted(token);
                Ok(Ended::Sent)
            }
            Err(refusal) => Err((token, refusal)),
        }
    }

    /// Ends an execution that leaves nothing. `Stale` appends nothing. Refused, it hands the token back: so does a
    /// tenure whose folder another ask of the node uses.
    pub fn abort(&mut self, alloc: Global, token: Running) -> Result<Ended, (Running, BoardRefusal)>
        ensures ok { IfOk result (GivesBack (is_running (farm_of self.old) token.node token.life token.grant.ticket) self.old (Event.Abort token.node token.grant.ticket) token.grant.ticket self.new) }
        ensures err { IfErr result (λ refused. (refused.0 ≡ token) × KeepsLease (is_running (farm_of self.old) token.node token.life token.grant.ticket) self.old (Event.Abort token.node token.grant.ticket) self.new refused.1) }
    {
        if !self.is_running(token.node, token.life, token.grant.ticket) {
            abandon_running(token);
            return Ok(Ended::Stale);
        }
        match self.disturb(alloc, Event::Abort(token.node, token.grant.ticket)) {
            Ok(()) => {
                abandon_running(token);
                Ok(Ended::Sent)
            }
            Err(refusal) => Err((token, refusal)),
        }
    }
}
