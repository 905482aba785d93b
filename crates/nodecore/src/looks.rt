//! What a caller may see of a node and its asks without memory.
ghost use Rattle.std.specs.Prelude.{◌≡◌, Err, IfOk, IfErr, is_some, option_copied};
ghost use Rattle.protocol.specs.Lists.{nth};
ghost use Rattle.protocol.specs.Nodes.{begun, first, held, running};
ghost use Rattle.nodeasks.specs.Asks.{way_out_unless};

use super::node_core::NodeCore;
use events::{How, NodeRefusal};
use farm_base::{Ask, Grant, Ticket};
use nodeasks::{Sought, lease, row_of, way_out};

impl NodeCore {
    ghost use Rattle.nodecore.specs.Shown.{forgets, shown, MayBegin};

    /// Whether the node is down for good.
    pub fn is_spent(&self) -> bool
        ensures { result ≡ (shown self.now).spent }
    {
        self.spent
    }

    /// The lease that `begin` would begin under the ticket, or how it would refuse it.
    pub fn lease_to_begin(&self, ticket: Ticket) -> Result<&Grant, NodeRefusal>
        ensures ok { IfOk result (λ grant. MayBegin (shown self.now) ticket grant.now) }
        ensures err { IfErr result (λ refusal. begun ticket (shown self.now) ≡ Err refusal) }
    {
        if self.spent {
            return Err(NodeRefusal::LivesSpent);
        }
        let Some(row) = row_of(&self.asks, &self.by_ticket, Sought::Held, ticket) else {
            return Err(NodeRefusal::NoSuchTicket);
        };
        let Some(grant) = lease(&self.asks.rows[row].kept) else {
            unreachable!()
        };
        if !self.has_all(grant.slots.as_slice()) {
            return Err(NodeRefusal::ContentsMissing);
        }
        Ok(grant)
    }

    /// Whether an ask is granted under the ticket, and not begun.
    pub fn is_held(&self, ticket: Ticket) -> bool
        ensures { result ≡ is_some (first (held ticket) (shown self.now).asks 0) }
    {
        row_of(&self.asks, &self.by_ticket, Sought::Held, ticket).is_some()
    }

    /// Whether an execution runs under the ticket.
    pub fn is_running(&self, ticket: Ticket) -> bool
        ensures { result ≡ is_some (first (running ticket) (shown self.now).asks 0) }
    {
        row_of(&self.asks, &self.by_ticket, Sought::Running, ticket).is_some()
    }

    /// How an ask of this life ended; None while it is present, where there is none, and where it is forgotten.
    pub fn way_out(&self, ask: Ask) -> Option<&How>
        ensures { option_copied result ≡ way_out_unless (forgets self.now ask.0) (nth (shown self.now).asks ask.0) }
    {
        let Some(row) = self.asks.row_of_ask(ask) else {
            return None;
        };
        way_out(&self.asks.rows[row].kept)
    }
}
