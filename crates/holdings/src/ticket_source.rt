ghost use Rattle.std.specs.Prelude.{◌≡◌, ◌==◌, ◌+◌, ◌≤◌, ◌↔◌, IsErr, IfOk, OnOk, OnErr};
ghost use Rattle.holdings.specs.Tickets.{raised, advanced};

use farm_base::{Copied, Ticket};
use std::alloc::{AllocError, Global};
use std::marker::Model;
use thiserror::Error;

/// Gives each ticket once, in rising order. Tickets come in blocks: who gives them saves the block's ceiling first.
#[derive(Drop)]
pub struct TicketSource {
    position: u64,
    ceiling: u64,
}

impl Model for TicketSource {
    ghost use Rattle.std.specs.Prelude.{◌≤◌};
    ghost use Rattle.holdings.specs.Tickets.{Tickets};

    ghost Value = { Tickets };

    ghost view = { λ s. record { position = s.position; ceiling = s.ceiling } };

    ghost invariant = { λ s. s.position ≤ s.ceiling };
}

/// The last ticket, 2^64 - 1, has been given.
#[derive(Clone, Copy, Debug, PartialEq, Eq, Error)]
#[error("the greatest ticket was given")]
pub struct TicketsSpent;

impl TicketSource {
    const BLOCK: u64 = 64;

    /// A source of the tickets above this one.
    pub fn after(last: Ticket) -> Self
        ensures position { result.position ≡ last.0 }
        ensures ceiling { result.ceiling ≡ last.0 }
    {
        TicketSource {
            position: last.0,
            ceiling: last.0,
        }
    }

    /// The last ticket of the block that is saved.
    pub fn ceiling(&self) -> Ticket
        ensures value { result.0 ≡ self.now.ceiling }
        ensures reaches { self.now.position ≤ result.0 }
    {
        Ticket(self.ceiling)
    }

    /// The next ticket, and the ceiling that must be saved before it is used.
    pub fn peek(&self) -> Result<(Ticket, Ticket), TicketsSpent>
        ensures ticket { IfOk result (λ next. next.0.0 ≡ self.now.position + 1) }
        ensures ceiling { IfOk result (λ next. next.1.0 ≡ raised self.now) }
        ensures spent { IsErr result ↔ (self.now.position ≡ u64.MAX) }
        ensures range { self.now.position ≤ u64.MAX }
    {
        let ticket = self.position.checked_add(1).ok_or(TicketsSpent)?;
        Ok((Ticket(ticket), Ticket(self.raised())))
    }

    /// Whether the next ticket needs a block that is not saved yet.
    pub fn needs_block(&self) -> bool
        ensures { result ≡ (self.now.position == self.now.ceiling) }
    {
        self.ceiling == self.position
    }

    fn raised(&self) -> u64
        ensures { result ≡ raised self.now }
    {
        if self.position == self.ceiling {
            self.ceiling.saturating_add(Self::BLOCK)
        } else {
            self.ceiling
        }
    }

    /// Gives the next ticket.
    pub fn next(&mut self) -> Result<Ticket, TicketsSpent>
        ensures ticket { IfOk result (λ ticket. ticket.0 ≡ self.old.position + 1) }
        ensures ok { OnOk result (self.new ≡ advanced self.old) }
        ensures spent { IsErr result ↔ (self.old.position ≡ u64.MAX) }
        ensures err { OnErr result (self.new ≡ self.old) }
    {
        let (ticket, ceiling) = self.peek()?;
        self.position = ticket.0;
        self.ceiling = ceiling.0;
        Ok(ticket)
    }
}

impl Copied for TicketSource {
    fn copy(&self, _alloc: Global) -> Result<Self, AllocError> {
        Ok(TicketSource {
            position: self.position,
            ceiling: self.ceiling,
        })
    }
}
