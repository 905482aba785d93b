//! Which of a node's asks have their lease under a ticket.
ghost use Rattle.std.specs.Prelude.{◌≡◌, ◌<◌, if◌then◌else◌, None, Some, OnOk};
ghost use Rattle.protocol.specs.Names.{Ticket};
ghost use Rattle.nodeasks.specs.Tickets.{holders_of, ticket_eq, ticket_room, with_holder, without_holder};

use farm_base::Ticket;
use indexmap::IndexMap;
use std::alloc::{AllocError, Global};

/// Which asks were granted one ticket.
#[derive(Clone, Copy)]
pub enum Holders {
    /// The one at this place.
    One(usize),
    /// More than one may, which a coordinator never grants.
    Several,
}

/// Which asks have their lease under each ticket that was granted to the node in this life, and isn't over. A ticket that
/// more than one ask may have stays as long as the life.
#[derive(Drop)]
pub struct TicketIndex {
    holders: IndexMap<Ticket, Holders>,
}

/// The holders of a ticket, and the ask at this place.
fn with_holder(holders: Option<Holders>, place: usize) -> Holders
    ensures { result ≡ with_holder holders place }
{
    match holders {
        None => Holders::One(place),
        Some(Holders::One(other)) if other == place => Holders::One(place),
        Some(_) => Holders::Several,
    }
}

impl TicketIndex {
    /// No ticket was granted.
    pub fn new(alloc: Global) -> Self
        ensures { (t : Ticket) → holders_of result t ≡ None }
    {
        TicketIndex {
            holders: IndexMap::new(alloc),
        }
    }

    /// Makes room for one more ticket.
    pub fn reserve(&mut self) -> Result<(), AllocError>
        ensures same { (t : Ticket) → holders_of self.new t ≡ holders_of self.old t }
        ensures room { OnOk result (0 < ticket_room self.new) }
    {
        self.holders.reserve(1)
    }

    /// The asks that were granted the ticket.
    pub(crate) fn holders(&self, ticket: Ticket) -> Option<Holders>
        ensures { result ≡ holders_of self.now ticket }
    {
        self.holders.get(&ticket).copied()
    }

    /// Notes that the ask at the place has its lease under the ticket.
    pub fn note(&mut self, ticket: Ticket, place: usize)
        requires { 0 < ticket_room self.old }
        ensures { (t : Ticket) → holders_of self.new t ≡ (if ticket_eq ticket t then Some (with_holder (holders_of self.old ticket) place) else holders_of self.old t) }
    {
        let holders = with_holder(self.holders(ticket), place);
        let Ok(_) = self.holders.insert(ticket, holders) else {
            unreachable!();
        };
    }

    /// Notes that the ask at the place has its lease under the ticket no longer.
    pub fn release(&mut self, ticket: Ticket, place: usize)
        ensures { (t : Ticket) → holders_of self.new t ≡ (if ticket_eq ticket t then without_holder (holders_of self.old ticket) place else holders_of self.old t) }
    {
        if let Some(Holders::One(holder)) = self.holders(ticket) {
            if holder == place {
                let _ = self.holders.swap_remove(&ticket);
            }
        }
    }

    /// Gives memory back that few tickets don't need.
    pub fn shrink(&mut self)
        ensures { (t : Ticket) → holders_of self.new t ≡ holders_of self.old t }
    {
        self.holders.shrink_to(self.holders.len().saturating_mul(2));
    }

    /// Forgets all tickets.
    pub fn clear(&mut self)
        ensures { (t : Ticket) → holders_of self.new t ≡ None }
    {
        self.holders.clear();
    }
}
