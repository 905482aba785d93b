//! What is under way. A token has private fields, only a board makes it, and it has to be spent.
ghost use Rattle.std.specs.Prelude.{◌≡◌};

use farm_base::{Ask, Content, Grant, Items, Life, NodeId, Ticket, Version, Wants, Why};

/// An ask that a node made in one of its lives.
pub struct Asked {
    pub(crate) node: NodeId,
    pub(crate) life: Life,
    pub(crate) ask: Ask,
    pub(crate) wants: Wants,
}

/// An ask that was granted, with its lease.
pub struct Granted {
    pub(crate) node: NodeId,
    pub(crate) life: Life,
    pub(crate) wants: Wants,
    pub(crate) grant: Grant,
}

/// An execution under a lease, with the content that each of its slots began from.
pub struct Running {
    pub(crate) node: NodeId,
    pub(crate) life: Life,
    pub(crate) wants: Wants,
    pub(crate) grant: Grant,
    pub(crate) bases: Items<Content>,
}

/// An execution that is over, with room for the versions that it adds.
pub struct Finished {
    pub(crate) node: NodeId,
    pub(crate) life: Life,
    pub(crate) ask: Ask,
    pub(crate) ticket: Ticket,
    pub(crate) versions: Items<Version>,
}

/// What became of an ask.
pub enum Accept {
    Granted(Granted),
    /// The ask is neither granted nor denied.
    Waiting(Asked),
    Denied(Why),
    /// The node has restarted since.
    Lost,
}

/// What `begin` would say of a grant.
#[derive(Clone, Copy)]
pub enum Look {
    Ready,
    /// The content of a base isn't here yet.
    Missing,
    /// The node restarted, is down, or gave the lease back.
    Gone,
}

/// What became of a lease that was to be given back.
#[derive(Clone, Copy)]
pub enum Ended {
    Sent,
    /// The node no longer has the lease.
    Stale,
}

/// The versions that an execution added under its ticket.
#[derive(Drop)]
pub struct Receipt {
    pub ticket: Ticket,
    /// By rising slot.
    pub versions: Items<Version>,
}

/// What became of an execution that is over.
pub enum Settled {
    Receipt(Receipt),
    /// It doesn't count.
    Fenced,
    /// Nothing is known of it yet.
    Waiting(Finished),
    /// Its node restarted, and its ticket is neither live nor on a line of its slots.
    Lost,
}

impl Asked {
    /// The node that asked.
    pub fn node(&self) -> NodeId
        ensures { result ≡ self.now.node }
    {
        self.node
    }

    /// The folders that it asked for.
    pub fn wants(&self) -> &Wants
        ensures { result.now ≡ self.now.wants }
    {
        &self.wants
    }
}

impl Granted {
    /// The node that has the lease.
    pub fn node(&self) -> NodeId
        ensures { result ≡ self.now.node }
    {
        self.node
    }

    /// The folders that it asked for.
    pub fn wants(&self) -> &Wants
        ensures { result.now ≡ self.now.wants }
    {
        &self.wants
    }

    /// The lease: its ticket, and the slots with the versions to begin from.
    pub fn grant(&self) -> &Grant
        ensures { result.now ≡ self.now.grant }
    {
        &self.grant
    }
}

impl Running {
    /// The node that executes.
    pub fn node(&self) -> NodeId
        ensures { result ≡ self.now.node }
    {
        self.node
    }

    /// The folders that it asked for.
    pub fn wants(&self) -> &Wants
        ensures { result.now ≡ self.now.wants }
    {
        &self.wants
    }

    /// The lease under which it executes.
    pub fn grant(&self) -> &Grant
        ensures { result.now ≡ self.now.grant }
    {
        &self.grant
    }

    /// The ticket that it began.
    pub fn ticket(&self) -> Ticket
        ensures { result ≡ self.now.grant.ticket }
    {
        self.grant.ticket
    }

    /// The content that each slot began from, in the order of the lease's slots.
    pub fn bases(&self) -> &[Content]
        ensures { result.now ≡ self.now.bases }
    {
        self.bases.as_slice()
    }
}

impl Finished {
    /// The node that executed.
    pub fn node(&self) -> NodeId
        ensures { result ≡ self.now.node }
    {
        self.node
    }

    /// The ticket of its lease.
    pub fn ticket(&self) -> Ticket
        ensures { result ≡ self.now.ticket }
    {
        self.ticket
    }
}

/// Spends an ask and makes no event.
pub fn abandon_asked(token: Asked) {
    let Asked {
        node: _,
        life: _,
        ask: _,
        wants: _,
    } = token;
}

/// Spends a grant and makes no event.
pub fn abandon_granted(token: Granted) {
    let Granted {
        node: _,
        life: _,
        wants: _,
        grant: _,
    } = token;
}

/// Spends an execution and makes no event. Its ticket stays listed as out.
pub fn abandon_running(token: Running) {
    let Running {
        node: _,
        life: _,
        wants: _,
        grant: _,
        bases: _,
    } = token;
}

/// Spends what is finished and makes no event.
pub fn abandon_finished(token: Finished) {
    let Finished {
        node: _,
        life: _,
        ask: _,
        ticket: _,
        versions: _,
    } = token;
}
