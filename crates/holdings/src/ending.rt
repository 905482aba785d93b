//! What ends leases.
ghost use Rattle.std.specs.Prelude.{◌≡◌, option_copied};
ghost use Rattle.holdings.specs.Endings.{ends_lease, has_ended, standing};

use farm_base::{Lease, Life, NodeId, Ticket};

/// Leases that an event ends.
#[derive(Clone, Copy)]
pub enum Ending {
    /// The lease of a ticket.
    Ticket(Ticket),
    /// The leases of a node.
    Node(NodeId),
    /// The leases of the lives of a node below this one.
    LivesBelow(NodeId, Life),
}

impl Ending {
    /// Whether it ends this lease.
    pub fn ends(&self, lease: &Lease) -> bool
        ensures { result ≡ ends_lease self.now lease.now }
    {
        match *self {
            Ending::Ticket(ticket) => lease.ticket == ticket,
            Ending::Node(node) => lease.node == node,
            Ending::LivesBelow(node, life) => lease.node == node && lease.life < life,
        }
    }
}

/// Whether one of these ends the lease.
pub fn has_ended(ended: &[Ending], lease: &Lease) -> bool
    ensures { result ≡ has_ended ended.now lease.now }
{
    ended.iter().any(|ending| ending.ends(lease))
}

/// The lease, unless it has ended.
pub fn standing<'t>(lease: Option<&'t Lease>, ended: &[Ending]) -> Option<&'t Lease>
    ensures { option_copied result ≡ standing ended.now (option_copied lease.entry) }
{
    match lease {
        None => None,
        Some(lease) => {
            if has_ended(ended, lease) {
                None
            } else {
                Some(lease)
            }
        }
    }
}
