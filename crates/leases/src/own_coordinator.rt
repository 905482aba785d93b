//! The calls of a coordinator of one's own, which changes its table at once. `coordinator` calls none of them: it works out an event's
//! changes first, and applies them once they are saved. Each does at once what the change of its name does.
ghost use Rattle.std.specs.Prelude.{◌≡◌, ◌<◌, not, [], ◌∷◌, ◌++◌, filter, count_by, All, IfOk, OnOk, OnErr, option_copied};
ghost use Rattle.farm_base.specs.Wanted.{IsWants};
ghost use Rattle.protocol.specs.Ledger.{lease_of, lease_under, without, is_older};
ghost use Rattle.holdings.specs.Leases.{AreLeases, among};
ghost use Rattle.leases.specs.Table.{fit_of, lease_for, retires_some};

use super::lease_table::{Fit, LeaseTable};
use farm_base::{Ask, Lease, Life, NodeId, Ticket, Wants};
use holdings::Ending;
use std::alloc::{AllocError, Global};

impl LeaseTable {
    /// The lease of an ask.
    pub fn lease_of(&self, node: NodeId, life: Life, ask: Ask) -> Option<&Lease>
        ensures { option_copied result ≡ lease_of self.now.live node life ask }
    {
        self.unchanged().lease_of(node, life, ask)
    }

    /// Whether an ask with these wants can be granted. A tenure takes a slot of its SHARED folder, any other
    /// ask of its other folders.
    pub fn fits(&self, wants: &Wants, tenure: bool) -> Fit
        ensures { result ≡ fit_of self.now tenure wants.now }
    {
        self.unchanged().fits(wants, tenure)
    }

    /// The lease that an ask gets.
    fn lease_for(
        &self,
        alloc: Global,
        node: NodeId,
        life: Life,
        ask: Ask,
        wants: &Wants,
        tenure: bool,
        ticket: Ticket,
    ) -> Result<Lease, AllocError>
        requires { fit_of self.now tenure wants.now ≡ Fit.Fits }
        ensures value { IfOk result (λ lease. lease ≡ lease_for self.now node life ask wants.now tenure ticket) }
        ensures sorted { IsWants wants.now }
    {
        self.unchanged()
            .lease_for(alloc, node, life, ask, wants, tenure, ticket)
    }

    fn add(&mut self, alloc: Global, lease: Lease) -> Result<(), AllocError>
        requires { AreLeases self.old.live → AreLeases (self.old.live ++ lease ∷ []) }
        ensures ok { OnOk result (self.new ≡ record self.old { live = self.old.live ++ lease ∷ [] }) }
        ensures err { OnErr result (self.new ≡ self.old) }
    {
        self.live.add(alloc, lease)?;
        Ok(())
    }

    /// Grants an ask. Of each PRIVATE folder the lowest free instance is taken.
    pub fn grant(
        &mut self,
        alloc: Global,
        node: NodeId,
        life: Life,
        ask: Ask,
        wants: &Wants,
        tenure: bool,
        ticket: Ticket,
    ) -> Result<(), AllocError>
        requires fits { fit_of self.old tenure wants.now ≡ Fit.Fits }
        requires above { All (λ g. g.ticket.0 < ticket.0) self.old.live }
        ensures ok { OnOk result (self.new ≡ record self.old { live = self.old.live ++ lease_for self.old node life ask wants.now tenure ticket ∷ [] }) }
        ensures found { OnOk result (lease_under self.new.live ticket ≡ Some (lease_for self.old node life ask wants.now tenure ticket)) }
        ensures err { OnErr result (self.new ≡ self.old) }
    {
        let lease = self.lease_for(alloc, node, life, ask, wants, tenure, ticket)?;
        self.add(alloc, lease)?;
        Ok(())
    }

    /// Ends the lease of a ticket, and returns it. Its slots are free again.
    pub fn end(&mut self, ticket: Ticket) -> Option<Lease>
        ensures ended { result ≡ lease_under self.old.live ticket }
        ensures rest { self.new ≡ record self.old { live = without ticket self.old.live } }
    {
        self.live.end(ticket)
    }

    /// Withdraws the lease of a ticket, and returns it. Its PRIVATE slots are never granted again.
    pub fn withdraw(&mut self, alloc: Global, ticket: Ticket) -> Result<Option<Lease>, AllocError>
        ensures ended { IfOk result (λ lease. lease ≡ lease_under self.old.live ticket) }
        ensures rest { OnOk result (self.new.live ≡ without ticket self.old.live) }
        ensures retired { OnOk result (among self.new.retired ≡ retires_some (lease_under self.old.live ticket) (among self.old.retired)) }
        ensures err { OnErr result (self.new ≡ self.old) }
    {
        let retired = self.unchanged().private_under(alloc, ticket)?;
        self.retired.add(alloc, retired)?;
        Ok(self.live.end(ticket))
    }

    /// Ends the leases of older lives of a node, and returns their number. Their slots are free again.
    pub fn end_lives_below(&mut self, node: NodeId, life: Life) -> usize
        ensures ended { result ≡ count_by (is_older node life) self.old.live }
        ensures rest { self.new ≡ record self.old { live = filter (λ g. not (is_older node life g)) self.old.live } }
    {
        let ended = count_older(self.live.last_at(node), node, life);
        self.live.end_all(&Ending::LivesBelow(node, life));
        ended
    }
}

fn count_older(leases: &[Lease], node: NodeId, life: Life) -> usize
    ensures { result ≡ count_by (is_older node life) leases.now }
{
    leases
        .iter()
        .filter(|lease| lease.node == node && lease.life < life)
        .count()
}
