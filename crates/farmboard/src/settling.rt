//! What became of executions that are over.
ghost use Rattle.std.specs.Prelude.{◌≡◌, is_some, IfSome, map, option_copied};
ghost use Rattle.farmhistory.specs.Shown.{shown};
ghost use Rattle.farmhistory.specs.Lines.{numbered};

use super::board::Board;
use super::tokens::{Finished, Receipt, Settled, abandon_finished};
use events::How;
use farm_base::Items;
use farmhistory::{World, all_stand, any_stands, is_live, number_all};

/// What is known of an execution that is over.
#[derive(Clone, Copy)]
enum Fate {
    Confirmed,
    Dropped,
    Lost,
    Open,
}

impl Board {
    ghost use Rattle.farmhistory.specs.History.{farm_of};
    ghost use Rattle.farmboard.specs.Tokens.{is_in_life};
    ghost use Rattle.farmboard.specs.Settling.{way_out_in, Fares, Settles};

    /// How the ask ended, if its node has not restarted since.
    fn way_out(&self, token: &Finished) -> Option<Option<&How>>
        ensures life { is_some result ≡ is_in_life (farm_of self.now) token.now.node token.now.life }
        ensures way { IfSome result (λ way. option_copied way ≡ way_out_in (farm_of self.now) token.now) }
    {
        let core = self.in_life(token.node, token.life)?;
        Some(core.way_out(token.ask))
    }

    /// What is known of it.
    fn fate(&self, token: &Finished) -> Fate
        ensures { Fares (farm_of self.now) token.now result }
    {
        let versions = token.versions.as_slice();
        if versions.is_empty() {
            return Fate::Confirmed;
        }
        let stand = all_stand(self.world(), token.ticket, versions);
        match self.way_out(token) {
            Some(Some(How::Fenced(_))) => Fate::Dropped,
            Some(Some(How::Committed { .. })) if stand => Fate::Confirmed,
            Some(_) => Fate::Open,
            None if stand => Fate::Confirmed,
            None if is_live(self.world(), token.ticket) => Fate::Open,
            None if any_stands(self.world(), token.ticket, versions) => Fate::Open,
            None => Fate::Lost,
        }
    }

    /// What became of an execution that is over. It takes no memory, and appends nothing. While the coordinator is
    /// down, the lines are those before the event whose save failed.
    pub fn receipt(&self, token: Finished) -> Settled
        ensures { Settles (farm_of self.now) token result }
    {
        match self.fate(&token) {
            Fate::Confirmed => Settled::Receipt(receipt(self.world(), token)),
            Fate::Dropped => {
                abandon_finished(token);
                Settled::Fenced
            }
            Fate::Lost => {
                abandon_finished(token);
                Settled::Lost
            }
            Fate::Open => Settled::Waiting(token),
        }
    }
}

/// The receipt of versions that stand on their lines.
fn receipt(world: &World, token: Finished) -> Receipt
    ensures { result ≡ record { ticket = token.ticket; versions = map (numbered (shown world.now) token.ticket) token.versions } }
{
    let Finished {
        node: _,
        life: _,
        ask: _,
        ticket,
        versions,
    } = token;
    let mut versions = versions.into_vec();
    number_all(world, ticket, &mut versions);
    Receipt {
        ticket,
        versions: Items::new(versions),
    }
}
