//! A coordinator as a process that answers lines.
ghost use Rattle.std.specs.Prelude.{◌≡◌};
ghost use Rattle.farmwire.specs.Sealed.{key_in};
ghost use Rattle.services.specs.Served.{answer_text};
ghost use Rattle.coordinatorfilter.specs.Written.{Filters, MakesLast};

use super::carrying::carry_out;
use super::printing::print_reply;
use super::showing::print_shown;
use coordinator::Coordinator;
use coordinatorlines::{Order, asked};
use farm_base::Items;
use farmwire::Keyring;
use saverecord::Keeper;
use services::{Answer, Lost, Settled, Step, print_unread};
use std::alloc::{AllocError, Global};

/// A coordinator that answers lines: those of nodes, each sealed under the key of its node, and the operator's.
#[derive(Drop)]
pub struct CoordinatorFilter<K: Keeper> {
    pub coordinator: Coordinator<K>,
    pub keys: Keyring,
}

impl<K: Keeper> CoordinatorFilter<K> {
    /// The text that answers a line.
    fn text_of(
        &mut self,
        alloc: Global,
        line: Result<Items<u8>, Lost>,
    ) -> Result<String, AllocError>
        ensures { Filters K.saving K.loading K.kept (key_in self.old.keys) line (answer_text result) self.old.coordinator self.new.coordinator × (self.new.keys ≡ self.old.keys) }
    {
        match asked(alloc, &self.keys, line) {
            Ok(Order::Call(call)) => {
                let reply = carry_out(&mut self.coordinator, alloc, &call)?;
                print_reply(alloc, &self.keys, reply)
            }
            Ok(Order::Show(question)) => print_shown(alloc, &self.coordinator, &question),
            Err(why) => print_unread(alloc, why),
        }
    }
}

impl<K: Keeper> Step for CoordinatorFilter<K> {
    ghost use Rattle.coordinatorfilter.specs.Written.{Filters, MakesLast};
    ghost use Rattle.farmwire.specs.Sealed.{key_in};

    ghost steps = { λ old line answer new. Filters K.saving K.loading K.kept (key_in old.keys) line answer old.coordinator new.coordinator × (new.keys ≡ old.keys) };

    ghost settles = { λ old settled new. MakesLast K.syncing K.loading K.kept K.lasting old.coordinator settled new.coordinator × (new.keys ≡ old.keys) };

    fn step(&mut self, alloc: Global, line: Result<Items<u8>, Lost>) -> Answer {
        Answer::of(self.text_of(alloc, line))
    }

    fn settle(&mut self, alloc: Global) -> Settled {
        if self.coordinator.sync().is_ok() {
            return Settled::Lasts;
        }
        Settled::Failed(self.coordinator.restart(alloc))
    }
}
