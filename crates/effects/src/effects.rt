//! What an event changes, adds to the lines, sends and tells.
ghost use Rattle.std.specs.Prelude.{◌≡◌, IfOk};
ghost use Rattle.protocol.specs.Ledger.{begin_work};
ghost use Rattle.effects.specs.Held.{ledger};
ghost use Rattle.effects.specs.Keeps.{held};
ghost use Rattle.effects.specs.Shown.{work_of, IsFresh};

use super::change::Change;
use super::state::State;
use events::CoordNote;
use farm_base::FromCoord;
use std::alloc::{AllocError, Global};
use versions::{Added, SlotLine};

/// What an event changes, adds to the lines, sends and tells.
#[derive(Drop)]
pub struct Effects {
    pub change: Change,
    pub added: Option<Added>,
    pub sends: Vec<FromCoord>,
    /// Whether the record changes.
    pub changed: bool,
    pub note: CoordNote,
}

impl Effects {
    /// Those of an event that did nothing yet.
    pub fn new(alloc: Global, base: &State) -> Result<Self, AllocError>
        ensures work { IfOk result (λ effects. work_of (held base.now) effects ≡ begin_work (ledger (held base.now))) }
        ensures fresh { IfOk result IsFresh }
    {
        let change = Change::new(alloc, base)?;
        Ok(Effects {
            change,
            added: None,
            sends: Vec::new(alloc),
            changed: false,
            note: CoordNote::Nothing,
        })
    }
}

/// An event that was worked out and not applied yet.
#[derive(Drop)]
pub struct Prepared {
    /// In a box, so that letting go of it is one step of a proof.
    pub effects: Box<Effects>,
    /// Room for the lines, with those that are added.
    pub room: Vec<SlotLine>,
}
