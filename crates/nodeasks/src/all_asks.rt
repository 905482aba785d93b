//! All asks of a life, also those that aren't kept any more. Only clauses read them: the list takes no memory.
ghost use Rattle.std.specs.Prelude.{◌≡◌, List, []};
ghost use Rattle.std.specs.Borrow.{ftrue};
ghost use Rattle.events.specs.declared.ask.KeptAsk.{KeptAsk};
ghost use Rattle.nodeasks.specs.Rows.{noted};

use super::ask_row::AskRow;
use std::marker::{Model, PhantomData};

/// The asks of a life, by their places.
#[derive(Drop)]
pub struct AllAsks {
    marker: PhantomData<u8>,
    pub ghost asks: { List KeptAsk },
}

impl Model for AllAsks {
    ghost also_owns = { λ _. ftrue };
}

impl AllAsks {
    /// No ask was made.
    pub(crate) fn new() -> AllAsks
        ensures { result.asks ≡ [] }
    {
        AllAsks {
            marker: PhantomData,
        }
    }

    /// The rows' asks stand at their places now.
    pub(crate) fn note(&mut self, _rows: &[AskRow])
        ensures { self.new.asks ≡ noted _rows.now self.old.asks }
    {}
}
