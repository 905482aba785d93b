ghost use Rattle.std.specs.Prelude.{◌≡◌};
ghost use Rattle.ledger.specs.Settling.{is_save_fault};

use events::{CoordNote, CoordRefusal};
use farm_base::{FromCoord, Items};

/// The result of a message or of a call.
#[derive(Drop)]
pub struct Handled {
    /// What is sent, in this order.
    pub sends: Items<FromCoord>,
    /// What was done.
    pub note: CoordNote,
}

/// Whether the answer is that the save failed.
pub fn is_save_fault(answer: &Result<Handled, CoordRefusal>) -> bool
    ensures { result ≡ is_save_fault answer.now }
{
    matches!(answer, Err(CoordRefusal::SaveFault))
}
