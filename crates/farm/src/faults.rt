//! What ends a run on threads before they begin, or once they are over.
ghost use Rattle.std.specs.Prelude.{◌≡◌, true};
ghost use Rattle.solving.specs.Faults.{is_bare};

use farmend::EndRefusal;
use solving::FarmFault;

/// What a run ends with before its threads begin.
pub(crate) fn early_fault(fault: FarmFault) -> FarmFault
    ensures { is_bare result ≡ true }
{
    match fault {
        FarmFault::BadSetup => FarmFault::BadSetup,
        FarmFault::Memory => FarmFault::Memory,
        _ => FarmFault::ReceiptLost,
    }
}

/// What a run ends with whose end failed its check.
pub(crate) fn end_fault(refusal: EndRefusal) -> FarmFault
    ensures { is_bare result ≡ true }
{
    match refusal {
        EndRefusal::Disagrees => FarmFault::ReceiptLost,
        EndRefusal::OutOfMemory => FarmFault::Memory,
    }
}
