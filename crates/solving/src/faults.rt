//! What refusals end a run with.
ghost use Rattle.std.specs.Prelude.{◌≡◌};
ghost use Rattle.solving.specs.Faults.{of_board, of_start, of_jobs, of_run, of_edits, of_shared};

use super::fault::FarmFault;
use events::EventRefusal;
use executions::{BoardRefusal, RunRefusal, SharedRefusal, StartRefusal};
use farm_base::Key;
use jobs::JobsRefusal;

/// What a refusal of the board ends a run with.
pub fn board_fault(refusal: BoardRefusal) -> FarmFault
    ensures { result ≡ of_board refusal }
{
    match refusal {
        BoardRefusal::Event(EventRefusal::OutOfMemory) => FarmFault::Memory,
        BoardRefusal::Event(_) => FarmFault::ReceiptLost,
        BoardRefusal::HistoryFull => FarmFault::HistoryFull,
        BoardRefusal::TokenOut => FarmFault::ReceiptLost,
        BoardRefusal::OutOfMemory => FarmFault::Memory,
    }
}

/// What a refused start ends a run with.
pub fn start_fault(refusal: StartRefusal) -> FarmFault
    ensures { result ≡ of_start refusal }
{
    match refusal {
        StartRefusal::BadSetup => FarmFault::BadSetup,
        StartRefusal::OutOfMemory => FarmFault::Memory,
    }
}

/// What a refusal of the jobs ends a run with.
pub fn jobs_fault(refusal: JobsRefusal) -> FarmFault
    ensures { result ≡ of_jobs refusal }
{
    match refusal {
        JobsRefusal::NotRunningKey => FarmFault::ReceiptLost,
        JobsRefusal::NoSuchJob => FarmFault::ReceiptLost,
        JobsRefusal::NoOutput(_) => FarmFault::ReceiptLost,
        JobsRefusal::OutOfMemory => FarmFault::Memory,
    }
}

/// What a refused execution of a key ends a run with.
pub(crate) fn run_fault(key: Key, refusal: RunRefusal) -> FarmFault
    ensures { result ≡ of_run key refusal }
{
    match refusal {
        RunRefusal::BadContents(_) => FarmFault::BadOutcome(key),
        RunRefusal::BadEdits => FarmFault::BadOutcome(key),
        RunRefusal::OutOfMemory => FarmFault::Memory,
    }
}

/// What a refused change of a SHARED folder by the execution of a key ends a run with.
pub(crate) fn edits_fault(key: Key, refusal: SharedRefusal) -> FarmFault
    ensures { result ≡ of_edits key refusal }
{
    match refusal {
        SharedRefusal::TooLarge => FarmFault::BadOutcome(key),
        SharedRefusal::OutOfMemory => FarmFault::Memory,
        SharedRefusal::Twice => FarmFault::ReceiptLost,
        SharedRefusal::NotOpen => FarmFault::ReceiptLost,
        SharedRefusal::BadContents => FarmFault::ReceiptLost,
    }
}

/// What a refused opening, look or closing of a SHARED folder ends a run with.
pub fn shared_fault(refusal: SharedRefusal) -> FarmFault
    ensures { result ≡ of_shared refusal }
{
    match refusal {
        SharedRefusal::OutOfMemory => FarmFault::Memory,
        SharedRefusal::TooLarge => FarmFault::ReceiptLost,
        SharedRefusal::Twice => FarmFault::ReceiptLost,
        SharedRefusal::NotOpen => FarmFault::ReceiptLost,
        SharedRefusal::BadContents => FarmFault::ReceiptLost,
    }
}
