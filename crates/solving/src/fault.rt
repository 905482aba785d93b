ghost use Rattle.std.specs.Prelude.{◌≡◌};
ghost use Rattle.solving.specs.declared.fault.FarmFault.TheVariants.{Memory};

use farm_base::Key;
use std::alloc::{AllocError, AllocFailed};
use std::fmt;
use thiserror::Error;

/// Why a run of a farm ended without its answers.
#[derive(Clone, Copy, Debug, PartialEq, Eq, Error)]
pub enum FarmFault {
    HistoryFull,
    /// An event was refused, or something that was sent for never came.
    ReceiptLost,
    /// What the executor left for this key, or what its execution began from, can't be kept.
    BadOutcome(Key),
    Memory,
    /// The number of nodes is out of range, or a job has no node or no executor.
    BadSetup,
    CoordinatorDown,
    Stalled,
    /// The gate never let the execution of this key pass.
    GateHeld(Key),
    NoThread,
}

impl fmt::Display for FarmFault {
    fn fmt<W: fmt::Write>(&self, f: &mut fmt::Formatter<W>) -> fmt::Result {
        f.write_str(match self {
            FarmFault::HistoryFull => "the schedule has 65,536 events",
            FarmFault::ReceiptLost => "the farm lost a receipt",
            FarmFault::BadOutcome(_) => "an outcome that can't be kept",
            FarmFault::Memory => "out of memory",
            FarmFault::BadSetup => "a job without its node, or nodes out of range",
            FarmFault::CoordinatorDown => "the coordinator doesn't restart",
            FarmFault::Stalled => "nothing is left that could go on",
            FarmFault::GateHeld(_) => "the gate holds an execution",
            FarmFault::NoThread => "a thread could not be started",
        })
    }
}

impl From<AllocError> for FarmFault {
    ghost from_gives = { λ _ fault. fault ≡ Memory };

    fn from(_error: AllocError) -> FarmFault {
        FarmFault::Memory
    }
}

impl<T: Drop> From<AllocFailed<T>> for FarmFault {
    ghost from_gives = { λ _ fault. fault ≡ Memory };

    fn from(_error: AllocFailed<T>) -> FarmFault {
        FarmFault::Memory
    }
}
