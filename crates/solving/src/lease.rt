//! What comes of an ask.
use executions::{Granted, Running};
use farm_base::Why;

/// What the coordinator replied to an ask.
pub enum Reply {
    Granted(Granted),
    Denied(Why),
}

/// What came of the ask for an execution's lease.
pub enum Lease {
    /// The execution has begun.
    Begun(Running),
    Denied(Why),
}
