use super::entry::Fault;
use farm_base::Key;

/// Why a job has no output.
#[derive(Clone, Copy, PartialEq, Eq)]
pub enum Cause {
    /// This key was called failed, with this fault.
    Failed(Key, Fault),
    /// This key is done, but has no output of this index.
    NoOutput(Key, u64),
}
