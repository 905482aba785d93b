//! What the threads of a farm share.
use super::locked_board::LockedBoard;
use super::node_state::NodeState;
use super::signals::Signals;
use solving::Work;
use std::alloc::Global;
use std::sync::Mutex;

/// What the threads of a farm share. Whoever holds the lock of the board may take that of a node, and no other
/// way round.
#[derive(Drop)]
pub(crate) struct Common {
    pub(crate) alloc: Global,
    pub(crate) board: Mutex<LockedBoard>,
    /// From node 1 on.
    pub(crate) nodes: Vec<NodeState>,
    pub(crate) work: Work,
    pub(crate) signals: Signals,
}

/// What a thread sees of the others. It stands for what they share where threads are started: all threads may share it.
pub(crate) trait Shared: Sync {
    fn common(&self) -> &Common;
}

impl Shared for Common {
    fn common(&self) -> &Common {
        self
    }
}
