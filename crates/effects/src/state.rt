//! What the coordinator keeps.
use super::spent_folders::SpentFolders;
use farm_base::NodeId;
use holdings::{Lives, RetiredNodes, TicketSource};
use leases::LeaseTable;
use parked::ParkedAsks;
use versions::Lines;

/// All that the coordinator keeps.
pub struct State {
    pub table: LeaseTable,
    pub tickets: TicketSource,
    pub lives: Lives,
    pub gone: RetiredNodes,
    pub old_home: Option<NodeId>,
    pub parked: ParkedAsks,
    /// The PRIVATE folders that parked asks want and of which no instance may be free.
    pub spent: SpentFolders,
    pub lines: Lines,
}

// By hand, so that letting go of one is one step of a proof.
impl Drop for State {
    fn drop(self) {
        let Self {
            table: _,
            tickets: _,
            lives: _,
            gone: _,
            old_home: _,
            parked: _,
            spent: _,
            lines: _,
        } = self;
    }
}
