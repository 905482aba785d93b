ghost use Rattle.std.specs.Prelude.{◌≡◌, IfOk};

use farm_base::{Copied, Items, Lease, NodeId, NodeLife, Slot, Ticket};
use std::alloc::{AllocError, Global};
use versions::SlotLine;

/// What a coordinator has saved.
#[derive(Drop)]
pub struct Record {
    /// The last ticket of the block that may be in use.
    pub last: Ticket,
    /// The home of a record of version 1, until that node's next life.
    pub old_home: Option<NodeId>,
    /// By rising node.
    pub lives: Items<NodeLife>,
    /// The nodes that are gone for good, rising.
    pub retired_nodes: Items<NodeId>,
    /// The leases that outlive a restart, by rising ticket.
    pub leases: Items<Lease>,
    /// The PRIVATE slots that are never granted again, rising.
    pub retired: Items<Slot>,
    /// The lines that have a version, by rising slot.
    pub lines: Items<SlotLine>,
}

fn copied<T: Copy + Drop>(alloc: Global, items: &Items<T>) -> Result<Items<T>, AllocError>
    ensures { IfOk result (λ copy. copy ≡ items.now) }
{
    let vec = Vec::from_slice(alloc, items.as_slice())?;
    Ok(Items::new(vec))
}

impl Copied for Record {
    fn copy(&self, alloc: Global) -> Result<Self, AllocError> {
        Ok(Record {
            last: self.last,
            old_home: self.old_home,
            lives: copied(alloc, &self.lives)?,
            retired_nodes: copied(alloc, &self.retired_nodes)?,
            leases: self.leases.copy(alloc)?,
            retired: self.retired.copy(alloc)?,
            lines: self.lines.copy(alloc)?,
        })
    }
}
