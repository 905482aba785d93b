//! The SHARED folders that are open on a node, under their lock.
ghost use Rattle.executions.specs.Live.{IsTenureOf};

use executions::LiveShared;
use farm_base::FolderName;
use farmboard::{Running, abandon_running};
use solving::{FarmFault, give_up_all, shared_fault};
use std::alloc::Global;

/// The SHARED folders that are open on a node. Those that are open when it is dropped are given up.
pub(crate) struct OpenFolders {
    pub(crate) live: LiveShared,
}

impl Drop for OpenFolders {
    fn drop(self) {
        let OpenFolders { live } = self;
        give_up_all(live);
    }
}

impl OpenFolders {
    /// Opens the folder of a tenure.
    pub(crate) fn open(
        &mut self,
        alloc: Global,
        folder: &FolderName,
        running: Running,
    ) -> Result<(), FarmFault>
        requires { IsTenureOf running folder.now }
    {
        if self.live.is_open(folder) {
            abandon_running(running);
            return Err(FarmFault::ReceiptLost);
        }
        match self.live.open_folder(alloc, running) {
            Ok(()) => Ok(()),
            Err((running, refusal)) => {
                abandon_running(running);
                Err(shared_fault(refusal))
            }
        }
    }
}
