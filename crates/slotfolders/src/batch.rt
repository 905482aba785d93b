//! What executions changed in SHARED folders.
ghost use Rattle.std.specs.Prelude.{◌≡◌};
ghost use Rattle.std.specs.List.{list_any};
ghost use Rattle.slotfolders.specs.Batches.{is_by};

use farm_base::{FolderName, Items, Ticket};
use folders::Edit;

/// What one execution changed in a SHARED folder.
#[derive(Drop)]
pub struct Batch {
    pub ticket: Ticket,
    pub folder: FolderName,
    pub edits: Items<Edit>,
}

/// Whether a batch is of this ticket and folder.
pub fn has_changed(batches: &[Batch], ticket: Ticket, name: &FolderName) -> bool
    ensures { result ≡ list_any (is_by ticket name.now) batches.now }
{
    batches
        .iter()
        .any(|batch| batch.ticket == ticket && *name == batch.folder)
}
