//! PRIVATE folders of which no instance may be free.
ghost use Rattle.std.specs.Prelude.{◌≡◌, ◌-◌, ◌≤◌, ◌<◌, [], Bool, true, length, slice_index_or, OnOk};
ghost use Rattle.protocol.specs.Lists.{In};
ghost use Rattle.protocol.specs.Names.{FolderName, Slot, Want};
ghost use Rattle.protocol.specs.Machine.{Parked};
ghost use Rattle.protocol.specs.Ledger.{Lease};
ghost use Rattle.leases.specs.Table.{is_free};
ghost use Rattle.parked.specs.Noted.{is_noted};
ghost use Rattle.effects.specs.Spent.{is_private_spent, IsNoted};

use farm_base::{Copied, FolderName, Lease, Mode, Parked, Slot, Want};
use leases::TableView;
use std::alloc::{AllocError, Global};

/// PRIVATE folders, each once. Those that a parked ask wants and of which no instance is free are among them; others may be.
#[derive(Drop)]
pub struct SpentFolders {
    pub folders: Vec<FolderName>,
}

/// Whether a folder is PRIVATE, and no instance of it is free.
fn is_spent(table: &TableView, folder: &FolderName) -> bool
    ensures { result ≡ is_private_spent (is_free table.now) folder.now }
{
    matches!(folder.mode, Mode::Private) && table.is_spent(folder)
}

/// Whether the slot before the one at this place is of the same folder.
fn is_repeated(slots: &[Slot], place: usize) -> bool
    requires { place < length slots.now }
    ensures { result ≡ true → (d : Slot) → (1 ≤ place) × ((slice_index_or slots.now (place - 1) d).folder ≡ (slice_index_or slots.now place d).folder) }
{
    if place == 0 {
        return false;
    }
    *slots[place - 1].folder() == *slots[place].folder()
}

impl SpentFolders {
    /// No folder.
    pub fn new(alloc: Global) -> Self
        ensures { result.folders.items ≡ [] }
    {
        SpentFolders {
            folders: Vec::new(alloc),
        }
    }

    pub fn as_slice(&self) -> &[FolderName]
        ensures { result.now ≡ self.now.folders.items }
    {
        self.folders.as_slice()
    }

    /// Whether a folder is noted.
    fn has(&self, folder: &FolderName) -> bool
        ensures { result ≡ is_noted self.now.folders.items folder.now }
    {
        self.folders.iter().any(|noted| noted == folder)
    }

    /// Notes a folder, if it is PRIVATE and no instance of it is free.
    fn note(
        &mut self,
        alloc: Global,
        table: &TableView,
        folder: &FolderName,
    ) -> Result<(), AllocError>
        ensures noted { OnOk result (is_private_spent (is_free table.now) folder.now ≡ true → is_noted self.new.folders.items folder.now ≡ true) }
        ensures kept { (f : FolderName) → is_noted self.old.folders.items f ≡ true → is_noted self.new.folders.items f ≡ true }
    {
        if !is_spent(table, folder) || self.has(folder) {
            return Ok(());
        }
        self.folders.push(folder.copy(alloc)?)?;
        Ok(())
    }

    /// Notes those of these folders.
    pub fn note_folders(
        &mut self,
        alloc: Global,
        table: &TableView,
        folders: &[FolderName],
    ) -> Result<(), AllocError>
        ensures noted { OnOk result ((f : FolderName) → In f folders.now → is_private_spent (is_free table.now) f ≡ true → is_noted self.new.folders.items f ≡ true) }
        ensures kept { (f : FolderName) → is_noted self.old.folders.items f ≡ true → is_noted self.new.folders.items f ≡ true }
    {
        for folder in folders {
            self.note(alloc, table, folder)?;
        }
        Ok(())
    }

    /// Notes those of these slots. Of slots of one folder that come one after the other it looks at the first alone.
    pub fn note_slots(
        &mut self,
        alloc: Global,
        table: &TableView,
        slots: &[Slot],
    ) -> Result<(), AllocError>
        ensures noted { OnOk result ((s : Slot) → In s slots.now → is_private_spent (is_free table.now) s.folder ≡ true → is_noted self.new.folders.items s.folder ≡ true) }
        ensures kept { (f : FolderName) → is_noted self.old.folders.items f ≡ true → is_noted self.new.folders.items f ≡ true }
    {
        let mut place = 0;
        while place < slots.len() {
            if !is_repeated(slots, place) {
                self.note(alloc, table, slots[place].folder())?;
            }
            place += 1;
        }
        Ok(())
    }

    /// Notes those of these slots of a lease.
    fn note_held(
        &mut self,
        alloc: Global,
        table: &TableView,
        slots: &[(Slot, bool)],
    ) -> Result<(), AllocError>
        ensures noted { OnOk result ((x : Slot × Bool) → In x slots.now → is_private_spent (is_free table.now) x.0.folder ≡ true → is_noted self.new.folders.items x.0.folder ≡ true) }
        ensures kept { (f : FolderName) → is_noted self.old.folders.items f ≡ true → is_noted self.new.folders.items f ≡ true }
    {
        for held in slots {
            self.note(alloc, table, held.0.folder())?;
        }
        Ok(())
    }

    /// Notes those of the slots of these leases.
    pub fn note_leases(
        &mut self,
        alloc: Global,
        table: &TableView,
        leases: &[Lease],
    ) -> Result<(), AllocError>
        ensures noted { OnOk result ((g : Lease) → In g leases.now → (x : Slot × Bool) → In x g.slots
            → is_private_spent (is_free table.now) x.0.folder ≡ true → is_noted self.new.folders.items x.0.folder ≡ true) }
        ensures kept { (f : FolderName) → is_noted self.old.folders.items f ≡ true → is_noted self.new.folders.items f ≡ true }
    {
        for lease in leases {
            self.note_held(alloc, table, lease.slots.as_slice())?;
        }
        Ok(())
    }

    /// Notes those of wants.
    pub fn note_wants(
        &mut self,
        alloc: Global,
        table: &TableView,
        wants: &[Want],
    ) -> Result<(), AllocError>
        ensures noted { OnOk result ((w : Want) → In w wants.now → is_private_spent (is_free table.now) w.folder ≡ true → is_noted self.new.folders.items w.folder ≡ true) }
        ensures kept { (f : FolderName) → is_noted self.old.folders.items f ≡ true → is_noted self.new.folders.items f ≡ true }
    {
        for want in wants {
            self.note(alloc, table, &want.folder)?;
        }
        Ok(())
    }

    /// Notes those that these asks want.
    pub fn note_asks(
        &mut self,
        alloc: Global,
        table: &TableView,
        asks: &[Parked],
    ) -> Result<(), AllocError>
        ensures noted { OnOk result ((p : Parked) → In p asks.now → IsNoted self.new.folders.items (is_free table.now) p) }
        ensures kept { (f : FolderName) → is_noted self.old.folders.items f ≡ true → is_noted self.new.folders.items f ≡ true }
    {
        for p in asks {
            self.note_wants(alloc, table, p.wants.as_slice())?;
        }
        Ok(())
    }
}
