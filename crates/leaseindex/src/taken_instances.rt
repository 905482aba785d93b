//! The instances of folders that live leases have.
ghost use Rattle.std.specs.Prelude.{◌≡◌, ◌==◌, ℕ, ◌+◌, ◌<◌, ◌≤◌, ◌++◌, ◌&&◌, ◌||◌, not, false, vec_len, IfOk, OnOk};
ghost use Rattle.std.specs.List.{list_any};
ghost use Rattle.names.specs.Folders.{folder_eq};
ghost use Rattle.names.specs.declared.limits.TheConstants.{INSTANCES};
ghost use Rattle.protocol.specs.Names.{FolderName};
ghost use Rattle.protocol.specs.Ledger.{has_slot};
ghost use Rattle.holdings.specs.Endings.{frees};
ghost use Rattle.leaseindex.specs.Instances.{has, is_taken, folder_room, slot_instances, lease_instances, AreTaken};

use super::instances::Instances;
use farm_base::{Copied, FolderName, Lease, Slot};
use holdings::Ending;
use indexmap::IndexMap;
use std::alloc::{AllocError, Global};

/// The instances from 1 on that are taken, by folder. A folder with none is not in it.
#[derive(Drop)]
pub(crate) struct TakenInstances {
    by_folder: IndexMap<FolderName, Instances>,
}

impl TakenInstances {
    /// No instance.
    pub(crate) fn new(alloc: Global) -> Self
        ensures { (f : FolderName) (i : ℕ) → is_taken result f i ≡ false }
    {
        TakenInstances {
            by_folder: IndexMap::new(alloc),
        }
    }

    /// Makes room for the instances of more folders.
    pub(crate) fn reserve(&mut self, folders: usize) -> Result<(), AllocError>
        ensures same { (f : FolderName) (i : ℕ) → is_taken self.new f i ≡ is_taken self.old f i }
        ensures room { OnOk result (folders ≤ folder_room self.new) }
    {
        self.by_folder.reserve(folders)
    }

    /// The instances of a folder that are taken.
    pub(crate) fn of(&self, folder: &FolderName) -> Instances
        ensures { (i : ℕ) → has result i ≡ is_taken self.now folder.now i }
    {
        match self.by_folder.get(folder) {
            Some(instances) => *instances,
            None => Instances::new(),
        }
    }

    /// Adds an instance of a folder.
    fn add(&mut self, folder: FolderName, instance: u32)
        requires { 0 < folder_room self.old }
        ensures taken { (f : FolderName) (i : ℕ) → i ≤ INSTANCES → is_taken self.new f i ≡ ((folder_eq folder f && (instance == i)) || is_taken self.old f i) }
        ensures room { folder_room self.old ≤ folder_room self.new + 1 }
    {
        let mut instances = self.of(&folder);
        instances.insert(instance);
        let Ok(_) = self.by_folder.insert(folder, instances) else {
            unreachable!();
        };
    }

    /// Takes an instance of a folder out.
    fn remove(&mut self, folder: &FolderName, instance: u32)
        ensures free { (f : FolderName) (i : ℕ) → i ≤ INSTANCES → is_taken self.new f i ≡ (not (folder_eq folder.now f && (instance == i)) && is_taken self.old f i) }
        ensures room { folder_room self.old ≤ folder_room self.new }
    {
        let mut instances = self.of(folder);
        instances.remove(instance);
        if instances.is_empty() {
            let _ = self.by_folder.swap_remove(folder);
        } else if let Some(kept) = self.by_folder.get_mut(folder) {
            *kept = instances;
        }
    }

    /// Adds instances of folders.
    pub(crate) fn add_all(&mut self, entries: Vec<(FolderName, u32)>)
        requires { vec_len entries ≤ folder_room self.old }
        ensures { (f : FolderName) (i : ℕ) → i ≤ INSTANCES → is_taken self.new f i ≡ (list_any (λ e. folder_eq e.0 f && (e.1 == i)) entries.items || is_taken self.old f i) }
    {
        for (folder, instance) in entries {
            self.add(folder, instance);
        }
    }

    /// Takes the instances that a lease has out.
    pub(crate) fn remove_lease(&mut self, lease: &Lease)
        ensures free { (f : FolderName) (i : ℕ) → i ≤ INSTANCES → is_taken self.new f i ≡ (not (has_slot lease.now.slots (record { folder = f; instance = i })) && is_taken self.old f i) }
        ensures room { folder_room self.old ≤ folder_room self.new }
    {
        for held in lease.slots.as_slice() {
            self.remove(held.0.folder(), held.0.instance());
        }
    }

    /// Takes the instances out that the leases have which this ends.
    pub(crate) fn remove_ending(&mut self, leases: &[Lease], ending: &Ending)
        ensures free { (f : FolderName) (i : ℕ) → i ≤ INSTANCES → is_taken self.new f i ≡ (not (frees ending.now leases.now (record { folder = f; instance = i })) && is_taken self.old f i) }
        ensures room { folder_room self.old ≤ folder_room self.new }
    {
        for lease in leases {
            if ending.ends(lease) {
                self.remove_lease(lease);
            }
        }
    }
}

/// Adds the folder and the instance of each of these slots whose instance isn't 0.
fn add_instances(
    alloc: Global,
    entries: &mut Vec<(FolderName, u32)>,
    slots: &[(Slot, bool)],
) -> Result<(), AllocError>
    ensures { OnOk result (entries.new.items ≡ entries.old.items ++ slot_instances slots.now) }
{
    for held in slots {
        let instance = held.0.instance();
        if instance != 0 {
            entries.push((held.0.folder().copy(alloc)?, instance))?;
        }
    }
    Ok(())
}

/// What an index is to have of these leases.
pub(crate) fn instances_of(
    alloc: Global,
    leases: &[Lease],
) -> Result<Vec<(FolderName, u32)>, AllocError>
    ensures { IfOk result (λ entries. entries.items ≡ lease_instances leases.now) }
{
    let mut entries = Vec::new(alloc);
    for lease in leases {
        add_instances(alloc, &mut entries, lease.slots.as_slice())?;
    }
    Ok(entries)
}

/// The instances that these leases have.
pub(crate) fn taken_of(alloc: Global, leases: &[Lease]) -> Result<TakenInstances, AllocError>
    ensures { IfOk result (λ taken. AreTaken (is_taken taken) leases.now) }
{
    let entries = instances_of(alloc, leases)?;
    let mut taken = TakenInstances::new(alloc);
    taken.reserve(entries.len())?;
    taken.add_all(entries);
    Ok(taken)
}
