//! PRIVATE slots that are never granted again, and the instances that they are.
ghost use Rattle.std.specs.Prelude.{◌≡◌, ℕ, ◌+◌, ◌≤◌, [], ◌++◌, length, vec_len, IfOk, OnOk, OnErr};
ghost use Rattle.names.specs.declared.limits.TheConstants.{INSTANCES};
ghost use Rattle.leaseindex.specs.Instances.{has, slot_names};
ghost use Rattle.holdings.specs.Leases.{among};

use super::instances::Instances;
use super::taken_instances::TakenInstances;
use farm_base::{Copied, FolderName, Slot};
use std::alloc::{AllocError, Global};
use std::marker::Model;

/// PRIVATE slots that are never granted again.
#[derive(Drop)]
pub struct RetiredSlots {
    slots: Vec<Slot>,
    /// The instances of these slots, by folder.
    taken: TakenInstances,
}

impl Model for RetiredSlots {
    ghost use Rattle.std.specs.Vec.{vec_capacity};
    ghost use Rattle.leaseindex.specs.Instances.{Retired, AreRetired, is_taken, folder_room};

    ghost Value = { Retired };

    ghost view = { λ r. record { slots = r.slots.items; slot_room = vec_capacity r.slots; folder_room = folder_room r.taken } };

    ghost invariant = { λ r. AreRetired (is_taken r.taken) r.slots.items };
}

impl RetiredSlots {
    /// No slot.
    pub fn new(alloc: Global) -> Self
        ensures { result.slots ≡ [] }
    {
        RetiredSlots {
            slots: Vec::new(alloc),
            taken: TakenInstances::new(alloc),
        }
    }

    /// These slots.
    pub fn of(alloc: Global, slots: Vec<Slot>) -> Result<Self, AllocError>
        ensures { IfOk result (λ retired. retired.slots ≡ slots.items) }
    {
        let names = names_of(alloc, slots.as_slice())?;
        let mut taken = TakenInstances::new(alloc);
        taken.reserve(names.len())?;
        taken.add_all(names);
        Ok(RetiredSlots { slots, taken })
    }

    /// The slots.
    pub fn as_slice(&self) -> &[Slot]
        ensures { result.now ≡ self.now.slots }
    {
        self.slots.as_slice()
    }

    /// The instances of a folder that are never granted again.
    pub fn instances_of(&self, folder: &FolderName) -> Instances
        ensures { (i : ℕ) → i ≤ INSTANCES → has result i ≡ among self.now.slots (record { folder = folder.now; instance = i }) }
    {
        self.taken.of(folder)
    }

    /// Makes room for more slots, and what the index is to have of them.
    pub fn room_for(
        &mut self,
        alloc: Global,
        more: &[Slot],
    ) -> Result<Vec<(FolderName, u32)>, AllocError>
        ensures slots { self.new.slots ≡ self.old.slots }
        ensures room { OnOk result (length self.new.slots + length more.now ≤ self.new.slot_room) }
        ensures names { IfOk result (λ names. names.items ≡ slot_names more.now) }
        ensures folders { IfOk result (λ names. vec_len names ≤ self.new.folder_room) }
    {
        let names = names_of(alloc, more)?;
        self.slots.reserve(more.len())?;
        self.taken.reserve(names.len())?;
        Ok(names)
    }

    /// Adds slots, for which there is room, with what the index is to have of them.
    pub fn add_all(&mut self, slots: Vec<Slot>, names: Vec<(FolderName, u32)>)
        requires room { length self.old.slots + length slots.items ≤ self.old.slot_room }
        requires names { names.items ≡ slot_names slots.items }
        requires folders { vec_len names ≤ self.old.folder_room }
        ensures { self.new.slots ≡ self.old.slots ++ slots.items }
    {
        let mut slots = slots;
        self.slots.append(&mut slots).unwrap();
        self.taken.add_all(names);
    }

    /// Adds slots.
    pub fn add(&mut self, alloc: Global, slots: Vec<Slot>) -> Result<(), AllocError>
        ensures ok { OnOk result (self.new.slots ≡ self.old.slots ++ slots.items) }
        ensures err { OnErr result (self.new.slots ≡ self.old.slots) }
    {
        let names = self.room_for(alloc, slots.as_slice())?;
        self.add_all(slots, names);
        Ok(())
    }
}

/// The folder and the instance of each of these slots.
fn names_of(alloc: Global, slots: &[Slot]) -> Result<Vec<(FolderName, u32)>, AllocError>
    ensures { IfOk result (λ names. names.items ≡ slot_names slots.now) }
{
    let mut names = Vec::with_capacity(alloc, slots.len())?;
    for slot in slots {
        names.push((slot.folder().copy(alloc)?, slot.instance()))?;
    }
    Ok(names)
}
