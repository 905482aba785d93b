//! Laws of texts and comparisons. A function calls the laws that its proof needs.
ghost use Rattle.std.specs.Prelude.{◌≡◌, true};
ghost use Rattle.std.specs.Cmp.{IsTotalOrder};
ghost use Rattle.std.specs.declared.cmp.Ordering.TheVariants.{Equal};
ghost use Rattle.names.specs.declared.digest.Digest.{Digest};
ghost use Rattle.names.specs.declared.digest.Key.{Key};
ghost use Rattle.names.specs.declared.folder.FolderName.{FolderName};
ghost use Rattle.names.specs.Digests.{IsDigest, digest_text, key_text, digest_eq};
ghost use Rattle.names.specs.Folders.{folder_eq, folder_cmp};
ghost use Rattle.names.specs.Names.{folder_text, slot_text, IsOutput, IsName, IsSlot};
ghost use Rattle.names.specs.Slots.{SlotParts, slot_eq, slot_cmp};

use super::folder::{Base, FolderName};
use super::slot::Slot;

/// Each base of the program meets `IsOutput`.
fn is_output(base: Base)
    ensures { IsOutput base }
{
    let _key = base.key.0.bytes();
    let _index = base.index.get();
}

/// Each folder name of the program meets `IsName`.
pub fn is_name(name: &FolderName)
    ensures { IsName name.now }
{
    let _id = name.id.as_str();
    if let Some(base) = name.base {
        is_output(base);
    }
}

/// Each slot of the program meets `IsSlot`.
pub fn is_slot(slot: &Slot)
    ensures { IsSlot slot.now }
{
    is_name(slot.folder());
    let _instance = slot.instance();
}

/// No two digests have the same text.
pub fn one_digest_per_text()
    ensures { (a b : Digest) → IsDigest a → IsDigest b → digest_text a ≡ digest_text b → a ≡ b }
{}

/// No two keys have the same text.
pub fn one_key_per_text()
    ensures { (a b : Key) → IsDigest a.0 → IsDigest b.0 → key_text a ≡ key_text b → a ≡ b }
{}

/// No two folder names have the same text.
pub fn one_folder_per_text()
    ensures { (f g : FolderName) → IsName f → IsName g → folder_text f ≡ folder_text g → f ≡ g }
{}

/// No two slots have the same text.
pub fn one_slot_per_text()
    ensures { (a b : SlotParts) → IsSlot a → IsSlot b → slot_text a ≡ slot_text b → a ≡ b }
{}

/// Two folder names for which `==` holds are the same.
pub fn equal_names_are_one()
    ensures { (f g : FolderName) → folder_eq f g ≡ true → f ≡ g }
{}

/// `==` holds of a folder name and itself.
pub fn names_equal_themselves()
    ensures { (f : FolderName) → folder_eq f f ≡ true }
{}

/// `==` holds of two slots exactly if they are the same.
pub fn equal_slots_are_one()
    ensures one { (a b : SlotParts) → slot_eq a b ≡ true → a ≡ b }
    ensures itself { (a : SlotParts) → slot_eq a a ≡ true }
{}

/// `==` holds of two digests exactly if they are the same.
pub fn equal_digests_are_one()
    ensures one { (a b : Digest) → digest_eq a b ≡ true → a ≡ b }
    ensures itself { (a : Digest) → digest_eq a a ≡ true }
{}

/// The order of folder names is total, and only equal names tie.
pub fn folders_are_ordered()
    ensures total { IsTotalOrder folder_cmp }
    ensures ties { (f g : FolderName) → folder_cmp f g ≡ Equal → f ≡ g }
{}

/// The order of slots is total, and only equal slots tie.
pub fn slots_are_ordered()
    ensures total { IsTotalOrder slot_cmp }
    ensures ties { (a b : SlotParts) → slot_cmp a b ≡ Equal → a ≡ b }
{}
