//! Laws of comparisons. A function calls the laws that its proof needs.
ghost use Rattle.std.specs.Prelude.{◌≡◌, true};
ghost use Rattle.farm_base.specs.declared.message.Version.{Version};
ghost use Rattle.farm_base.specs.Versions.{version_eq};

pub use names::laws::{
    equal_digests_are_one, equal_names_are_one, equal_slots_are_one, folders_are_ordered, is_name,
    is_slot, names_equal_themselves, one_digest_per_text, one_folder_per_text, one_key_per_text,
    one_slot_per_text, slots_are_ordered,
};

/// `==` holds of two versions exactly if they are the same.
pub fn equal_versions_are_one()
    ensures one { (a b : Version) → version_eq a b ≡ true → a ≡ b }
    ensures itself { (a : Version) → version_eq a a ≡ true }
{}
