//! Lists of slots.
ghost use Rattle.std.specs.Prelude.{◌≡◌, IfOk};
ghost use Rattle.std.specs.List.Sorted.{IsStrictlySortedBy};
ghost use Rattle.names.specs.Slots.{slot_cmp};
ghost use Rattle.holdings.specs.Leases.{among};

use farm_base::Slot;
use std::alloc::AllocError;

/// These slots, each once, rising.
pub fn rising(slots: Vec<Slot>) -> Result<Vec<Slot>, AllocError>
    ensures rising { IfOk result (λ v. IsStrictlySortedBy slot_cmp v.items) }
    ensures same { IfOk result (λ v. among v.items ≡ among slots.items) }
{
    let mut rising = slots;
    rising.sort()?;
    rising.dedup();
    Ok(rising)
}
