//! Leases without those that end.
ghost use Rattle.std.specs.Prelude.{◌≡◌, ◌≤◌, All, false, not, filter, take, vec_len};
ghost use Rattle.std.specs.Vec.{vec_capacity};
ghost use Rattle.holdings.specs.Endings.{ends_lease};

use farm_base::Lease;
use holdings::Ending;

/// Removes the leases from a place on that this ends, where it ends none before that place.
pub(crate) fn drop_ending_from(leases: &mut Vec<Lease>, from: usize, ending: Ending)
    requires inside { from ≤ vec_len leases.old }
    requires before { All (λ g. ends_lease ending g ≡ false) (take from leases.old.items) }
    ensures items { leases.new.items ≡ filter (λ g. not (ends_lease ending g)) leases.old.items }
    ensures capacity { vec_capacity leases.new ≡ vec_capacity leases.old }
{
    let mut kept = from;
    for place in from..leases.len() {
        if !ending.ends(&leases[place]) {
            leases.swap(kept, place);
            kept += 1;
        }
    }
    leases.truncate(kept);
}
