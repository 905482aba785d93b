ghost use Rattle.std.specs.Prelude.{◌≡◌};
ghost use Rattle.merging.specs.declared.refusal.ListingRefusal.TheVariants as listing;

use std::alloc::{AllocError, AllocFailed};

/// Why a text is not read.
#[derive(Clone, Copy, Debug, PartialEq, Eq)]
pub enum ListingRefusal {
    /// It spells no listing.
    BadForm,
    /// It has more than 64 MiB.
    TooLong,
    OutOfMemory,
}

impl From<AllocError> for ListingRefusal {
    ghost from_gives = { λ _ e. e ≡ listing.OutOfMemory };

    fn from(_error: AllocError) -> ListingRefusal {
        ListingRefusal::OutOfMemory
    }
}

impl<T: Drop> From<AllocFailed<T>> for ListingRefusal {
    ghost from_gives = { λ _ e. e ≡ listing.OutOfMemory };

    fn from(_error: AllocFailed<T>) -> ListingRefusal {
        ListingRefusal::OutOfMemory
    }
}
