//! A law of the definitions that the contracts cite. A function whose proof needs it calls it.
ghost use Rattle.std.specs.Prelude.{Bool};
ghost use Rattle.protocol.specs.Names.{Slot, FolderName};
ghost use Rattle.leases.specs.Lowest.{LowestIsLowest};

/// A PRIVATE want gets the lowest free instance of 1 to 4,096.
pub fn lowest_is_lowest()
    ensures { (free : Slot → Bool) (f : FolderName) → LowestIsLowest free f }
{}
