ghost use Rattle.std.specs.Prelude.{◌≡◌, ℕ, List};
ghost use Rattle.names.specs.declared.digest.Key.{Key};
ghost use Rattle.farm_base.specs.declared.want.Want.{Want};
ghost use Rattle.farm_base.specs.Wanted.{IsWants};
ghost use Rattle.vertices.specs.Loading.{GraphParts};
ghost use Rattle.cachemounts.specs.CacheWants.{AreWants};

/// A vertex has one list of wants.
pub fn wants_are_determined()
    ensures { (g : GraphParts) (keys : List Key) (number : ℕ) (one other : List Want) → IsWants one → IsWants other
        → AreWants g keys number one → AreWants g keys number other → one ≡ other }
{}
