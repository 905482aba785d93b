//! Laws of what the contracts promise. A function whose proof needs one of them calls it.
ghost use Rattle.std.specs.Prelude.{◌≡◌};
ghost use Rattle.ledger.specs.Settling.{OnlyGrow};
ghost use Rattle.versions.specs.Lines.{LineOf};

/// Lines that are as they were have only grown, and lines that grew twice have only grown. So what each call promises
/// holds of all calls from first to last.
pub fn lines_only_grow()
    ensures equal { (old new : LineOf) → old ≡ new → OnlyGrow old new }
    ensures again { (old between new : LineOf) → OnlyGrow old between → OnlyGrow between new → OnlyGrow old new }
{}
