//! Files and the texts that they hold. A function whose proof needs this law calls it.
ghost use Rattle.filekeeper.specs.Settled.{WhatIsHeldIsGiven};

/// Opening the files that a crash left gives the texts that they hold: those that the calls of `RecordFiles` name.
pub fn what_is_held_is_given()
    ensures { WhatIsHeldIsGiven }
{}
