//! How often a coordinator failed to restart.
ghost use Rattle.std.specs.Prelude.{◌≡◌, ◌+◌, ◌≤◌, ◌↔◌, IsTrue};
ghost use Rattle.farm.specs.Downs.{counted, ENOUGH};

use std::marker::Model;

/// Counts the failures in a row, up to eight and no further.
#[derive(Clone, Copy)]
pub struct DownCount {
    failures: u8,
}

impl Model for DownCount {
    ghost use Rattle.std.specs.Prelude.{ℕ, ◌≤◌};

    ghost Value = { ℕ };

    ghost view = { λ d. d.failures };

    ghost invariant = { λ d. d.failures ≤ 8 };

    ghost inverse = { λ n. record { failures = n } };
}

impl DownCount {
    /// No failure so far.
    pub fn new() -> Self
        ensures { result ≡ 0 }
    {
        DownCount { failures: 0 }
    }

    /// Counts a failure. The answer is whether it is the eighth in a row, or a later one.
    pub fn failed(&mut self) -> bool
        ensures count { self.new ≡ counted (self.old + 1) }
        ensures enough { IsTrue result ↔ (ENOUGH ≤ self.old + 1) }
    {
        if self.failures < 8 {
            self.failures += 1;
        }
        self.failures == 8
    }

    /// Ends the row of failures.
    pub fn worked(&mut self)
        ensures { self.new ≡ 0 }
    {
        self.failures = 0;
    }
}

impl Default for DownCount {
    ghost is_default = { λ count. count ≡ 0 };

    fn default() -> Self {
        DownCount::new()
    }
}
