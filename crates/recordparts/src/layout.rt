ghost use Rattle.std.specs.Prelude.{◌≡◌};
ghost use Rattle.recordparts.specs.Layouts.{has_shared, has_retired_nodes};

/// How the bytes of a record are laid out, by its magic. Only the third is written.
#[derive(Clone, Copy)]
pub enum Layout {
    First,
    Second,
    Third,
}

impl Layout {
    /// Whether it has SHARED slots and tenures.
    pub fn has_shared(self) -> bool
        ensures { result ≡ has_shared self }
    {
        !matches!(self, Layout::First)
    }

    /// Whether it has nodes that are gone for good.
    pub fn has_retired_nodes(self) -> bool
        ensures { result ≡ has_retired_nodes self }
    {
        matches!(self, Layout::Third)
    }
}
