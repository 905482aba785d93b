ghost use Rattle.std.specs.Prelude.{◌≡◌};
ghost use Rattle.merging.specs.Choices.{other};

/// Where a path of a merge comes from.
#[derive(Clone, Copy, Debug, PartialEq, Eq)]
pub enum Side {
    /// What the command left.
    Mine,
    /// The last version.
    Theirs,
}

impl Side {
    /// The other side.
    pub(crate) fn other(self) -> Side
        ensures { result ≡ other self }
    {
        match self {
            Side::Mine => Side::Theirs,
            Side::Theirs => Side::Mine,
        }
    }
}
