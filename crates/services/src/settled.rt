use events::CoordRefusal;

/// Whether what was answered lasts.
#[derive(Clone, Copy)]
pub enum Settled {
    /// It does, so the answers are written.
    Lasts,
    /// It doesn't, so each line is refused. This came of the restart.
    Failed(Result<(), CoordRefusal>),
}
