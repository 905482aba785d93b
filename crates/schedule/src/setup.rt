/// How a farm is set up.
#[derive(Clone, Copy)]
pub struct Setup {
    /// The number of its nodes.
    pub nodes: u32,
}
