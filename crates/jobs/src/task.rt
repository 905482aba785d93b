use names::{Digest, Key};

/// A key that is handed out, to be solved.
#[derive(Drop)]
pub struct Task {
    pub key: Key,
    /// The outputs that its inputs name, in order.
    pub inputs: Vec<Digest>,
}
