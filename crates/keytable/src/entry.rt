use farm_base::{Digest, Items, Key, Why};

/// Why a key has no outputs.
#[derive(Clone, Copy, PartialEq, Eq)]
pub enum Fault {
    /// The execution ended with this status.
    Exit(i32),
    /// Its ask for a lease was denied.
    Denied(Why),
}

/// The progress of a key.
#[derive(Drop)]
pub enum Progress {
    /// It was submitted.
    Waiting,
    /// It was handed out.
    Out,
    /// It was handed out, and has these outputs.
    Done(Items<Digest>),
    /// It was handed out, and has no outputs.
    Failed(Fault),
}

/// A key that was submitted.
#[derive(Drop)]
pub struct Entry {
    pub key: Key,
    /// For each of its inputs, in order, the key and the index of the output.
    pub inputs: Items<(Key, u64)>,
    pub progress: Progress,
}
