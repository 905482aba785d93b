use names::Digest;
use opsproto::WireOp;

/// A vertex of a graph.
#[derive(Drop)]
pub struct Vertex<'a> {
    /// The place of its entry in the definition.
    pub place: usize,
    /// The SHA-256 of its entry's bytes.
    pub digest: Digest,
    pub op: WireOp<'a>,
}

/// Where a vertex comes from: the place and the digest of its entry, and the digest of its op's stripped bytes.
#[derive(Clone, Copy)]
pub(crate) struct Source {
    pub place: usize,
    pub digest: Digest,
    pub stripped: Digest,
}
