use farm_base::{Key, NodeId};

/// A key on a node.
#[derive(Clone, Copy, PartialEq, Eq, Hash)]
pub struct NodeKey {
    pub node: NodeId,
    pub key: Key,
}
