//! Where the files of a command are.
use merging::Rule;
use names::NodeId;

/// Where a coordinator has its files.
#[derive(Clone, Copy)]
pub struct CoordinatorPlace<'a> {
    /// The record. Its log and its lock stand beside it, with `.log` and `.lock` behind its name.
    pub record: &'a str,
    /// The farm's key.
    pub key: &'a str,
}

/// Which node it is, and where it has its files.
#[derive(Clone, Copy)]
pub struct NodePlace<'a> {
    pub node: NodeId,
    /// The greatest number of a node that the farm will have.
    pub nodes: u32,
    /// The folder of its contents and its life. Its lock stands beside it, with `.lock` behind its name.
    pub store: &'a str,
    /// The key of this node.
    pub key: &'a str,
}

/// Where the listings are that are to be merged, and by which rule.
#[derive(Clone, Copy)]
pub struct MergePlace<'a> {
    pub rule: Rule,
    /// The listing of the version that both sides began from.
    pub base: &'a str,
    /// The listing of what the command left.
    pub mine: &'a str,
    /// The listing of the last version.
    pub theirs: &'a str,
}
