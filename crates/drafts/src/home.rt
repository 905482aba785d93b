//! The old home.
ghost use Rattle.std.specs.Prelude.{◌≡◌};
ghost use Rattle.protocol.specs.Machine.{cleared};
ghost use Rattle.protocol.specs.Ledger.{is_home};

use farm_base::NodeId;

/// Clears the old home if it is this node.
pub(crate) fn cleared(node: NodeId, old_home: Option<NodeId>) -> Option<NodeId>
    ensures { result ≡ cleared node old_home }
{
    match old_home {
        Some(home) => { if home == node { None } else { Some(home) } }
        None => None,
    }
}

pub fn is_home(node: NodeId, old_home: Option<NodeId>) -> bool
    ensures { result ≡ is_home node old_home }
{
    match old_home {
        Some(home) => home == node,
        None => false,
    }
}
