ghost use Rattle.std.specs.Prelude.{◌≤◌};

use farm_base::{Life, NodeId};

/// A life of a node that began. Lives are counted from 1.
#[derive(Clone, Copy)]
pub struct NewLife {
    pub node: NodeId,
    pub life: Life,
    pub ghost counted: { 1 ≤ life.0 },
}
