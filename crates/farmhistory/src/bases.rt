//! The contents that executions begin from.
ghost use Rattle.std.specs.Prelude.{◌≡◌, true, IfOk, map};
ghost use Rattle.names.specs.Contents.{content_digest};
ghost use Rattle.protocol.specs.Nodes.{all_stored};
ghost use Rattle.nodecore.specs.Shown.{shown};

use farm_base::{Content, Copied, GrantedSlot};
use nodecore::NodeCore;
use std::alloc::{AllocError, Global};

/// Copies of the contents of the slots' bases, each of which is stored.
pub fn copies_of(
    alloc: Global,
    core: &NodeCore,
    slots: &[GrantedSlot],
) -> Result<Vec<Content>, AllocError>
    requires { all_stored (shown core.now) slots.now ≡ true }
    ensures { IfOk result (λ bases. map content_digest bases.items ≡ map (λ slot. slot.digest) slots.now) }
{
    let mut bases = Vec::with_capacity(alloc, slots.len())?;
    for slot in slots {
        match core.content(&slot.digest) {
            Some(content) => bases.push(content.copy(alloc)?)?,
            None => unreachable!(),
        }
    }
    Ok(bases)
}
