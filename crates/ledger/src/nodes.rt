//! The greatest lives and the retired nodes with what an event changes: in their place, and as the lists of a record.
ghost use Rattle.std.specs.Prelude.{◌≡◌, ◌+◌, ◌≤◌, length, map, IfOk};
ghost use Rattle.std.specs.List.Sorted.{IsStrictlyIncreasing};
ghost use Rattle.holdings.specs.Lives.{AreLives};
ghost use Rattle.holdings.specs.Lives.{life_at, is_among};
ghost use Rattle.effects.specs.Shown.{with_life, with_gone};

use effects::NewLife;
use farm_base::{NodeId, NodeLife};
use holdings::{Lives, RetiredNodes};
use std::alloc::{AllocError, Global};

/// Sets the life that began, if one did. There has to be room for one more, and it takes no memory.
pub(crate) fn begin(lives: &mut Lives, life: Option<NewLife>)
    requires { length lives.old.seen + 1 ≤ lives.old.room }
    ensures { life_at lives.new.seen ≡ with_life life (life_at lives.old.seen) }
{
    if let Some(NewLife { node, life }) = life {
        lives.set(node, life);
    }
}

/// Marks the node as retired that was retired, if one was. There has to be room for one more, and it takes no memory.
pub(crate) fn retire(nodes: &mut RetiredNodes, gone: Option<NodeId>)
    requires { length nodes.old.retired + 1 ≤ nodes.old.room }
    ensures { is_among nodes.new.retired ≡ with_gone gone (is_among nodes.old.retired) }
{
    if let Some(node) = gone {
        nodes.insert(node);
    }
}

/// The list of the lives, with the one that began, if one did.
pub(crate) fn lives_with(
    alloc: Global,
    lives: &Lives,
    life: Option<NewLife>,
) -> Result<Vec<NodeLife>, AllocError>
    ensures lives { IfOk result (λ list. life_at list.items ≡ with_life life (life_at lives.now.seen)) }
    ensures order { IfOk result (λ list. AreLives list.items) }
{
    let mut list = Lives::of(Vec::from_slice(alloc, lives.as_slice())?);
    list.reserve(1)?;
    begin(&mut list, life);
    Ok(list.into_vec())
}

/// The list of the retired nodes, with the one that was retired, if one was.
pub(crate) fn nodes_with(
    alloc: Global,
    nodes: &RetiredNodes,
    gone: Option<NodeId>,
) -> Result<Vec<NodeId>, AllocError>
    ensures nodes { IfOk result (λ list. is_among list.items ≡ with_gone gone (is_among nodes.now.retired)) }
    ensures order { IfOk result (λ list. IsStrictlyIncreasing (map (λ n. n.0) list.items)) }
{
    let mut list = RetiredNodes::of(Vec::from_slice(alloc, nodes.as_slice())?);
    list.reserve(1)?;
    retire(&mut list, gone);
    Ok(list.into_vec())
}
