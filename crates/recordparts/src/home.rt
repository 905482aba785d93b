//! The home of a record of version 1.
ghost use Rattle.std.specs.Prelude.{◌≡◌, ◌++◌, OnOk};
ghost use Rattle.recordparts.specs.Parts.{Gives, home_of, home_at};
ghost use Rattle.recordparts.specs.Spelling.{home_bytes};

use super::part::take_u32;
use super::refusal::RecordRefusal;
use names::{NODES, NodeId};
use std::alloc::AllocError;

fn home_of(number: u32) -> Option<NodeId>
    ensures { result ≡ home_of number }
{
    match number {
        0 => None,
        node => Some(NodeId(node)),
    }
}

/// A node, or 0 for none.
#[tactic(auto, unfolding(crate::specs::Parts::home_at))]
pub fn take_home(bytes: &[u8]) -> Result<(Option<NodeId>, &[u8]), RecordRefusal>
    ensures { Gives (λ x. (x.0, x.1.now)) result (home_at bytes.now) }
{
    let (home, rest) = take_u32(bytes, 0, NODES)?;
    Ok((home_of(home), rest))
}

/// The number of the node, or 0 for none.
#[tactic(auto, unfolding(crate::specs::Spelling::home_bytes))]
pub fn put_home(out: &mut Vec<u8>, home: Option<NodeId>) -> Result<(), AllocError>
    ensures { OnOk result (out.new.items ≡ out.old.items ++ home_bytes home) }
{
    match home {
        None => out.extend_from_slice(&0u32.to_be_bytes())?,
        Some(node) => out.extend_from_slice(&node.0.to_be_bytes())?,
    }
    Ok(())
}
