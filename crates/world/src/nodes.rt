//! The nodes of a farm, by their numbers.
ghost use Rattle.std.specs.Prelude.{◌≡◌, ◌+◌, ◌<◌, length, IfOk, IfSome, IfNone, is_some};
ghost use Rattle.protocol.specs.Nodes.{unless_spent};
ghost use Rattle.nodeasks.specs.Rows.{none_lost};
ghost use Rattle.nodecore.specs.Shown.{forgets, shown, place, message_work, Answers};
ghost use Rattle.farm_base.specs.Receivers.{receiver};
ghost use Rattle.world.specs.Tables.{node_at, has, seat, called, AreSeated, AreFirst, OnlyNode, Restarts};

use super::call::{Call, answer};
use events::NodeRefusal;
use farm_base::NodeId;
use nodecore::{NodeCore, NodeDone, ToNode};
use std::alloc::{AllocError, Global};

/// The nodes of a farm, by rising number.
#[derive(Drop)]
pub(crate) struct Nodes {
    pub(crate) cores: Vec<NodeCore>,
    ghost seated: { AreSeated cores.items },
}

/// The place of the node of this number.
fn place_of(cores: &[NodeCore], node: NodeId) -> Option<usize>
    ensures found { IfSome result (λ place. node.0 ≡ place + 1) }
    ensures inside { IfSome result (λ place. place < length cores.now) }
    ensures exact { is_some result ≡ has cores.now node }
{
    if 1 <= node.0 && node.0 as usize <= cores.len() {
        Some(node.0 as usize - 1)
    } else {
        None
    }
}

/// `count` nodes in their first lives.
fn first_cores(alloc: Global, count: u32) -> Result<Vec<NodeCore>, AllocError>
    ensures { IfOk result (λ cores. AreFirst count cores.items) }
{
    let mut cores = Vec::with_capacity(alloc, count as usize)?;
    for number in 0..count {
        cores.push(NodeCore::start(alloc, NodeId(number + 1), count)?)?;
    }
    Ok(cores)
}

impl Nodes {
    /// `count` nodes in their first lives.
    pub(crate) fn start(alloc: Global, count: u32) -> Result<Self, AllocError>
        ensures { IfOk result (λ nodes. AreFirst count nodes.cores.items) }
    {
        let cores = first_cores(alloc, count)?;
        Ok(Nodes { cores })
    }

    pub(crate) fn get(&self, node: NodeId) -> Option<&NodeCore>
        ensures node { IfSome result (λ core. shown core.now ≡ node_at self.now.cores.items node.0) }
        ensures place { IfSome result (λ core. place core.now ≡ seat self.now.cores.items node) }
        ensures told { IfSome result (λ core. forgets core.now ≡ none_lost) }
        ensures exact { is_some result ≡ has self.now.cores.items node }
    {
        let place = place_of(self.cores.as_slice(), node)?;
        Some(&self.cores[place])
    }

    /// The answer of the node, if it is there.
    pub(crate) fn call(
        &mut self,
        alloc: Global,
        node: NodeId,
        call: Call,
    ) -> Option<Result<NodeDone, NodeRefusal>>
        ensures answer { IfSome result (Answers (called call (seat self.old.cores.items node) (node_at self.old.cores.items node.0)) (node_at self.old.cores.items node.0) (node_at self.new.cores.items node.0)) }
        ensures others { OnlyNode node self.old.cores.items self.new.cores.items }
        ensures none { IfNone result (self.new.cores.items ≡ self.old.cores.items) }
        ensures exact { is_some result ≡ has self.old.cores.items node }
    {
        let place = place_of(self.cores.as_slice(), node)?;
        Some(answer(&mut self.cores[place], alloc, node, call))
    }

    /// The answer of the node that the message is for, if it is there.
    pub(crate) fn hear(
        &mut self,
        alloc: Global,
        message: &ToNode,
    ) -> Option<Result<NodeDone, NodeRefusal>>
        ensures answer { IfSome result (Answers (unless_spent (node_at self.old.cores.items (receiver message.now).0) (message_work (seat self.old.cores.items (receiver message.now)) (node_at self.old.cores.items (receiver message.now).0) message.now))
            (node_at self.old.cores.items (receiver message.now).0) (node_at self.new.cores.items (receiver message.now).0)) }
        ensures others { OnlyNode (receiver message.now) self.old.cores.items self.new.cores.items }
        ensures none { IfNone result (self.new.cores.items ≡ self.old.cores.items) }
        ensures exact { is_some result ≡ has self.old.cores.items (receiver message.now) }
    {
        let place = place_of(self.cores.as_slice(), message.node())?;
        Some(self.cores[place].handle(alloc, message))
    }

    /// Restarts the node, if it is there.
    pub(crate) fn restart(
        &mut self,
        alloc: Global,
        node: NodeId,
    ) -> Option<Result<NodeDone, NodeRefusal>>
        ensures answer { IfSome result (Restarts (seat self.old.cores.items node) (node_at self.old.cores.items node.0) (node_at self.new.cores.items node.0)) }
        ensures others { OnlyNode node self.old.cores.items self.new.cores.items }
        ensures none { IfNone result (self.new.cores.items ≡ self.old.cores.items) }
        ensures exact { is_some result ≡ has self.old.cores.items node }
    {
        let place = place_of(self.cores.as_slice(), node)?;
        Some(self.cores[place].restart(alloc))
    }
}
