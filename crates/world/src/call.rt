ghost use Rattle.nodecore.specs.Shown.{forgets, shown, place, Answers};
ghost use Rattle.world.specs.Tables.{called};
ghost use Rattle.std.specs.Prelude.{◌≡◌};

use events::NodeRefusal;
use farm_base::{Content, Digest, FolderName, Items, Left, NodeId, Ticket, Wants};
use nodecore::{NodeCore, NodeDone, ToNode};
use std::alloc::Global;

/// What an event asks of one node.
#[derive(Drop)]
pub(crate) enum Call {
    Ask(Wants),
    Tenure(FolderName),
    Begin(Ticket),
    Finish(Ticket, Items<Left>),
    Abort(Ticket),
    /// A content arrives that nobody sent.
    Forge(Content),
    Forget(Digest),
}

/// The node's answer to the call.
pub(crate) fn answer(
    core: &mut NodeCore,
    alloc: Global,
    node: NodeId,
    call: Call,
) -> Result<NodeDone, NodeRefusal>
    requires { node ≡ (place core.old).node }
    ensures answer { Answers (called call (place core.old) (shown core.old)) (shown core.old) (shown core.new) result }
    ensures place { place core.new ≡ place core.old }
    ensures told { forgets core.new ≡ forgets core.old }
{
    match call {
        Call::Ask(wants) => core.ask(alloc, wants),
        Call::Tenure(folder) => core.ask_tenure(alloc, folder),
        Call::Begin(ticket) => core.begin(alloc, ticket),
        Call::Finish(ticket, lefts) => core.finish(alloc, ticket, lefts.into_vec()),
        Call::Abort(ticket) => core.abort(alloc, ticket),
        Call::Forge(content) => core.handle(alloc, &ToNode::Blob { node, content }),
        Call::Forget(digest) => core.forget(alloc, digest),
    }
}
