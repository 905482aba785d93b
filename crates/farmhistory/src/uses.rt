//! The executions in use.
ghost use Rattle.std.specs.Prelude.{◌≡◌, ◌<◌, not, filter, vec_len};
ghost use Rattle.std.specs.List.{list_any};
ghost use Rattle.std.specs.Vec.{vec_capacity};
ghost use Rattle.farmhistory.specs.Out.{is_use_of, is_on, out_after, out_if};

use events::{Event, EventRefusal, Outcome};
use farm_base::{NodeId, Ticket};

/// An execution in use: its node, and its ticket.
#[derive(Clone, Copy)]
pub struct InUse {
    pub node: NodeId,
    pub ticket: Ticket,
}

/// Strikes the execution of a ticket on a node.
fn strike(out: &mut Vec<InUse>, node: NodeId, ticket: Ticket)
    ensures { out.new.items ≡ filter (λ used. not (is_use_of node ticket used)) out.old.items }
{
    out.retain(|used| !(used.node == node && used.ticket == ticket));
}

/// Strikes the executions on a node.
fn strike_node(out: &mut Vec<InUse>, node: NodeId)
    ensures { out.new.items ≡ filter (λ used. not (is_on node used)) out.old.items }
{
    out.retain(|used| used.node != node);
}

/// Lists the execution that an accepted event begins, and strikes those that it ends.
fn note_accepted(out: &mut Vec<InUse>, event: &Event)
    requires { vec_len out.old < vec_capacity out.old }
    ensures { out.new.items ≡ out_after event.now out.old.items }
{
    match event {
        Event::Begin(node, ticket) => out.push_reserved(InUse {
            node: *node,
            ticket: *ticket,
        }),
        Event::Finish(node, ticket, _) => strike(out, *node, *ticket),
        Event::Abort(node, ticket) => strike(out, *node, *ticket),
        Event::RestartNode(node) => strike_node(out, *node),
        _ => {}
    }
}

/// The executions in use after an event with this outcome.
pub fn note(out: &mut Vec<InUse>, event: &Event, outcome: &Result<Outcome, EventRefusal>)
    requires { vec_len out.old < vec_capacity out.old }
    ensures { out.new.items ≡ out_if outcome.now event.now out.old.items }
{
    match outcome {
        Ok(_) => note_accepted(out, event),
        Err(_) => {}
    }
}

/// Whether an execution on the node is in use.
pub fn has_node(out: &[InUse], node: NodeId) -> bool
    ensures { result ≡ list_any (is_on node) out.now }
{
    out.iter().any(|used| used.node == node)
}
