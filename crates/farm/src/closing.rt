//! The ends of tenures, whose folders are closed then.
use super::common::Common;
use super::locked_board::LockedBoard;
use super::node_state::{NodeState, state_of};
use super::worker::push_receipt;
use farm_base::{Content, FolderName, NodeId};
use farmboard::{Finished, Receipt, Running, Settled, abandon_finished, abandon_running};
use solving::{FarmFault, lefts_of, shared_fault};
use std::alloc::Global;
use std::sync::Wait;
use tenures::{Ends, Stage};

/// A tenure that ended and is not settled.
pub(crate) struct Leaving {
    node: NodeId,
    folder: FolderName,
    finished: Finished,
}

/// Spends what is not settled.
pub(crate) fn abandon_all(leaving: Vec<Leaving>) {
    let mut left = leaving;
    while let Some(one) = left.pop() {
        abandon(one);
    }
    left.into_iter().destroy_empty();
}

fn abandon(leaving: Leaving) {
    let Leaving {
        node: _,
        folder: _,
        finished,
    } = leaving;
    abandon_finished(finished);
}

/// Closes the folder of a tenure, and takes its content.
fn close<R: Wait>(
    rt: &R,
    alloc: Global,
    nodes: &[NodeState],
    node: NodeId,
    folder: &FolderName,
) -> Result<(Running, Content), FarmFault> {
    let Some(state) = state_of(nodes, node) else {
        return Err(FarmFault::ReceiptLost);
    };
    let closed = state.open.lock(rt).live.close(alloc, folder);
    match closed {
        Ok(closed) => Ok(closed),
        Err(refusal) => Err(shared_fault(refusal)),
    }
}

/// Ends a tenure with the content of its folder.
fn finish(
    alloc: Global,
    locked: &mut LockedBoard,
    running: Running,
    content: Content,
) -> Result<Finished, FarmFault> {
    match lefts_of(alloc, &running, content) {
        Ok(lefts) => locked.finish(alloc, running, lefts),
        Err(_) => {
            abandon_running(running);
            Err(FarmFault::Memory)
        }
    }
}

/// Ends the next tenure that is to end, if there is one. Whoever calls this has the lock of the board until then: so
/// no execution asks for the folder between.
pub(crate) fn end_next<R: Wait>(
    rt: &R,
    common: &Common,
    locked: &mut LockedBoard,
    leaving: &mut Vec<Leaving>,
    ends: Ends,
) -> Result<bool, FarmFault> {
    let Some((node, folder)) = locked.next_to_end(common.alloc, ends)? else {
        return Ok(false);
    };
    if leaving.reserve(1).is_err() {
        return Err(FarmFault::Memory);
    }
    let nodes = common.nodes.as_slice();
    let (running, content) = close(rt, common.alloc, nodes, node, &folder)?;
    let finished = finish(common.alloc, locked, running, content)?;
    locked.tenures.stage(node, &folder, Stage::Ending);
    leaving.push_reserved(Leaving {
        node,
        folder,
        finished,
    });
    Ok(true)
}

/// Looks whether the next tenure that ended is settled by now. One that isn't goes behind the others.
pub(crate) fn settle_next(
    locked: &mut LockedBoard,
    leaving: &mut Vec<Leaving>,
    receipts: &mut Vec<Receipt>,
) -> Result<bool, FarmFault> {
    if leaving.is_empty() {
        return Ok(false);
    }
    let Leaving {
        node,
        folder,
        finished,
    } = leaving.remove(0);
    let receipt = match locked.board.receipt(finished) {
        Settled::Receipt(receipt) => Some(receipt),
        Settled::Fenced | Settled::Lost => None,
        Settled::Waiting(finished) => {
            leaving.push_reserved(Leaving {
                node,
                folder,
                finished,
            });
            return Ok(false);
        }
    };
    locked.tenures.forget(node, &folder);
    push_receipt(receipts, receipt)?;
    Ok(true)
}
