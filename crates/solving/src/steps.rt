//! The steps of one execution on a board to which nobody else comes. Each one delivers all messages.
ghost use Rattle.std.specs.Prelude.{◌≡◌, IfErr, IfOk, false, true};
ghost use Rattle.executions.specs.Live.{IsTenureOf};
ghost use Rattle.farm_base.specs.Kinds.{is_tenure};
ghost use Rattle.solving.specs.Leases.{IsReplyTo};

use super::fault::FarmFault;
use super::faults::board_fault;
use super::lease::Reply;
use executions::{
    Accept, Asked, Board, Ended, Finished, Granted, Running, Settled, abandon_asked,
    abandon_finished, abandon_granted, abandon_running,
};
use farm_base::{Copied, EVENTS, FolderName, Left, Mode, NodeId, Wants};
use std::alloc::Global;

/// Delivers all messages, and what is sent by that. Each delivery is an event, so they are at most as many as a
/// schedule has.
pub(crate) fn deliver_all(alloc: Global, board: &mut Board) -> Result<(), FarmFault> {
    for _ in 0..=EVENTS {
        match board.deliver_next(alloc) {
            Ok(Some(_)) => {}
            Ok(None) => return Ok(()),
            Err(refusal) => return Err(board_fault(refusal)),
        }
    }
    Err(FarmFault::HistoryFull)
}

/// What became of an ask once all messages are delivered: its lease, or why it was denied.
fn settle_ask(alloc: Global, board: &mut Board, asked: Asked) -> Result<Reply, FarmFault>
    ensures { IfOk result (IsReplyTo asked.wants) }
{
    if let Err(fault) = deliver_all(alloc, board) {
        abandon_asked(asked);
        return Err(fault);
    }
    match board.accept(alloc, asked) {
        Ok(Accept::Granted(granted)) => Ok(Reply::Granted(granted)),
        Ok(Accept::Denied(why)) => Ok(Reply::Denied(why)),
        Ok(Accept::Waiting(asked)) => {
            abandon_asked(asked);
            Err(FarmFault::ReceiptLost)
        }
        Ok(Accept::Lost) => Err(FarmFault::ReceiptLost),
        Err((asked, refusal)) => {
            abandon_asked(asked);
            Err(board_fault(refusal))
        }
    }
}

/// Begins an execution under its lease.
pub(crate) fn begin(
    alloc: Global,
    board: &mut Board,
    granted: Granted,
) -> Result<Running, FarmFault>
    ensures { IfOk result (λ running. running.wants ≡ granted.wants) }
{
    match board.begin(alloc, granted) {
        Ok(running) => Ok(running),
        Err((granted, refusal)) => {
            abandon_granted(granted);
            Err(board_fault(refusal))
        }
    }
}

/// Asks for the lease of an execution with these wants.
pub(crate) fn ask(
    alloc: Global,
    board: &mut Board,
    node: NodeId,
    wants: &Wants,
) -> Result<Reply, FarmFault>
    ensures { IfOk result (IsReplyTo wants.now) }
{
    let asked = board
        .ask(alloc, node, wants.copy(alloc)?)
        .map_err(board_fault)?;
    settle_ask(alloc, board, asked)
}

/// Takes the tenure of a SHARED folder into use. Its ask isn't denied while there are tickets.
pub(crate) fn start_tenure(
    alloc: Global,
    board: &mut Board,
    node: NodeId,
    folder: FolderName,
) -> Result<Running, FarmFault>
    requires { folder.mode ≡ Mode.Shared }
    ensures { IfOk result (λ running. IsTenureOf running folder) }
{
    let asked = board.ask_tenure(alloc, node, folder).map_err(board_fault)?;
    match settle_ask(alloc, board, asked)? {
        Reply::Granted(granted) => tenure_of(begin(alloc, board, granted)?),
        Reply::Denied(_) => Err(FarmFault::ReceiptLost),
    }
}

/// The execution, which is that of a tenure. `ReceiptLost` where it isn't.
pub fn tenure_of(running: Running) -> Result<Running, FarmFault>
    ensures tenure { IfOk result (λ tenure. (tenure ≡ running) × (is_tenure running.grant.kind ≡ true)) }
    ensures other { IfErr result (λ fault. (fault ≡ FarmFault.ReceiptLost) × (is_tenure running.grant.kind ≡ false)) }
{
    if running.grant().kind.is_tenure() {
        return Ok(running);
    }
    abandon_running(running);
    Err(FarmFault::ReceiptLost)
}

/// Whether an execution that is over is settled by now.
fn settle(board: &Board, finished: Finished) -> Result<(), FarmFault> {
    match board.receipt(finished) {
        Settled::Receipt(_) => Ok(()),
        Settled::Fenced => Err(FarmFault::ReceiptLost),
        Settled::Waiting(finished) => {
            abandon_finished(finished);
            Err(FarmFault::ReceiptLost)
        }
        Settled::Lost => Err(FarmFault::ReceiptLost),
    }
}

/// Ends an execution with what it leaves, and sees its receipt.
pub(crate) fn finish(
    alloc: Global,
    board: &mut Board,
    running: Running,
    lefts: Vec<Left>,
) -> Result<(), FarmFault> {
    let finished = match board.finish(alloc, running, lefts) {
        Ok(finished) => finished,
        Err((running, refusal)) => {
            abandon_running(running);
            return Err(board_fault(refusal));
        }
    };
    if let Err(fault) = deliver_all(alloc, board) {
        abandon_finished(finished);
        return Err(fault);
    }
    settle(board, finished)
}

/// Ends an execution that leaves nothing, and gives its lease back.
pub(crate) fn give_up(alloc: Global, board: &mut Board, running: Running) -> Result<(), FarmFault> {
    match board.abort(alloc, running) {
        Ok(Ended::Sent) => deliver_all(alloc, board),
        Ok(Ended::Stale) => Err(FarmFault::ReceiptLost),
        Err((running, refusal)) => {
            abandon_running(running);
            Err(board_fault(refusal))
        }
    }
}
