//! One execution on a board, from its ask to its receipt, with ample memory.
ghost use Rattle.std.specs.Prelude.{◌≡◌, IfSome};

use farm_base::{Content, FolderName, Left, NodeId, Slot, Ticket, Wants};
use farmboard::{
    Accept, Asked, Board, Finished, Granted, Receipt, Running, Settled, abandon_asked,
    abandon_finished, abandon_granted, abandon_running,
};
use schedule::Setup;
use std::alloc::Global;
use std::test::Fail;

/// A board of a farm of this many nodes. In a box: letting go of it is one step of a proof.
pub(crate) fn board_of(alloc: Global, nodes: u32) -> Result<Box<Board>, Fail> {
    let board = Board::start(alloc, Setup { nodes })?;
    Ok(Box::new(alloc, board)?)
}

/// Whether a message is left, which it delivers.
fn is_delivered(alloc: Global, board: &mut Board) -> bool {
    matches!(board.deliver_next(alloc), Ok(Some(_)))
}

/// Delivers what is sent.
fn deliver(alloc: Global, board: &mut Board) {
    for _ in 0..64 {
        if !is_delivered(alloc, board) {
            break;
        }
    }
}

/// The lease of an ask, if it has one.
fn granted(alloc: Global, board: &Board, asked: Asked) -> Option<Granted>
    ensures { IfSome result (λ granted. granted.wants ≡ asked.wants) }
{
    match board.accept(alloc, asked) {
        Ok(Accept::Granted(granted)) => Some(granted),
        Ok(Accept::Waiting(asked)) => {
            abandon_asked(asked);
            None
        }
        Ok(Accept::Denied(_)) => None,
        Ok(Accept::Lost) => None,
        Err((asked, _)) => {
            abandon_asked(asked);
            None
        }
    }
}

/// The execution of a lease, if it begins.
fn begun(alloc: Global, board: &mut Board, granted: Granted) -> Option<Running>
    ensures { IfSome result (λ running. running.wants ≡ granted.wants) }
{
    match board.begin(alloc, granted) {
        Ok(running) => Some(running),
        Err((granted, _)) => {
            abandon_granted(granted);
            None
        }
    }
}

/// The execution of an ask, if its lease comes.
pub(crate) fn running(alloc: Global, board: &mut Board, asked: Asked) -> Option<Running>
    ensures { IfSome result (λ running. running.wants ≡ asked.wants) }
{
    deliver(alloc, board);
    let lease = granted(alloc, board, asked)?;
    begun(alloc, board, lease)
}

/// The execution that is over, if it leaves this.
fn finished(
    alloc: Global,
    board: &mut Board,
    running: Running,
    lefts: Vec<Left>,
) -> Option<Finished> {
    match board.finish(alloc, running, lefts) {
        Ok(finished) => Some(finished),
        Err((running, _)) => {
            abandon_running(running);
            None
        }
    }
}

/// Whether it is of ticket 1 and the first version of one slot.
fn is_first(receipt: &Receipt) -> bool {
    match receipt.versions.as_slice() {
        [version] => version.number == 1 && receipt.ticket == Ticket(1),
        _ => false,
    }
}

/// Whether an execution that is over has the first receipt.
fn has_first_receipt(board: &Board, finished: Finished) -> bool {
    match board.receipt(finished) {
        Settled::Receipt(receipt) => is_first(&receipt),
        Settled::Waiting(finished) => {
            abandon_finished(finished);
            false
        }
        Settled::Fenced | Settled::Lost => false,
    }
}

/// Whether an execution that leaves this has the first receipt.
fn is_first_committed(
    alloc: Global,
    board: &mut Board,
    running: Running,
    lefts: Vec<Left>,
) -> bool {
    let Some(finished) = finished(alloc, board, running, lefts) else {
        return false;
    };
    deliver(alloc, board);
    has_first_receipt(board, finished)
}

/// The ask of node 1 for one LOCKED folder, writable.
fn asked(alloc: Global, board: &mut Board) -> Result<Asked, Fail> {
    let folder = FolderName::parse(alloc, "locked:apt")?;
    let wants = Wants::one(alloc, folder, true)?;
    Ok(board.ask(alloc, NodeId(1), wants)?)
}

/// The empty content in the slot of that folder.
fn left(alloc: Global) -> Result<Left, Fail> {
    let slot = Slot::parse(alloc, "locked:apt")?;
    Ok(Left {
        slot,
        content: Content::of(Vec::new(alloc)),
    })
}

/// That alone.
fn lefts(alloc: Global) -> Result<Vec<Left>, Fail> {
    let left = left(alloc)?;
    Ok(vec![in alloc; left]?)
}

/// Whether an execution, from its ask on, has the first receipt.
fn executes(alloc: Global, board: &mut Board) -> Result<bool, Fail> {
    let lefts = lefts(alloc)?;
    let asked = asked(alloc, board)?;
    match running(alloc, board, asked) {
        Some(running) => Ok(is_first_committed(alloc, board, running, lefts)),
        None => Ok(false),
    }
}

/// Makes node 2 ask for a tenure.
fn ask_tenure(alloc: Global, board: &mut Board) -> Result<(), Fail> {
    let folder = FolderName::parse(alloc, "shared:pip")?;
    let asked = board.ask_tenure(alloc, NodeId(2), folder)?;
    abandon_asked(asked);
    Ok(())
}

/// Whether a board has this many events, none of them refused, and one commit, and no token is out.
fn has_counts(board: &Board, events: usize) -> bool {
    board.schedule().len() == events
        && board.refused() == 0
        && board.commits() == 1
        && board.out().is_empty()
}

/// One execution, and then an ask for a tenure.
#[test]
fn board_path(rt: HostRuntime) -> Result<(), Fail> {
    let alloc = rt.alloc();
    let mut board = board_of(alloc, 2)?;
    assert!(rt; executes(alloc, &mut *board)?);
    assert!(rt; has_counts(&*board, 7));
    ask_tenure(alloc, &mut *board)?;
    assert!(rt; has_counts(&*board, 8));
    Ok(())
}
