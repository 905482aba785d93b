//! The steps by which a run is disturbed.
use super::locked_board::LockedBoard;
use events::EventRefusal;
use farm_base::{FromCoord, Message, NodeId, Ticket, ToNode};
use farmboard::{Board, BoardRefusal, FarmStep};
use solving::{FarmFault, board_fault};
use std::alloc::Global;

/// The steps that are left, the next one last. Each has the number of events from which on it is due.
#[derive(Drop)]
pub(crate) struct Plan {
    left: Vec<(usize, FarmStep)>,
}

/// What the next step of a plan needs.
enum Due {
    /// No step is due.
    Nothing,
    /// A message that is left.
    Skip,
    /// A node that executes nothing.
    RestartNode(NodeId),
    Other,
}

impl Plan {
    /// A plan of these steps, in their order.
    pub(crate) fn of(steps: Vec<(usize, FarmStep)>) -> Self {
        let mut left = steps;
        left.reverse();
        Plan { left }
    }

    fn due(&self, events: usize) -> Due {
        match self.left.last() {
            Some((from, _)) if *from > events => Due::Nothing,
            Some((_, FarmStep::Skip)) => Due::Skip,
            Some((_, FarmStep::RestartNode(node))) => Due::RestartNode(*node),
            Some(_) => Due::Other,
            None => Due::Nothing,
        }
    }

    /// The number of events from which on the next step is due: more than a schedule has, where no step is left.
    pub(crate) fn next_due(&self) -> u64 {
        match self.left.last() {
            Some((from, _)) => *from as u64,
            None => u64::MAX,
        }
    }

    /// The node that is to restart next.
    pub(crate) fn next_restart(&self, board: &Board) -> Option<NodeId> {
        match self.due(board.schedule().len()) {
            Due::RestartNode(node) => Some(node),
            Due::Nothing | Due::Skip | Due::Other => None,
        }
    }

    /// Carries out the next step, if it is due and can be. A step that the farm refuses is over too.
    pub(crate) fn next(
        &mut self,
        alloc: Global,
        locked: &mut LockedBoard,
    ) -> Result<bool, FarmFault> {
        let step = match self.due(locked.board.schedule().len()) {
            Due::Nothing => return Ok(false),
            Due::Skip => FarmStep::Skip,
            Due::RestartNode(node) => FarmStep::RestartNode(node),
            Due::Other => return self.take(alloc, locked),
        };
        match locked.board.fault(alloc, step) {
            Err(BoardRefusal::TokenOut) => Ok(false),
            Err(BoardRefusal::Event(EventRefusal::NoSuchMessage)) => Ok(false),
            done => {
                let _step = self.left.pop();
                is_done(done)
            }
        }
    }

    /// Carries out the next step.
    fn take(&mut self, alloc: Global, locked: &mut LockedBoard) -> Result<bool, FarmFault> {
        let Some((_, step)) = self.left.pop() else {
            return Ok(false);
        };
        if let FarmStep::Again(number) = &step {
            if let Some(ticket) = recall_in(&locked.board, *number) {
                locked.tenures.recall(ticket)?;
            }
        }
        is_done(locked.board.fault(alloc, step))
    }
}

/// A step is over, unless the run is.
fn is_done(done: Result<(), BoardRefusal>) -> Result<bool, FarmFault> {
    match done {
        Ok(()) | Err(BoardRefusal::Event(_)) => Ok(true),
        Err(refusal) => Err(board_fault(refusal)),
    }
}

/// The ticket of the tenure that a message recalls.
fn recall_in(board: &Board, number: u64) -> Option<Ticket> {
    match board.world().message(number)? {
        Message::ToNode(ToNode::FromCoord(FromCoord::Recall { ticket, .. })) => Some(*ticket),
        _ => None,
    }
}
