//! The router: it ends tenures, disturbs the farm by its plan, restarts the coordinator, and delivers the messages that no worker
//! does.
ghost use Rattle.std.specs.Prelude.{◌≡◌, ◌+◌, ◌≤◌, ◌↔◌, IsOk, IfErr, Err};
ghost use Rattle.farm.specs.Downs.{counted, ENOUGH, IsFailedRestart};

use super::closing::{Leaving, abandon_all, end_next, settle_next};
use super::common::Common;
use super::down::DownCount;
use super::locked_board::LockedBoard;
use super::plan::Plan;
use farm_base::NodeId;
use farmboard::{BoardRefusal, FarmStep, Receipt};
use solving::{FarmFault, board_fault};
use std::alloc::Global;
use std::sync::Wait;
use tenures::Ends;

/// How often in a row all is sent again where nobody can go on.
const IDLE_ROUNDS: u32 = 1_000;

/// What the router keeps.
struct Router {
    plan: Plan,
    /// The tenures that ended and are not settled.
    leaving: Vec<Leaving>,
    /// The receipts of those that are.
    receipts: Vec<Receipt>,
    /// How often in a row all was sent again.
    rounds: u32,
    /// The number of the workers' steps then.
    steps: u64,
    downs: DownCount,
}

/// What a turn of the router did.
enum Turn {
    Acted,
    /// Nothing, since a worker can go on.
    Waits,
    /// Nothing, since all is over.
    Ends,
}

/// Routes until all workers have ended and all tenures are settled, or a fault stops all. Gives the receipts of the tenures
/// that were settled by then.
pub(crate) fn route<R: Wait>(rt: &R, alloc: Global, common: &Common, plan: Plan) -> Vec<Receipt> {
    let mut router = Router {
        plan,
        leaving: Vec::new(alloc),
        receipts: Vec::new(alloc),
        rounds: 0,
        steps: 0,
        downs: DownCount::new(),
    };
    if let Err(fault) = router.run(rt, common) {
        common.signals.fail(rt, fault);
    }
    let Router {
        plan: _,
        leaving,
        receipts,
        rounds: _,
        steps: _,
        downs: _,
    } = router;
    abandon_all(leaving);
    receipts
}

impl Router {
    fn run<R: Wait>(&mut self, rt: &R, common: &Common) -> Result<(), FarmFault> {
        for _ in rt.forever() {
            let called = common.signals.calls();
            common.signals.go_on()?;
            let changes = common.signals.changes();
            match self.turn(rt, common, changes)? {
                Turn::Acted => common.signals.note_change(),
                Turn::Waits => common.signals.wait_for_call(rt, called),
                Turn::Ends => return Ok(()),
            }
        }
        unreachable!()
    }

    /// One turn, in one hold of the lock.
    fn turn<R: Wait>(&mut self, rt: &R, common: &Common, changes: u64) -> Result<Turn, FarmFault> {
        let mut locked = common.board.lock(rt);
        if self.act(rt, common, &mut locked)? {
            return Ok(Turn::Acted);
        }
        if common.signals.all_ended() && locked.tenures.is_empty() {
            return Ok(Turn::Ends);
        }
        if !common.signals.all_wait(changes) || common.signals.changes() != changes {
            return Ok(Turn::Waits);
        }
        self.send_again(common, &mut locked)?;
        Ok(Turn::Acted)
    }

    /// Does what is to be done next, if anything is.
    fn act<R: Wait>(
        &mut self,
        rt: &R,
        common: &Common,
        locked: &mut LockedBoard,
    ) -> Result<bool, FarmFault> {
        if locked.board.world().coordinator().is_down() {
            self.restart_coordinator(common.alloc, locked)?;
            return Ok(true);
        }
        if self.disturb(rt, common, locked)? {
            return Ok(true);
        }
        let ends = if common.signals.all_ended() {
            Ends::All
        } else {
            Ends::Recalled
        };
        if end_next(rt, common, locked, &mut self.leaving, ends)? || self.settle_all(locked)? {
            return Ok(true);
        }
        locked.deliver(common.alloc)
    }

    /// Carries out the next step of the plan. Before a node restarts, its tenures end that no execution uses.
    fn disturb<R: Wait>(
        &mut self,
        rt: &R,
        common: &Common,
        locked: &mut LockedBoard,
    ) -> Result<bool, FarmFault> {
        if let Some(node) = self.plan.next_restart(&locked.board) {
            if end_next(rt, common, locked, &mut self.leaving, Ends::OfNode(node))? {
                return Ok(true);
            }
        }
        let disturbed = self.plan.next(common.alloc, locked);
        common.signals.await_step(self.plan.next_due());
        disturbed
    }

    /// Restarts the coordinator, which is down.
    fn restart_coordinator(
        &mut self,
        alloc: Global,
        locked: &mut LockedBoard,
    ) -> Result<(), FarmFault> {
        let restarted = locked.board.fault(alloc, FarmStep::RestartCoordinator);
        after_restart(&mut self.downs, restarted)
    }

    /// Looks whether a tenure that ended is settled by now.
    fn settle_all(&mut self, locked: &mut LockedBoard) -> Result<bool, FarmFault> {
        for _ in 0..self.leaving.len() {
            if settle_next(locked, &mut self.leaving, &mut self.receipts)? {
                return Ok(true);
            }
        }
        Ok(false)
    }

    /// Makes each node and the coordinator send again what is open. `Stalled` where that was done too often in a row,
    /// and no worker made a step in between.
    fn send_again(&mut self, common: &Common, locked: &mut LockedBoard) -> Result<(), FarmFault> {
        let steps = common.signals.steps();
        if steps != self.steps {
            self.steps = steps;
            self.rounds = 0;
        }
        if self.rounds >= IDLE_ROUNDS {
            return Err(FarmFault::Stalled);
        }
        self.rounds += 1;
        resend_all(common.alloc, locked)
    }
}

/// What comes of a coordinator's restart. One that fails is counted, for want of memory too.
fn after_restart(
    downs: &mut DownCount,
    restarted: Result<(), BoardRefusal>,
) -> Result<(), FarmFault>
    ensures worked { IsOk restarted → (downs.new ≡ 0) × IsOk result }
    ensures counted { IfErr restarted (λ refusal. IsFailedRestart refusal → downs.new ≡ counted (downs.old + 1)) }
    ensures enough { IfErr restarted (λ refusal. IsFailedRestart refusal → (result ≡ Err FarmFault.CoordinatorDown) ↔ (ENOUGH ≤ downs.old + 1)) }
    ensures goes_on { IfErr restarted (λ refusal. IsFailedRestart refusal → IfErr result (λ fault. fault ≡ FarmFault.CoordinatorDown)) }
{
    match restarted {
        Ok(()) => {
            downs.worked();
            Ok(())
        }
        Err(BoardRefusal::Event(_) | BoardRefusal::OutOfMemory) => {
            if downs.failed() {
                return Err(FarmFault::CoordinatorDown);
            }
            Ok(())
        }
        Err(BoardRefusal::HistoryFull) => Err(FarmFault::HistoryFull),
        Err(BoardRefusal::TokenOut) => Err(FarmFault::ReceiptLost),
    }
}

/// Makes each node and the coordinator send again what is open.
fn resend_all(alloc: Global, locked: &mut LockedBoard) -> Result<(), FarmFault> {
    for node in 0..locked.board.setup().nodes {
        step(alloc, locked, FarmStep::Resend(NodeId(node + 1)))?;
    }
    step(alloc, locked, FarmStep::Nudge)
}

/// Carries out a step, which the farm may refuse.
fn step(alloc: Global, locked: &mut LockedBoard, step: FarmStep) -> Result<(), FarmFault> {
    match locked.board.fault(alloc, step) {
        Ok(()) | Err(BoardRefusal::Event(_)) => Ok(()),
        Err(refusal) => Err(board_fault(refusal)),
    }
}
