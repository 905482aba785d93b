//! What lies under the lock of the board.
ghost use Rattle.std.specs.Prelude.{◌≡◌, IfOk, IfSome, OnErr};
ghost use Rattle.protocol.specs.Names.{tenure_wants};

use events::{EventNote, EventRefusal, NodeNote, NodeRefusal};
use farm_base::{Copied, EVENTS, FolderName, Left, Mode, NodeId, Wants};
use farmboard::{
    Asked, Board, BoardRefusal, Finished, Granted, Running, abandon_granted, abandon_running,
};
use solving::{FarmFault, board_fault};
use std::alloc::{AllocError, Global};
use tenures::{Ends, Tenures};

/// The board, and how the tenures stand.
#[derive(Drop)]
pub(crate) struct LockedBoard {
    pub(crate) board: Board,
    pub(crate) tenures: Tenures,
}

/// The execution, and a copy of its wants. Where memory runs out for that, it is abandoned.
fn with_wants(alloc: Global, running: Running) -> Result<(Running, Wants), FarmFault> {
    match running.wants().copy(alloc) {
        Ok(wants) => Ok((running, wants)),
        Err(_) => {
            abandon_running(running);
            Err(FarmFault::Memory)
        }
    }
}

impl LockedBoard {
    /// Makes the node ask for a tenure, unless it has one or asked for it.
    pub(crate) fn ask_tenure(
        &mut self,
        alloc: Global,
        node: NodeId,
        folder: &FolderName,
    ) -> Result<Option<Asked>, FarmFault>
        requires { folder.now.mode ≡ Mode.Shared }
        ensures { IfOk result (λ asked. IfSome asked (λ token. token.wants ≡ tenure_wants folder.now)) }
    {
        if self.tenures.has(node, folder) {
            return Ok(None);
        }
        let name = folder.copy(alloc)?;
        self.tenures.add(node, folder.copy(alloc)?)?;
        match self.board.ask_tenure(alloc, node, name) {
            Ok(asked) => Ok(Some(asked)),
            Err(refusal) => Err(board_fault(refusal)),
        }
    }

    /// Makes the node ask for a lease. None where the tenure of a SHARED folder was recalled.
    pub(crate) fn ask(
        &mut self,
        alloc: Global,
        node: NodeId,
        wants: &Wants,
    ) -> Result<Option<Asked>, FarmFault>
        ensures { IfOk result (λ asked. IfSome asked (λ token. token.wants ≡ wants.now)) }
    {
        if !self.tenures.are_in_use(node, wants.as_slice()) {
            return Ok(None);
        }
        match self.board.ask(alloc, node, wants.copy(alloc)?) {
            Ok(asked) => {
                self.tenures.take_up(node, wants.as_slice());
                Ok(Some(asked))
            }
            Err(BoardRefusal::Event(EventRefusal::Node(NodeRefusal::NotHomeHere))) => {
                self.tenures.recall_wanted(node, wants.as_slice())?;
                Ok(None)
            }
            Err(refusal) => Err(board_fault(refusal)),
        }
    }

    /// Delivers the next message, if one is left.
    pub(crate) fn deliver(&mut self, alloc: Global) -> Result<bool, FarmFault> {
        match self.board.deliver_next(alloc) {
            Ok(Some(outcome)) => {
                if let EventNote::Node(NodeNote::Recalled(ticket)) = &outcome.note {
                    self.tenures.recall(*ticket)?;
                }
                Ok(true)
            }
            Ok(None) => Ok(false),
            Err(BoardRefusal::Event(_)) => Ok(true),
            Err(refusal) => Err(board_fault(refusal)),
        }
    }

    /// Whether the router has to act before the next message: the coordinator is down, or there are `due` events.
    fn is_held_up(&self, due: u64) -> bool {
        self.board.world().coordinator().is_down() || self.board.schedule().len() as u64 >= due
    }

    /// Delivers the messages, and what is sent by that, until none is left or the router has to act. The answer is whether it
    /// delivered one. Each delivery is an event, so they are at most as many as a schedule has.
    pub(crate) fn deliver_all(&mut self, alloc: Global, due: u64) -> Result<bool, FarmFault> {
        let mut delivered = false;
        for _ in 0..=EVENTS {
            if self.is_held_up(due) || !self.deliver(alloc)? {
                return Ok(delivered);
            }
            delivered = true;
        }
        Err(FarmFault::HistoryFull)
    }

    /// Gives a lease back that was not used, or that the node no longer has.
    pub(crate) fn give_back(&mut self, alloc: Global, granted: Granted) -> Result<(), FarmFault> {
        match self.board.give_back(alloc, granted) {
            Ok(_) => Ok(()),
            Err((granted, refusal)) => {
                abandon_granted(granted);
                Err(board_fault(refusal))
            }
        }
    }

    /// Ends an execution that leaves nothing. It uses its SHARED folders until the board has taken its end: so no tenure ends
    /// that an execution of its node still uses.
    pub(crate) fn give_up(&mut self, alloc: Global, running: Running) -> Result<(), FarmFault>
        ensures { OnErr result (self.new.tenures ≡ self.old.tenures) }
    {
        let node = running.node();
        let (running, wants) = with_wants(alloc, running)?;
        match self.board.abort(alloc, running) {
            Ok(_) => {
                self.tenures.put_down(node, wants.as_slice());
                Ok(())
            }
            Err((running, refusal)) => {
                abandon_running(running);
                Err(board_fault(refusal))
            }
        }
    }

    /// Ends an execution with what it leaves. It uses its SHARED folders until the board has taken its end.
    pub(crate) fn finish_use(
        &mut self,
        alloc: Global,
        running: Running,
        lefts: Vec<Left>,
    ) -> Result<Finished, FarmFault>
        ensures { OnErr result (self.new.tenures ≡ self.old.tenures) }
    {
        let node = running.node();
        let (running, wants) = with_wants(alloc, running)?;
        let finished = self.finish(alloc, running, lefts)?;
        self.tenures.put_down(node, wants.as_slice());
        Ok(finished)
    }

    /// Ends an execution, or a tenure, with what it leaves.
    pub(crate) fn finish(
        &mut self,
        alloc: Global,
        running: Running,
        lefts: Vec<Left>,
    ) -> Result<Finished, FarmFault>
        ensures { self.new.tenures ≡ self.old.tenures }
    {
        match self.board.finish(alloc, running, lefts) {
            Ok(finished) => Ok(finished),
            Err((running, refusal)) => {
                abandon_running(running);
                Err(board_fault(refusal))
            }
        }
    }

    /// The node and the folder of the next tenure that ends now.
    pub(crate) fn next_to_end(
        &self,
        alloc: Global,
        ends: Ends,
    ) -> Result<Option<(NodeId, FolderName)>, AllocError> {
        match self.tenures.next_to_end(ends) {
            Some(tenure) => Ok(Some((tenure.node, tenure.folder.copy(alloc)?))),
            None => Ok(None),
        }
    }
}
