//! The steps of a worker on the board. Each takes the lock for itself, and waits without it. Before a worker looks what became of
//! what it sent, it delivers the messages itself in the same hold, so that no thread has to be woken for that.
ghost use Rattle.std.specs.Prelude.{◌≡◌, IfOk, IfSome};
ghost use Rattle.protocol.specs.Names.{tenure_wants};
ghost use Rattle.solving.specs.Leases.{IsLeaseOf, IsReplyTo};

use super::locked_board::LockedBoard;
use super::open_folders::OpenFolders;
use super::signals::Signals;
use farm_base::{FolderName, Left, Mode, NodeId, Want, Wants, Why};
use farmboard::{
    Accept, Asked, BoardRefusal, Finished, Granted, Look, Receipt, Running, Settled, abandon_asked,
    abandon_finished, abandon_granted,
};
use solving::{FarmFault, Lease, Reply, board_fault, tenure_of};
use std::alloc::Global;
use std::sync::{Mutex, Wait};
use tenures::Stage;

/// A worker as a client of the board: what it waits by, and where it stands. It reaches no more than these steps need, since their
/// proofs pay for all that it reaches.
#[derive(Drop)]
pub(crate) struct BoardClient<'r, 'a, R: Wait> {
    pub(crate) rt: &'r R,
    pub(crate) alloc: Global,
    pub(crate) board: &'a Mutex<LockedBoard>,
    pub(crate) signals: &'a Signals,
    /// The SHARED folders that are open on its node.
    pub(crate) open: &'a Mutex<OpenFolders>,
    pub(crate) node: NodeId,
    /// Its place among the workers.
    pub(crate) number: usize,
}

impl<R: Wait> BoardClient<'_, '_, R> {
    /// Delivers the messages, unless the router has to act first. The answer is the number of changes as of then: what is looked at
    /// in the same hold of the lock stands as it is until there is one more.
    pub(crate) fn deliver(&self, locked: &mut LockedBoard) -> Result<u64, FarmFault> {
        if locked.deliver_all(self.alloc, self.signals.due())? {
            self.signals.note_change();
        }
        Ok(self.signals.changes())
    }

    /// Waits until an ask is granted or denied. None where its node restarted.
    fn settle_ask(&self, first: Asked) -> Result<Option<Reply>, FarmFault>
        ensures { IfOk result (λ settled. IfSome settled (IsReplyTo first.wants)) }
    {
        let mut asked = first;
        for _ in self.rt.forever() {
            let mut locked = self.board.lock(self.rt);
            let seen = match self.deliver(&mut locked) {
                Ok(seen) => seen,
                Err(fault) => {
                    abandon_asked(asked);
                    return Err(fault);
                }
            };
            let accepted = locked.board.accept(self.alloc, asked);
            drop(locked);
            match accepted {
                Ok(Accept::Granted(granted)) => return Ok(Some(Reply::Granted(granted))),
                Ok(Accept::Denied(why)) => return Ok(Some(Reply::Denied(why))),
                Ok(Accept::Lost) => return Ok(None),
                Ok(Accept::Waiting(token)) => asked = token,
                Err((token, refusal)) => {
                    abandon_asked(token);
                    return Err(board_fault(refusal));
                }
            }
            if let Err(fault) = self.signals.pause(self.rt, self.number, seen) {
                abandon_asked(asked);
                return Err(fault);
            }
        }
        unreachable!()
    }

    /// Gives a lease back that the node no longer has.
    fn give_back(&self, locked: &mut LockedBoard, granted: Granted) -> Result<(), FarmFault> {
        self.signals.count_step();
        locked.give_back(self.alloc, granted)
    }

    /// Begins an execution once the contents are there from which it begins. None where its node restarted.
    pub(crate) fn begin_granted(&self, first: Granted) -> Result<Option<Running>, FarmFault>
        ensures { IfOk result (λ begun. IfSome begun (λ running. running.wants ≡ first.wants)) }
    {
        let mut granted = first;
        for _ in self.rt.forever() {
            let mut locked = self.board.lock(self.rt);
            let seen = match self.deliver(&mut locked) {
                Ok(seen) => seen,
                Err(fault) => {
                    abandon_granted(granted);
                    return Err(fault);
                }
            };
            match locked.board.look(&granted) {
                Look::Ready => return self.begin_now(&mut locked, granted),
                Look::Missing => drop(locked),
                Look::Gone => {
                    self.give_back(&mut locked, granted)?;
                    return Ok(None);
                }
            }
            if let Err(fault) = self.signals.pause(self.rt, self.number, seen) {
                abandon_granted(granted);
                return Err(fault);
            }
        }
        unreachable!()
    }

    /// Begins an execution. None where its node restarted.
    fn begin_now(
        &self,
        locked: &mut LockedBoard,
        granted: Granted,
    ) -> Result<Option<Running>, FarmFault>
        ensures { IfOk result (λ begun. IfSome begun (λ running. running.wants ≡ granted.wants)) }
    {
        self.signals.count_step();
        match locked.board.begin(self.alloc, granted) {
            Ok(running) => Ok(Some(running)),
            Err((granted, BoardRefusal::Event(_))) => {
                self.give_back(locked, granted)?;
                Ok(None)
            }
            Err((granted, refusal)) => {
                abandon_granted(granted);
                Err(board_fault(refusal))
            }
        }
    }

    /// Waits until a finished execution is settled. None where it doesn't count.
    pub(crate) fn settle(&self, first: Finished) -> Result<Option<Receipt>, FarmFault> {
        let mut finished = first;
        for _ in self.rt.forever() {
            let mut locked = self.board.lock(self.rt);
            let seen = match self.deliver(&mut locked) {
                Ok(seen) => seen,
                Err(fault) => {
                    abandon_finished(finished);
                    return Err(fault);
                }
            };
            let settled = locked.board.receipt(finished);
            drop(locked);
            match settled {
                Settled::Receipt(receipt) => return Ok(Some(receipt)),
                Settled::Fenced | Settled::Lost => return Ok(None),
                Settled::Waiting(token) => finished = token,
            }
            if let Err(fault) = self.signals.pause(self.rt, self.number, seen) {
                abandon_finished(finished);
                return Err(fault);
            }
        }
        unreachable!()
    }

    /// Ends an execution with what it leaves. It uses its SHARED folders no more.
    pub(crate) fn finish_use(
        &self,
        running: Running,
        lefts: Vec<Left>,
    ) -> Result<Finished, FarmFault> {
        let mut locked = self.board.lock(self.rt);
        self.signals.count_step();
        locked.finish_use(self.alloc, running, lefts)
    }

    /// The tenure of a folder is not to be had now.
    fn forget(&self, folder: &FolderName) {
        self.board.lock(self.rt).tenures.forget(self.node, folder);
        self.signals.note_step();
    }

    /// Takes a tenure that was asked for into use. None where the node restarted.
    fn start_tenure(&self, asked: Asked) -> Result<Option<Lease>, FarmFault>
        ensures { IfOk result (λ started. IfSome started (IsLeaseOf asked.wants)) }
    {
        match self.settle_ask(asked)? {
            Some(Reply::Granted(granted)) => match self.begin_granted(granted)? {
                Some(running) => Ok(Some(Lease::Begun(running))),
                None => Ok(None),
            },
            Some(Reply::Denied(why)) => Ok(Some(Lease::Denied(why))),
            None => Ok(None),
        }
    }

    /// Opens the folder of a tenure.
    fn open(&self, folder: &FolderName, running: Running) -> Result<(), FarmFault>
        requires shared { folder.now.mode ≡ Mode.Shared }
        requires wants { running.wants ≡ tenure_wants folder.now }
    {
        let running = tenure_of(running)?;
        let ticket = running.ticket();
        let opened = self.open.lock(self.rt).open(self.alloc, folder, running);
        opened?;
        let stage = Stage::InUse(ticket);
        self.board
            .lock(self.rt)
            .tenures
            .stage(self.node, folder, stage);
        self.signals.note_step();
        Ok(())
    }

    /// Takes the tenure of a folder into use, for which the node asked. The answer is why it was denied, if it was.
    fn take_tenure(&self, folder: &FolderName, asked: Asked) -> Result<Option<Why>, FarmFault>
        requires shared { folder.now.mode ≡ Mode.Shared }
        requires wants { asked.wants ≡ tenure_wants folder.now }
    {
        match self.start_tenure(asked)? {
            Some(Lease::Begun(running)) => {
                self.open(folder, running)?;
                Ok(None)
            }
            Some(Lease::Denied(why)) => {
                self.forget(folder);
                Ok(Some(why))
            }
            None => {
                self.forget(folder);
                Ok(None)
            }
        }
    }

    /// Waits until the tenure of a SHARED folder is in use on the node, and asks for it where nobody did. The answer is why
    /// it was denied, if it was.
    fn hold_tenure(&self, folder: &FolderName) -> Result<Option<Why>, FarmFault>
        requires { folder.now.mode ≡ Mode.Shared }
    {
        for _ in self.rt.forever() {
            let seen = self.signals.changes();
            let held = self
                .board
                .lock(self.rt)
                .tenures
                .is_in_use(self.node, folder);
            if held {
                return Ok(None);
            }
            let asked = self
                .board
                .lock(self.rt)
                .ask_tenure(self.alloc, self.node, folder)?;
            let Some(asked) = asked else {
                self.signals.pause(self.rt, self.number, seen)?;
                continue;
            };
            self.signals.note_step();
            if let Some(why) = self.take_tenure(folder, asked)? {
                return Ok(Some(why));
            }
        }
        unreachable!()
    }

    /// Waits until the tenures of the SHARED folders of these wants are in use, by rising folder. The answer is why one was
    /// denied, if it was.
    pub(crate) fn hold_tenures(&self, wants: &[Want]) -> Result<Option<Why>, FarmFault> {
        for want in wants {
            if let Mode::Shared = want.folder.mode {
                if let Some(why) = self.hold_tenure(&want.folder)? {
                    return Ok(Some(why));
                }
            }
        }
        Ok(None)
    }

    /// Counts off an execution of the node, which no longer uses the SHARED folders of these wants.
    pub(crate) fn release(&self, wants: &Wants) {
        self.board
            .lock(self.rt)
            .tenures
            .put_down(self.node, wants.as_slice());
        self.signals.note_step();
    }

    /// Asks for a lease and waits for it. None where it is to be asked for again.
    pub(crate) fn ask_once(&self, wants: &Wants) -> Result<Option<Reply>, FarmFault>
        ensures { IfOk result (λ settled. IfSome settled (IsReplyTo wants.now)) }
    {
        let asked = self.board.lock(self.rt).ask(self.alloc, self.node, wants)?;
        let Some(asked) = asked else {
            self.signals.note_change();
            return Ok(None);
        };
        match self.settle_ask(asked)? {
            Some(Reply::Granted(granted)) => Ok(Some(Reply::Granted(granted))),
            Some(Reply::Denied(why)) => {
                self.release(wants);
                Ok(Some(Reply::Denied(why)))
            }
            None => {
                self.release(wants);
                Ok(None)
            }
        }
    }
}
