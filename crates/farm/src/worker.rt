//! A worker: it solves the keys of its node, one after the other, by its executor.

use super::common::Common;
use super::node_state::{Next, NodeJobs, state_of};
use super::worker_steps::BoardClient;
use executions::{Executor, Gate};
use farm_base::{Digest, FolderName, Items, Key, Left, NodeId, Ticket, Want, Wants};
use farmboard::{Granted, Receipt, Running};
use folders::{Edit, Folder};
use jobs::Fault;
use solving::{FarmFault, Ground, Reply, Work, apply_shared, solve, views_of};
use std::alloc::Global;
use std::sync::{Mutex, Wait};

/// A worker: where it is, what there is to do, and what it got.
#[derive(Drop)]
struct Worker<'r, 'a, R: Wait> {
    client: BoardClient<'r, 'a, R>,
    work: &'a Work,
    /// The jobs of its node.
    jobs: &'a Mutex<NodeJobs>,
    /// The receipts of its executions that left something in a slot.
    receipts: Vec<Receipt>,
}

/// What a worker hands back.
#[derive(Drop)]
pub(crate) struct WorkerEnd {
    pub(crate) executor: Box<dyn Executor + Send>,
    pub(crate) receipts: Vec<Receipt>,
}

/// Solves the keys of a node by its executor, until none is left. A fault stops all threads.
pub(crate) fn work<R: Wait, G: Gate>(
    rt: &R,
    alloc: Global,
    common: &Common,
    gate: &G,
    number: usize,
    hired: (NodeId, Box<dyn Executor + Send>),
) -> WorkerEnd {
    let (node, mut executor) = hired;
    let receipts = match state_of(common.nodes.as_slice(), node) {
        Some(state) => {
            let client = BoardClient {
                rt,
                alloc,
                board: &common.board,
                signals: &common.signals,
                open: &state.open,
                node,
                number,
            };
            let worker = Worker {
                client,
                work: &common.work,
                jobs: &state.jobs,
                receipts: Vec::new(alloc),
            };
            worker.work(gate, &mut *executor)
        }
        None => {
            common.signals.fail(rt, FarmFault::ReceiptLost);
            Vec::new(alloc)
        }
    };
    common.signals.end(number);
    WorkerEnd { executor, receipts }
}

impl<R: Wait> Worker<'_, '_, R> {
    /// Solves keys until none is left on the node, or a fault stops all. Gives the receipts.
    fn work<G: Gate>(self, gate: &G, executor: &mut dyn Executor) -> Vec<Receipt> {
        let mut worker = self;
        if let Err(fault) = worker.solve_all(gate, executor) {
            worker.client.signals.fail(worker.client.rt, fault);
        }
        let Worker {
            client: _,
            work: _,
            jobs: _,
            receipts,
        } = worker;
        receipts
    }

    /// What is to be done next on the node.
    fn next(&self) -> Result<Next, FarmFault> {
        self.jobs.lock(self.client.rt).next(self.client.alloc)
    }

    /// Solves keys until none is left on the node.
    fn solve_all<G: Gate>(
        &mut self,
        gate: &G,
        executor: &mut dyn Executor,
    ) -> Result<(), FarmFault> {
        let signals = self.client.signals;
        let work = self.work;
        for _ in self.client.rt.forever() {
            signals.go_on()?;
            let seen = signals.changes();
            match self.next()? {
                Next::Solve(task) => solve(self, gate, work, executor, task)?,
                Next::Wait => signals.pause(self.client.rt, self.client.number, seen)?,
                Next::End => return Ok(()),
            }
        }
        unreachable!()
    }
}

impl<R: Wait> Ground for Worker<'_, '_, R> {
    fn alloc(&self) -> Global {
        self.client.alloc
    }

    fn node(&self) -> NodeId {
        self.client.node
    }

    fn go_on(&self) -> Result<(), FarmFault> {
        self.client.signals.go_on()
    }

    fn ask(&mut self, wants: &Wants) -> Result<Reply, FarmFault> {
        for _ in self.client.rt.forever() {
            self.client.signals.go_on()?;
            if let Some(why) = self.client.hold_tenures(wants.as_slice())? {
                return Ok(Reply::Denied(why));
            }
            if let Some(reply) = self.client.ask_once(wants)? {
                return Ok(reply);
            }
        }
        unreachable!()
    }

    fn begin(&mut self, granted: Granted, wants: &Wants) -> Result<Option<Running>, FarmFault> {
        let begun = self.client.begin_granted(granted)?;
        if begun.is_none() {
            self.client.release(wants);
        }
        Ok(begun)
    }

    fn views(&mut self, wants: &[Want]) -> Result<Vec<(FolderName, Folder)>, FarmFault> {
        let open = self.client.open.lock(self.client.rt);
        views_of(self.client.alloc, &open.live, wants)
    }

    fn apply(
        &mut self,
        ticket: Ticket,
        key: Key,
        edits: Items<(FolderName, Items<Edit>)>,
    ) -> Result<(), FarmFault> {
        let mut open = self.client.open.lock(self.client.rt);
        apply_shared(self.client.alloc, &mut open.live, ticket, key, edits)
    }

    fn finish(&mut self, running: Running, lefts: Vec<Left>) -> Result<(), FarmFault> {
        let finished = self.client.finish_use(running, lefts)?;
        let receipt = self.client.settle(finished)?;
        push_receipt(&mut self.receipts, receipt)
    }

    fn give_up(&mut self, running: Running) -> Result<(), FarmFault> {
        self.client.signals.count_step();
        self.client
            .board
            .lock(self.client.rt)
            .give_up(self.client.alloc, running)
    }

    fn give_up_last(&mut self, running: Running) -> Result<(), FarmFault> {
        self.client.signals.count_step();
        let mut locked = self.client.board.lock(self.client.rt);
        locked.give_up(self.client.alloc, running)?;
        let _seen = self.client.deliver(&mut locked)?;
        Ok(())
    }

    fn done(&mut self, key: Key, outputs: Vec<Digest>) -> Result<(), FarmFault> {
        let noted = self.jobs.lock(self.client.rt).done(key, outputs);
        self.client.signals.note_step();
        noted
    }

    fn failed(&mut self, key: Key, fault: Fault) -> Result<(), FarmFault> {
        let noted = self.jobs.lock(self.client.rt).failed(key, fault);
        self.client.signals.note_step();
        noted
    }
}

/// Adds a receipt, unless it is of nothing.
pub(crate) fn push_receipt(
    receipts: &mut Vec<Receipt>,
    receipt: Option<Receipt>,
) -> Result<(), FarmFault> {
    let Some(receipt) = receipt else {
        return Ok(());
    };
    if receipt.versions.is_empty() {
        return Ok(());
    }
    receipts.push(receipt)?;
    Ok(())
}
