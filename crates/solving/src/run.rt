//! A run of one executor, on a board to which nobody else comes.
ghost use Rattle.std.specs.Prelude.{◌≡◌, All, IfOk, IfErr, OnOk, None, map, take};
ghost use Rattle.farm_base.specs.declared.want.Want.{Want as SpecWant};
ghost use Rattle.executions.specs.Live.{files_in};
ghost use Rattle.solving.specs.Batches.{batches_of, with_batches, IsStopped};
ghost use Rattle.solving.specs.Places.{IsSeenIn, AreOpen};

use super::driver::{Ground, solve};
use super::fault::FarmFault;
use super::faults::{edits_fault, jobs_fault, shared_fault};
use super::lease::Reply;
use super::steps::{ask, begin, finish, give_up, start_tenure};
use super::work::{Work, shared_folders};
use executions::{Board, Executor, Granted, LiveShared, OpenGate, Running, abandon_running};
use farm_base::{
    Content, Copied, Digest, FolderName, Items, Key, Left, Mode, NodeId, Ticket, Want, Wants,
};
use folders::{Edit, Folder};
use jobs::{Fault, Jobs};
use solverkeys::Keyed;
use std::alloc::{AllocError, Global};

/// The node of all jobs.
pub(crate) const HOME: NodeId = NodeId(1);

/// What a run of one executor works on. All is done on one node.
pub(crate) struct Run {
    pub(crate) alloc: Global,
    pub(crate) board: Board,
    pub(crate) jobs: Jobs,
    /// The SHARED folders whose tenures are in use.
    pub(crate) live: LiveShared,
}

impl Run {
    /// Solves the jobs, within the tenures of their SHARED folders.
    pub(crate) fn solve_jobs(
        &mut self,
        jobs: Vec<(NodeId, Keyed)>,
        executor: &mut dyn Executor,
    ) -> Result<(), FarmFault> {
        let work = Work::of(self.alloc, jobs)?;
        self.submit_all(work.jobs())?;
        let folders = shared_folders(self.alloc, work.jobs())?;
        self.open_all(folders.as_slice())?;
        self.solve_all(&work, executor)?;
        self.close_all(folders.as_slice())
    }

    /// Submits the jobs, in their order.
    fn submit_all(&mut self, jobs: &[(NodeId, Keyed)]) -> Result<(), FarmFault> {
        for (_, keyed) in jobs {
            if let Err(refusal) = self.jobs.submit_keyed(self.alloc, keyed) {
                return Err(jobs_fault(refusal));
            }
        }
        Ok(())
    }

    /// Takes the tenures of these SHARED folders into use, each once, in their order.
    fn open_all(&mut self, folders: &[FolderName]) -> Result<(), FarmFault>
        requires { All (λ folder. folder.mode ≡ Mode.Shared) folders.now }
    {
        for folder in folders {
            if !self.live.is_open(folder) {
                self.open(folder.copy(self.alloc)?)?;
            }
        }
        Ok(())
    }

    /// Takes the tenure of a SHARED folder into use.
    fn open(&mut self, folder: FolderName) -> Result<(), FarmFault>
        requires shared { folder.mode ≡ Mode.Shared }
        requires closed { files_in self.old.live folder ≡ None }
    {
        let running = start_tenure(self.alloc, &mut self.board, HOME, folder)?;
        match self.live.open_folder(self.alloc, running) {
            Ok(()) => Ok(()),
            Err((running, refusal)) => {
                abandon_running(running);
                Err(shared_fault(refusal))
            }
        }
    }

    /// Ends the tenures of these SHARED folders, in their order. What stands in the folders is committed.
    fn close_all(&mut self, folders: &[FolderName]) -> Result<(), FarmFault> {
        for folder in folders {
            if self.live.is_open(folder) {
                self.close(folder)?;
            }
        }
        Ok(())
    }

    /// Ends the tenure of a SHARED folder.
    fn close(&mut self, folder: &FolderName) -> Result<(), FarmFault> {
        let (running, content) = self.live.close(self.alloc, folder).map_err(shared_fault)?;
        match lefts_of(self.alloc, &running, content) {
            Ok(lefts) => finish(self.alloc, &mut self.board, running, lefts),
            Err(AllocError) => {
                abandon_running(running);
                Err(FarmFault::Memory)
            }
        }
    }

    /// Solves keys until none is ready. Each key is ready at most once.
    fn solve_all(&mut self, work: &Work, executor: &mut dyn Executor) -> Result<(), FarmFault> {
        for _ in 0..work.count() {
            let Some(task) = self.jobs.take_ready(self.alloc).map_err(jobs_fault)? else {
                return Ok(());
            };
            solve(self, &OpenGate, work, executor, task)?;
        }
        Ok(())
    }
}

impl Ground for Run {
    fn alloc(&self) -> Global {
        self.alloc
    }

    fn node(&self) -> NodeId {
        HOME
    }

    fn go_on(&self) -> Result<(), FarmFault> {
        Ok(())
    }

    fn ask(&mut self, wants: &Wants) -> Result<Reply, FarmFault> {
        ask(self.alloc, &mut self.board, HOME, wants)
    }

    fn begin(&mut self, granted: Granted, _wants: &Wants) -> Result<Option<Running>, FarmFault> {
        Ok(Some(begin(self.alloc, &mut self.board, granted)?))
    }

    fn views(&mut self, wants: &[Want]) -> Result<Vec<(FolderName, Folder)>, FarmFault> {
        views_of(self.alloc, &self.live, wants)
    }

    fn apply(
        &mut self,
        ticket: Ticket,
        key: Key,
        edits: Items<(FolderName, Items<Edit>)>,
    ) -> Result<(), FarmFault> {
        apply_shared(self.alloc, &mut self.live, ticket, key, edits)
    }

    fn finish(&mut self, running: Running, lefts: Vec<Left>) -> Result<(), FarmFault> {
        finish(self.alloc, &mut self.board, running, lefts)
    }

    fn give_up(&mut self, running: Running) -> Result<(), FarmFault> {
        give_up(self.alloc, &mut self.board, running)
    }

    fn give_up_last(&mut self, running: Running) -> Result<(), FarmFault> {
        give_up(self.alloc, &mut self.board, running)
    }

    fn done(&mut self, key: Key, outputs: Vec<Digest>) -> Result<(), FarmFault> {
        self.jobs.done(key, outputs).map_err(jobs_fault)
    }

    fn failed(&mut self, key: Key, fault: Fault) -> Result<(), FarmFault> {
        self.jobs.failed(key, fault).map_err(jobs_fault)
    }
}

/// The SHARED folders among the wants, as they stand.
pub fn views_of(
    alloc: Global,
    live: &LiveShared,
    wants: &[Want],
) -> Result<Vec<(FolderName, Folder)>, FarmFault>
    ensures seen { IfOk result (λ views. All (IsSeenIn views.items) wants.now) }
    ensures standing { IfOk result (λ views. AreOpen live.now views.items) }
{
    let mut views = Vec::new(alloc);
    for want in wants {
        add_view(alloc, live, &mut views, want)?;
    }
    Ok(views)
}

/// Adds the folder of a want as it stands, where it is SHARED.
fn add_view(
    alloc: Global,
    live: &LiveShared,
    views: &mut Vec<(FolderName, Folder)>,
    want: &Want,
) -> Result<(), FarmFault>
    ensures seen { OnOk result (IsSeenIn views.new.items want.now) }
    ensures standing { OnOk result (AreOpen live.now views.old.items → AreOpen live.now views.new.items) }
    ensures kept { OnOk result ((other : SpecWant) → IsSeenIn views.old.items other → IsSeenIn views.new.items other) }
{
    if let Mode::Shared = want.folder.mode {
        let view = live.view(alloc, &want.folder).map_err(shared_fault)?;
        views.push((want.folder.copy(alloc)?, view))?;
    }
    Ok(())
}

/// What the tenure of a SHARED folder leaves: the content in its one slot.
pub fn lefts_of(alloc: Global, running: &Running, content: Content) -> Result<Vec<Left>, AllocError>
    ensures { IfOk result (λ lefts. lefts.items ≡ map (λ granted. record { slot = granted.slot; content = content }) (take 1 running.now.grant.slots)) }
{
    let mut lefts = Vec::with_capacity(alloc, 1)?;
    if let Some(granted) = running.grant().slots.as_slice().first() {
        lefts.push(Left {
            slot: granted.slot.copy(alloc)?,
            content,
        })?;
    }
    Ok(lefts)
}

/// Applies what an execution of a key edits in SHARED folders, a folder after the other, under its ticket. A fault may come after some.
pub fn apply_shared(
    alloc: Global,
    live: &mut LiveShared,
    ticket: Ticket,
    key: Key,
    edits: Items<(FolderName, Items<Edit>)>,
) -> Result<(), FarmFault>
    ensures ok { OnOk result (live.new ≡ with_batches (batches_of ticket edits) live.old) }
    ensures err { IfErr result (IsStopped key ticket edits live.old live.new) }
{
    for (folder, edits) in edits.into_vec() {
        if matches!(folder.mode, Mode::Shared) {
            match live.apply(alloc, ticket, &folder, edits.into_vec()) {
                Ok(()) => {}
                Err(refusal) => return Err(edits_fault(key, refusal)),
            }
        }
    }
    Ok(())
}

/// Gives up all tenures that are in use.
pub fn give_up_all(live: LiveShared) {
    let mut left = live;
    while let Some(running) = left.pop() {
        abandon_running(running);
    }
    let _batches = left.into_batches();
}
