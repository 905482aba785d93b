//! One execution: it gets its lease, runs, and leaves something or gives the lease back. A run in one thread and the workers of a
//! farm use this alike.
ghost use Rattle.std.specs.Prelude.{◌≡◌, All, IfOk, IfSome};
ghost use Rattle.executions.specs.Calls.{MadeOneAtMost};
ghost use Rattle.solving.specs.Places.{Fits, IsSeenIn};
ghost use Rattle.solving.specs.Leases.{IsLeaseOf, IsReplyTo};

use super::fault::FarmFault;
use super::faults::run_fault;
use super::lease::{Lease, Reply};
use super::work::{Place, Work, fit};
use executions::{ExecOutcome, Executor, Gate, Granted, Ran, Running, abandon_granted, run_leased};
use farm_base::{Digest, EVENTS, FolderName, Items, Key, Left, NodeId, Ticket, Want, Wants};
use folders::{Edit, Folder};
use jobs::{Fault, Task};
use std::alloc::Global;
use std::thread;

/// How often a gate is asked for one execution.
const GATE_TURNS: u32 = 10_000_000;

/// Where executions get their leases and SHARED folders, and what notes what came of keys: a board to which nobody else comes, or one
/// that many threads share.
pub trait Ground {
    /// The allocator of the run.
    fn alloc(&self) -> Global;

    /// The node of the executions.
    fn node(&self) -> NodeId;

    /// A fault once all is to stop.
    fn go_on(&self) -> Result<(), FarmFault>;

    /// Asks for the lease of an execution, and waits for the reply. The tenures of its SHARED folders are in use by then.
    fn ask(&mut self, wants: &Wants) -> Result<Reply, FarmFault>
        ensures { IfOk result (IsReplyTo wants.now) };

    /// Begins an execution under its lease, once its contents are there. None where it has to be asked for again.
    fn begin(&mut self, granted: Granted, wants: &Wants) -> Result<Option<Running>, FarmFault>
        ensures { IfOk result (λ begun. IfSome begun (λ running. running.wants ≡ granted.wants)) };

    /// The SHARED folders among the wants, as they stand.
    fn views(&mut self, wants: &[Want]) -> Result<Vec<(FolderName, Folder)>, FarmFault>
        ensures { IfOk result (λ views. All (IsSeenIn views.items) wants.now) };

    /// Applies what an execution of a key edits in SHARED folders.
    fn apply(
        &mut self,
        ticket: Ticket,
        key: Key,
        edits: Items<(FolderName, Items<Edit>)>,
    ) -> Result<(), FarmFault>;

    /// Ends an execution with what it leaves, and waits until that is settled.
    fn finish(&mut self, running: Running, lefts: Vec<Left>) -> Result<(), FarmFault>;

    /// Ends an execution that leaves nothing.
    fn give_up(&mut self, running: Running) -> Result<(), FarmFault>;

    /// Ends an execution that leaves nothing, where a fault is to end the run: nobody may come after.
    fn give_up_last(&mut self, running: Running) -> Result<(), FarmFault>;

    /// A key is done with these outputs.
    fn done(&mut self, key: Key, outputs: Vec<Digest>) -> Result<(), FarmFault>;

    /// A key has failed.
    fn failed(&mut self, key: Key, fault: Fault) -> Result<(), FarmFault>;
}

/// Asks the gate until the execution of a key may begin.
fn pass<S: Ground, G: Gate>(ground: &S, gate: &G, key: &Key) -> Result<(), FarmFault> {
    for _ in 0..GATE_TURNS {
        if gate.pass(ground.node(), key) {
            return Ok(());
        }
        ground.go_on()?;
        thread::yield_now();
    }
    Err(FarmFault::GateHeld(*key))
}

/// Begins an execution that the gate lets pass. None where it has to be asked for again.
fn begin<S: Ground, G: Gate>(
    ground: &mut S,
    gate: &G,
    key: &Key,
    granted: Granted,
    wants: &Wants,
) -> Result<Option<Running>, FarmFault>
    ensures { IfOk result (λ begun. IfSome begun (λ running. running.wants ≡ granted.wants)) }
{
    match pass(ground, gate, key) {
        Ok(()) => ground.begin(granted, wants),
        Err(fault) => {
            abandon_granted(granted);
            Err(fault)
        }
    }
}

/// The lease of an execution, which has begun, unless it was denied. Each ask is an event, so they are at most as many as a schedule
/// has.
fn lease<S: Ground, G: Gate>(
    ground: &mut S,
    gate: &G,
    key: &Key,
    wants: &Wants,
) -> Result<Lease, FarmFault>
    ensures { IfOk result (IsLeaseOf wants.now) }
{
    for _ in 0..=EVENTS {
        match ground.ask(wants)? {
            Reply::Granted(granted) => {
                if let Some(running) = begin(ground, gate, key, granted, wants)? {
                    return Ok(Lease::Begun(running));
                }
            }
            Reply::Denied(why) => return Ok(Lease::Denied(why)),
        }
    }
    Err(FarmFault::HistoryFull)
}

/// Solves a task: its executor is called once at most. A key whose lease is denied has failed.
pub fn solve<S: Ground, G: Gate>(
    ground: &mut S,
    gate: &G,
    work: &Work,
    executor: &mut dyn Executor,
    task: Task,
) -> Result<(), FarmFault>
    ensures once { MadeOneAtMost task.key (history executor.old) (history executor.new) }
{
    let (place, wants) = fit(ground.alloc(), work, ground.node(), &task)?;
    match lease(ground, gate, &task.key, &wants)? {
        Lease::Begun(running) => execute(ground, executor, running, task, place),
        Lease::Denied(why) => ground.failed(task.key, Fault::Denied(why)),
    }
}

/// Executes a task under its lease.
fn execute<S: Ground>(
    ground: &mut S,
    executor: &mut dyn Executor,
    running: Running,
    task: Task,
    place: Place<'_>,
) -> Result<(), FarmFault>
    requires { Fits place task running.wants }
    ensures once { MadeOneAtMost task.key (history executor.old) (history executor.new) }
{
    match run_task(ground, executor, &running, &task, place) {
        Ok(ran) => take(ground, running, task.key, ran),
        Err(fault) => Err(refuse(ground, running, fault)),
    }
}

/// Has the executor execute a task.
#[tactic(auto, using(executions::proofs::CallLemmas::once_made))]
fn run_task<S: Ground>(
    ground: &mut S,
    executor: &mut dyn Executor,
    running: &Running,
    task: &Task,
    place: Place<'_>,
) -> Result<Ran, FarmFault>
    requires { Fits place task.now running.now.wants }
    ensures once { MadeOneAtMost task.now.key (history executor.old) (history executor.new) }
{
    let Place { keyed, vertex } = place;
    let shared = ground.views(running.wants().as_slice())?;
    let alloc = ground.alloc();
    match run_leased(alloc, executor, running, task, keyed, vertex, shared) {
        Ok(ran) => Ok(ran),
        Err(refusal) => Err(run_fault(task.key, refusal)),
    }
}

/// Takes what an execution of a key answered.
fn take<S: Ground>(ground: &mut S, running: Running, key: Key, ran: Ran) -> Result<(), FarmFault> {
    let Ran { outcome, news } = ran;
    match outcome {
        ExecOutcome::Done { outputs, edits } => {
            keep(ground, running, key, edits, news)?;
            ground.done(key, outputs.into_vec())
        }
        ExecOutcome::Failed(status) => {
            ground.give_up(running)?;
            ground.failed(key, Fault::Exit(status))
        }
        ExecOutcome::OutOfMemory => Err(refuse(ground, running, FarmFault::Memory)),
    }
}

/// Keeps what an execution of a key leaves.
fn keep<S: Ground>(
    ground: &mut S,
    running: Running,
    key: Key,
    edits: Items<(FolderName, Items<Edit>)>,
    news: Vec<Left>,
) -> Result<(), FarmFault> {
    match ground.apply(running.ticket(), key, edits) {
        Ok(()) => ground.finish(running, news),
        Err(fault) => Err(refuse(ground, running, fault)),
    }
}

/// Gives the lease back of an execution whose answer can't be kept. The run ends with what was wrong with that.
fn refuse<S: Ground>(ground: &mut S, running: Running, fault: FarmFault) -> FarmFault
    ensures { result ≡ fault }
{
    let _given_back = ground.give_up_last(running);
    fault
}
