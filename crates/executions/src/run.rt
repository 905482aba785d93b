//! One execution under a lease.
ghost use Rattle.std.specs.Prelude.{◌≡◌, true, false, ◌<◌, length, map, slice_get, Some, Err, IfOk, OnErr, IsOk, Contains};
ghost use Rattle.std.specs.List.{All};
ghost use Rattle.names.specs.Slots.{SlotParts};
ghost use Rattle.names.specs.declared.folder.Mode.TheVariants.{Shared};
ghost use Rattle.vertices.specs.Edges.{list_at};
ghost use Rattle.cachemounts.specs.CacheWants.{AreWants};
ghost use Rattle.executions.specs.declared.call.ExecOutcome.{ExecOutcome as AnyOutcome};
ghost use Rattle.executions.specs.Calls.{Adds, IsAnswer};
ghost use Rattle.executions.specs.Leased.{held, leased};
ghost use Rattle.slotfolders.specs.Seen.{read_all, folder_seen};
ghost use Rattle.executions.specs.Given.{IsGiven, Answered, CalledOnceAtMost};
ghost use Rattle.executions.specs.Left.{is_fit, news_of};

use super::call::ExecOutcome;
use super::executor::Executor;
use super::given::given;
use super::left::news_of;
use farm_base::{FolderName, Left, Wants};
use farmboard::Running;
use folders::Folder;
use jobs::Task;
use slotfolders::{RunRefusal, Seen};
use solverkeys::Keyed;
use std::alloc::{AllocError, Global};

/// An execution's outcome, which isn't `OutOfMemory`, and what it leaves in the slots of its lease.
#[derive(Drop)]
pub struct Ran {
    pub outcome: ExecOutcome,
    /// The content of each slot that the execution may write, but for those of SHARED folders: their edits are in the
    /// outcome.
    pub news: Vec<Left>,
}

/// What an executor answers to a task, which is the vertex of this number and wants these folders. What it is given is let go.
fn answer(
    alloc: Global,
    executor: &mut dyn Executor,
    seen: &Seen,
    wants: &Wants,
    task: &Task,
    keyed: &Keyed,
    vertex: usize,
) -> Result<ExecOutcome, AllocError>
    requires vertex { vertex < length keyed.now.graph.vertices }
    requires wants { AreWants keyed.now.graph keyed.now.keys vertex wants.now }
    ensures calls { IfOk result (λ outcome. Adds task.now.key (history executor.old) outcome (history executor.new)) }
    ensures given { IfOk result (λ outcome. Answered (IsGiven keyed.now vertex task.now (folder_seen seen.now.leased seen.now.shared) wants.now) (answers executor.old) outcome) }
    ensures err { OnErr result (history executor.new ≡ history executor.old) }
{
    let given = given(alloc, seen, wants, task, keyed, vertex)?;
    Ok(executor.run(&given))
}

/// Carries out one execution under a lease. The task is the vertex of this number, and `shared` has the folder of each
/// SHARED want.
pub fn run_leased(
    alloc: Global,
    executor: &mut dyn Executor,
    running: &Running,
    task: &Task,
    keyed: &Keyed,
    vertex: usize,
    shared: Vec<(FolderName, Folder)>,
) -> Result<Ran, RunRefusal>
    requires vertex { vertex < length keyed.now.graph.vertices }
    requires key { slice_get keyed.now.keys vertex ≡ Some task.now.key }
    requires inputs { length (list_at keyed.now.graph.edges vertex) ≡ length task.now.inputs.items }
    requires wants { AreWants keyed.now.graph keyed.now.keys vertex running.now.wants }
    requires shared { All (λ want. want.folder.mode ≡ Shared → Contains (map (λ folder. folder.0) shared.items) want.folder) running.now.wants }
    // The executor is called once at most, with exactly the task of the lease.
    ensures once { CalledOnceAtMost task.now.key (IsGiven keyed.now vertex task.now (folder_seen (leased running.now) shared.items) running.now.wants)
        (answers executor.old) (history executor.old) (history executor.new) }
    // The outcome is its answer to the task of the lease, and its calls have that one more.
    ensures answer { IfOk result (λ ran. IsAnswer ran.outcome) }
    ensures calls { IfOk result (λ ran. Adds task.now.key (history executor.old) ran.outcome (history executor.new)) }
    ensures given { IfOk result (λ ran. Answered (IsGiven keyed.now vertex task.now (folder_seen (leased running.now) shared.items) running.now.wants) (answers executor.old) ran.outcome) }
    ensures news { IfOk result (λ ran. ran.news.items ≡ news_of (folder_seen (leased running.now) shared.items) running.now.grant.slots ran.outcome) }
    // No content is bad, and the edits can be made.
    ensures read { IfOk result (λ ran. IsOk (read_all (held running.now))) }
    ensures fit { IfOk result (λ ran. is_fit (folder_seen (leased running.now) shared.items) running.now.wants ran.outcome ≡ true) }
    // The first bad content is named, and nothing was called.
    ensures bad_contents { (slot : SlotParts) → result ≡ Err (RunRefusal.BadContents slot)
        → (read_all (held running.now) ≡ Err slot) × (history executor.new ≡ history executor.old) }
    // The executor's answer has edits that can't be made.
    ensures bad_edits { result ≡ Err RunRefusal.BadEdits → (outcome : AnyOutcome) × Adds task.now.key (history executor.old) outcome (history executor.new)
        × Answered (IsGiven keyed.now vertex task.now (folder_seen (leased running.now) shared.items) running.now.wants) (answers executor.old) outcome
        × (is_fit (folder_seen (leased running.now) shared.items) running.now.wants outcome ≡ false) }
{
    let slots = running.grant().slots.as_slice();
    let seen = Seen::of(alloc, slots, running.bases(), shared)?;
    let outcome = answer(alloc, executor, &seen, running.wants(), task, keyed, vertex)?;
    let news = news_of(alloc, &seen, running.wants().as_slice(), slots, &outcome)?;
    Ok(Ran { outcome, news })
}
