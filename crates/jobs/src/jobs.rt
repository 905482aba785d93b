ghost use Rattle.std.specs.Prelude.{◌≡◌, ◌≤◌, ◌++◌, ◌∷◌, ℕ, [], length, Some, None, slice_get, OnOk, OnErr, IfErr, IfNone, IfOk, IfSome, IsSomeAnd};
ghost use Rattle.keytable.specs.declared.entry.Entry.{Entry as SpecEntry};
ghost use Rattle.keytable.specs.declared.entry.Progress.TheVariants.{Waiting, Out, Done, Failed};
ghost use Rattle.jobs.specs.declared.answer.JobsRefusal.TheVariants as refusal;
ghost use Rattle.names.specs.declared.digest.Key.{Key as SpecKey};
ghost use Rattle.solverkeys.specs.GraphKeys.{AreKeys};
ghost use Rattle.keytable.specs.Adding.{AreAdded};
ghost use Rattle.keytable.specs.Causes.{IsCause};
ghost use Rattle.keytable.specs.Failing.{IsSubmitted};
ghost use Rattle.jobs.specs.History.{HasNoReady, IsAnswer, Moves, TakesFirst};
ghost use Rattle.keytable.specs.Needs.{NeedsOutput};
ghost use Rattle.jobs.specs.ReadyLists.{AreReadyKeys};

use super::adding::add_job;
use super::answer::{Answer, JobId, JobsRefusal, answer_of};
use super::known_keys::KnownKeys;
use super::ready::task_of;
use super::settling::finish;
use super::task::Task;
use keytable::{Cause, Fault, Progress, cause_of, last_needed};
use names::{Digest, Items, Key};
use solverkeys::Keyed;
use std::alloc::Global;
use std::marker::Model;
use vertices::Graph;

/// The submitted jobs, and the keys that they depend on. Results are kept.
pub struct Jobs {
    /// For each job the key and the output index of its result.
    results: Vec<(Key, u64)>,
    known: KnownKeys,
}

// By hand, so that letting go of one is one step of a proof.
impl Drop for Jobs {
    fn drop(self) {
        let Self {
            results: _,
            known: _,
        } = self;
    }
}

impl Model for Jobs {
    ghost use Rattle.jobs.specs.History.{History};
    ghost use Rattle.jobs.specs.Kept.{history, AreListed};

    ghost Value = { History };

    ghost view = { λ j. history j.results.items j.known.table.entries.items };

    ghost invariant = { λ j. AreListed j.known };
}

impl Jobs {
    /// No jobs.
    pub fn new(alloc: Global) -> Self
        ensures jobs { result.jobs ≡ [] }
        ensures keys { result.keys ≡ [] }
    {
        Jobs {
            results: Vec::new(alloc),
            known: KnownKeys::new(alloc),
        }
    }

    /// Adds a job, and the keys that its result depends on. A key that is there already stands for both.
    /// `keys` are the keys of the graph.
    pub fn submit(
        &mut self,
        alloc: Global,
        graph: &Graph,
        keys: &[Key],
    ) -> Result<JobId, JobsRefusal>
        requires { AreKeys graph.now keys.now }
        ensures job { IfOk result (λ job. job.0 ≡ length self.old.jobs) }
        ensures jobs { OnOk result ((key : SpecKey) → slice_get keys.now graph.now.result.0 ≡ Some key → self.new.jobs ≡ self.old.jobs ++ (key, graph.now.result.1) ∷ []) }
        ensures keys { OnOk result (AreAdded graph.now keys.now self.old.keys self.new.keys) }
        ensures refusal { IfErr result (λ refused. refused ≡ refusal.OutOfMemory) }
        ensures err { OnErr result (self.new ≡ self.old) }
    {
        let job = JobId(self.results.len());
        add_job(alloc, &mut self.results, &mut self.known, graph, keys)?;
        Ok(job)
    }

    /// Adds a job, and the keys that its result depends on, as `submit` does. The keys are at hand, so
    /// there is nothing to show for them. It is refused only where memory runs out.
    pub fn submit_keyed(&mut self, alloc: Global, keyed: &Keyed) -> Result<JobId, JobsRefusal>
        ensures job { IfOk result (λ job. job.0 ≡ length self.old.jobs) }
        ensures jobs { OnOk result ((key : SpecKey) → slice_get keyed.now.keys keyed.now.graph.result.0 ≡ Some key
            → self.new.jobs ≡ self.old.jobs ++ (key, keyed.now.graph.result.1) ∷ []) }
        ensures keys { OnOk result (AreAdded keyed.now.graph keyed.now.keys self.old.keys self.new.keys) }
        ensures refusal { IfErr result (λ refused. refused ≡ refusal.OutOfMemory) }
        ensures err { OnErr result (self.new ≡ self.old) }
    {
        self.submit(alloc, keyed.graph(), keyed.keys())
    }

    /// Hands out the first ready key, by order of submission and then by place. A key whose hand-out
    /// was refused stays ready.
    pub fn take_ready(&mut self, alloc: Global) -> Result<Option<Task>, JobsRefusal>
        ensures taken { IfOk result (λ answer. IfSome answer (λ task. TakesFirst self.old task.key task.inputs.items self.new)) }
        ensures none { IfOk result (λ answer. IfNone answer (HasNoReady self.old)) }
        ensures none_changes { IfOk result (λ answer. IfNone answer (self.new ≡ self.old)) }
        ensures refusal { IfErr result (λ refused. refused ≡ refusal.OutOfMemory) }
        ensures err { OnErr result (self.new ≡ self.old) }
    {
        let Some(number) = self.known.ready.first() else {
            return Ok(None);
        };
        let task = task_of(alloc, &self.known.table, number)?;
        self.known.table.set_progress(number, Progress::Out);
        self.known.ready.take();
        Ok(Some(task))
    }

    /// The ready keys, in the order in which `take_ready` hands them out. It takes no memory.
    pub fn ready(&self) -> &[Key]
        ensures { AreReadyKeys self.now.keys result.now }
    {
        self.known.ready.as_slice()
    }

    /// Sets the progress of a key that is being solved, where that ends it.
    fn end(&mut self, key: &Key, progress: Progress) -> Result<(), JobsRefusal>
        requires { progress ≡ Waiting → ⊥ }
        ensures ok { OnOk result (Moves self.old key.now Out progress self.new) }
        ensures refusal { IfErr result (λ refused. refused ≡ refusal.NotRunningKey) }
        ensures only { OnErr result ((entry : SpecEntry) → IsSubmitted self.old.keys key.now entry → entry.progress ≡ Out → ⊥) }
        ensures err { OnErr result (self.new ≡ self.old) }
    {
        let Some(number) = self.known.table.number_out(key) else {
            return Err(JobsRefusal::NotRunningKey);
        };
        finish(&mut self.known, number, progress);
        Ok(())
    }

    /// Takes the outputs of a key that is being solved.
    pub fn done(&mut self, key: Key, outputs: Vec<Digest>) -> Result<(), JobsRefusal>
        ensures ok { OnOk result (Moves self.old key Out (Done outputs.items) self.new) }
        ensures refusal { IfErr result (λ refused. refused ≡ refusal.NotRunningKey) }
        ensures only { OnErr result ((entry : SpecEntry) → IsSubmitted self.old.keys key entry → entry.progress ≡ Out → ⊥) }
        ensures err { OnErr result (self.new ≡ self.old) }
    {
        self.end(&key, Progress::Done(Items::new(outputs)))
    }

    /// Notes that a key that is being solved has failed.
    pub fn failed(&mut self, key: Key, fault: Fault) -> Result<(), JobsRefusal>
        ensures ok { OnOk result (Moves self.old key Out (Failed fault) self.new) }
        ensures refusal { IfErr result (λ refused. refused ≡ refusal.NotRunningKey) }
        ensures only { OnErr result ((entry : SpecEntry) → IsSubmitted self.old.keys key entry → entry.progress ≡ Out → ⊥) }
        ensures err { OnErr result (self.new ≡ self.old) }
    {
        self.end(&key, Progress::Failed(fault))
    }

    /// The answer of a job. It takes no memory.
    pub fn answer(&self, job: JobId) -> Result<Answer, JobsRefusal>
        ensures missing { slice_get self.now.jobs job.0 ≡ None → result ≡ Err refusal.NoSuchJob }
        ensures answer { (wanted : _) → slice_get self.now.jobs job.0 ≡ Some wanted → IsAnswer self.now.keys wanted result }
    {
        match self.results.get(job.0) {
            Some(wanted) => answer_of(&self.known.table, self.known.marks.as_slice(), wanted),
            None => Err(JobsRefusal::NoSuchJob),
        }
    }

    /// Why a job has no output: none where it waits or has its output. Where its key fails, the first
    /// submitted one of the keys that it depends on that was called failed or lacks an output of an input
    /// tells. It looks at each key at most once, and is refused where the job isn't there or memory runs
    /// out.
    pub fn cause(&self, alloc: Global, job: JobId) -> Result<Option<Cause>, JobsRefusal>
        ensures cause { (wanted : _) → slice_get self.now.jobs job.0 ≡ Some wanted → IfOk result (IsCause self.now.keys wanted) }
        ensures missing { slice_get self.now.jobs job.0 ≡ None → result ≡ Err refusal.NoSuchJob }
        ensures refusal { (wanted : _) → slice_get self.now.jobs job.0 ≡ Some wanted → IfErr result (λ refused. refused ≡ refusal.OutOfMemory) }
    {
        let Some(wanted) = self.results.get(job.0) else {
            return Err(JobsRefusal::NoSuchJob);
        };
        let (table, marks) = (&self.known.table, self.known.marks.as_slice());
        let cause = cause_of(alloc, table, &self.known.users, marks, wanted)?;
        Ok(cause)
    }

    /// The greatest index of an output of this key that an input of a submitted key or the result of a
    /// job names, from 0; none where no output of it is named. A key that is done with more outputs than
    /// that leaves none of them missing. It looks at the users of the key and at each job, and takes no
    /// memory.
    pub fn last_output_needed(&self, key: &Key) -> Option<u64>
        ensures needed { IfSome result (NeedsOutput self.now.jobs self.now.keys key.now) }
        ensures greatest { (index : ℕ) → NeedsOutput self.now.jobs self.now.keys key.now index → IsSomeAnd result (λ last. index ≤ last) }
    {
        let (table, users) = (&self.known.table, &self.known.users);
        last_needed(table, users, self.results.as_slice(), key)
    }
}
