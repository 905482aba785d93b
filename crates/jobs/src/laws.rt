ghost use Rattle.std.specs.Prelude.{◌≡◌, ◌≢◌, ◌≤◌, ℕ, List, length, Some, slice_get, Result, Ok};
ghost use Rattle.names.specs.declared.digest.Key.{Key};
ghost use Rattle.jobs.specs.declared.answer.Answer.{Answer};
ghost use Rattle.jobs.specs.declared.answer.Answer.TheVariants.{Waiting};
ghost use Rattle.jobs.specs.declared.answer.JobsRefusal.{JobsRefusal};
ghost use Rattle.jobs.specs.History.{History, IsAnswer};
ghost use Rattle.jobs.specs.Rests.{IsAtRest, IsRanked, IsWhole};
ghost use Rattle.jobs.specs.Tasks.{HandsOut};

/// When no key is ready and none is being solved, no job waits. Each key that is named was submitted,
/// and has a higher rank than the keys of its inputs.
pub fn no_job_waits_at_rest()
    ensures { (h : History) (rank : Key → ℕ) (job : ℕ) (wanted : Key × ℕ) (given : Result Answer JobsRefusal) → IsWhole h → IsRanked h rank → IsAtRest h
        → slice_get h.jobs job ≡ Some wanted → IsAnswer h.keys wanted given → given ≢ Ok Waiting }
{}

/// Whatever the calls, there are at most as many tasks as keys.
pub fn at_most_one_task_a_key()
    ensures { (tasks : List Key) (h : History) → HandsOut tasks h → length tasks ≤ length h.keys }
{}
