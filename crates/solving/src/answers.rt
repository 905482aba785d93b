//! The answers of the jobs.
ghost use Rattle.std.specs.Prelude.{◌≡◌, ◌≢◌, ◌⊎◌, All, IfOk, IfErr, Err, Some, None, length, slice_get};
ghost use Rattle.keytable.specs.Causes.{IsCause};
ghost use Rattle.solving.specs.Answers.{IsLastAnswer};

use super::fault::FarmFault;
use super::faults::jobs_fault;
use jobs::{Answer, Cause, JobId, Jobs, JobsRefusal};
use std::alloc::Global;

/// The answer of a job that doesn't wait. A result whose key is done without it has failed. `ReceiptLost` of a job that
/// waits, or isn't there.
pub fn answer_of(jobs: &Jobs, job: JobId) -> Result<Answer, FarmFault>
    ensures answer { (wanted : _) → slice_get jobs.now.jobs job.0 ≡ Some wanted → IsLastAnswer jobs.now.keys wanted result }
    ensures missing { slice_get jobs.now.jobs job.0 ≡ None → result ≡ Err FarmFault.ReceiptLost }
    ensures settled { IfOk result (λ answer. answer ≢ Answer.Waiting) }
{
    match jobs.answer(job) {
        Ok(Answer::Output(digest)) => Ok(Answer::Output(digest)),
        Ok(Answer::Failed) => Ok(Answer::Failed),
        Ok(Answer::Waiting) => Err(FarmFault::ReceiptLost),
        Err(JobsRefusal::NoOutput(_)) => Ok(Answer::Failed),
        Err(refusal) => Err(jobs_fault(refusal)),
    }
}

/// Why a job that failed did. `ReceiptLost` of one that did not, or isn't there; `Memory`.
pub fn cause_of(alloc: Global, jobs: &Jobs, job: JobId) -> Result<Cause, FarmFault>
    ensures cause { (wanted : _) → slice_get jobs.now.jobs job.0 ≡ Some wanted → IfOk result (λ cause. IsCause jobs.now.keys wanted (Some cause)) }
    ensures no_cause { (wanted : _) → slice_get jobs.now.jobs job.0 ≡ Some wanted → result ≡ Err FarmFault.ReceiptLost → IsCause jobs.now.keys wanted None }
    ensures missing { slice_get jobs.now.jobs job.0 ≡ None → result ≡ Err FarmFault.ReceiptLost }
    ensures faults { IfErr result (λ fault. (fault ≡ FarmFault.ReceiptLost) ⊎ (fault ≡ FarmFault.Memory)) }
{
    match jobs.cause(alloc, job) {
        Ok(Some(cause)) => Ok(cause),
        Ok(None) => Err(FarmFault::ReceiptLost),
        Err(refusal) => Err(jobs_fault(refusal)),
    }
}

/// The answers of this many jobs, in order.
pub(crate) fn answers_of(alloc: Global, jobs: &Jobs, count: usize) -> Result<Vec<Answer>, FarmFault>
    ensures count { IfOk result (λ answers. length answers.items ≡ count) }
    ensures answered { IfOk result (λ answers. All (λ answer. answer ≢ Answer.Waiting) answers.items) }
{
    let mut answers = Vec::with_capacity(alloc, count)?;
    for job in 0..count {
        answers.push(answer_of(jobs, JobId(job))?)?;
    }
    Ok(answers)
}
