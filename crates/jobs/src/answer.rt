ghost use Rattle.std.specs.Prelude.{◌≡◌};
ghost use Rattle.keytable.specs.Kept.{AreKept};
ghost use Rattle.jobs.specs.declared.answer.JobsRefusal.TheVariants as refusal;
ghost use Rattle.jobs.specs.History.{IsAnswer};

use keytable::{Progress, Table, output_at};
use names::{Digest, Key};
use std::alloc::{AllocError, AllocFailed};
use thiserror::Error;

/// A job, by its number in the order of submission, from 0.
#[derive(Clone, Copy, PartialEq, Eq)]
pub struct JobId(pub usize);

/// The answer of a job so far.
#[derive(Clone, Copy, PartialEq, Eq)]
pub enum Answer {
    /// Its result is not known yet.
    Waiting,
    /// Its result.
    Output(Digest),
    /// Its result never comes.
    Failed,
}

/// Why a call was refused.
#[derive(Clone, Copy, Debug, PartialEq, Eq, Error)]
pub enum JobsRefusal {
    #[error("the key is not being solved")]
    NotRunningKey,
    #[error("no such job")]
    NoSuchJob,
    /// The result's key is done, but has no output of this index.
    #[error("no output {0}")]
    NoOutput(u64),
    #[error("out of memory")]
    OutOfMemory,
}

impl From<AllocError> for JobsRefusal {
    ghost from_gives = { λ _ e. e ≡ refusal.OutOfMemory };

    fn from(_error: AllocError) -> JobsRefusal {
        JobsRefusal::OutOfMemory
    }
}

impl<T: Drop> From<AllocFailed<T>> for JobsRefusal {
    ghost from_gives = { λ _ e. e ≡ refusal.OutOfMemory };

    fn from(_error: AllocFailed<T>) -> JobsRefusal {
        JobsRefusal::OutOfMemory
    }
}

/// The answer of the job with this result.
pub(crate) fn answer_of(
    table: &Table,
    marks: &[bool],
    wanted: &(Key, u64),
) -> Result<Answer, JobsRefusal>
    requires { AreKept table.now marks.now }
    ensures { IsAnswer table.now.entries.items wanted.now result }
{
    let Some(number) = table.number(&wanted.0) else {
        return Ok(Answer::Waiting);
    };
    match &table.entries[number].progress {
        Progress::Done(outputs) => match output_at(outputs.as_slice(), wanted.1) {
            Some(digest) => Ok(Answer::Output(*digest)),
            None => Err(JobsRefusal::NoOutput(wanted.1)),
        },
        _ if marks[number] => Ok(Answer::Failed),
        _ => Ok(Answer::Waiting),
    }
}
