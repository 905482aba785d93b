//! Whether answers have their reasons.
ghost use Rattle.std.specs.Prelude.{IfOk, IsTrue};
ghost use Rattle.std.specs.List.{AllZip};
ghost use Rattle.executions.specs.Shown.{shown};
ghost use Rattle.reasons.specs.Answers.{IsAnswered};
ghost use Rattle.reasons.specs.NewCalls.{on_node};
ghost use Rattle.reasons.specs.Solved.{news_in};

use super::calls::Book;
use super::denials::was_denied;
use super::solved::{Made, is_failing, is_solved};
use executions::{Call, World};
use farm_base::NodeId;
use jobs::Answer;
use solverkeys::Keyed;
use std::alloc::{AllocError, Global};

/// Whether a job's answer has its reason.
fn is_answered(
    alloc: Global,
    world: &World,
    made: Made<'_>,
    keyed: &Keyed,
    answer: Answer,
) -> Result<bool, AllocError>
    ensures { IfOk result (λ right. IsTrue right → IsAnswered (shown world.now) (news_in made.entry) made.entry.node keyed.now answer) }
{
    match answer {
        Answer::Output(digest) => is_solved(alloc, made, keyed, &digest),
        Answer::Failed => Ok(is_failing(made, keyed) || was_denied(world, made.node)),
        Answer::Waiting => Ok(false),
    }
}

/// Whether there is one answer for each job, and each has its reason.
pub fn are_answered(
    alloc: Global,
    world: &World,
    news: &[(NodeId, &[Call])],
    jobs: &[(NodeId, Keyed)],
    answers: &[Answer],
) -> Result<bool, AllocError>
    ensures { IfOk result (λ right. IsTrue right → AllZip (λ job answer. IsAnswered (shown world.now) (on_node job.0 news.now) job.0 job.1 answer) jobs.now answers.now) }
{
    if jobs.len() != answers.len() {
        return Ok(false);
    }
    let book = Book::of(alloc, news)?;
    for place in 0..jobs.len() {
        let (node, keyed) = &jobs[place];
        let answer = answers[place];
        let made = Made {
            book: &book,
            news,
            node: *node,
        };
        if !is_answered(alloc, world, made, keyed, answer)? {
            return Ok(false);
        }
    }
    Ok(true)
}
