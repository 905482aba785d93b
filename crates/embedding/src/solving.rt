//! A job to its answer.

use farm_base::{Digest, empty_digest};
use jobs::{Answer, Fault, Jobs};
use opsproto::read_definition;
use solverkeys::Keyed;
use std::alloc::{AllocError, Global};
use vertices::load;

/// The outputs of an execution of a vertex, or its status. This one leaves one empty output.
fn execute(
    alloc: Global,
    keyed: &Keyed,
    vertex: usize,
) -> Result<Result<Vec<Digest>, i32>, AllocError> {
    if vertex >= keyed.graph().len() {
        return Ok(Err(1));
    }
    let outputs = vec![in alloc; empty_digest(alloc)]?;
    Ok(Ok(outputs))
}

/// Solves one task, if a key is ready. What runs is the first vertex that has the key.
fn solve(alloc: Global, keyed: &Keyed, jobs: &mut Jobs) -> anyhow::Result<()> {
    let Some(task) = jobs.take_ready(alloc)? else {
        return Ok(());
    };
    let Some(vertex) = keyed.find(&task.key) else {
        return Ok(jobs.failed(task.key, Fault::Exit(1))?);
    };
    match execute(alloc, keyed, vertex)? {
        Ok(outputs) => jobs.done(task.key, outputs)?,
        Err(status) => jobs.failed(task.key, Fault::Exit(status))?,
    }
    Ok(())
}

/// What is printed of an answer.
fn text_of(alloc: Global, answer: &Answer) -> Result<String, AllocError> {
    match answer {
        Answer::Output(digest) => {
            let digest = digest.to_text(alloc)?;
            format!(in alloc; "output {digest}")
        }
        Answer::Failed => String::from_str(alloc, "failed"),
        Answer::Waiting => String::from_str(alloc, "waiting"),
    }
}

/// The answer of a job for a graph. Each key is taken at most once.
fn solve_all(alloc: Global, keyed: &Keyed, jobs: &mut Jobs) -> anyhow::Result<Answer> {
    let job = jobs.submit_keyed(alloc, keyed)?;
    for _ in 0..keyed.keys().len() {
        solve(alloc, keyed, jobs)?;
    }
    Ok(jobs.answer(job)?)
}

/// The answer of a definition.
pub fn answer(alloc: Global, bytes: Vec<u8>) -> anyhow::Result<String> {
    let graph = load(alloc, read_definition(alloc, bytes)?)?;
    let keyed = Keyed::of(alloc, graph)?;
    let answer = solve_all(alloc, &keyed, &mut Jobs::new(alloc))?;
    Ok(text_of(alloc, &answer)?)
}
