//! The new calls of the executors.
ghost use Rattle.std.specs.Prelude.{◌≡◌, map, IfOk};
ghost use Rattle.farmend.specs.NewCalls.{AreNew};

use super::calls::since;
use super::hired::Hired;
use super::refusal::EndRefusal;
use executions::{Call, Executor};
use farm_base::NodeId;
use std::alloc::{AllocError, Global};

fn calls_in(executor: &Box<dyn Executor + Send>) -> &[Call]
    ensures { result.now ≡ history executor.now }
{
    executor.calls()
}

/// The calls that the executors have, in order.
pub fn calls_of<'a>(
    alloc: Global,
    executors: &'a [Box<dyn Executor + Send>],
) -> Result<Vec<&'a [Call]>, AllocError>
    ensures { IfOk result (λ all. map (λ calls. calls.now) all.items ≡ map (λ executor. history executor) executors.now) }
{
    let mut all = Vec::with_capacity(alloc, executors.len())?;
    for executor in executors {
        all.push(calls_in(executor))?;
    }
    Ok(all)
}

/// Each executor's node and new calls. `Disagrees` where the calls of one don't begin with those that it had.
pub(crate) fn news_of<'a>(
    alloc: Global,
    hired: &[Hired],
    ends: &[&'a [Call]],
) -> Result<Vec<(NodeId, &'a [Call])>, EndRefusal>
    ensures { IfOk result (λ news. AreNew (map (λ each. each.node) hired.now) (map (λ each. each.had.items) hired.now) (map (λ calls. calls.now) ends.now) news.items) }
{
    if hired.len() != ends.len() {
        return Err(EndRefusal::Disagrees);
    }
    let mut news = Vec::with_capacity(alloc, hired.len())?;
    for place in 0..hired.len() {
        let each = &hired[place];
        let Some(more) = since(ends[place], each.had.as_slice()) else {
            return Err(EndRefusal::Disagrees);
        };
        news.push((each.node, more))?;
    }
    Ok(news)
}
