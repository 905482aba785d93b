//! The calls that executors made during a run.
ghost use Rattle.std.specs.Prelude.{◌≡◌, Contains, IfSome, slice_get};
ghost use Rattle.std.specs.Option.{option_copied};
ghost use Rattle.reasons.specs.NewCalls.{IsAmong, IsCallFor, on_node, outputs_in};

use executions::{Call, NodeKey};
use farm_base::laws::equal_digests_are_one;
use farm_base::{Digest, Key, NodeId};
use std::alloc::{AllocError, Global};
use std::collections::HashMap;

/// Where a new call stands.
#[derive(Clone, Copy)]
struct CallPlace {
    executor: usize,
    /// Among the executor's new calls.
    place: usize,
}

/// For each key on a node its first new call.
#[derive(Drop)]
pub(crate) struct Book {
    places: HashMap<NodeKey, CallPlace>,
}

impl Book {
    /// Books the new calls of executors, with their nodes.
    pub(crate) fn of(alloc: Global, news: &[(NodeId, &[Call])]) -> Result<Self, AllocError> {
        let mut places = HashMap::new(alloc);
        for (executor, (node, calls)) in news.iter().enumerate() {
            add_calls(&mut places, executor, *node, calls)?;
        }
        Ok(Book { places })
    }

    /// The first new call for a key on a node.
    pub(crate) fn find<'a>(
        &self,
        news: &[(NodeId, &'a [Call])],
        node: NodeId,
        key: &Key,
    ) -> Option<&'a Call>
        ensures { IfSome result (λ call. IsCallFor (on_node node news.now) key.now call.now) }
    {
        let CallPlace { executor, place } = *self.places.get(&NodeKey { node, key: *key })?;
        let call = call_at(news, node, executor, place)?;
        equal_digests_are_one();
        if call.key == *key { Some(call) } else { None }
    }
}

/// The new call at a place of the executor at a place, if it is on the node.
fn call_at<'a>(
    news: &[(NodeId, &'a [Call])],
    node: NodeId,
    executor: usize,
    place: usize,
) -> Option<&'a Call>
    ensures { IfSome result (λ call. IsAmong (on_node node news.now) call.now) }
{
    if executor >= news.len() {
        return None;
    }
    let (home, calls) = news[executor];
    if home != node {
        return None;
    }
    call_in(calls, place)
}

fn call_in(calls: &[Call], place: usize) -> Option<&Call>
    ensures { IfSome result (λ call. Contains calls.now call.now) }
{
    if place < calls.len() {
        Some(&calls[place])
    } else {
        None
    }
}

/// The output of an index that a call gave.
pub(crate) fn output_in(call: &Call, index: u64) -> Option<&Digest>
    ensures { option_copied result ≡ slice_get (outputs_in call.now.result) index }
{
    match &call.result {
        Ok(outputs) => outputs.as_slice().get(index as usize),
        Err(_) => None,
    }
}

/// Books the calls of an executor for keys that have none yet.
fn add_calls(
    places: &mut HashMap<NodeKey, CallPlace>,
    executor: usize,
    node: NodeId,
    calls: &[Call],
) -> Result<(), AllocError> {
    for (place, call) in calls.iter().enumerate() {
        let here = NodeKey {
            node,
            key: call.key,
        };
        if !places.contains_key(&here) {
            places.insert(here, CallPlace { executor, place })?;
        }
    }
    Ok(())
}
