//! The calls that executors have.
ghost use Rattle.std.specs.Prelude.{◌≡◌, ◌++◌, IfOk, IfSome, IsTrue, length};

use executions::Call;
use farm_base::laws::equal_digests_are_one;
use farm_base::{Digest, Items};
use std::alloc::{AllocError, Global};

/// What follows the calls that an executor had, if its calls begin with these.
pub(crate) fn since<'a>(calls: &'a [Call], had: &[Call]) -> Option<&'a [Call]>
    ensures { IfSome result (λ more. calls.now ≡ had.now ++ more.now) }
{
    if had.len() > calls.len() {
        return None;
    }
    let (front, more) = calls.split_at(had.len());
    if are_same(front, had) {
        Some(more)
    } else {
        None
    }
}

/// Whether these are the same calls.
fn are_same(calls: &[Call], others: &[Call]) -> bool
    requires { length calls.now ≡ length others.now }
    ensures { IsTrue result → calls.now ≡ others.now }
{
    for place in 0..calls.len() {
        if !is_same(&calls[place], &others[place]) {
            return false;
        }
    }
    true
}

fn is_same(call: &Call, other: &Call) -> bool
    ensures { IsTrue result → call.now ≡ other.now }
{
    equal_digests_are_one();
    call.key == other.key && is_same_result(&call.result, &other.result)
}

fn is_same_result(one: &Result<Items<Digest>, i32>, other: &Result<Items<Digest>, i32>) -> bool
    ensures { IsTrue result → one.now ≡ other.now }
{
    match (one, other) {
        (Ok(one), Ok(other)) => are_same_digests(one.as_slice(), other.as_slice()),
        (Err(one), Err(other)) => *one == *other,
        (Ok(_), Err(_)) => false,
        (Err(_), Ok(_)) => false,
    }
}

fn are_same_digests(one: &[Digest], other: &[Digest]) -> bool
    ensures { IsTrue result → one.now ≡ other.now }
{
    equal_digests_are_one();
    one == other
}

/// A copy of a call.
fn copy_call(alloc: Global, call: &Call) -> Result<Call, AllocError>
    ensures { IfOk result (λ copy. copy ≡ call.now) }
{
    let made = match &call.result {
        Ok(outputs) => Ok(Items::new(Vec::from_slice(alloc, outputs.as_slice())?)),
        Err(status) => Err(*status),
    };
    Ok(Call {
        key: call.key,
        result: made,
    })
}

/// Copies of these calls.
pub(crate) fn copy_calls(alloc: Global, calls: &[Call]) -> Result<Vec<Call>, AllocError>
    ensures { IfOk result (λ copies. copies.items ≡ calls.now) }
{
    let mut copies = Vec::with_capacity(alloc, calls.len())?;
    for call in calls {
        copies.push(copy_call(alloc, call)?)?;
    }
    Ok(copies)
}
