//! Lines that come together, where the sync of what they change fails. The record was made by a script apart from the program, and the
//! MACs are those of Python's hmac.

use coordinator::Coordinator;
use coordinatorfilter::CoordinatorFilter;
use farmwire::{FarmKey, Keyring};
use filekeeper::Gathered;
use saverecord::{Kept, MemoryKeeper};
use services::serve;
use std::alloc::Global;
use std::test::Fail;

const KEY: &[u8] = b"the key of a farm, thirty-two bytes";

/// The record of a farm where node 1 was heard in its life 5.
const RECORD: &str =
    "424b4641524d3033000000000000000000000000000000000000000100000001000000000000000500000000000000000000000000000000000000000000000000000000000000007eac3b03699c311fb302b94569141fee37009fc3c7d75512cefda14d2288bfd2";

/// Two lines, of which the first changes what is saved.
const LINES: &str =
    "m acquire 1 5 1 private:p 5e1bd48a4491843b3254d42105e01d9d63e671b84d1e4757b534fee91cb992ea\nnudge\n";

/// What is written where the sync fails.
const FAILED: &str = "= started\n: restarted\n= refused SaveFault\n= refused SaveFault\n";

/// What is written of the same lines then. The restart took up what was gathered, and the PRIVATE lease with it.
const AFTER: &str =
    "= started\nm granted 1 5 1 1 plain private:p#1=0:e3b0c44298fc1c149afbf4c8996fb92427ae41e4649b934ca495991b7852b855 d508e4fae137f72f102b3bd6d81f56035081d2d41b2e5be8d76742ff7095de00\n= granted before 1 private:p#1=0\nm granted 1 5 1 1 plain private:p#1=0:e3b0c44298fc1c149afbf4c8996fb92427ae41e4649b934ca495991b7852b855 d508e4fae137f72f102b3bd6d81f56035081d2d41b2e5be8d76742ff7095de00\n= nudged\n";

/// A keeper that gathers, and whose next sync fails.
fn failing_keeper(alloc: Global) -> Result<Gathered<MemoryKeeper>, Fail> {
    let record = hex::decode(alloc, RECORD)?;
    let mut keeper = MemoryKeeper::new(alloc, record);
    keeper.fail_next(Kept::Old);
    Ok(Gathered::new(keeper))
}

/// A filter with such a keeper. In a box: letting go of it is one step of a proof.
fn failing_filter(alloc: Global) -> Result<Box<CoordinatorFilter<Gathered<MemoryKeeper>>>, Fail> {
    let keeper = failing_keeper(alloc)?;
    let keys = Keyring::Farm(FarmKey::of(alloc, KEY)?);
    match Coordinator::start(alloc, keeper) {
        Ok(coordinator) => Ok(Box::new(alloc, CoordinatorFilter { coordinator, keys })?),
        Err(_) => Err(Fail::from("not started")),
    }
}

/// What the filter writes of the lines.
fn written(
    alloc: Global,
    filter: &mut CoordinatorFilter<Gathered<MemoryKeeper>>,
) -> Result<String, Fail> {
    let mut bytes = Vec::new(alloc);
    serve(
        alloc,
        LINES.as_bytes(),
        &mut bytes,
        filter,
        400,
        b"= started\n",
    )?;
    Ok(String::from_utf8(bytes).ok().ok_or("no text")?)
}

#[test]
fn a_failed_sync(rt: HostRuntime) -> Result<(), Fail> {
    let mut filter = failing_filter(rt.alloc())?;
    let failed = written(rt.alloc(), &mut *filter)?;
    assert!(rt; failed.as_str() == FAILED);
    let after = written(rt.alloc(), &mut *filter)?;
    assert!(rt; after.as_str() == AFTER);
    Ok(())
}
