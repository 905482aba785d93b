//! A keeper in memory, each call of it, worked out by hand. `printed/records.cases` has records and logs in files.

use saverecord::{Keeper, Kept, MemoryKeeper};
use std::alloc::Global;
use std::test::Fail;

/// Saves a record, appends an entry, and gathers another one.
fn keep_all<K: Keeper>(alloc: Global, keeper: &mut K) -> Result<(), Fail> {
    let record = Vec::from_slice(alloc, b"one")?;
    keeper.save(record)?;
    let entry = Vec::from_slice(alloc, b"two")?;
    keeper.append(entry)?;
    let entry = Vec::from_slice(alloc, b"three")?;
    keeper.gather(entry)?;
    keeper.sync()?;
    Ok(())
}

/// The length of the record that is loaded, and how many entries follow it.
fn loaded<K: Keeper>(alloc: Global, keeper: &mut K) -> Result<(usize, usize), Fail> {
    let log = keeper.load(alloc)?;
    Ok((log.whole().len(), log.entries().len()))
}

/// Whether the next sync fails, and what was kept before stays.
fn fails_once(alloc: Global, keeper: &mut MemoryKeeper) -> Result<bool, Fail> {
    keeper.fail_next(Kept::Old);
    Ok(
        keeper.sync().is_err()
            && loaded(alloc, keeper)? == (3, 2)
            && keeper.log().whole() == b"one".as_slice()
            && (keeper.saves(), keeper.failures()) == (2, 1),
    )
}

#[test]
fn calls_of_a_keeper(rt: HostRuntime) -> Result<(), Fail> {
    let mut keeper = Box::new(
        rt.alloc(),
        MemoryKeeper::new(rt.alloc(), Vec::new(rt.alloc())),
    )?;
    keep_all(rt.alloc(), &mut *keeper)?;
    assert!(rt; fails_once(rt.alloc(), &mut *keeper)?);
    Ok(())
}
