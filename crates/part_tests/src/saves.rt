//! When the coordinator of a world saves, and what, worked out by hand. The records were made by a script apart from
//! the program, with the SHA-256 of Python's hashlib.

use saverecord::{Log, RecordRefusal};
use std::alloc::Global;
use std::test::Fail;
use world::{Event, World, read_schedule};

/// Carries out events, of which none is refused.
fn step_all(alloc: Global, world: &mut World, events: Vec<Event>) -> Result<(), Fail> {
    for event in events {
        let _outcome = world.step(alloc, event)?;
    }
    Ok(())
}

/// The world after a schedule of which no event is refused. In a box: letting go of it is one step of a proof.
fn world_after(alloc: Global, schedule: &str) -> Result<Box<World>, Fail> {
    let (setup, events) = read_schedule(alloc, schedule.as_bytes())?;
    let mut world = Box::new(alloc, World::start(alloc, setup)?)?;
    step_all(alloc, &mut *world, events)?;
    Ok(world)
}

/// Schedules, their lines separated by semicolons, how often their coordinator saves, and its record in hexadecimal.
const SAVES: [(&str, u64, &str); 4] = [
    ("nodes 1; ask 1 locked:a", 0, ""),
    (
        "nodes 1; ask 1 locked:a; deliver 1; deliver 1; nudge",
        1,
        "424b4641524d303300000000000000400000000000000000000000010000000100000000000000010000000000000000000000000000000000000000000000000000000000000000e3792bd367ece67fcc5a4411e3965c65e65c85f989cb1758d8e3a74897773882",
    ),
    (
        "nodes 1; ask 1 private:npm; ask 1 private:npm; deliver 1; deliver 2; restart coordinator",
        2,
        "424b4641524d303300000000000000400000000000000000000000010000000100000000000000010000000000000000000000000000000200000000000000010000000100000000000000010000000000000001000000000000000000010100000000000000036e706d00000000010100000000000000020000000100000000000000010000000000000002000000000000000000010100000000000000036e706d000000000201000000000000000000000000000000002a71a0c2dd8024bc1847ca75d9059dae509534cfbfd4cc55f1ec77663a1c44e3",
    ),
    // All parts but an old home.
    (
        "nodes 2; ask 1 private:npm; deliver 1; tenure 2 shared:pip; deliver 3; deliver 4; begin 2 2; finish 2 2 shared:pip=616263; deliver 5; deliver 6; withdraw 1; tenure 2 shared:pip; deliver 7; retire 1",
        6,
        "424b4641524d303300000000000000400000000000000000000000020000000100000000000000010000000200000000000000010000000000000001000000010000000000000001000000000000000300000002000000000000000100000000000000020101000000000000000100000000000000000370697000000000000100000000000000010100000000000000036e706d00000000010000000000000001000000000000000003706970000000000000000000000000010000000000000002ba7816bf8f01cfea414140de5dae2223b00361a396177a9cb410ff61f20015ad0c2e993b5bb076c0776692be276837fdedaf411ccd34a5c6d2a08cde5d8daf71",
    ),
];

/// The whole record that a log holds, no bytes where nothing was saved.
fn folded(alloc: Global, log: &Log) -> Result<Vec<u8>, RecordRefusal> {
    if log.whole().is_empty() {
        return Ok(Vec::new(alloc));
    }
    log.fold(alloc)
}

/// Whether the coordinator of a world saved so often, and has this record.
fn has_saved(alloc: Global, world: &World, saves: u64, wanted: &str) -> Result<bool, Fail> {
    let keeper = world.coordinator().keeper();
    let record = folded(alloc, keeper.log())?;
    let text = hex::encode(alloc, &record)?;
    Ok(text.as_str() == wanted && keeper.saves() == saves)
}

/// Whether that is so after a schedule.
fn is_saved_so(alloc: Global, schedule: &str, saves: u64, wanted: &str) -> Result<bool, Fail> {
    let schedule = schedule.replace(alloc, "; ", "\n")?;
    let world = world_after(alloc, schedule.as_str())?;
    has_saved(alloc, &*world, saves, wanted)
}

#[test]
fn what_is_saved(rt: HostRuntime) -> Result<(), Fail> {
    for (schedule, saves, wanted) in &SAVES {
        assert!(rt;
            is_saved_so(rt.alloc(), *schedule, *saves, *wanted)?,
            "{schedule}"
        );
    }
    Ok(())
}

/// How often a LOCKED folder is granted and given back, and how often the coordinator saves: once for each 64 tickets.
const BLOCKS: [(u64, u64); 4] = [(1, 1), (64, 1), (65, 2), (129, 3)];

/// A schedule in which a LOCKED folder is granted `count` times, and given back each time.
fn rounds(alloc: Global, count: u64) -> Result<String, Fail> {
    let mut text = String::from_str(alloc, "nodes 1\n")?;
    let mut message = 0u64;
    for ticket in 1..=count {
        let [ask, grant, release] = [1, 2, 3].map(|next| message.saturating_add(next));
        let round = format!(in alloc;
            "ask 1 locked:a\ndeliver {ask}\ndeliver {grant}\nabort 1 {ticket}\ndeliver {release}\n"
        )?;
        text.push_str(round.as_str())?;
        message = release;
    }
    Ok(text)
}

/// How often the coordinator saves in it.
fn saves_in_rounds(alloc: Global, count: u64) -> Result<u64, Fail> {
    let schedule = rounds(alloc, count)?;
    let world = world_after(alloc, schedule.as_str())?;
    Ok(world.coordinator().keeper().saves())
}

#[test]
fn block_saves(rt: HostRuntime) -> Result<(), Fail> {
    for (count, wanted) in &BLOCKS {
        assert!(rt; saves_in_rounds(rt.alloc(), *count)? == *wanted, "{count}");
    }
    Ok(())
}
