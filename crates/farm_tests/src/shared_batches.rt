//! A batch of edits of a SHARED folder, and a second one under the same ticket.
ghost use Rattle.std.specs.Prelude.{◌≡◌, true, IfOk, IfSome, None};
ghost use Rattle.farm_base.specs.Kinds.{is_tenure};
ghost use Rattle.executions.specs.Live.{IsTenureOf, files_in};

use super::board_calls::{board_of, running};
use executions::{LiveShared, SharedRefusal};
use farm_base::{Copied, FolderName, Items, Mode, NodeId, Text, Ticket};
use farmboard::{Asked, Board, Running, abandon_running};
use folders::Edit;
use std::alloc::{AllocError, Global};
use std::test::Fail;

/// Puts an empty file of this name.
fn put(alloc: Global, name: &str) -> Result<Vec<Edit>, AllocError> {
    let name = String::from_str(alloc, name)?;
    let edit = Edit::Put(Text::new(name), Items::new(Vec::new(alloc)));
    Ok(vec![in alloc; edit]?)
}

/// The name of a SHARED folder.
fn folder_name(alloc: Global) -> Result<FolderName, AllocError>
    ensures { IfOk result (λ folder. folder.mode ≡ Mode.Shared) }
{
    let id = String::from_str(alloc, "pip")?;
    Ok(FolderName {
        id: Text::new(id),
        mode: Mode::Shared,
        base: None,
    })
}

/// The execution of an ask, if it is that of a tenure.
fn tenure_of(alloc: Global, board: &mut Board, asked: Asked) -> Option<Running>
    ensures wants { IfSome result (λ running. running.wants ≡ asked.wants) }
    ensures tenure { IfSome result (λ running. is_tenure running.grant.kind ≡ true) }
{
    let running = running(alloc, board, asked)?;
    if running.grant().kind.is_tenure() {
        return Some(running);
    }
    abandon_running(running);
    None
}

/// The tenure of a SHARED folder, in use.
fn tenure(alloc: Global, board: &mut Board, folder: FolderName) -> Result<Option<Running>, Fail>
    requires { folder.mode ≡ Mode.Shared }
    ensures { IfOk result (λ found. IfSome found (λ running. IsTenureOf running folder)) }
{
    let asked = board.ask_tenure(alloc, NodeId(1), folder)?;
    Ok(tenure_of(alloc, board, asked))
}

/// Opens the folder of a tenure.
fn open(
    alloc: Global,
    live: &mut LiveShared,
    folder: &FolderName,
    running: Running,
) -> Result<(), SharedRefusal>
    requires tenure { IsTenureOf running folder.now }
    requires closed { files_in live.old folder.now ≡ None }
{
    match live.open_folder(alloc, running) {
        Ok(()) => Ok(()),
        Err((running, refusal)) => {
            abandon_running(running);
            Err(refusal)
        }
    }
}

/// Makes a batch that puts an empty file of this name.
fn batch(
    alloc: Global,
    live: &mut LiveShared,
    folder: &FolderName,
    name: &str,
) -> Result<(), SharedRefusal> {
    let edits = put(alloc, name)?;
    live.apply(alloc, Ticket(7), folder, edits)
}

/// Closes a folder. Whether it has one file, which is empty and named `x`.
fn has_x_alone(
    alloc: Global,
    live: &mut LiveShared,
    folder: &FolderName,
) -> Result<bool, SharedRefusal> {
    let (running, content) = live.close(alloc, folder)?;
    abandon_running(running);
    Ok(content.bytes() == b"\0\0\0\x01x\0\0\0\0".as_slice())
}

/// Whether the second of two batches under one ticket is refused, and changes nothing.
fn is_made_once(
    alloc: Global,
    live: &mut LiveShared,
    folder: &FolderName,
    running: Running,
) -> Result<bool, SharedRefusal>
    requires tenure { IsTenureOf running folder.now }
    requires closed { files_in live.old folder.now ≡ None }
{
    open(alloc, live, folder, running)?;
    batch(alloc, live, folder, "x")?;
    let again = batch(alloc, live, folder, "y");
    let closed = has_x_alone(alloc, live, folder)?;
    Ok(matches!(again, Err(SharedRefusal::Twice)) && closed && live.batches().len() == 1)
}

/// Gives up what is open.
fn give_up(live: LiveShared) {
    let mut left = live;
    while let Some(running) = left.pop() {
        abandon_running(running);
    }
    let _batches = left.into_batches();
}

/// The same in a folder that is opened for it.
fn is_made_once_in(
    alloc: Global,
    folder: &FolderName,
    running: Running,
) -> Result<bool, SharedRefusal>
    requires { IsTenureOf running folder.now }
{
    let mut live = LiveShared::new(alloc);
    let made = is_made_once(alloc, &mut live, folder, running);
    give_up(live);
    made
}

#[test]
fn a_batch_is_made_once(rt: HostRuntime) -> Result<(), Fail> {
    let alloc = rt.alloc();
    let folder = folder_name(alloc)?;
    let copy = folder.copy(alloc)?;
    let mut board = board_of(alloc, 1)?;
    match tenure(alloc, &mut *board, copy)? {
        Some(running) => assert!(rt; is_made_once_in(alloc, &folder, running)?),
        None => return Err("no tenure".into()),
    }
    Ok(())
}
