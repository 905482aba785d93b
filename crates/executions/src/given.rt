//! What the executor of a lease is given.
ghost use Rattle.std.specs.Prelude.{◌≡◌, ◌<◌, List, length, IfOk, Contains};
ghost use Rattle.std.specs.List.{AllZip};
ghost use Rattle.names.specs.declared.folder.Base.{Base};
ghost use Rattle.opsproto.specs.Mounts.{mounts_in};
ghost use Rattle.cachemounts.specs.declared.viewing.CacheView.{CacheView as SpecView};
ghost use Rattle.cachemounts.specs.CacheViews.{IsView};
ghost use Rattle.cachemounts.specs.CacheWants.{AreWants};
ghost use Rattle.executions.specs.Given.{command_in, output_at, IsViewAt, IsGiven};
ghost use Rattle.slotfolders.specs.Seen.{folder_seen};

use super::task::{ExecTask, View};
use cachemounts::{CacheView, views};
use farm_base::{Copied, Digest, Items, Want, Wants};
use jobs::Task;
use opsproto::{Kind, Mount};
use protowire::SharedBytes;
use slotfolders::Seen;
use solverkeys::Keyed;
use std::alloc::{AllocError, Global};

/// The output that a mount's input takes, if it has one.
fn output_at(outputs: &[Digest], input: i64) -> Option<Digest>
    ensures { result ≡ output_at outputs.now input }
{
    let place = usize::try_from(input).ok()?;
    outputs.get(place).copied()
}

/// The view of a cache mount.
fn view_at(
    alloc: Global,
    seen: &Seen,
    wants: &[Want],
    outputs: &[Digest],
    mounts: &[Mount],
    place: CacheView,
) -> Result<View, AllocError>
    requires { (bases : List Base) × IsView bases mounts.now wants.now place }
    ensures { IfOk result (IsViewAt (folder_seen seen.now.leased seen.now.shared) wants.now outputs.now mounts.now place) }
{
    let mount = &mounts[place.mount];
    let want = &wants[place.want];
    Ok(View {
        mount: place.mount,
        folder: want.folder.copy(alloc)?,
        writable: want.writable,
        files: seen.folder(&want.folder).copy(alloc)?,
        base: output_at(outputs, mount.input),
    })
}

/// The views of these cache mounts.
fn views_at(
    alloc: Global,
    seen: &Seen,
    wants: &[Want],
    outputs: &[Digest],
    mounts: &[Mount],
    places: &[CacheView],
) -> Result<Vec<View>, AllocError>
    requires { (bases : List Base) × ((place : SpecView) → Contains places.now place → IsView bases mounts.now wants.now place) }
    ensures { IfOk result (λ views. AllZip (IsViewAt (folder_seen seen.now.leased seen.now.shared) wants.now outputs.now mounts.now) places.now views.items) }
{
    let mut views = Vec::with_capacity(alloc, places.len())?;
    for place in places {
        views.push(view_at(alloc, seen, wants, outputs, mounts, *place)?)?;
    }
    Ok(views)
}

/// What an executor is given for a task that does this and has these stripped bytes and these cache mounts.
fn given_by(
    alloc: Global,
    seen: &Seen,
    wants: &[Want],
    task: &Task,
    kind: Kind,
    stripped: SharedBytes,
    places: &[CacheView],
) -> Result<ExecTask, AllocError>
    requires { (bases : List Base) × ((place : SpecView) → Contains places.now place → IsView bases (mounts_in kind) wants.now place) }
    ensures key { IfOk result (λ given. given.key ≡ task.now.key) }
    ensures stripped { IfOk result (λ given. given.stripped ≡ stripped) }
    ensures exec { IfOk result (λ given. given.exec ≡ command_in kind) }
    ensures inputs { IfOk result (λ given. given.inputs ≡ task.now.inputs.items) }
    ensures views { IfOk result (λ given. AllZip (IsViewAt (folder_seen seen.now.leased seen.now.shared) wants.now task.now.inputs.items (mounts_in kind)) places.now given.views) }
{
    let inputs = Vec::from_slice(alloc, task.inputs.as_slice())?;
    let mounts = kind.mounts();
    let views = views_at(alloc, seen, wants, &task.inputs, mounts, places)?;
    Ok(ExecTask {
        key: task.key,
        kind,
        stripped,
        inputs: Items::new(inputs),
        views: Items::new(views),
    })
}

/// What an executor is given for a task. The task is the vertex of this number, which wants these folders.
pub(crate) fn given(
    alloc: Global,
    seen: &Seen,
    wants: &Wants,
    task: &Task,
    keyed: &Keyed,
    vertex: usize,
) -> Result<ExecTask, AllocError>
    requires vertex { vertex < length keyed.now.graph.vertices }
    requires wants { AreWants keyed.now.graph keyed.now.keys vertex wants.now }
    ensures { IfOk result (IsGiven keyed.now vertex task.now (folder_seen seen.now.leased seen.now.shared) wants.now) }
{
    let places = views(alloc, keyed.graph(), vertex, keyed.keys(), wants)?;
    let graph = keyed.graph();
    let kind = graph.vertex(vertex).op.kind(alloc)?;
    let stripped = graph.stripped(alloc, vertex)?;
    given_by(alloc, seen, wants.as_slice(), task, kind, stripped, &places)
}
