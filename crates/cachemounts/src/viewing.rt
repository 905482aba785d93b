ghost use Rattle.std.specs.Prelude.{◌<◌, length, IfOk, Contains};
ghost use Rattle.std.specs.List.{All};
ghost use Rattle.names.specs.declared.folder.FolderName.{FolderName};
ghost use Rattle.farm_base.specs.Wanted.{folders};
ghost use Rattle.solverkeys.specs.GraphKeys.{AreKeys};
ghost use Rattle.cachemounts.specs.CacheWants.{IsWanted, AreWants};
ghost use Rattle.cachemounts.specs.CacheViews.{AreViewsOf, AreViews};
ghost use Rattle.cachemounts.specs.Checked.{IsChecked};

use super::folder::folder_of;
use super::mounted::Mounted;
use super::wanting::place_of;
use farm_base::{Base, Key, Want, Wants};
use opsproto::Mount;
use std::alloc::{AllocError, Global};
use vertices::Graph;

/// What a cache mount of a vertex sees. Places count from 0.
#[derive(Clone, Copy)]
pub struct CacheView {
    /// The place of the mount among the vertex's mounts.
    pub mount: usize,
    /// The place of its folder among the vertex's wants.
    pub want: usize,
}

/// What each cache mount of the vertex of a number sees, in their order.
pub fn views(
    alloc: Global,
    graph: &Graph,
    vertex: usize,
    keys: &[Key],
    wants: &Wants,
) -> Result<Vec<CacheView>, AllocError>
    requires vertex { vertex < length graph.now.vertices }
    requires keys { AreKeys graph.now keys.now }
    requires wants { AreWants graph.now keys.now vertex wants.now }
    ensures { IfOk result (λ views. AreViews graph.now keys.now vertex wants.now views.items) }
{
    let mounted = Mounted::of(alloc, graph, vertex, keys)?;
    views_of_mounts(alloc, mounted.outputs(), mounted.mounts(), wants.as_slice())
}

/// The views of some mounts of a vertex. Its inputs take these outputs.
fn views_of_mounts(
    alloc: Global,
    outputs: &[Base],
    mounts: &[Mount],
    wants: &[Want],
) -> Result<Vec<CacheView>, AllocError>
    requires checked { All (IsChecked (length outputs.now)) mounts.now }
    requires wanted { (folder : FolderName) → IsWanted outputs.now mounts.now folder → Contains (folders wants.now) folder }
    ensures { IfOk result (λ views. AreViewsOf outputs.now mounts.now wants.now views.items) }
{
    let mut views = Vec::new(alloc);
    for (place, mount) in mounts.iter().enumerate() {
        if let Some(folder) = folder_of(alloc, outputs, mount)? {
            let Some(want) = place_of(wants, &folder) else {
                unreachable!();
            };
            views.push(CacheView { mount: place, want })?;
        }
    }
    Ok(views)
}
