ghost use Rattle.std.specs.Prelude.{◌≡◌, ◌<◌, ◌≤◌, ◌+◌, ◌↔◌, ◌∷◌, [], false, length, Any, IfOk, IfSome, IfNone, IsTrue, OnOk, Some, Contains, slice_get};
ghost use Rattle.std.specs.List.{All, IsDistinct};
ghost use Rattle.names.specs.declared.folder.Mode.TheVariants.{Shared};
ghost use Rattle.farm_base.specs.declared.want.Want.{Want as SpecWant};
ghost use Rattle.names.specs.Folders.{folder_eq};
ghost use Rattle.farm_base.specs.Wanted.{folders};
ghost use Rattle.vertices.specs.OpChecks.{cache_count};
ghost use Rattle.solverkeys.specs.GraphKeys.{AreKeys};
ghost use Rattle.cachemounts.specs.CacheFolders.{HasFolder};
ghost use Rattle.cachemounts.specs.CacheWants.{AreWantsOf, AreWants};
ghost use Rattle.cachemounts.specs.Adding.{Adds};
ghost use Rattle.cachemounts.specs.Checked.{IsChecked};

use super::folder::folder_of;
use super::mounted::Mounted;
use farm_base::{Base, FolderName, Key, Mode, Want, Wants};
use opsproto::Mount;
use std::alloc::{AllocError, Global};
use vertices::Graph;

/// What the vertex of a number wants: the folders of its cache mounts, where the graph has these
/// solver keys. A folder is named by the cache option's ID, or the mount's dest where that is empty;
/// by its sharing; and by the output that the mount's input takes, if it has one. Mounts of the same
/// folder are one want, which is writable unless each of them is readonly. A vertex that isn't an
/// exec op wants nothing.
pub fn wants(alloc: Global, graph: &Graph, vertex: usize, keys: &[Key]) -> Result<Wants, AllocError>
    requires vertex { vertex < length graph.now.vertices }
    requires keys { AreKeys graph.now keys.now }
    ensures { IfOk result (AreWants graph.now keys.now vertex) }
{
    let mounted = Mounted::of(alloc, graph, vertex, keys)?;
    wants_of_mounts(alloc, mounted.outputs(), mounted.mounts())
}

/// Whether one of the wants is SHARED, so that they need a home.
pub fn needs_home(wants: &Wants) -> bool
    ensures { IsTrue result ↔ Any (λ want. want.folder.mode ≡ Shared) wants.now }
{
    wants
        .as_slice()
        .iter()
        .any(|want| matches!(want.folder.mode, Mode::Shared))
}

/// The place of a folder in some wants.
pub(crate) fn place_of(wants: &[Want], folder: &FolderName) -> Option<usize>
    ensures found { IfSome result (λ place. (want : SpecWant) × (slice_get wants.now place ≡ Some want) × (want.folder ≡ folder.now)) }
    ensures none { IfNone result (¬ Contains (folders wants.now) folder.now) }
{
    for (place, want) in wants.iter().enumerate() {
        if want.folder == *folder {
            return Some(place);
        }
    }
    None
}

/// The wants of some mounts of a vertex whose inputs take these outputs.
fn wants_of_mounts(alloc: Global, outputs: &[Base], mounts: &[Mount]) -> Result<Wants, AllocError>
    requires checked { All (IsChecked (length outputs.now)) mounts.now }
    requires few { cache_count mounts.now ≤ 16 }
    ensures { IfOk result (AreWantsOf outputs.now mounts.now) }
{
    let mut wants = Vec::new(alloc);
    for mount in mounts {
        add_mount(alloc, &mut wants, outputs, mount)?;
    }
    match Wants::of(wants) {
        Ok(wants) => Ok(wants),
        Err(_) => unreachable!(),
    }
}

/// Adds the folder of a mount, where it is a cache mount.
fn add_mount(
    alloc: Global,
    wants: &mut Vec<Want>,
    outputs: &[Base],
    mount: &Mount,
) -> Result<(), AllocError>
    requires { IsChecked (length outputs.now) mount.now }
    ensures adds { OnOk result (Adds (HasFolder outputs.now mount.now)
        (λ folder. HasFolder outputs.now mount.now folder × (mount.now.readonly ≡ false)) wants.old.items wants.new.items) }
    ensures distinct { OnOk result (IsDistinct folder_eq (folders wants.old.items) → IsDistinct folder_eq (folders wants.new.items)) }
    ensures count { OnOk result (length wants.new.items ≤ length wants.old.items + cache_count (mount.now ∷ [])) }
{
    match folder_of(alloc, outputs, mount)? {
        Some(folder) => add_folder(wants, folder, !mount.readonly),
        None => Ok(()),
    }
}

/// Adds a folder, or makes it writable where it is one of the wants.
fn add_folder(wants: &mut Vec<Want>, folder: FolderName, writable: bool) -> Result<(), AllocError>
    ensures adds { OnOk result (Adds (λ other. folder ≡ other) (λ other. (folder ≡ other) × IsTrue writable) wants.old.items wants.new.items) }
    ensures distinct { OnOk result (IsDistinct folder_eq (folders wants.old.items) → IsDistinct folder_eq (folders wants.new.items)) }
    ensures count { OnOk result (length wants.new.items ≤ length wants.old.items + 1) }
{
    match place_of(wants.as_slice(), &folder) {
        Some(place) => {
            if writable {
                let want = &mut wants[place];
                want.writable = true;
            }
        }
        None => wants.push(Want { folder, writable })?,
    }
    Ok(())
}
