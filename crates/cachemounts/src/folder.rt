ghost use Rattle.std.specs.Prelude.{◌≡◌, length, IfOk, MatchOption};
ghost use Rattle.vertices.specs.OpChecks.{IsCache, IsSharing};
ghost use Rattle.cachemounts.specs.CacheFolders.{id_or_dest, sharing_of, base_of, HasFolder};
ghost use Rattle.cachemounts.specs.Checked.{IsChecked};

use farm_base::{Base, Copied, FolderName, Mode, Text};
use opsproto::Mount;
use std::alloc::{AllocError, Global};

/// The mount type CACHE of ops.proto.
const CACHE: i32 = 3;

/// The folder of a mount, if it is a cache mount. The inputs of its vertex take these outputs.
pub(crate) fn folder_of(
    alloc: Global,
    outputs: &[Base],
    mount: &Mount,
) -> Result<Option<FolderName>, AllocError>
    requires { IsChecked (length outputs.now) mount.now }
    ensures { IfOk result (λ folder. MatchOption folder (¬ IsCache mount.now) (HasFolder outputs.now mount.now)) }
{
    if mount.mount_type != CACHE {
        return Ok(None);
    }
    let Some(cache) = &mount.cache else {
        unreachable!();
    };
    Ok(Some(FolderName {
        id: id_or_dest(alloc, &cache.id, &mount.dest)?,
        mode: mode_of(cache.sharing),
        base: base_of(outputs, mount.input),
    }))
}

/// The id, or where it is empty the dest.
fn id_or_dest(alloc: Global, id: &Text, dest: &Text) -> Result<Text, AllocError>
    ensures { IfOk result (λ text. text ≡ id_or_dest id.now dest.now) }
{
    if id.as_str().is_empty() {
        dest.copy(alloc)
    } else {
        id.copy(alloc)
    }
}

/// The mode of a sharing of ops.proto.
fn mode_of(sharing: i32) -> Mode
    requires { IsSharing sharing }
    ensures { sharing_of result ≡ sharing }
{
    match sharing {
        0 => Mode::Shared,
        1 => Mode::Private,
        2 => Mode::Locked,
        _ => unreachable!(),
    }
}

/// The output that the input of a mount takes, if it has one.
fn base_of(outputs: &[Base], input: i64) -> Option<Base>
    ensures { result ≡ base_of outputs.now input }
{
    let place = usize::try_from(input).ok()?;
    outputs.get(place).copied()
}
