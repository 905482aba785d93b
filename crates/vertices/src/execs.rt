ghost use Rattle.std.specs.Prelude.{◌≡◌, map, codes, IsTrue, ◌↔◌, Contains};
ghost use Rattle.vertices.specs.Outcomes.{Each, refused};
ghost use Rattle.vertices.specs.OpChecks.{IsMountInput, MountCheck, CacheCheck, ExecCheck, KindCheck, cache_count};

use super::refusal::LoadRefusal;
use opsproto::{CacheOpt, ExecOp, Kind, LentText, Meta, Mount};

/// The mount type of a cache.
const CACHE: i32 = 3;

/// The greatest number of cache mounts of a vertex.
const CACHE_MOUNTS: usize = 16;

/// Checks what a vertex does, by its number of inputs.
pub(crate) fn check_kind(
    place: usize,
    inputs: usize,
    kind: &Kind<LentText<'_>>,
) -> Result<(), LoadRefusal>
    ensures { KindCheck place inputs kind.now (refused result) }
{
    match kind {
        Kind::Exec(exec) => check_exec(place, inputs, exec),
        Kind::Opaque(_) => Ok(()),
        Kind::Bare => Err(LoadRefusal::NoOp(place)),
    }
}

fn check_exec(place: usize, inputs: usize, exec: &ExecOp<LentText<'_>>) -> Result<(), LoadRefusal>
    ensures { ExecCheck place inputs exec.now (refused result) }
{
    let Some(meta) = &exec.meta else {
        return Err(LoadRefusal::NoMeta(place));
    };
    if meta.args.as_slice().is_empty() {
        return Err(LoadRefusal::NoArgs(place));
    }
    let mounts = exec.mounts.as_slice();
    if mounts.is_empty() {
        return Err(LoadRefusal::NoMounts(place));
    }
    if !has_root(mounts) {
        return Err(LoadRefusal::NoRoot(place));
    }
    check_mounts(place, inputs, mounts)?;
    if count_caches(mounts) > CACHE_MOUNTS {
        return Err(LoadRefusal::TooManyCacheMounts(place));
    }
    Ok(())
}

/// Whether a mount is at `/`.
fn has_root(mounts: &[Mount<LentText<'_>>]) -> bool
    ensures { IsTrue result ↔ Contains (map (λ mount. mount.dest) mounts.now) (codes "/") }
{
    for mount in mounts {
        if mount.dest.as_str() == "/" {
            return true;
        }
    }
    false
}

/// How many mounts are caches.
fn count_caches(mounts: &[Mount<LentText<'_>>]) -> usize
    ensures { result ≡ cache_count mounts.now }
{
    mounts
        .iter()
        .filter(|mount| mount.mount_type == CACHE)
        .count()
}

fn check_mounts(
    place: usize,
    inputs: usize,
    mounts: &[Mount<LentText<'_>>],
) -> Result<(), LoadRefusal>
    ensures { Each (MountCheck place inputs) mounts.now (refused result) }
{
    for mount in mounts {
        check_mount(place, inputs, mount)?;
    }
    Ok(())
}

fn check_mount(place: usize, inputs: usize, mount: &Mount<LentText<'_>>) -> Result<(), LoadRefusal>
    ensures { MountCheck place inputs mount.now (refused result) }
{
    if !is_mount_input(mount.input, inputs) {
        return Err(LoadRefusal::BadMountInput(place));
    }
    if mount.mount_type == CACHE {
        check_cache(place, &mount.cache)
    } else {
        Ok(())
    }
}

/// Whether a mount has no input, or one of the vertex's.
fn is_mount_input(input: i64, inputs: usize) -> bool
    ensures { IsTrue result ↔ IsMountInput input inputs }
{
    match u64::try_from(input) {
        Ok(place) => place < inputs as u64,
        Err(_) => input == -1,
    }
}

fn check_cache(place: usize, cache: &Option<CacheOpt<LentText<'_>>>) -> Result<(), LoadRefusal>
    ensures { CacheCheck place cache.now (refused result) }
{
    let Some(cache) = cache else {
        return Err(LoadRefusal::NoCacheOpt(place));
    };
    let sharing = cache.sharing;
    if (0..=2).contains(&sharing) {
        Ok(())
    } else {
        Err(LoadRefusal::UnknownSharing(place, sharing))
    }
}
