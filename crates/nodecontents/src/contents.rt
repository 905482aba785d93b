ghost use Rattle.std.specs.Prelude.{◌≡◌, ◌≤◌, ◌<◌, ◌+◌, ◌≢◌, IfOk, OnOk, map, vec_len};
ghost use Rattle.indexmap.specs.IndexMap.{spare};
ghost use Rattle.protocol.specs.Machine.{slots_of, written};
ghost use Rattle.protocol.specs.Names.{slots_eq};
ghost use Rattle.protocol.specs.Nodes.{news_of};
ghost use Rattle.protocol.specs.World.{first_node, learn};
ghost use Rattle.names.specs.Contents.{content_digest};
ghost use Rattle.nodecontents.specs.Stored.{base_of, version_of};
ghost use Rattle.nodecontents.specs.Stored.{agree_on, agrees, known_in, learn_all, HaveOneDigestEach};

use super::kept::ResumeRefusal;
use farm_base::{Confirmed, Copied, Digest, GrantedSlot, Items, Left, News, Version};
use indexmap::IndexMap;
use std::alloc::{AllocError, Global};

/// The base versions of granted slots.
pub fn bases(alloc: Global, slots: &[GrantedSlot]) -> Result<Vec<(Version, Digest)>, AllocError>
    ensures { IfOk result (λ bases. bases.items ≡ map base_of slots.now) }
{
    let mut bases = Vec::with_capacity(alloc, slots.len())?;
    for slot in slots {
        let version = Version {
            slot: slot.slot.copy(alloc)?,
            number: slot.base,
        };
        bases.push((version, slot.digest))?;
    }
    Ok(bases)
}

/// The versions that a confirmation names.
pub fn confirmed(
    alloc: Global,
    versions: &[Confirmed],
) -> Result<Vec<(Version, Digest)>, AllocError>
    ensures { IfOk result (λ named. named.items ≡ map version_of versions.now) }
{
    let mut named = Vec::with_capacity(alloc, versions.len())?;
    for confirmed in versions {
        let version = Version {
            slot: confirmed.slot.copy(alloc)?,
            number: confirmed.number,
        };
        named.push((version, confirmed.digest))?;
    }
    Ok(named)
}

/// Learns the digest of a version, in the room that is there, and answers whether no other digest was known.
fn learn_one(known: &mut IndexMap<Version, Digest>, version: Version, digest: Digest) -> bool
    requires { 0 < spare known.old }
    ensures agrees { result ≡ agrees (known_in known.old version.slot version.number) digest }
    ensures known { known_in known.new ≡ learn version.slot version.number digest (known_in known.old) }
    ensures spare { spare known.old ≤ spare known.new + 1 }
{
    match known.insert(version, digest) {
        Ok(Some(old)) => old == digest,
        _ => true,
    }
}

/// Learns the digests of versions, in the room that is there, and answers whether none had two.
fn learn_agreed(known: &mut IndexMap<Version, Digest>, versions: Vec<(Version, Digest)>) -> bool
    requires { vec_len versions ≤ spare known.old }
    ensures agree { result ≡ agree_on versions.items (known_in known.old) }
    ensures known { known_in known.new ≡ learn_all versions.items (known_in known.old) }
{
    let mut agree = true;
    for (version, digest) in versions {
        agree = learn_one(known, version, digest) && agree;
    }
    agree
}

/// Learns the digests of versions, in the room that is there.
pub fn learn(known: &mut IndexMap<Version, Digest>, versions: Vec<(Version, Digest)>)
    requires { vec_len versions ≤ spare known.old }
    ensures { known_in known.new ≡ learn_all versions.items (known_in known.old) }
{
    let _ = learn_agreed(known, versions);
}

/// The versions that a process kept.
pub fn known_from(
    alloc: Global,
    versions: Vec<(Version, Digest)>,
) -> Result<IndexMap<Version, Digest>, ResumeRefusal>
    ensures known { IfOk result (λ known. known_in known ≡ learn_all versions.items (first_node content_digest).known) }
    ensures agree { OnOk result (HaveOneDigestEach versions.items) }
    ensures two { result ≡ Err ResumeRefusal.TwoDigests → ¬ HaveOneDigestEach versions.items }
    ensures spent { result ≢ Err ResumeRefusal.LivesSpent }
{
    let Ok(mut known) = IndexMap::with_capacity(alloc, versions.len()) else {
        return Err(ResumeRefusal::OutOfMemory);
    };
    if !learn_agreed(&mut known, versions) {
        return Err(ResumeRefusal::TwoDigests);
    }
    Ok(known)
}

/// The news of what an execution leaves.
pub fn news_of(alloc: Global, lefts: &[Left]) -> Result<Items<News>, AllocError>
    ensures { IfOk result (λ news. news ≡ news_of content_digest lefts.now) }
{
    let mut news = Vec::with_capacity(alloc, lefts.len())?;
    for left in lefts {
        news.push(News {
            slot: left.slot.copy(alloc)?,
            digest: left.content.digest(),
        })?;
    }
    Ok(Items::new(news))
}

/// Whether an execution leaves exactly the slots that it may write, in their order.
pub fn fits(lefts: &[Left], slots: &[GrantedSlot]) -> bool
    ensures { result ≡ slots_eq (slots_of (news_of content_digest lefts.now)) (written slots.now) }
{
    let mut rest = lefts;
    for slot in slots {
        if slot.writable {
            let [left, others @ ..] = rest else {
                return false;
            };
            if left.slot != slot.slot {
                return false;
            }
            rest = others;
        }
    }
    rest.is_empty()
}
