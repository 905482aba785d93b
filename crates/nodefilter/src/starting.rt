//! How the process of a node begins.
ghost use Rattle.std.specs.Prelude.{◌≡◌, ◌++◌, ◌↔◌, true, false, [], All, Err, IfOk, OnOk};
ghost use Rattle.std.specs.List.{flat_map};
ghost use Rattle.std.specs.String.{string_bytes};
ghost use Rattle.names.specs.Contents.{content_digest};
ghost use Rattle.nodecontents.specs.Stored.{kept_node};
ghost use Rattle.protocol.specs.Farm.{farm_limits};
ghost use Rattle.protocol.specs.Nodes.{may_restart};
ghost use Rattle.nodelines.specs.declared.about.About.TheVariants as about;
ghost use Rattle.nodelines.specs.Written.{IsDone};
ghost use Rattle.nodefilter.specs.Starts.{skipped_fact, Begins};
ghost use Rattle.farmwire.specs.Sealed.{key_in};

use super::filter::NodeFilter;
use farm_base::{Content, Digest, Key, Life, NodeId};
use farmwire::Keyring;
use nodecore::{KeptContents, NodeCore, NodeDone, ResumeRefusal};
use nodelines::{About, print_done};
use nodestore::Store;
use std::alloc::{AllocError, Global};
use thiserror::Error;

/// What the process of a node begins from.
#[derive(Drop)]
pub struct Origin<S: Store> {
    pub me: NodeId,
    /// The greatest number of a node that the farm will have.
    pub nodes: u32,
    pub keys: Keyring,
    pub store: S,
    /// What the store kept.
    pub contents: Vec<Content>,
    /// The digests of contents that the store has in name alone: the greeting tells them.
    pub skipped: Vec<Digest>,
    /// The last life of the node, or any greater one that no process had.
    pub last: Life,
}

/// Why the process of a node doesn't begin.
#[derive(Clone, Copy, Debug, PartialEq, Eq, Error)]
pub enum StartFault {
    #[error("the greatest life has begun: the node is down for good")]
    LivesSpent,
    #[error("the life could not be kept")]
    NotKept,
    #[error("out of memory")]
    OutOfMemory,
}

/// A node that is up, and what it writes first.
#[derive(Drop)]
pub struct Started<S: Store> {
    pub filter: NodeFilter<S>,
    pub greeting: String,
}

/// Adds the fact of a content whose file has other bytes.
fn push_skipped(alloc: Global, facts: &mut String, digest: Digest) -> Result<(), AllocError>
    ensures { OnOk result (string_bytes facts.new ≡ string_bytes facts.old ++ skipped_fact digest) }
{
    let digits = Key(digest).to_text(alloc)?;
    facts.push_str(": skipped ")?;
    facts.push_str(digits.as_str())?;
    facts.push_str("\n")
}

/// The facts of all of them.
fn skipped_facts(alloc: Global, skipped: &[Digest]) -> Result<String, AllocError>
    ensures { IfOk result (λ facts. string_bytes facts ≡ flat_map skipped_fact skipped.now) }
{
    let mut facts = String::new(alloc);
    for digest in skipped {
        push_skipped(alloc, &mut facts, *digest)?;
    }
    Ok(facts)
}

/// What a node writes first.
fn greeting(
    alloc: Global,
    keys: &Keyring,
    skipped: &[Digest],
    done: NodeDone,
) -> Result<String, AllocError>
    ensures { IfOk result (λ text. IsDone (key_in keys.now) (flat_map skipped_fact skipped.now) about.Nothing done (string_bytes text)) }
{
    let facts = skipped_facts(alloc, skipped)?;
    print_done(alloc, keys, facts.as_str(), &About::Nothing, done)
}

/// Begins the life after the last one: it is kept before its greeting is handed out. The executions of the last one have to be over.
pub fn start<S: Store>(alloc: Global, origin: Origin<S>) -> Result<Started<S>, StartFault>
    requires { All (λ content. S.kept origin.store (content_digest content) ≡ true) origin.contents.items }
    ensures begun { IfOk result (Begins S.kept S.last_life origin) }
    ensures spent { (result ≡ Err StartFault.LivesSpent) ↔ (may_restart farm_limits (kept_node origin.last origin.contents.items []) ≡ false) }
{
    let Origin {
        me,
        nodes,
        keys,
        mut store,
        contents,
        skipped,
        last,
    } = origin;
    let kept = KeptContents {
        contents,
        versions: Vec::new(alloc),
    };
    let (core, done) = match NodeCore::resume(alloc, me, nodes, last, kept) {
        Ok(resumed) => resumed,
        Err(ResumeRefusal::LivesSpent) => return Err(StartFault::LivesSpent),
        Err(_) => return Err(StartFault::OutOfMemory),
    };
    if store.keep_life(core.life()).is_err() {
        return Err(StartFault::NotKept);
    }
    let Ok(greeting) = greeting(alloc, &keys, skipped.as_slice(), done) else {
        return Err(StartFault::OutOfMemory);
    };
    let filter = NodeFilter {
        core,
        me,
        keys,
        store,
        down: false,
    };
    Ok(Started { filter, greeting })
}
