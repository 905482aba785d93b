//! Calls that are carried out.
ghost use Rattle.std.specs.Prelude.{◌≡◌, ◌≤◌, ◌⊎◌, ◌∷◌, ℕ, [], true, false, map, Some, None, is_some, IfOk, OnOk, OnErr};
ghost use Rattle.names.specs.Contents.{content_digest};
ghost use Rattle.protocol.specs.Names.{Digest};
ghost use Rattle.nodeasks.specs.Rows.{endings_after};
ghost use Rattle.nodecore.specs.HeldAsks.{IsFewHeld};
ghost use Rattle.nodecore.specs.Shown.{forgets, shown, place, Answers};
ghost use Rattle.nodelines.specs.declared.order.Call.{Call};
ghost use Rattle.nodefilter.specs.Carried.{node_answer, brought_by, forgotten_by, about_told, about_call, SomeStored, CarriesOut};
ghost use Rattle.nodefilter.specs.States.{seen};
ghost use Rattle.nodestore.specs.Stores.{StayKept, AllKept};

use super::filter::NodeFilter;
use events::NodeRefusal;
use farm_base::{Copied, Digest, FromCoord, Items, Left, NodeId, ToNode};
use nodecore::{NodeCore, NodeDone};
use nodelines::{About, Call, Carried};
use nodestore::{Store, StoreFault};
use std::alloc::{AllocError, Global};

/// Makes the call.
fn answer(
    core: &mut NodeCore,
    alloc: Global,
    me: NodeId,
    call: Call,
) -> Result<NodeDone, NodeRefusal>
    ensures done { Answers (node_answer me (place core.old) (shown core.old) call) (shown core.old) (shown core.new) result }
    ensures place { place core.new ≡ place core.old }
    ensures told { forgets core.new ≡ forgets core.old }
{
    match call {
        Call::Receive(message) => core.handle(alloc, &message),
        Call::Ask(wants) => core.ask(alloc, wants),
        Call::Tenure(folder) => core.ask_tenure(alloc, folder),
        Call::Begin(ticket) => core.begin(alloc, ticket),
        Call::Finish(ticket, lefts) => core.finish(alloc, ticket, lefts.into_vec()),
        Call::Abort(ticket) => core.abort(alloc, ticket),
        Call::Resend => core.resend(alloc),
        Call::Bring(content) => core.handle(alloc, &ToNode::Blob { node: me, content }),
        Call::Forget(digest) => core.forget(alloc, digest),
    }
}

/// Makes the call, and forgets how asks ended that are long over.
fn answered(
    core: &mut NodeCore,
    alloc: Global,
    me: NodeId,
    call: Call,
) -> Result<NodeDone, NodeRefusal>
    ensures done { Answers (node_answer me (place core.old) (shown core.old) call) (shown core.old) (shown core.new) result }
    ensures place { place core.new ≡ place core.old }
    ensures late { (a : ℕ) → forgets core.new a ≡ true → (forgets core.old a ≡ true) ⊎ (1024 ≤ endings_after a (shown core.new).asks) }
    ensures few { IsFewHeld core.new }
{
    let answer = answer(core, alloc, me, call);
    core.forget_endings();
    answer
}

/// The digests of what was left.
fn digests_of(alloc: Global, lefts: &[Left]) -> Result<Items<Digest>, AllocError>
    ensures { IfOk result (λ digests. digests ≡ map (λ left. content_digest left.content) lefts.now) }
{
    let mut digests = Vec::new(alloc);
    for left in lefts {
        digests.push(left.content.digest())?;
    }
    Ok(Items::new(digests))
}

/// This digest alone.
fn one(alloc: Global, digest: Digest) -> Result<Items<Digest>, AllocError>
    ensures { IfOk result (λ digests. digests ≡ digest ∷ []) }
{
    let mut digests = Vec::new(alloc);
    digests.push(digest)?;
    Ok(Items::new(digests))
}

/// The digests of the contents that a message brings.
fn brought_in(alloc: Global, message: &ToNode) -> Result<Items<Digest>, AllocError>
    ensures { IfOk result (λ digests. digests ≡ brought_by (Call.Receive message.now)) }
{
    match message {
        ToNode::FromCoord(_) => Ok(Items::new(Vec::new(alloc))),
        ToNode::Fetch(_) => Ok(Items::new(Vec::new(alloc))),
        ToNode::Blob { content, .. } => one(alloc, content.digest()),
    }
}

/// The digests of the contents that the node may store at the call.
fn brought_by(alloc: Global, call: &Call) -> Result<Items<Digest>, AllocError>
    ensures { IfOk result (λ digests. digests ≡ brought_by call.now) }
{
    match call {
        Call::Receive(message) => brought_in(alloc, message),
        Call::Finish(_, lefts) => digests_of(alloc, lefts.as_slice()),
        Call::Bring(content) => one(alloc, content.digest()),
        Call::Forget(_) => Ok(Items::new(Vec::new(alloc))),
        Call::Ask(_) => Ok(Items::new(Vec::new(alloc))),
        Call::Tenure(_) => Ok(Items::new(Vec::new(alloc))),
        Call::Begin(_) => Ok(Items::new(Vec::new(alloc))),
        Call::Abort(_) => Ok(Items::new(Vec::new(alloc))),
        Call::Resend => Ok(Items::new(Vec::new(alloc))),
    }
}

/// What the coordinator's message is about.
fn about_told(alloc: Global, told: &FromCoord) -> Result<About, AllocError>
    ensures { IfOk result (λ about. about ≡ about_told told.now) }
{
    match told {
        FromCoord::Granted(_) => Ok(About::Nothing),
        FromCoord::Committed { versions, .. } => Ok(About::Versions(versions.copy(alloc)?)),
        FromCoord::Fenced { .. } => Ok(About::Nothing),
        FromCoord::Denied { ask, .. } => Ok(About::OfAsk(*ask)),
        FromCoord::Recall { .. } => Ok(About::Nothing),
    }
}

/// What a call is about.
fn about_call(alloc: Global, call: &Call) -> Result<About, AllocError>
    ensures { IfOk result (λ about. about ≡ about_call call.now) }
{
    match call {
        Call::Receive(ToNode::FromCoord(told)) => about_told(alloc, told),
        Call::Receive(ToNode::Fetch(_)) => Ok(About::Nothing),
        Call::Receive(ToNode::Blob { .. }) => Ok(About::Nothing),
        Call::Ask(_) => Ok(About::Nothing),
        Call::Tenure(_) => Ok(About::Nothing),
        Call::Begin(_) => Ok(About::Nothing),
        Call::Finish(_, _) => Ok(About::Nothing),
        Call::Abort(_) => Ok(About::Nothing),
        Call::Resend => Ok(About::Nothing),
        Call::Bring(_) => Ok(About::Nothing),
        Call::Forget(_) => Ok(About::Nothing),
    }
}

/// The digest of the content that the node is to store no longer.
fn forgotten_by(call: &Call) -> Option<Digest>
    ensures { result ≡ forgotten_by call.now }
{
    match call {
        Call::Receive(_) => None,
        Call::Ask(_) => None,
        Call::Tenure(_) => None,
        Call::Begin(_) => None,
        Call::Finish(_, _) => None,
        Call::Abort(_) => None,
        Call::Resend => None,
        Call::Bring(_) => None,
        Call::Forget(digest) => Some(*digest),
    }
}

/// Keeps those of these contents that the node stores.
fn keep_each<S: Store>(store: &mut S, core: &NodeCore, digests: &[Digest]) -> Result<(), StoreFault>
    ensures kept { OnOk result (AllKept S.kept (shown core.now).store digests.now store.new) }
    ensures fails { OnErr result (SomeStored (shown core.now).store digests.now) }
    ensures others { StayKept S.kept None store.old store.new }
    ensures life { S.last_life store.new ≡ S.last_life store.old }
{
    for digest in digests {
        if let Some(content) = core.content(digest) {
            store.keep(content)?;
        }
    }
    Ok(())
}

/// Keeps what the node stored at a call that it did, or no longer what it forgot. Tells whether that lasts.
fn keep_changes<S: Store>(
    store: &mut S,
    core: &NodeCore,
    brought: &[Digest],
    gone: Option<Digest>,
    done: bool,
) -> bool
    ensures others { StayKept S.kept gone store.old store.new }
    ensures life { S.last_life store.new ≡ S.last_life store.old }
    ensures fails { result ≡ false → (done ≡ true) × (SomeStored (shown core.now).store brought.now ⊎ (is_some gone ≡ true)) }
    ensures kept { result ≡ true → done ≡ true → gone ≡ None → AllKept S.kept (shown core.now).store brought.now store.new }
    ensures dropped { result ≡ true → done ≡ true → (d : Digest) → gone ≡ Some d → S.kept store.new d ≡ false }
    ensures idle { done ≡ false → (result ≡ true) × (store.new ≡ store.old) }
{
    if !done {
        return true;
    }
    match gone {
        Some(digest) => store.forget(digest).is_ok(),
        None => keep_each(store, core, brought).is_ok(),
    }
}

/// Carries a call out, and keeps what the node stored.
pub(crate) fn carry_out<S: Store>(
    filter: &mut NodeFilter<S>,
    alloc: Global,
    call: Call,
) -> Result<Carried, AllocError>
    requires { filter.old.down ≡ false }
    ensures done { IfOk result (λ carried. CarriesOut S.kept S.last_life call (seen filter.old) (seen filter.new) carried.answer) }
    ensures about { IfOk result (λ carried. carried.about ≡ about_call call) }
    ensures stopped { OnErr result (seen filter.new ≡ seen filter.old) }
{
    let about = about_call(alloc, &call)?;
    let brought = brought_by(alloc, &call)?;
    let gone = forgotten_by(&call);
    let answer = answered(&mut filter.core, alloc, filter.me, call);
    let done = answer.is_ok();
    let kept = keep_changes(
        &mut filter.store,
        &filter.core,
        brought.as_slice(),
        gone,
        done,
    );
    filter.down = !kept;
    Ok(Carried { about, answer })
}
