//! An ask of a node's present life.
ghost use Rattle.std.specs.Prelude.{◌≡◌, IfOk, is_some, option_copied};
ghost use Rattle.std.specs.List.{list_any};
ghost use Rattle.names.specs.Digests.{digest_eq};
ghost use Rattle.protocol.specs.Names.{Want};
ghost use Rattle.protocol.specs.World.{keeps};
ghost use Rattle.protocol.specs.Nodes.{wants_folder, is_tenure_of, is_home_of, uses, held, running, finished, recallable, is_base, needs};
ghost use Rattle.events.specs.declared.answer.How.{How};
ghost use Rattle.events.specs.declared.ask.KeptAsk.{KeptAsk};
ghost use Rattle.nodeasks.specs.Asks.{changed, ends_with, holds, is_open, is_sought, lease_in, recalls, runs, slots_in, told_state, way_out};
ghost use Rattle.nodeasks.specs.Rows.{is_over};

use super::ask_state::AskState;
use events::{How, KeptAsk};
use farm_base::{Copied, Digest, FolderName, Grant, GrantedSlot, Items, News, Ticket, Want};
use std::alloc::{AllocError, Global};
use std::mem;

/// How an ask stands that is sought by its ticket.
#[derive(Clone, Copy)]
pub enum Sought {
    /// Granted, and not begun.
    Held,
    Running,
    HeldOrRunning,
    /// Its news were sent.
    Finished,
    /// A tenure that is granted or running and was not recalled.
    Recallable,
}

/// What happens to an ask. It changes no ask that stands otherwise than is said.
#[derive(Drop)]
pub enum AskChange {
    /// An open ask is granted.
    Grant(Grant),
    /// A granted ask begins.
    Begin,
    /// A running ask ends with these news.
    Finish(Items<News>),
    /// An ask that is granted or running is recalled.
    Recall,
    /// An ask is over, however it stands.
    End(How),
}

/// Whether a want is of the folder.
fn wants_folder(wants: &[Want], folder: &FolderName) -> bool
    ensures { result ≡ wants_folder folder.now wants.now }
{
    wants.iter().any(|want| want.folder == *folder)
}

/// Whether the digest is the base of one of the slots.
fn is_base(slots: &[GrantedSlot], digest: Digest) -> bool
    ensures { result ≡ list_any (λ u. digest_eq u.digest digest) slots.now }
{
    slots.iter().any(|slot| slot.digest == digest)
}

/// Whether one of the news has the digest.
fn has_news(news: &[News], digest: Digest) -> bool
    ensures { result ≡ list_any (λ y. digest_eq y.digest digest) news.now }
{
    news.iter().any(|news| news.digest == digest)
}

/// What callers are told of the ask.
pub fn told(ask: &KeptAsk, alloc: Global) -> Result<AskState, AllocError>
    ensures { IfOk result (λ state. state ≡ told_state ask.now) }
{
    Ok(match ask {
        KeptAsk::Open { .. } => AskState::Pending,
        KeptAsk::Holding { grant, .. } => AskState::Granted(grant.copy(alloc)?),
        KeptAsk::Running { grant, .. } => AskState::Running(grant.copy(alloc)?),
        KeptAsk::Finished { grant, .. } => AskState::Finished(grant.ticket),
        KeptAsk::Over(how) => AskState::Over(how.copy(alloc)?),
    })
}

/// Whether the ask is a tenure of the folder, and is present.
pub(crate) fn is_tenure_of(ask: &KeptAsk, folder: &FolderName) -> bool
    ensures { result ≡ is_tenure_of folder.now ask.now }
{
    match ask {
        KeptAsk::Open { wants, tenure } => *tenure && wants_folder(wants.as_slice(), folder),
        KeptAsk::Holding { wants, grant, .. } => {
            grant.kind.is_tenure() && wants_folder(wants.as_slice(), folder)
        }
        KeptAsk::Running { wants, grant, .. } => {
            grant.kind.is_tenure() && wants_folder(wants.as_slice(), folder)
        }
        KeptAsk::Finished { wants, grant, .. } => {
            grant.kind.is_tenure() && wants_folder(wants.as_slice(), folder)
        }
        KeptAsk::Over(_) => false,
    }
}

/// Whether the ask is a tenure of the folder that is in use and not recalled.
pub(crate) fn is_home_of(ask: &KeptAsk, folder: &FolderName) -> bool
    ensures { result ≡ is_home_of folder.now ask.now }
{
    match ask {
        KeptAsk::Running {
            wants,
            grant,
            recalled,
        } => { !*recalled && grant.kind.is_tenure() && wants_folder(wants.as_slice(), folder) }
        _ => false,
    }
}

/// Whether the ask wants the folder, and is open, granted or running.
fn uses(ask: &KeptAsk, folder: &FolderName) -> bool
    ensures { result ≡ uses folder.now ask.now }
{
    match ask {
        KeptAsk::Open { wants, .. } => wants_folder(wants.as_slice(), folder),
        KeptAsk::Holding { wants, .. } => wants_folder(wants.as_slice(), folder),
        KeptAsk::Running { wants, .. } => wants_folder(wants.as_slice(), folder),
        KeptAsk::Finished { .. } => false,
        KeptAsk::Over(_) => false,
    }
}

/// Whether the ask uses one of the folders.
pub(crate) fn uses_some(ask: &KeptAsk, wants: &[Want]) -> bool
    ensures { result ≡ list_any (λ w. uses w.folder ask.now) wants.now }
{
    wants.iter().any(|want| uses(ask, &want.folder))
}

/// Whether the ask is granted under the ticket, and not begun.
fn is_held(ask: &KeptAsk, ticket: Ticket) -> bool
    ensures { result ≡ is_some (held ticket ask.now) }
{
    match ask {
        KeptAsk::Holding { grant, .. } => grant.ticket.0 == ticket.0,
        _ => false,
    }
}

/// Whether the ask runs under the ticket.
fn is_running(ask: &KeptAsk, ticket: Ticket) -> bool
    ensures { result ≡ is_some (running ticket ask.now) }
{
    match ask {
        KeptAsk::Running { grant, .. } => grant.ticket.0 == ticket.0,
        _ => false,
    }
}

/// Whether the news of the ask were sent under the ticket.
fn is_finished(ask: &KeptAsk, ticket: Ticket) -> bool
    ensures { result ≡ is_some (finished ticket ask.now) }
{
    match ask {
        KeptAsk::Finished { grant, .. } => grant.ticket.0 == ticket.0,
        _ => false,
    }
}

/// Whether the ask is the tenure under the ticket, granted or running and not recalled.
fn is_recallable(ask: &KeptAsk, ticket: Ticket) -> bool
    ensures { result ≡ is_some (recallable ticket ask.now) }
{
    match ask {
        KeptAsk::Holding {
            grant,
            recalled,
            ..
        } => { grant.ticket.0 == ticket.0 && grant.kind.is_tenure() && !*recalled }
        KeptAsk::Running {
            grant,
            recalled,
            ..
        } => { grant.ticket.0 == ticket.0 && grant.kind.is_tenure() && !*recalled }
        _ => false,
    }
}

/// Whether the ask has its lease under the ticket, and stands so.
pub(crate) fn is_sought(ask: &KeptAsk, sought: Sought, ticket: Ticket) -> bool
    ensures { result ≡ is_sought sought ticket ask.now }
{
    match sought {
        Sought::Held => is_held(ask, ticket),
        Sought::Running => is_running(ask, ticket),
        Sought::HeldOrRunning => is_held(ask, ticket) || is_running(ask, ticket),
        Sought::Finished => is_finished(ask, ticket),
        Sought::Recallable => is_recallable(ask, ticket),
    }
}

/// Whether the digest is the base of the ask, which is granted and not begun.
pub(crate) fn has_base(ask: &KeptAsk, digest: Digest) -> bool
    ensures { result ≡ is_base digest ask.now }
{
    match ask {
        KeptAsk::Holding { grant, .. } => is_base(grant.slots.as_slice(), digest),
        _ => false,
    }
}

/// Whether the ask needs the content of the digest: as a base of its grant until it has finished, and then as one of
/// its news.
pub(crate) fn needs(ask: &KeptAsk, digest: Digest) -> bool
    ensures { result ≡ needs digest ask.now }
{
    match ask {
        KeptAsk::Holding { grant, .. } => is_base(grant.slots.as_slice(), digest),
        KeptAsk::Running { grant, .. } => is_base(grant.slots.as_slice(), digest),
        KeptAsk::Finished { news, .. } => has_news(news.as_slice(), digest),
        _ => false,
    }
}

/// Whether nothing was heard of the ask.
pub fn is_open(ask: &KeptAsk) -> bool
    ensures { result ≡ is_open ask.now }
{
    matches!(ask, KeptAsk::Open { .. })
}

/// Whether the ask has its lease under the ticket, and the lease's end isn't known.
pub fn keeps(ask: &KeptAsk, ticket: Ticket) -> bool
    ensures { result ≡ keeps ask.now ticket }
{
    match ask {
        KeptAsk::Holding { grant, .. } => grant.ticket.0 == ticket.0,
        KeptAsk::Running { grant, .. } => grant.ticket.0 == ticket.0,
        KeptAsk::Finished { grant, .. } => grant.ticket.0 == ticket.0,
        _ => false,
    }
}

/// The slots of an ask that is granted or running, none of another.
pub fn slots(ask: &KeptAsk) -> &[GrantedSlot]
    ensures { result.now ≡ slots_in ask.now }
{
    match ask {
        KeptAsk::Holding { grant, .. } => grant.slots.as_slice(),
        KeptAsk::Running { grant, .. } => grant.slots.as_slice(),
        _ => &[],
    }
}

/// The lease of an ask that is granted or running.
pub fn lease(ask: &KeptAsk) -> Option<&Grant>
    ensures { option_copied result ≡ lease_in ask.now }
{
    match ask {
        KeptAsk::Holding { grant, .. } => Some(grant),
        KeptAsk::Running { grant, .. } => Some(grant),
        _ => None,
    }
}

/// How an ask ended, if it is over.
pub fn way_out(ask: &KeptAsk) -> Option<&How>
    ensures { option_copied result ≡ way_out ask.now }
{
    match ask {
        KeptAsk::Over(how) => Some(how),
        _ => None,
    }
}

/// What stands in an ask's place while it changes.
fn nobody() -> KeptAsk
    ensures { result ≡ KeptAsk.Over (How.Released (record { 0 = 0 })) }
{
    KeptAsk::Over(How::Released(Ticket(0)))
}

/// An open ask is granted.
fn hold(ask: &mut KeptAsk, grant: Grant)
    ensures { ask.new ≡ holds grant ask.old }
{
    *ask = match mem::replace(ask, nobody()) {
        KeptAsk::Open { wants, .. } => KeptAsk::Holding {
            wants,
            grant,
            recalled: false,
        },
        other => other,
    };
}

/// A granted ask begins.
fn begin(ask: &mut KeptAsk)
    ensures { ask.new ≡ runs ask.old }
{
    *ask = match mem::replace(ask, nobody()) {
        KeptAsk::Holding {
            wants,
            grant,
            recalled,
        } => KeptAsk::Running {
            wants,
            grant,
            recalled,
        },
        other => other,
    };
}

/// A running ask ends with these news.
fn finish(ask: &mut KeptAsk, news: Items<News>)
    ensures { ask.new ≡ ends_with news ask.old }
{
    *ask = match mem::replace(ask, nobody()) {
        KeptAsk::Running { wants, grant, .. } => KeptAsk::Finished { wants, grant, news },
        other => other,
    };
}

/// An ask that is granted or running is recalled.
fn recall(ask: &mut KeptAsk)
    ensures { ask.new ≡ recalls ask.old }
{
    match ask {
        KeptAsk::Holding { recalled, .. } => *recalled = true,
        KeptAsk::Running { recalled, .. } => *recalled = true,
        _ => {}
    }
}

/// Does to an ask what happens to it.
pub(crate) fn change(ask: &mut KeptAsk, with: AskChange)
    ensures { ask.new ≡ changed with ask.old }
{
    match with {
        AskChange::Grant(grant) => hold(ask, grant),
        AskChange::Begin => begin(ask),
        AskChange::Finish(news) => finish(ask, news),
        AskChange::Recall => recall(ask),
        AskChange::End(how) => *ask = KeptAsk::Over(how),
    }
}

/// Whether the ask is over.
pub(crate) fn is_over(ask: &KeptAsk) -> bool
    ensures { result ≡ is_over ask.now }
{
    matches!(ask, KeptAsk::Over(_))
}
