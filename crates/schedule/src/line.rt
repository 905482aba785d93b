//! The lines of the events.
ghost use Rattle.std.specs.Prelude.{◌≡◌, ◌≢◌, List, map, IfOk};
ghost use Rattle.std.specs.List.{All, IsAllAdjacentAnswer};
ghost use Rattle.std.specs.Ordering.{is_lt};
ghost use Rattle.names.specs.Slots.{slot_cmp};
ghost use Rattle.events.specs.declared.event.Event.{Event};
ghost use Rattle.words.specs.Words.{texts, words};
ghost use Rattle.schedule.specs.Lines.{left_text, IsLeft, Left, IsSpelled};
ghost use Rattle.schedule.specs.Words.{SpellLefts, Says, SpelledBy};

use super::verb::{Verb, verb_of};
use super::word::{bytes_of, kept_of, left_of};
use events::Event;
use farm_base::reading::number;
use farm_base::{Content, Items, Left, Mode};
use std::alloc::Global;
use words::{
    ReadRefusal, digest_of, folder_of, given_wants, node_of, slot_of, ticket_of, words_of,
};

/// `deliver K`.
fn deliver_of(words: &[&str]) -> Result<Event, ReadRefusal>
    ensures spelled { IfOk result (Says Verb.Deliver (texts words.now)) }
    ensures only { result ≡ Err ReadRefusal.BadForm → (e : Event) → Says Verb.Deliver (texts words.now) e → ⊥ }
{
    let [message] = words else {
        return Err(ReadRefusal::BadForm);
    };
    let message = number(message).ok_or(ReadRefusal::BadForm)?;
    Ok(Event::Deliver(message))
}

/// `resend N`.
fn resend_of(words: &[&str]) -> Result<Event, ReadRefusal>
    ensures spelled { IfOk result (Says Verb.Resend (texts words.now)) }
    ensures only { result ≡ Err ReadRefusal.BadForm → (e : Event) → Says Verb.Resend (texts words.now) e → ⊥ }
{
    let [node] = words else {
        return Err(ReadRefusal::BadForm);
    };
    let node = node_of(node).ok_or(ReadRefusal::BadForm)?;
    Ok(Event::Resend(node))
}

/// `begin N T`.
fn begin_of(words: &[&str]) -> Result<Event, ReadRefusal>
    ensures spelled { IfOk result (Says Verb.Begin (texts words.now)) }
    ensures only { result ≡ Err ReadRefusal.BadForm → (e : Event) → Says Verb.Begin (texts words.now) e → ⊥ }
{
    let [node, ticket] = words else {
        return Err(ReadRefusal::BadForm);
    };
    let node = node_of(node).ok_or(ReadRefusal::BadForm)?;
    let ticket = ticket_of(ticket).ok_or(ReadRefusal::BadForm)?;
    Ok(Event::Begin(node, ticket))
}

/// `abort N T`.
fn abort_of(words: &[&str]) -> Result<Event, ReadRefusal>
    ensures spelled { IfOk result (Says Verb.Abort (texts words.now)) }
    ensures only { result ≡ Err ReadRefusal.BadForm → (e : Event) → Says Verb.Abort (texts words.now) e → ⊥ }
{
    let [node, ticket] = words else {
        return Err(ReadRefusal::BadForm);
    };
    let node = node_of(node).ok_or(ReadRefusal::BadForm)?;
    let ticket = ticket_of(ticket).ok_or(ReadRefusal::BadForm)?;
    Ok(Event::Abort(node, ticket))
}

/// `nudge`.
fn nudge_of(words: &[&str]) -> Result<Event, ReadRefusal>
    ensures spelled { IfOk result (Says Verb.Nudge (texts words.now)) }
    ensures only { result ≡ Err ReadRefusal.BadForm → (e : Event) → Says Verb.Nudge (texts words.now) e → ⊥ }
{
    let [] = words else {
        return Err(ReadRefusal::BadForm);
    };
    Ok(Event::Nudge)
}

/// `withdraw T`.
fn withdraw_of(words: &[&str]) -> Result<Event, ReadRefusal>
    ensures spelled { IfOk result (Says Verb.Withdraw (texts words.now)) }
    ensures only { result ≡ Err ReadRefusal.BadForm → (e : Event) → Says Verb.Withdraw (texts words.now) e → ⊥ }
{
    let [ticket] = words else {
        return Err(ReadRefusal::BadForm);
    };
    let ticket = ticket_of(ticket).ok_or(ReadRefusal::BadForm)?;
    Ok(Event::Withdraw(ticket))
}

/// `prune SLOT`.
fn prune_of(alloc: Global, words: &[&str]) -> Result<Event, ReadRefusal>
    ensures spelled { IfOk result (Says Verb.Prune (texts words.now)) }
    ensures only { result ≡ Err ReadRefusal.BadForm → (e : Event) → Says Verb.Prune (texts words.now) e → ⊥ }
{
    let [slot] = words else {
        return Err(ReadRefusal::BadForm);
    };
    let slot = slot_of(alloc, slot)?;
    Ok(Event::Prune(slot))
}

/// `retire N`.
fn retire_of(words: &[&str]) -> Result<Event, ReadRefusal>
    ensures spelled { IfOk result (Says Verb.Retire (texts words.now)) }
    ensures only { result ≡ Err ReadRefusal.BadForm → (e : Event) → Says Verb.Retire (texts words.now) e → ⊥ }
{
    let [node] = words else {
        return Err(ReadRefusal::BadForm);
    };
    let node = node_of(node).ok_or(ReadRefusal::BadForm)?;
    Ok(Event::Retire(node))
}

/// `restart N` or `restart coordinator`.
fn restart_of(words: &[&str]) -> Result<Event, ReadRefusal>
    ensures spelled { IfOk result (Says Verb.Restart (texts words.now)) }
    ensures only { result ≡ Err ReadRefusal.BadForm → (e : Event) → Says Verb.Restart (texts words.now) e → ⊥ }
{
    match words {
        ["coordinator"] => Ok(Event::RestartCoordinator),
        [node] => {
            let node = node_of(node).ok_or(ReadRefusal::BadForm)?;
            Ok(Event::RestartNode(node))
        }
        _ => Err(ReadRefusal::BadForm),
    }
}

/// `fail old` or `fail new`.
fn fail_of(words: &[&str]) -> Result<Event, ReadRefusal>
    ensures spelled { IfOk result (Says Verb.Fail (texts words.now)) }
    ensures only { result ≡ Err ReadRefusal.BadForm → (e : Event) → Says Verb.Fail (texts words.now) e → ⊥ }
{
    let [kept] = words else {
        return Err(ReadRefusal::BadForm);
    };
    let kept = kept_of(kept).ok_or(ReadRefusal::BadForm)?;
    Ok(Event::FailSave(kept))
}

/// `ask N FOLDER..`.
fn ask_of(alloc: Global, words: &[&str]) -> Result<Event, ReadRefusal>
    ensures spelled { IfOk result (Says Verb.Ask (texts words.now)) }
    ensures only { result ≡ Err ReadRefusal.BadForm → (e : Event) → Says Verb.Ask (texts words.now) e → ⊥ }
{
    let [node, folders @ ..] = words else {
        return Err(ReadRefusal::BadForm);
    };
    let node = node_of(node).ok_or(ReadRefusal::BadForm)?;
    Ok(Event::Ask(node, given_wants(alloc, folders)?))
}

/// `tenure N FOLDER`.
fn tenure_of(alloc: Global, words: &[&str]) -> Result<Event, ReadRefusal>
    ensures spelled { IfOk result (Says Verb.Tenure (texts words.now)) }
    ensures only { result ≡ Err ReadRefusal.BadForm → (e : Event) → Says Verb.Tenure (texts words.now) e → ⊥ }
{
    let [node, folder] = words else {
        return Err(ReadRefusal::BadForm);
    };
    let node = node_of(node).ok_or(ReadRefusal::BadForm)?;
    let folder = folder_of(alloc, folder)?;
    match folder.mode {
        Mode::Shared => Ok(Event::Tenure(node, folder)),
        Mode::Private | Mode::Locked => Err(ReadRefusal::BadForm),
    }
}

/// `forge N HEX`.
fn forge_of(alloc: Global, words: &[&str]) -> Result<Event, ReadRefusal>
    ensures spelled { IfOk result (Says Verb.Forge (texts words.now)) }
    ensures only { result ≡ Err ReadRefusal.BadForm → (e : Event) → Says Verb.Forge (texts words.now) e → ⊥ }
{
    let [node, digits] = words else {
        return Err(ReadRefusal::BadForm);
    };
    let node = node_of(node).ok_or(ReadRefusal::BadForm)?;
    let bytes = bytes_of(alloc, digits)?;
    Ok(Event::Forge(node, Content::of(bytes)))
}

/// `forget N DIGEST`.
fn forget_of(words: &[&str]) -> Result<Event, ReadRefusal>
    ensures spelled { IfOk result (Says Verb.Forget (texts words.now)) }
    ensures only { result ≡ Err ReadRefusal.BadForm → (e : Event) → Says Verb.Forget (texts words.now) e → ⊥ }
{
    let [node, digits] = words else {
        return Err(ReadRefusal::BadForm);
    };
    let node = node_of(node).ok_or(ReadRefusal::BadForm)?;
    let digest = digest_of(digits).ok_or(ReadRefusal::BadForm)?;
    Ok(Event::Forget(node, digest))
}

/// What was left, one item for each of these words.
fn each_left(alloc: Global, words: &[&str]) -> Result<Vec<Left>, ReadRefusal>
    ensures spelled { IfOk result (λ lefts. texts words.now ≡ map left_text lefts.items) }
    ensures lefts { IfOk result (λ lefts. All IsLeft lefts.items) }
    ensures only { result ≡ Err ReadRefusal.BadForm → (lefts : List Left) → All IsLeft lefts → texts words.now ≢ map left_text lefts }
{
    let mut lefts = Vec::new(alloc);
    for word in words {
        lefts.push(left_of(alloc, word)?)?;
    }
    Ok(lefts)
}

/// Whether each slot is below the next.
fn rises(lefts: &[Left]) -> bool
    ensures { IsAllAdjacentAnswer (λ a b answer. answer ≡ is_lt (slot_cmp a.slot b.slot)) lefts.now result }
{
    lefts.is_sorted_by(is_below)
}

/// Whether the slot of one is below that of the other.
fn is_below(one: &Left, other: &Left) -> bool
    ensures { result ≡ is_lt (slot_cmp one.now.slot other.now.slot) }
{
    one.slot.cmp(&other.slot).is_lt()
}

/// What was left, one item for each of these words, with rising slots.
fn lefts_of(alloc: Global, words: &[&str]) -> Result<Items<Left>, ReadRefusal>
    ensures spelled { IfOk result (SpellLefts (texts words.now)) }
    ensures only { result ≡ Err ReadRefusal.BadForm → (lefts : List Left) → SpellLefts (texts words.now) lefts → ⊥ }
{
    let lefts = each_left(alloc, words)?;
    if rises(lefts.as_slice()) {
        Ok(Items::new(lefts))
    } else {
        Err(ReadRefusal::BadForm)
    }
}

/// `finish N T SLOT=HEX..`.
fn finish_of(alloc: Global, words: &[&str]) -> Result<Event, ReadRefusal>
    ensures spelled { IfOk result (Says Verb.Finish (texts words.now)) }
    ensures only { result ≡ Err ReadRefusal.BadForm → (e : Event) → Says Verb.Finish (texts words.now) e → ⊥ }
{
    let [node, ticket, lefts @ ..] = words else {
        return Err(ReadRefusal::BadForm);
    };
    let node = node_of(node).ok_or(ReadRefusal::BadForm)?;
    let ticket = ticket_of(ticket).ok_or(ReadRefusal::BadForm)?;
    Ok(Event::Finish(node, ticket, lefts_of(alloc, lefts)?))
}

/// The event of a verb and the words after it.
fn said_by(alloc: Global, verb: Verb, words: &[&str]) -> Result<Event, ReadRefusal>
    ensures spelled { IfOk result (Says verb (texts words.now)) }
    ensures only { result ≡ Err ReadRefusal.BadForm → (e : Event) → Says verb (texts words.now) e → ⊥ }
{
    match verb {
        Verb::Ask => ask_of(alloc, words),
        Verb::Tenure => tenure_of(alloc, words),
        Verb::Deliver => deliver_of(words),
        Verb::Begin => begin_of(words),
        Verb::Finish => finish_of(alloc, words),
        Verb::Abort => abort_of(words),
        Verb::Resend => resend_of(words),
        Verb::Restart => restart_of(words),
        Verb::Forge => forge_of(alloc, words),
        Verb::Forget => forget_of(words),
        Verb::Nudge => nudge_of(words),
        Verb::Withdraw => withdraw_of(words),
        Verb::Prune => prune_of(alloc, words),
        Verb::Retire => retire_of(words),
        Verb::Fail => fail_of(words),
    }
}

/// The event that the words of a line spell.
fn spelled_by(alloc: Global, words: &[&str]) -> Result<Event, ReadRefusal>
    ensures spelled { IfOk result (SpelledBy (texts words.now)) }
    ensures only { result ≡ Err ReadRefusal.BadForm → (e : Event) → SpelledBy (texts words.now) e → ⊥ }
{
    let [verb, others @ ..] = words else {
        return Err(ReadRefusal::BadForm);
    };
    let verb = verb_of(verb).ok_or(ReadRefusal::BadForm)?;
    said_by(alloc, verb, others)
}

/// The event that a line spells.
pub(crate) fn event_of(alloc: Global, line: &[u8]) -> Result<Event, ReadRefusal>
    ensures spelled { IfOk result (IsSpelled line.now) }
    ensures only { result ≡ Err ReadRefusal.BadForm → (e : Event) → IsSpelled line.now e → ⊥ }
{
    let Ok(text) = str::from_utf8(line) else {
        return Err(ReadRefusal::BadForm);
    };
    let words = words_of(alloc, text)?;
    spelled_by(alloc, words.as_slice())
}
