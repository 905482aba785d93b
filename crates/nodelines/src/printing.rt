//! The text of an answer.
ghost use Rattle.std.specs.Prelude.{◌≡◌, ◌++◌, ◌∷◌, [], IfOk, OnOk};
ghost use Rattle.std.specs.String.{string_bytes};
ghost use Rattle.words.specs.Words.{ticket_text};
ghost use Rattle.farmwire.specs.Lines.{grant_words};
ghost use Rattle.farmwire.specs.Words.{spaced};
ghost use Rattle.nodelines.specs.Written.{noted, versions_text, denied_ask, told_note, refused_line, IsDone, IsWritten, content_line, over_text, state_text};
ghost use Rattle.farmwire.specs.Sealed.{key_in};

use super::about::{About, Carried};
use events::{EventNote, EventRefusal, How, NodeNote, NodeRefusal};
use farm_base::{Ask, Digest, Grant, Key, Ticket};
use farmwire::item::push_items;
use farmwire::{Keyring, push_grant, push_number, push_word};
use nodecore::{AskState, NodeDone};
use schedule::{print_note, refusal_name};
use services::push_messages;
use std::alloc::{AllocError, Global};
use words::why_name;

/// Adds a verb and a ticket.
fn push_ticket(
    alloc: Global,
    text: &mut String,
    verb: &str,
    ticket: Ticket,
) -> Result<(), AllocError>
    ensures { OnOk result (string_bytes text.new ≡ string_bytes text.old ++ verb.now ++ spaced (ticket_text ticket ∷ [])) }
{
    text.push_str(verb)?;
    push_number(alloc, text, ticket.0)
}

/// Adds a verb and a grant.
fn push_lease(alloc: Global, text: &mut String, verb: &str, grant: &Grant) -> Result<(), AllocError>
    ensures { OnOk result (string_bytes text.new ≡ string_bytes text.old ++ verb.now ++ spaced (grant_words grant.now)) }
{
    text.push_str(verb)?;
    push_grant(alloc, text, grant)
}

/// Adds the versions, if it is about some.
fn push_versions(alloc: Global, text: &mut String, about: &About) -> Result<(), AllocError>
    ensures { OnOk result (string_bytes text.new ≡ string_bytes text.old ++ versions_text about.now) }
{
    match about {
        About::Versions(versions) => push_items(alloc, text, versions.as_slice()),
        About::OfAsk(_) => Ok(()),
        About::Nothing => Ok(()),
    }
}

/// Adds the ask, if it is about one.
fn push_ask(alloc: Global, text: &mut String, about: &About) -> Result<(), AllocError>
    ensures { OnOk result (string_bytes text.new ≡ string_bytes text.old ++ denied_ask about.now) }
{
    match about {
        About::Versions(_) => Ok(()),
        About::OfAsk(ask) => push_number(alloc, text, ask.0),
        About::Nothing => Ok(()),
    }
}

/// Adds a note, with what it is about.
fn push_told(
    alloc: Global,
    text: &mut String,
    about: &About,
    note: NodeNote,
) -> Result<(), AllocError>
    ensures { OnOk result (string_bytes text.new ≡ string_bytes text.old ++ told_note about.now note) }
{
    match &note {
        NodeNote::Took(grant) => push_lease(alloc, text, "took", grant),
        NodeNote::Learned(ticket) => {
            push_ticket(alloc, text, "learned", *ticket)?;
            push_versions(alloc, text, about)
        }
        NodeNote::Denied(why) => {
            text.push_str("denied")?;
            push_ask(alloc, text, about)?;
            push_word(text, why_name(*why))
        }
        _ => {
            let words = print_note(alloc, &EventNote::Node(note))?;
            text.push_str(words.as_str())
        }
    }
}

/// The text of what was done: the messages, the facts and the note.
pub fn print_done(
    alloc: Global,
    keys: &Keyring,
    facts: &str,
    about: &About,
    done: NodeDone,
) -> Result<String, AllocError>
    ensures { IfOk result (λ text. IsDone (key_in keys.now) facts.now about.now done (string_bytes text)) }
{
    let NodeDone { note, sends } = done;
    let mut text = String::new(alloc);
    push_messages(alloc, keys, &mut text, sends.as_slice())?;
    text.push_str(facts)?;
    text.push_str("= ")?;
    push_told(alloc, &mut text, about, note)?;
    text.push_str("\n")?;
    Ok(text)
}

/// The text of a refusal.
fn print_refusal(alloc: Global, refusal: NodeRefusal) -> Result<String, AllocError>
    ensures { IfOk result (λ text. string_bytes text ≡ refused_line refusal) }
{
    let mut text = String::from_str(alloc, "= refused ")?;
    text.push_str(refusal_name(EventRefusal::Node(refusal)))?;
    text.push_str("\n")?;
    Ok(text)
}

/// The text of what came of a call.
pub fn print_carried(alloc: Global, keys: &Keyring, carried: Carried) -> Result<String, AllocError>
    ensures { IfOk result (λ text. IsWritten (key_in keys.now) carried.about carried.answer (string_bytes text)) }
{
    let Carried { about, answer } = carried;
    match answer {
        Ok(done) => print_done(alloc, keys, "", &about, done),
        Err(refusal) => print_refusal(alloc, refusal),
    }
}

/// The line of a content that was put in a file.
pub fn print_content(alloc: Global, digest: Digest) -> Result<String, AllocError>
    ensures { IfOk result (λ text. string_bytes text ≡ content_line digest) }
{
    let digits = Key(digest).to_text(alloc)?;
    let mut text = String::from_str(alloc, "= content")?;
    push_word(&mut text, digits.as_str())?;
    text.push_str("\n")?;
    Ok(text)
}

/// Adds how an ask ended.
fn push_over(alloc: Global, text: &mut String, ask: Ask, how: &How) -> Result<(), AllocError>
    ensures { OnOk result (string_bytes text.new ≡ string_bytes text.old ++ over_text ask how.now) }
{
    match how {
        How::Denied(why) => {
            text.push_str("denied")?;
            push_number(alloc, text, ask.0)?;
            push_word(text, why_name(*why))
        }
        How::Committed { ticket, versions } => {
            push_ticket(alloc, text, "committed", *ticket)?;
            push_items(alloc, text, versions.as_slice())
        }
        How::Fenced(ticket) => push_ticket(alloc, text, "fenced", *ticket),
        How::Released(ticket) => push_ticket(alloc, text, "released", *ticket),
    }
}

/// Adds how an ask stands.
fn push_state(
    alloc: Global,
    text: &mut String,
    ask: Ask,
    state: &Option<AskState>,
) -> Result<(), AllocError>
    ensures { OnOk result (string_bytes text.new ≡ string_bytes text.old ++ state_text ask state.now) }
{
    match state {
        None => text.push_str("none"),
        Some(AskState::Pending) => text.push_str("pending"),
        Some(AskState::Granted(grant)) => push_lease(alloc, text, "granted", grant),
        Some(AskState::Running(grant)) => push_lease(alloc, text, "running", grant),
        Some(AskState::Finished(ticket)) => push_ticket(alloc, text, "finished", *ticket),
        Some(AskState::Over(how)) => push_over(alloc, text, ask, how),
        Some(AskState::Forgotten) => text.push_str("none"),
    }
}

/// The line of how an ask stands.
pub fn print_state(alloc: Global, ask: Ask, state: &Option<AskState>) -> Result<String, AllocError>
    ensures { IfOk result (λ text. string_bytes text ≡ noted (state_text ask state.now)) }
{
    let mut text = String::from_str(alloc, "= ")?;
    push_state(alloc, &mut text, ask, state)?;
    text.push_str("\n")?;
    Ok(text)
}
