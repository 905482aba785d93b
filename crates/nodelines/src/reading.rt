//! What the agent's lines ask for.
ghost use Rattle.std.specs.Prelude.{◌≡◌, ◌≢◌, List, map, IfOk};
ghost use Rattle.std.specs.List.{All};
ghost use Rattle.words.specs.Words.{texts, words};
ghost use Rattle.nodelines.specs.declared.order.LeftFile.{LeftFile};
ghost use Rattle.nodelines.specs.declared.order.Order.{Order};
ghost use Rattle.nodelines.specs.Orders.{left_text, IsLeft, Says, AskedBy};

use super::order::{Call, LeftFile, Order};
use super::verb::{Verb, verb_of};
use farm_base::{Items, Mode, Text};
use farmwire::word::{ask_of, ticket_of};
use std::alloc::Global;
use words::{ReadRefusal, digest_of, folder_of, given_wants, last_split, slot_of, words_of};

/// The text of a word.
fn text_of(alloc: Global, word: &str) -> Result<Text, ReadRefusal>
    ensures same { IfOk result (λ text. text ≡ word.now) }
    ensures memory { result ≢ Err ReadRefusal.BadForm }
{
    Ok(Text::new(String::from_str(alloc, word)?))
}

/// `ask [ro=]FOLDER..`.
fn wants_order(alloc: Global, words: &[&str]) -> Result<Order, ReadRefusal>
    ensures spelled { IfOk result (Says Verb.Ask (texts words.now)) }
    ensures only { result ≡ Err ReadRefusal.BadForm → (o : Order) → Says Verb.Ask (texts words.now) o → ⊥ }
{
    let wants = given_wants(alloc, words)?;
    Ok(Order::Call(Call::Ask(wants)))
}

/// `tenure FOLDER`.
fn tenure_order(alloc: Global, words: &[&str]) -> Result<Order, ReadRefusal>
    ensures spelled { IfOk result (Says Verb.Tenure (texts words.now)) }
    ensures only { result ≡ Err ReadRefusal.BadForm → (o : Order) → Says Verb.Tenure (texts words.now) o → ⊥ }
{
    let [folder] = words else {
        return Err(ReadRefusal::BadForm);
    };
    let folder = folder_of(alloc, folder)?;
    let Mode::Shared = folder.mode else {
        return Err(ReadRefusal::BadForm);
    };
    Ok(Order::Call(Call::Tenure(folder)))
}

/// `begin T`.
fn begin_order(words: &[&str]) -> Result<Order, ReadRefusal>
    ensures spelled { IfOk result (Says Verb.Begin (texts words.now)) }
    ensures only { result ≡ Err ReadRefusal.BadForm → (o : Order) → Says Verb.Begin (texts words.now) o → ⊥ }
{
    let [ticket] = words else {
        return Err(ReadRefusal::BadForm);
    };
    let ticket = ticket_of(ticket).ok_or(ReadRefusal::BadForm)?;
    Ok(Order::Call(Call::Begin(ticket)))
}

/// `abort T`.
fn abort_order(words: &[&str]) -> Result<Order, ReadRefusal>
    ensures spelled { IfOk result (Says Verb.Abort (texts words.now)) }
    ensures only { result ≡ Err ReadRefusal.BadForm → (o : Order) → Says Verb.Abort (texts words.now) o → ⊥ }
{
    let [ticket] = words else {
        return Err(ReadRefusal::BadForm);
    };
    let ticket = ticket_of(ticket).ok_or(ReadRefusal::BadForm)?;
    Ok(Order::Call(Call::Abort(ticket)))
}

/// `resend`.
fn resend_order(words: &[&str]) -> Result<Order, ReadRefusal>
    ensures spelled { IfOk result (Says Verb.Resend (texts words.now)) }
    ensures only { result ≡ Err ReadRefusal.BadForm → (o : Order) → Says Verb.Resend (texts words.now) o → ⊥ }
{
    let [] = words else {
        return Err(ReadRefusal::BadForm);
    };
    Ok(Order::Call(Call::Resend))
}

/// `SLOT=FILE`.
fn left_of(alloc: Global, word: &str) -> Result<LeftFile, ReadRefusal>
    ensures spelled { IfOk result (λ left. word.now ≡ left_text left) }
    ensures left { IfOk result IsLeft }
    ensures only { result ≡ Err ReadRefusal.BadForm → (left : LeftFile) → IsLeft left → word.now ≢ left_text left }
{
    let Some((slot, file)) = last_split(word, '=') else {
        return Err(ReadRefusal::BadForm);
    };
    let slot = slot_of(alloc, slot)?;
    let file = text_of(alloc, file)?;
    Ok(LeftFile { slot, file })
}

/// What was left, one for each of these words.
fn lefts_of(alloc: Global, words: &[&str]) -> Result<Vec<LeftFile>, ReadRefusal>
    ensures spelled { IfOk result (λ lefts. texts words.now ≡ map left_text lefts.items) }
    ensures lefts { IfOk result (λ lefts. All IsLeft lefts.items) }
    ensures only { result ≡ Err ReadRefusal.BadForm → (lefts : List LeftFile) → All IsLeft lefts → texts words.now ≢ map left_text lefts }
{
    let mut lefts = Vec::new(alloc);
    for word in words {
        lefts.push(left_of(alloc, word)?)?;
    }
    Ok(lefts)
}

/// `finish T SLOT=FILE..`.
fn finish_order(alloc: Global, words: &[&str]) -> Result<Order, ReadRefusal>
    ensures spelled { IfOk result (Says Verb.Finish (texts words.now)) }
    ensures only { result ≡ Err ReadRefusal.BadForm → (o : Order) → Says Verb.Finish (texts words.now) o → ⊥ }
{
    let [ticket, slots @ ..] = words else {
        return Err(ReadRefusal::BadForm);
    };
    let ticket = ticket_of(ticket).ok_or(ReadRefusal::BadForm)?;
    let lefts = Items::new(lefts_of(alloc, slots)?);
    Ok(Order::Finish(ticket, lefts))
}

/// `blob FILE`.
fn blob_order(alloc: Global, words: &[&str]) -> Result<Order, ReadRefusal>
    ensures spelled { IfOk result (Says Verb.Blob (texts words.now)) }
    ensures only { result ≡ Err ReadRefusal.BadForm → (o : Order) → Says Verb.Blob (texts words.now) o → ⊥ }
{
    let [file] = words else {
        return Err(ReadRefusal::BadForm);
    };
    Ok(Order::Blob(text_of(alloc, file)?))
}

/// `content DIGEST FILE`.
fn content_order(alloc: Global, words: &[&str]) -> Result<Order, ReadRefusal>
    ensures spelled { IfOk result (Says Verb.Content (texts words.now)) }
    ensures only { result ≡ Err ReadRefusal.BadForm → (o : Order) → Says Verb.Content (texts words.now) o → ⊥ }
{
    let [digest, file] = words else {
        return Err(ReadRefusal::BadForm);
    };
    let digest = digest_of(digest).ok_or(ReadRefusal::BadForm)?;
    Ok(Order::Content(digest, text_of(alloc, file)?))
}

/// `forget DIGEST`.
fn forget_order(words: &[&str]) -> Result<Order, ReadRefusal>
    ensures spelled { IfOk result (Says Verb.Forget (texts words.now)) }
    ensures only { result ≡ Err ReadRefusal.BadForm → (o : Order) → Says Verb.Forget (texts words.now) o → ⊥ }
{
    let [digest] = words else {
        return Err(ReadRefusal::BadForm);
    };
    let digest = digest_of(digest).ok_or(ReadRefusal::BadForm)?;
    Ok(Order::Call(Call::Forget(digest)))
}

/// `state A`.
fn state_order(words: &[&str]) -> Result<Order, ReadRefusal>
    ensures spelled { IfOk result (Says Verb.State (texts words.now)) }
    ensures only { result ≡ Err ReadRefusal.BadForm → (o : Order) → Says Verb.State (texts words.now) o → ⊥ }
{
    let [ask] = words else {
        return Err(ReadRefusal::BadForm);
    };
    let ask = ask_of(ask).ok_or(ReadRefusal::BadForm)?;
    Ok(Order::State(ask))
}

/// What a verb and the words behind it ask for.
fn said_by(alloc: Global, verb: Verb, words: &[&str]) -> Result<Order, ReadRefusal>
    ensures spelled { IfOk result (Says verb (texts words.now)) }
    ensures only { result ≡ Err ReadRefusal.BadForm → (o : Order) → Says verb (texts words.now) o → ⊥ }
{
    match verb {
        Verb::Ask => wants_order(alloc, words),
        Verb::Tenure => tenure_order(alloc, words),
        Verb::Begin => begin_order(words),
        Verb::Finish => finish_order(alloc, words),
        Verb::Abort => abort_order(words),
        Verb::Resend => resend_order(words),
        Verb::Blob => blob_order(alloc, words),
        Verb::Content => content_order(alloc, words),
        Verb::Forget => forget_order(words),
        Verb::State => state_order(words),
    }
}

/// What these words ask for.
fn asked_by(alloc: Global, words: &[&str]) -> Result<Order, ReadRefusal>
    ensures spelled { IfOk result (AskedBy (texts words.now)) }
    ensures only { result ≡ Err ReadRefusal.BadForm → (o : Order) → AskedBy (texts words.now) o → ⊥ }
{
    let [verb, others @ ..] = words else {
        return Err(ReadRefusal::BadForm);
    };
    let verb = verb_of(verb).ok_or(ReadRefusal::BadForm)?;
    said_by(alloc, verb, others)
}

/// What a line of the agent's asks for.
pub fn own_order(alloc: Global, line: &str) -> Result<Order, ReadRefusal>
    ensures spelled { IfOk result (AskedBy (words line.now)) }
    ensures only { result ≡ Err ReadRefusal.BadForm → (o : Order) → AskedBy (words line.now) o → ⊥ }
{
    let words = words_of(alloc, line)?;
    asked_by(alloc, words.as_slice())
}
