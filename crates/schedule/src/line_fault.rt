//! What is wrong with a line that can't be read.
ghost use Rattle.std.specs.Prelude.{◌≡◌, [], Contains, ◌↔◌, IsTrue, IfOk, IfSome};
ghost use Rattle.events.specs.declared.event.Event.{Event};
ghost use Rattle.words.specs.Words.{texts, words};
ghost use Rattle.schedule.specs.declared.fault.Spacing.{Spacing};
ghost use Rattle.schedule.specs.Faults.{IsRead, IsFormFault, IsWordsFault, IsMisspaced, IsSpacing, IsLineFault, IsFaultOf};
ghost use Rattle.schedule.specs.Finding.{IsReadAnswer, IsFaultAt, AreJudged};
ghost use Rattle.schedule.specs.Forms.{Fit};
ghost use Rattle.schedule.specs.Words.{Says, SpelledBy};

use super::fault::{FormFault, LineFault, Spacing};
use super::line::event_of;
use super::reading::setup_of;
use super::verb::{Verb, verb_of};
use super::word_fault::word_fault;
use farm_base::Wants;
use std::alloc::{AllocError, Global};
use words::{ReadRefusal, words_of};

/// What is wrong with the word at this index behind the verb.
fn fault_at(
    alloc: Global,
    verb: Verb,
    index: usize,
    word: &str,
) -> Result<Option<FormFault>, AllocError>
    ensures { IfOk result (IsFaultAt verb index word.now) }
{
    let Some(wanted) = verb.wanted_at(index) else {
        return Ok(Some(FormFault::ExtraWord(index)));
    };
    match word_fault(alloc, wanted, word)? {
        Some(fault) => Ok(Some(FormFault::BadWord(index, wanted, fault))),
        None => Ok(None),
    }
}

/// What is wrong with the first word behind the verb that can't stand there.
fn first_fault(alloc: Global, verb: Verb, words: &[&str]) -> Result<Option<FormFault>, AllocError>
    ensures { IfOk result (AreJudged verb (texts words.now)) }
{
    for index in 0..words.len() {
        if let Some(fault) = fault_at(alloc, verb, index, words[index])? {
            return Ok(Some(fault));
        }
    }
    Ok(None)
}

/// Why words behind a verb, each of which may stand there, say no event together.
fn whole_fault(verb: Verb, words: &[&str]) -> FormFault
    requires fit { Fit verb (texts words.now) }
    requires silent { (e : Event) → Says verb (texts words.now) e → ⊥ }
    ensures { IsFormFault verb (texts words.now) result }
{
    match verb {
        Verb::Ask if words.len() > 1 + Wants::LIMIT => FormFault::TooManyFolders,
        Verb::Ask => FormFault::SameFolderTwice,
        Verb::Finish => FormFault::SlotsDontRise,
        _ => unreachable!(),
    }
}

/// Why the words behind a verb say no event.
fn form_fault(alloc: Global, verb: Verb, words: &[&str]) -> Result<FormFault, AllocError>
    requires { (e : Event) → Says verb (texts words.now) e → ⊥ }
    ensures { IfOk result (IsFormFault verb (texts words.now)) }
{
    if let Some(fault) = first_fault(alloc, verb, words)? {
        return Ok(fault);
    }
    if words.len() < verb.form().words.len() {
        return Ok(FormFault::MissingWord);
    }
    Ok(whole_fault(verb, words))
}

/// Why the words of a line spell no event.
fn words_fault(alloc: Global, words: &[&str]) -> Result<LineFault, AllocError>
    requires { (e : Event) → SpelledBy (texts words.now) e → ⊥ }
    ensures { IfOk result (IsWordsFault (texts words.now)) }
{
    let [verb, others @ ..] = words else {
        return Ok(LineFault::NoEvent);
    };
    match verb_of(verb) {
        Some(verb) => Ok(LineFault::Form(verb, form_fault(alloc, verb, others)?)),
        None => Ok(LineFault::NoEvent),
    }
}

/// Whether a line ends with a carriage return.
fn ends_with_return(text: &str) -> bool
    ensures { IsTrue result ↔ IsMisspaced text.now Spacing.CarriageReturn }
{
    text.ends_with('\r')
}

fn has_tab(text: &str) -> bool
    ensures { IsTrue result ↔ IsMisspaced text.now Spacing.Tab }
{
    text.contains('\t')
}

/// Whether a word is empty.
fn has_empty(words: &[&str]) -> bool
    ensures { IsTrue result ↔ Contains (texts words.now) [] }
{
    for word in words {
        if word.is_empty() {
            return true;
        }
    }
    false
}

/// Whether a space stands at an end of a line or beside another: the words of the line are these.
fn has_extra_space(text: &str, parts: &[&str]) -> bool
    requires { texts parts.now ≡ words text.now }
    ensures { IsTrue result ↔ IsMisspaced text.now Spacing.ExtraSpace }
{
    !text.is_empty() && has_empty(parts)
}

/// How the words of a line, which are these, are parted otherwise than by one space, if they are.
fn spacing_of(text: &str, parts: &[&str]) -> Option<Spacing>
    requires { texts parts.now ≡ words text.now }
    ensures { IsSpacing text.now result }
{
    if ends_with_return(text) {
        return Some(Spacing::CarriageReturn);
    }
    if has_tab(text) {
        return Some(Spacing::Tab);
    }
    if has_extra_space(text, parts) {
        return Some(Spacing::ExtraSpace);
    }
    None
}

/// Why the line of this number can't be read.
fn why_unread(alloc: Global, number: u64, line: &[u8]) -> Result<LineFault, AllocError>
    requires { IsRead number line.now → ⊥ }
    ensures { IfOk result (IsLineFault number line.now) }
{
    let Ok(text) = str::from_utf8(line) else {
        return Ok(LineFault::NotUtf8);
    };
    let words = words_of(alloc, text)?;
    if let Some(spacing) = spacing_of(text, words.as_slice()) {
        return Ok(LineFault::Spacing(spacing));
    }
    if number == 1 {
        return Ok(LineFault::NoSetup);
    }
    words_fault(alloc, words.as_slice())
}

/// Whether the line of this number can be read.
fn is_read(alloc: Global, number: u64, line: &[u8]) -> Result<bool, AllocError>
    ensures { IfOk result (IsReadAnswer number line.now) }
{
    if number == 1 {
        return Ok(setup_of(line).is_some());
    }
    if line.is_empty() {
        return Ok(true);
    }
    match event_of(alloc, line) {
        Ok(_) => Ok(true),
        Err(ReadRefusal::BadForm) => Ok(false),
        Err(ReadRefusal::OutOfMemory) => Err(AllocError),
    }
}

/// Why the line of this number can't be read, unless it can. Lines are counted from 1.
///
/// Of several faults it's the first of these: the line is not UTF-8, its words are not parted by one space, it's the
/// first and no setup, its verb, the first word that can't stand where it does, a word too few, and what the words say
/// together.
pub fn fault_of(alloc: Global, number: u64, line: &[u8]) -> Result<Option<LineFault>, AllocError>
    ensures read { result ≡ Ok None → IsRead number line.now }
    ensures fault { IfOk result (λ found. IfSome found (IsFaultOf number line.now)) }
{
    if is_read(alloc, number, line)? {
        return Ok(None);
    }
    Ok(Some(why_unread(alloc, number, line)?))
}
