//! The wants of a text.
ghost use Rattle.std.specs.Prelude.{◌≡◌, ◌≢◌, List, map, IfOk};
ghost use Rattle.std.specs.List.{All};
ghost use Rattle.farm_base.specs.declared.want.Want.{Want};
ghost use Rattle.words.specs.Words.{texts, want_text, IsWant, SpellGiven};

use super::refusal::ReadRefusal;
use super::word::{access_of, folder_of};
use farm_base::{Want, Wants};
use std::alloc::Global;

/// The want of a word.
pub fn want_of(alloc: Global, word: &str) -> Result<Want, ReadRefusal>
    ensures spelled { IfOk result (λ want. word.now ≡ want_text want) }
    ensures want { IfOk result IsWant }
    ensures only { result ≡ Err ReadRefusal.BadForm → (want : Want) → IsWant want → word.now ≢ want_text want }
{
    let (folder, writable) = access_of(word);
    Ok(Want {
        folder: folder_of(alloc, folder)?,
        writable,
    })
}

/// The wants of these words, one for each word.
fn each_want(alloc: Global, words: &[&str]) -> Result<Vec<Want>, ReadRefusal>
    ensures spelled { IfOk result (λ wants. texts words.now ≡ map want_text wants.items) }
    ensures wants { IfOk result (λ wants. All IsWant wants.items) }
    ensures only { result ≡ Err ReadRefusal.BadForm → (wants : List Want) → All IsWant wants → texts words.now ≢ map want_text wants }
{
    let mut wants = Vec::new(alloc);
    for word in words {
        wants.push(want_of(alloc, word)?)?;
    }
    Ok(wants)
}

/// The wants of these words, which stand in any order.
pub fn given_wants(alloc: Global, words: &[&str]) -> Result<Wants, ReadRefusal>
    ensures spelled { IfOk result (SpellGiven (texts words.now)) }
    ensures only { result ≡ Err ReadRefusal.BadForm → (wants : List Want) → SpellGiven (texts words.now) wants → ⊥ }
{
    let wants = each_want(alloc, words)?;
    Ok(Wants::of(wants)?)
}
