//! The words of a line.
ghost use Rattle.std.specs.Prelude.{◌≡◌, ◌≢◌, ℕ, ◌<◌, List, IfOk, IfSome, IfNone};
ghost use Rattle.std.specs.List.{list_any};
ghost use Rattle.std.specs.Char.{is_ascii_uppercase};
ghost use Rattle.events.specs.declared.answer.Kept.{Kept};
ghost use Rattle.hex.specs.Hex.{IsBytes, encode_lower};
ghost use Rattle.schedule.specs.Lines.{kept_text, left_text, IsLeft, Left};

use events::Kept;
use farm_base::{Content, Left, are_bytes};
use std::alloc::Global;
use words::{ReadRefusal, last_split, slot_of};

/// What a record holds after a save that failed, as a word says it.
pub(crate) fn kept_of(word: &str) -> Option<Kept>
    ensures found { IfSome result (λ kept. word.now ≡ kept_text kept) }
    ensures only { IfNone result ((kept : Kept) → word.now ≢ kept_text kept) }
{
    match word {
        "old" => Some(Kept::Old),
        "new" => Some(Kept::New),
        _ => None,
    }
}

/// Whether a byte is an upper-case letter.
fn has_upper(word: &[u8]) -> bool
    ensures { result ≡ list_any is_ascii_uppercase word.now }
{
    word.iter().any(|byte| byte.is_ascii_uppercase())
}

/// The bytes that a word's lower-case digits spell.
pub(crate) fn bytes_of(alloc: Global, word: &str) -> Result<Vec<u8>, ReadRefusal>
    ensures spelled { IfOk result (λ bytes. word.now ≡ encode_lower bytes.items) }
    ensures bytes { IfOk result (λ bytes. IsBytes bytes.items) }
    ensures only { result ≡ Err ReadRefusal.BadForm → (bytes : List ℕ) → IsBytes bytes → word.now ≢ encode_lower bytes }
{
    if has_upper(word.as_bytes()) {
        return Err(ReadRefusal::BadForm);
    }
    let bytes = hex::decode(alloc, word)?;
    are_bytes(bytes.as_slice());
    Ok(bytes)
}

/// What was left in a slot, as a word spells it.
pub(crate) fn left_of(alloc: Global, word: &str) -> Result<Left, ReadRefusal>
    ensures spelled { IfOk result (λ left. word.now ≡ left_text left) }
    ensures left { IfOk result IsLeft }
    ensures only { result ≡ Err ReadRefusal.BadForm → (left : Left) → IsLeft left → word.now ≢ left_text left }
{
    let Some((slot, digits)) = last_split(word, '=') else {
        return Err(ReadRefusal::BadForm);
    };
    let slot = slot_of(alloc, slot)?;
    let bytes = bytes_of(alloc, digits)?;
    Ok(Left {
        slot,
        content: Content::of(bytes),
    })
}
