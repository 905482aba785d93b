//! How the bytes of a name are spelled, for the texts of the layers above too.
ghost use Rattle.std.specs.Prelude.{◌≡◌, ◌≢◌, ℕ, ◌<◌, List, ◌++◌, IfOk, IfSome, IfNone, OnOk, IsTrue};
ghost use Rattle.std.specs.String.{string_bytes};
ghost use Rattle.std.specs.Str.{IsUtf8};
ghost use Rattle.hex.specs.Hex.{IsBytes};
ghost use Rattle.names.specs.Escapes.{stands, upper_digit, escaped, id_text};

use super::refusal::FolderRefusal;
use super::text::Text;
use std::alloc::{AllocError, Global};

/// Whether a byte of an id is written without an escape.
#[tactic(auto, unfolding(crate::specs::Escapes::stands))]
pub fn is_plain(byte: u8) -> bool
    ensures value { result ≡ stands byte }
    ensures ascii { IsTrue result → byte < 128 }
{
    33 <= byte && byte <= 126 && !(byte == b'#' || byte == b'%' || byte == b'@')
}

/// A hexadecimal digit, upper case.
#[tactic(auto, unfolding(crate::specs::Escapes::upper_digit))]
pub fn digit(value: u8) -> u8
    requires { value < 16 }
    ensures value { result ≡ upper_digit value }
    ensures ascii { result < 128 }
{
    if value < 10 {
        b'0' + value
    } else {
        b'A' - 10 + value
    }
}

/// The value of a hexadecimal digit, upper case.
#[tactic(auto, unfolding(crate::specs::Escapes::upper_digit))]
fn digit_value(digit: u8) -> Option<u8>
    ensures found { IfSome result (λ value. (value < 16) × (digit ≡ upper_digit value)) }
    ensures only { IfNone result ((value : ℕ) → value < 16 → digit ≢ upper_digit value) }
{
    match digit {
        b'0'..=b'9' => Some(digit - b'0'),
        b'A'..=b'F' => Some(digit - b'A' + 10),
        _ => None,
    }
}

/// The byte that a text begins with, and what follows its spelling.
#[tactic(auto, unfolding(crate::specs::Escapes::escaped))]
fn first_byte(text: &[u8]) -> Option<(u8, &[u8])>
    ensures found { IfSome result (λ first. text.now ≡ escaped first.0 ++ first.1.now) }
    ensures byte { IfSome result (λ first. first.0 < 256) }
    ensures only { IfNone result ((byte : ℕ) (rest : List ℕ) → byte < 256 → text.now ≢ escaped byte ++ rest) }
{
    match text {
        [b'%', high, low, rest @ ..] => {
            let byte = 16 * digit_value(*high)? + digit_value(*low)?;
            if is_plain(byte) {
                None
            } else {
                Some((byte, rest))
            }
        }
        [byte, rest @ ..] if is_plain(*byte) => Some((*byte, rest)),
        _ => None,
    }
}

/// Adds the spelling of a byte.
#[tactic(auto, using(crate::proofs::EscapeLemmas::escaped_plain), unfolding(crate::specs::Escapes::escaped))]
fn push_escaped(text: &mut String, byte: u8) -> Result<(), AllocError>
    ensures { OnOk result (string_bytes text.new ≡ string_bytes text.old ++ escaped byte) }
{
    if is_plain(byte) {
        text.push(byte as char)
    } else {
        text.push('%')?;
        text.push(digit(byte / 16) as char)?;
        text.push(digit(byte % 16) as char)
    }
}

/// Adds the spelling of an id.
pub(crate) fn push_id(text: &mut String, id: &str) -> Result<(), AllocError>
    ensures { OnOk result (string_bytes text.new ≡ string_bytes text.old ++ id_text id.now) }
{
    for byte in id.as_bytes() {
        push_escaped(text, *byte)?;
    }
    Ok(())
}

/// The bytes that a text spells.
pub fn bytes_of(alloc: Global, text: &[u8]) -> Result<Vec<u8>, FolderRefusal>
    ensures spelled { IfOk result (λ bytes. text.now ≡ id_text bytes.items) }
    ensures bytes { IfOk result (λ bytes. IsBytes bytes.items) }
    ensures only { result ≡ Err FolderRefusal.BadFolder → (id : List ℕ) → IsBytes id → text.now ≢ id_text id }
{
    let mut bytes = Vec::new(alloc);
    let mut rest = text;
    while !rest.is_empty() {
        let Some((byte, tail)) = first_byte(rest) else {
            return Err(FolderRefusal::BadFolder);
        };
        bytes.push(byte)?;
        rest = tail;
    }
    Ok(bytes)
}

/// The id that a text spells.
pub(crate) fn id_of(alloc: Global, text: &str) -> Result<Text, FolderRefusal>
    ensures spelled { IfOk result (λ id. text.now ≡ id_text id) }
    ensures only { result ≡ Err FolderRefusal.BadFolder → (id : List ℕ) → IsBytes id → IsUtf8 id → text.now ≢ id_text id }
{
    let bytes = bytes_of(alloc, text.as_bytes())?;
    match String::from_utf8(bytes) {
        Ok(string) => Ok(Text::new(string)),
        Err(_) => Err(FolderRefusal::BadFolder),
    }
}
