//! A text with its MAC behind it.
ghost use Rattle.std.specs.Prelude.{◌≡◌, ◌≢◌, ◌↔◌, ℕ, List, length, IsTrue, IfOk, IfSome, IfNone};
ghost use Rattle.std.specs.String.{string_bytes};
ghost use Rattle.hex.specs.Hex.{encode_lower};
ghost use Rattle.seals.specs.Macs.{hmac_sha256};
ghost use Rattle.seals.specs.Seals.{with_mac};

use super::hmac::FarmKey;
use names::Key;
use std::alloc::{AllocError, Global};

/// How many bytes stand behind the text: a space and the digits of the MAC.
const MAC_LEN: usize = 65;

/// The text, a space, and the digits of the text's MAC.
pub fn sealed(alloc: Global, key: &FarmKey, text: String) -> Result<String, AllocError>
    ensures { IfOk result (λ line. string_bytes line ≡ with_mac key.now (string_bytes text)) }
{
    let mut line = text;
    let mac = Key(key.mac(line.as_bytes())).to_text(alloc)?;
    line.push(' ')?;
    line.push_str(mac.as_str())?;
    Ok(line)
}

/// Whether two texts of one length are the same. It looks at each byte, wherever they differ.
fn are_equal(one: &[u8], other: &[u8]) -> bool
    requires { length one.now ≡ length other.now }
    ensures { IsTrue result ↔ (one.now ≡ other.now) }
{
    let mut same = true;
    for index in 0..one.len() {
        same = same & (one[index] == other[index]);
    }
    same
}

/// The digits of a text's MAC.
fn mac_digits(key: &FarmKey, text: &[u8]) -> [u8; 64]
    ensures { result ≡ encode_lower (hmac_sha256 key.now text.now) }
{
    let mac = key.mac(text);
    let mut digits = [0; 64];
    hex::encode_to_slice(mac.0, &mut digits).unwrap();
    digits
}

/// The text of a line, where what stands behind it is a space and its MAC.
pub fn text_of<'a>(key: &FarmKey, line: &'a [u8]) -> Option<&'a [u8]>
    ensures found { IfSome result (λ text. line.now ≡ with_mac key.now text.now) }
    ensures only { IfNone result ((text : List ℕ) → line.now ≢ with_mac key.now text) }
{
    if line.len() < MAC_LEN {
        return None;
    }
    let (text, end) = line.split_at(line.len() - MAC_LEN);
    let wanted = mac_digits(key, text);
    if end[0] == b' ' && are_equal(&end[1..], wanted.as_slice()) {
        Some(text)
    } else {
        None
    }
}

/// What stands before the MAC of a line, if there can be one.
pub fn before_mac(line: &[u8]) -> Option<&[u8]>
    ensures found { IfSome result (λ front. (key text : List ℕ) → line.now ≡ with_mac key text → text ≡ front.now) }
    ensures none { IfNone result ((key text : List ℕ) → line.now ≢ with_mac key text) }
{
    if line.len() < MAC_LEN {
        return None;
    }
    Some(&line[..line.len() - MAC_LEN])
}
