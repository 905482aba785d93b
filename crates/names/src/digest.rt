ghost use Rattle.std.specs.Prelude.{◌≡◌, ◌≢◌, ◌∷◌, [], drop, IfOk, IfSome, IfNone, OnErr};
ghost use Rattle.std.specs.Hash.{on_Alike, same_Alike};
ghost use Rattle.std.proofs.lemmas.Slice.Eq.{bytes_eq-Decides};
ghost use Rattle.std.specs.String.{string_bytes};
ghost use Rattle.hex.specs.Hex.{encode_lower, IsBytes};
ghost use Rattle.names.specs.Digests.{IsDigest, digest_text, key_text};

use std::alloc::{AllocError, Global};
use std::hash::{Hash, Hasher};
use std::str::FromStr;
use thiserror::Error;

/// The SHA-256 of some bytes.
#[derive(Clone, Copy, PartialEq, Eq, PartialOrd, Ord)]
pub struct Digest(pub [u8; 32]);

/// The solver key of a vertex.
#[derive(Clone, Copy, Debug, PartialEq, Eq, PartialOrd, Ord, Hash)]
pub struct Key(pub Digest);

/// The text is not that of a digest.
#[derive(Clone, Copy, Debug, PartialEq, Eq, Error)]
#[error("not `sha256:` and 64 lower-case hexadecimal digits")]
pub struct BadDigestText;

/// The text is not that of a key.
#[derive(Clone, Copy, Debug, PartialEq, Eq, Error)]
#[error("not 64 lower-case hexadecimal digits")]
pub struct BadKeyText;

impl Digest {
    /// Reads the one spelling of a digest.
    pub fn parse(text: &str) -> Result<Self, BadDigestText>
        ensures spelled { IfOk result (λ digest. text.now ≡ digest_text digest) }
        ensures only { OnErr result ((digest : _) → IsDigest digest → text.now ≢ digest_text digest) }
    {
        let digits = text.strip_prefix("sha256:").ok_or(BadDigestText)?;
        lower_digits(digits.as_bytes()).ok_or(BadDigestText)
    }

    /// `sha256:` and 64 lower-case hexadecimal digits, as BuildKit writes it.
    pub fn to_text(&self, alloc: Global) -> Result<String, AllocError>
        ensures { IfOk result (λ text. string_bytes text ≡ digest_text self.now) }
    {
        let mut text = String::from_str(alloc, "sha256:")?;
        let digits = hex::encode(alloc, self.0)?;
        text.push_str(digits.as_str())?;
        Ok(text)
    }
}

impl Key {
    /// Reads the one spelling of a key.
    pub fn parse(text: &str) -> Result<Self, BadKeyText>
        ensures spelled { IfOk result (λ key. text.now ≡ key_text key) }
        ensures only { OnErr result ((key : _) → IsDigest key.0 → text.now ≢ key_text key) }
    {
        match lower_digits(text.as_bytes()) {
            Some(digest) => Ok(Key(digest)),
            None => Err(BadKeyText),
        }
    }

    /// 64 lower-case hexadecimal digits.
    pub fn to_text(&self, alloc: Global) -> Result<String, AllocError>
        ensures { IfOk result (λ text. string_bytes text ≡ key_text self.now) }
    {
        hex::encode(alloc, self.0.0)
    }
}

impl Hash for Digest {
    ghost hash_input = { λ d. drop 24 d.0 ∷ [] };

    ghost respects_eq = { (on_Alike (λ d. d.0) (same_Alike (λ bytes. drop 24 bytes ∷ []) bytes_eq-Decides)).fed };

    // Its last eight bytes, in which two digests hardly ever agree.
    fn hash<H: Hasher>(&self, state: &mut H) {
        let (_, last) = self.0.split_at(24);
        state.write(last);
    }
}

impl FromStr for Digest {
    type Err = BadDigestText;

    ghost from_str_gives = { λ text result. IfOk result (λ digest. text ≡ digest_text digest) × OnErr result ((digest : _) → IsDigest digest → text ≢ digest_text digest) };

    fn from_str(text: &str) -> Result<Self, BadDigestText> {
        Digest::parse(text)
    }
}

impl FromStr for Key {
    type Err = BadKeyText;

    ghost from_str_gives = { λ text result. IfOk result (λ key. text ≡ key_text key) × OnErr result ((key : _) → IsDigest key.0 → text ≢ key_text key) };

    fn from_str(text: &str) -> Result<Self, BadKeyText> {
        Key::parse(text)
    }
}

/// The digest whose bytes are written as 64 lower-case digits.
pub(crate) fn lower_digits(text: &[u8]) -> Option<Digest>
    ensures spelled { IfSome result (λ digest. text.now ≡ encode_lower digest.0) }
    ensures only { IfNone result ((digest : _) → IsDigest digest → text.now ≢ encode_lower digest.0) }
{
    let mut bytes = [0; 32];
    hex::decode_to_slice(text, &mut bytes).ok()?;
    let mut again = [0; 64];
    hex::encode_to_slice(bytes, &mut again).ok()?;
    if again.as_slice() == text {
        Some(Digest(bytes))
    } else {
        None
    }
}

impl Digest {
    /// Its 32 bytes.
    pub fn bytes(&self) -> &[u8]
        ensures value { result.now ≡ self.now.0 }
        ensures digest { IsDigest self.now }
    {
        let bytes = self.0.as_slice();
        are_bytes(bytes);
        bytes
    }
}

/// Each number of a slice of bytes is below 256.
pub fn are_bytes(bytes: &[u8])
    ensures { IsBytes bytes.now }
{}
