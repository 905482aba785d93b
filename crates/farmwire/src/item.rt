//! What stands in a line any number of times, one word each, for the grammars of the layers above too.
ghost use Rattle.std.specs.Prelude.{◌≡◌, ◌≢◌, ℕ, ◌<◌, ◌^◌, List, ◌++◌, map, IfOk, OnOk, IfSome, IfNone};
ghost use Rattle.std.specs.List.{All};
ghost use Rattle.std.specs.String.{string_bytes};
ghost use Rattle.names.specs.declared.digest.Digest.{Digest};
ghost use Rattle.farm_base.specs.declared.message.Confirmed.{Confirmed};
ghost use Rattle.farm_base.specs.declared.message.GrantedSlot.{GrantedSlot};
ghost use Rattle.farm_base.specs.declared.message.News.{News};
ghost use Rattle.farm_base.specs.declared.want.Want.{Want};
ghost use Rattle.names.specs.Digests.{IsDigest};
ghost use Rattle.words.specs.Words.{IsWant, want_text, texts};
ghost use Rattle.farmwire.specs.Lawful.{IsNews, IsConfirmed, IsGranted};
ghost use Rattle.farmwire.specs.Lines.{news_text, confirmed_text, granted_text, version_text};
ghost use Rattle.farmwire.specs.Words.{spaced, SpellAll};

use farm_base::laws::{is_name, is_slot};
use farm_base::reading::{number, split};
use farm_base::{Confirmed, Digest, GrantedSlot, Key, News, Want};
use std::alloc::{AllocError, Global};
use words::{ReadRefusal, access_of, digest_of, last_split, slot_of, want_of};

/// A value that one word spells.
pub trait Item: Sized {
    ghost spelling: { Self → List ℕ };

    ghost lawful: { Self → Type 0 };

    /// The value of a word.
    fn read(alloc: Global, word: &str) -> Result<Self, ReadRefusal>
        ensures spelled { IfOk result (λ item. word.now ≡ spelling item) }
        ensures fits { IfOk result lawful }
        ensures only { result ≡ Err ReadRefusal.BadForm → (item : Self) → lawful item → word.now ≢ spelling item };

    /// Adds the word.
    fn push(&self, alloc: Global, text: &mut String) -> Result<(), AllocError>
        ensures { OnOk result (string_bytes text.new ≡ string_bytes text.old ++ spelling self.now) };

    /// Each value of the program is lawful.
    fn is_lawful(&self)
        ensures { lawful self.now };
}

/// Adds `NUMBER:DIGEST`.
fn push_version(
    alloc: Global,
    text: &mut String,
    number: u64,
    digest: Digest,
) -> Result<(), AllocError>
    ensures { OnOk result (string_bytes text.new ≡ string_bytes text.old ++ version_text number digest) }
{
    let number = number.to_string(alloc)?;
    let digest = Key(digest).to_text(alloc)?;
    text.push_str(number.as_str())?;
    text.push(':')?;
    text.push_str(digest.as_str())
}

/// The number and the digest of `NUMBER:DIGEST`.
fn version_of(word: &str) -> Option<(u64, Digest)>
    ensures found { IfSome result (λ version. word.now ≡ version_text version.0 version.1) }
    ensures fits { IfSome result (λ version. (version.0 < 2 ^ 64) × IsDigest version.1) }
    ensures only { IfNone result ((value : ℕ) (digest : Digest) → value < 2 ^ 64 → IsDigest digest → word.now ≢ version_text value digest) }
{
    let (value, digest) = split(word, ':')?;
    Some((number(value)?, digest_of(digest)?))
}

impl Item for Want {
    ghost spelling = { want_text };

    ghost lawful = { IsWant };

    fn read(alloc: Global, word: &str) -> Result<Self, ReadRefusal> {
        want_of(alloc, word)
    }

    fn push(&self, alloc: Global, text: &mut String) -> Result<(), AllocError> {
        let folder = self.folder.to_text(alloc)?;
        if !self.writable {
            text.push_str("ro=")?;
        }
        text.push_str(folder.as_str())
    }

    fn is_lawful(&self) {
        is_name(&self.folder);
    }
}

impl Item for News {
    ghost spelling = { news_text };

    ghost lawful = { IsNews };

    fn read(alloc: Global, word: &str) -> Result<Self, ReadRefusal> {
        let Some((slot, digest)) = last_split(word, '=') else {
            return Err(ReadRefusal::BadForm);
        };
        let slot = slot_of(alloc, slot)?;
        let digest = digest_of(digest).ok_or(ReadRefusal::BadForm)?;
        Ok(News { slot, digest })
    }

    fn push(&self, alloc: Global, text: &mut String) -> Result<(), AllocError> {
        let slot = self.slot.to_text(alloc)?;
        let digest = Key(self.digest).to_text(alloc)?;
        text.push_str(slot.as_str())?;
        text.push('=')?;
        text.push_str(digest.as_str())
    }

    fn is_lawful(&self) {
        is_slot(&self.slot);
        let _digest = self.digest.bytes();
    }
}

impl Item for Confirmed {
    ghost spelling = { confirmed_text };

    ghost lawful = { IsConfirmed };

    fn read(alloc: Global, word: &str) -> Result<Self, ReadRefusal> {
        let Some((slot, version)) = last_split(word, '=') else {
            return Err(ReadRefusal::BadForm);
        };
        let slot = slot_of(alloc, slot)?;
        let (number, digest) = version_of(version).ok_or(ReadRefusal::BadForm)?;
        Ok(Confirmed {
            slot,
            number,
            digest,
        })
    }

    fn push(&self, alloc: Global, text: &mut String) -> Result<(), AllocError> {
        let slot = self.slot.to_text(alloc)?;
        text.push_str(slot.as_str())?;
        text.push('=')?;
        push_version(alloc, text, self.number, self.digest)
    }

    fn is_lawful(&self) {
        is_slot(&self.slot);
        let _digest = self.digest.bytes();
        let _number = self.number;
    }
}

impl Item for GrantedSlot {
    ghost spelling = { granted_text };

    ghost lawful = { IsGranted };

    fn read(alloc: Global, word: &str) -> Result<Self, ReadRefusal> {
        let (rest, writable) = access_of(word);
        let base = Confirmed::read(alloc, rest)?;
        Ok(GrantedSlot {
            slot: base.slot,
            writable,
            base: base.number,
            digest: base.digest,
        })
    }

    fn push(&self, alloc: Global, text: &mut String) -> Result<(), AllocError> {
        let slot = self.slot.to_text(alloc)?;
        if !self.writable {
            text.push_str("ro=")?;
        }
        text.push_str(slot.as_str())?;
        text.push('=')?;
        push_version(alloc, text, self.base, self.digest)
    }

    fn is_lawful(&self) {
        is_slot(&self.slot);
        let _digest = self.digest.bytes();
        let _base = self.base;
    }
}

/// The values of these words, one for each word.
pub fn items_of<T: Item + Drop>(alloc: Global, words: &[&str]) -> Result<Vec<T>, ReadRefusal>
    ensures spelled { IfOk result (λ items. SpellAll T.spelling T.lawful (texts words.now) items.items) }
    ensures only { result ≡ Err ReadRefusal.BadForm → (items : List T) → SpellAll T.spelling T.lawful (texts words.now) items → ⊥ }
{
    let mut items = Vec::new(alloc);
    for word in words {
        items.push(T::read(alloc, word)?)?;
    }
    Ok(items)
}

/// Adds the words of these values, each behind a space.
pub fn push_items<T: Item>(alloc: Global, text: &mut String, items: &[T]) -> Result<(), AllocError>
    ensures { OnOk result (string_bytes text.new ≡ string_bytes text.old ++ spaced (map T.spelling items.now)) }
{
    for item in items {
        text.push(' ')?;
        item.push(alloc, text)?;
    }
    Ok(())
}

/// Each of these values is lawful.
pub fn are_lawful<T: Item>(items: &[T])
    ensures { All T.lawful items.now }
{
    for item in items {
        item.is_lawful();
    }
}
