//! What the keeper is given, and how long what it has is.
ghost use Rattle.std.specs.Prelude.{◌≡◌, ◌≢◌, ◌⊎◌, ◌≤◌, true, None, Err, OnOk, OnErr, IfErr, IfSome};
ghost use Rattle.std.specs.Result.{is_ok};
ghost use Rattle.saverecord.specs.Keepers.{HasFailed};
ghost use Rattle.ledger.specs.Keeping.{kept_with, kept_with_some};

use events::CoordRefusal;
use saverecord::{Keeper, KeeperRefusal, Log};

/// Entries are appended until they are this long together, and as long as the whole record.
const LEAST: u64 = 65536;

/// What is saved of an event.
#[derive(Drop)]
pub enum Text {
    /// The whole record that it leaves.
    Whole(Vec<u8>),
    /// An entry, to stand behind what is kept.
    Entry(Vec<u8>),
}

/// The bytes of the texts that a keeper has.
#[derive(Clone, Copy)]
pub(crate) struct Sizes {
    whole: u64,
    entries: u64,
}

impl Sizes {
    /// The sizes of these texts.
    pub(crate) fn of(log: &Log) -> Self {
        let mut entries = 0u64;
        for entry in log.entries() {
            entries = entries.saturating_add(entry.len() as u64);
        }
        Sizes {
            whole: log.whole().len() as u64,
            entries,
        }
    }

    /// The sizes once this text is kept.
    pub(crate) fn after(self, text: &Text) -> Self {
        match text {
            Text::Whole(bytes) => Sizes {
                whole: bytes.len() as u64,
                entries: 0,
            },
            Text::Entry(bytes) => Sizes {
                whole: self.whole,
                entries: self.entries.saturating_add(bytes.len() as u64),
            },
        }
    }

    /// Whether the next save is to be the whole record: none was saved yet, or the entries are long enough.
    pub(crate) fn is_due(self) -> bool {
        self.whole == 0 || (self.entries >= self.whole && self.entries >= LEAST)
    }
}

/// Has the keeper keep a text.
fn keep<K: Keeper>(keeper: &mut K, text: Text) -> Result<(), KeeperRefusal>
    ensures exact { result ≢ Err KeeperRefusal.OutOfMemory → K.saving keeper.old (kept_with text (K.kept keeper.old)) (is_ok result) keeper.new }
    ensures ok { OnOk result (K.kept keeper.new ≡ kept_with text (K.kept keeper.old)) }
    ensures fault { OnErr result ((K.kept keeper.new ≡ K.kept keeper.old) ⊎ (K.kept keeper.new ≡ kept_with text (K.kept keeper.old))) }
    ensures cause { result ≡ Err KeeperRefusal.Fault → HasFailed (K.failed keeper.old) (K.failed keeper.new) }
    ensures same { result ≡ Err KeeperRefusal.OutOfMemory → keeper.new ≡ keeper.old }
    ensures count { K.failed keeper.old ≤ K.failed keeper.new }
{
    match text {
        Text::Whole(bytes) => match keeper.save(bytes) {
            Ok(()) => Ok(()),
            Err(_) => Err(KeeperRefusal::Fault),
        },
        Text::Entry(bytes) => keeper.append(bytes),
    }
}

/// Has the keeper keep a text, if there is one: the sizes of what it has then.
pub(crate) fn save<K: Keeper>(
    keeper: &mut K,
    sizes: Sizes,
    text: Option<Text>,
) -> Result<Sizes, CoordRefusal>
    ensures exact { IfSome text (λ text. result ≢ Err CoordRefusal.OutOfMemory → K.saving keeper.old (kept_with text (K.kept keeper.old)) (is_ok result) keeper.new) }
    ensures ok { OnOk result (K.kept keeper.new ≡ kept_with_some text (K.kept keeper.old)) }
    ensures fault { OnErr result ((K.kept keeper.new ≡ K.kept keeper.old) ⊎ (K.kept keeper.new ≡ kept_with_some text (K.kept keeper.old))) }
    ensures cause { result ≡ Err CoordRefusal.SaveFault → HasFailed (K.failed keeper.old) (K.failed keeper.new) }
    ensures same { result ≡ Err CoordRefusal.OutOfMemory → keeper.new ≡ keeper.old }
    ensures nothing { text ≡ None → is_ok result ≡ true × (keeper.new ≡ keeper.old) }
    ensures refusals { IfErr result (λ e. (e ≡ CoordRefusal.SaveFault) ⊎ (e ≡ CoordRefusal.OutOfMemory)) }
{
    let Some(text) = text else {
        return Ok(sizes);
    };
    let sizes = sizes.after(&text);
    match keep(keeper, text) {
        Ok(()) => Ok(sizes),
        Err(KeeperRefusal::OutOfMemory) => Err(CoordRefusal::OutOfMemory),
        Err(KeeperRefusal::Fault) => Err(CoordRefusal::SaveFault),
    }
}
