//! Who is right where both sides changed a path, differently.
ghost use Rattle.std.specs.Prelude.{◌≡◌, drop};
ghost use Rattle.std.specs.Option.{option_copied};
ghost use Rattle.merging.specs.Choices.{is_newer, newer, favoured};

use super::side::Side;

/// Which side is right where both changed a path, differently.
#[derive(Clone, Copy, Debug, PartialEq, Eq)]
pub enum Rule {
    /// That of the newer entry. What is there is newer than what was removed.
    Newer,
    /// Always this one.
    Always(Side),
}

/// The bytes behind the kind.
fn behind_kind(entry: &[u8]) -> &[u8]
    ensures { result.now ≡ drop 1 entry.now }
{
    match entry {
        [] => entry,
        [_, others @ ..] => others,
    }
}

/// Whether an entry is newer than another one.
fn is_newer(one: &[u8], other: &[u8]) -> bool
    ensures { result ≡ is_newer one.now other.now }
{
    let order = behind_kind(other).cmp(behind_kind(one));
    order.then(other.cmp(one)).is_lt()
}

/// The side of the newer entry.
fn newer(mine: Option<&[u8]>, theirs: Option<&[u8]>) -> Side
    ensures { result ≡ newer (option_copied mine.entry) (option_copied theirs.entry) }
{
    match (mine, theirs) {
        (None, _) => Side::Theirs,
        (Some(_), None) => Side::Mine,
        (Some(mine), Some(theirs)) => {
            if is_newer(mine, theirs) {
                Side::Mine
            } else {
                Side::Theirs
            }
        }
    }
}

impl Rule {
    /// The side that is right, of these entries.
    pub(crate) fn favoured(self, mine: Option<&[u8]>, theirs: Option<&[u8]>) -> Side
        ensures { result ≡ favoured self (option_copied mine.entry) (option_copied theirs.entry) }
    {
        match self {
            Rule::Newer => newer(mine, theirs),
            Rule::Always(side) => side,
        }
    }
}
