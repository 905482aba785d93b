//! Three listings side by side.
ghost use Rattle.std.specs.Prelude.{◌≡◌, ◌+◌, map, length, IfOk};
ghost use Rattle.std.specs.Option.{option_copied};
ghost use Rattle.merging.specs.Choices.{of, same, chosen, is_contested, is_kept};
ghost use Rattle.merging.specs.Rows.{first_path, lesser, first_entry, behind, least_path, rows_of};
ghost use Rattle.merging.specs.Views.{three_of, seen};

use super::below::is_directory;
use super::rule::Rule;
use super::side::Side;
use names::Items;
use std::alloc::{AllocError, Global};

/// A path, its names parted by the byte 0, and the entry there.
pub type Line = (Items<u8>, Items<u8>);

/// A path, and what stands there in the three listings.
#[derive(Drop)]
pub(crate) struct Row<'a> {
    pub(crate) path: &'a [u8],
    base: Option<&'a [u8]>,
    mine: Option<&'a [u8]>,
    theirs: Option<&'a [u8]>,
}

/// Whether there are two equal entries, or none in both places.
fn same(one: Option<&[u8]>, other: Option<&[u8]>) -> bool
    ensures { result ≡ same (option_copied one.entry) (option_copied other.entry) }
{
    match (one, other) {
        (None, None) => true,
        (Some(one), Some(other)) => one == other,
        _ => false,
    }
}

impl<'a> Row<'a> {
    /// What stands on a side.
    pub(crate) fn of(&self, side: Side) -> Option<&'a [u8]>
        ensures { option_copied result ≡ of side (three_of self.now) }
    {
        match side {
            Side::Mine => self.mine,
            Side::Theirs => self.theirs,
        }
    }

    /// The side that is taken, if no other path mattered.
    pub(crate) fn chosen(&self, rule: Rule) -> Side
        ensures { result ≡ chosen rule (three_of self.now) }
    {
        if same(self.mine, self.base) {
            Side::Theirs
        } else if same(self.theirs, self.base) {
            Side::Mine
        } else if same(self.mine, self.theirs) {
            Side::Theirs
        } else {
            rule.favoured(self.mine, self.theirs)
        }
    }

    /// Whether both sides changed it, differently.
    pub(crate) fn is_contested(&self) -> bool
        ensures { result ≡ is_contested (three_of self.now) }
    {
        !same(self.mine, self.base)
            && !same(self.theirs, self.base)
            && !same(self.mine, self.theirs)
    }

    /// Whether a directory stays that the side drops or replaces.
    pub(crate) fn is_kept(&self, below: bool, side: Side) -> bool
        ensures { result ≡ is_kept below side (three_of self.now) }
    {
        below && !is_directory(self.of(side)) && is_directory(self.of(side.other()))
    }
}

/// The path of the first line.
fn first_path(lines: &[Line]) -> Option<&[u8]>
    ensures { option_copied result ≡ first_path lines.now }
{
    match lines {
        [] => None,
        [(path, _), ..] => Some(path.as_slice()),
    }
}

/// The lesser path of two, if there are two.
fn lesser<'a>(one: Option<&'a [u8]>, other: Option<&'a [u8]>) -> Option<&'a [u8]>
    ensures { option_copied result ≡ lesser (option_copied one.entry) (option_copied other.entry) }
{
    match (one, other) {
        (None, other) => other,
        (Some(one), None) => Some(one),
        (Some(one), Some(other)) => {
            if other.cmp(one).is_lt() {
                Some(other)
            } else {
                Some(one)
            }
        }
    }
}

/// The entry of the first line, if it is at the path, and the other lines.
fn split<'a>(lines: &'a [Line], path: &[u8]) -> (Option<&'a [u8]>, &'a [Line])
    ensures entry { option_copied result.0 ≡ first_entry path.now lines.now }
    ensures others { result.1.now ≡ behind path.now lines.now }
{
    match lines {
        [(first, entry), others @ ..] if first.as_slice() == path => (
            Some(entry.as_slice()),
            others,
        ),
        _ => (None, lines),
    }
}

/// The least path of three listings.
fn least_path<'a>(base: &'a [Line], mine: &'a [Line], theirs: &'a [Line]) -> Option<&'a [u8]>
    ensures { option_copied result ≡ least_path base.now mine.now theirs.now }
{
    lesser(
        lesser(first_path(base), first_path(mine)),
        first_path(theirs),
    )
}

/// The rows of three listings.
pub(crate) fn rows_of<'a>(
    alloc: Global,
    base: &'a [Line],
    mine: &'a [Line],
    theirs: &'a [Line],
) -> Result<Vec<Row<'a>>, AllocError>
    ensures { IfOk result (λ rows. map seen rows.items ≡ rows_of base.now mine.now theirs.now) }
{
    let mut rows = Vec::new(alloc);
    let mut base_left = base;
    let mut mine_left = mine;
    let mut theirs_left = theirs;
    while let Some(path) = least_path(base_left, mine_left, theirs_left) {
        let (in_base, base_others) = split(base_left, path);
        let (in_mine, mine_others) = split(mine_left, path);
        let (in_theirs, theirs_others) = split(theirs_left, path);
        rows.push(Row {
            path,
            base: in_base,
            mine: in_mine,
            theirs: in_theirs,
        })?;
        base_left = base_others;
        mine_left = mine_others;
        theirs_left = theirs_others;
    }
    Ok(rows)
}
