//! The text of a merge.
ghost use Rattle.std.specs.Prelude.{◌≡◌, ◌++◌, IfOk, OnOk};
ghost use Rattle.std.specs.List.{flat_map};
ghost use Rattle.merging.specs.Answers.{side_word, picked_text, conflict_text, answer_text, merged_text};
ghost use Rattle.merging.specs.Listings.{IsListing};
ghost use Rattle.merging.specs.Views.{picked, lines_of, conflicts_of};

use super::escape::push_path;
use super::merging::{Merged, Picked, merge};
use super::row::Line;
use super::rule::Rule;
use super::side::Side;
use super::text::push_line;
use std::alloc::{AllocError, Global};

/// Adds the word of a side.
fn push_side(text: &mut Vec<u8>, side: Side) -> Result<(), AllocError>
    ensures { OnOk result (text.new.items ≡ text.old.items ++ side_word side) }
{
    match side {
        Side::Mine => text.extend_from_slice(b"mine "),
        Side::Theirs => text.extend_from_slice(b"theirs "),
    }
}

/// Adds a line of a merge.
fn push_picked(text: &mut Vec<u8>, line: &Picked<'_>) -> Result<(), AllocError>
    ensures { OnOk result (text.new.items ≡ text.old.items ++ picked_text (picked line.now)) }
{
    push_side(text, line.side)?;
    push_line(text, line.path, line.entry)
}

/// Adds the line of a conflict.
fn push_conflict(text: &mut Vec<u8>, path: &[u8]) -> Result<(), AllocError>
    ensures { OnOk result (text.new.items ≡ text.old.items ++ conflict_text path.now) }
{
    text.extend_from_slice(b"conflict ")?;
    push_path(text, path)?;
    text.push(b'\n')?;
    Ok(())
}

/// Adds the lines of a merge.
fn push_lines(text: &mut Vec<u8>, lines: &[Picked<'_>]) -> Result<(), AllocError>
    ensures { OnOk result (text.new.items ≡ text.old.items ++ flat_map (λ line. picked_text (picked line)) lines.now) }
{
    for line in lines {
        push_picked(text, line)?;
    }
    Ok(())
}

/// Adds the lines of conflicts.
fn push_conflicts(text: &mut Vec<u8>, paths: &[&[u8]]) -> Result<(), AllocError>
    ensures { OnOk result (text.new.items ≡ text.old.items ++ flat_map (λ path. conflict_text path.now) paths.now) }
{
    for path in paths {
        push_conflict(text, path)?;
    }
    Ok(())
}

impl Merged<'_> {
    /// A line `theirs PATH ENTRY` or `mine PATH ENTRY` for each line, and then `conflict PATH` for each conflict.
    pub fn text(&self, alloc: Global) -> Result<Vec<u8>, AllocError>
        ensures { IfOk result (λ text. text.items ≡ answer_text (lines_of self.now) (conflicts_of self.now)) }
    {
        let mut text = Vec::new(alloc);
        push_lines(&mut text, self.lines.as_slice())?;
        push_conflicts(&mut text, self.conflicts.as_slice())?;
        Ok(text)
    }
}

/// The text of the merge of three listings.
pub fn merged_text(
    alloc: Global,
    rule: Rule,
    base: &[Line],
    mine: &[Line],
    theirs: &[Line],
) -> Result<Vec<u8>, AllocError>
    requires base_rises { IsListing base.now }
    requires mine_rises { IsListing mine.now }
    requires theirs_rises { IsListing theirs.now }
    ensures { IfOk result (λ text. text.items ≡ merged_text rule base.now mine.now theirs.now) }
{
    let merged = merge(alloc, rule, base, mine, theirs)?;
    merged.text(alloc)
}
