ghost use Rattle.std.specs.Prelude.{◌≡◌, ◌∷◌, [], ◌++◌, map, if◌then◌else◌, IfOk, OnOk};
ghost use Rattle.std.specs.Option.{option_copied};
ghost use Rattle.merging.specs.Listings.{IsListing};
ghost use Rattle.merging.specs.Merging.{IsMerge};
ghost use Rattle.merging.specs.Rows.{line_if, next_with, row_lines, row_conflicts, lines_in, conflicts_in};
ghost use Rattle.merging.specs.Views.{seen, picked, lines_of, conflicts_of, plain, merged_lines, merged_conflicts};

use super::below::has_below;
use super::row::{Line, Row, rows_of};
use super::rule::Rule;
use super::side::Side;
use std::alloc::{AllocError, Global};

/// A line of a merge, lent by the listing of its side.
#[derive(Drop)]
pub struct Picked<'a> {
    pub path: &'a [u8],
    pub entry: &'a [u8],
    /// The side that it is from. What both sides have is from theirs.
    pub side: Side,
}

/// A merge: its lines, by rising path, and the paths at which there was a conflict.
#[derive(Drop)]
pub struct Merged<'a> {
    pub lines: Vec<Picked<'a>>,
    pub conflicts: Vec<&'a [u8]>,
}

/// Appends the path, if the test holds.
fn push_path<'a>(paths: &mut Vec<&'a [u8]>, path: &'a [u8], test: bool) -> Result<(), AllocError>
    ensures { OnOk result (map (λ path. path.now) paths.new.items ≡ map (λ path. path.now) paths.old.items ++ (if test then (path.now ∷ []) else [])) }
{
    if test {
        paths.push(path)?;
    }
    Ok(())
}

/// Appends the line of a path, if an entry stands there.
fn push_line<'a>(
    lines: &mut Vec<Picked<'a>>,
    path: &'a [u8],
    side: Side,
    entry: Option<&'a [u8]>,
) -> Result<(), AllocError>
    ensures { OnOk result (map picked lines.new.items ≡ map picked lines.old.items ++ line_if path.now side (option_copied entry.entry)) }
{
    if let Some(entry) = entry {
        lines.push(Picked { path, entry, side })?;
    }
    Ok(())
}

/// The first path of which an entry is taken, if `next` is that of the rows behind this row.
fn next_taken<'a>(rule: Rule, row: &Row<'a>, next: Option<&'a [u8]>) -> Option<&'a [u8]>
    ensures { option_copied result ≡ next_with rule (seen row.now) (option_copied next.entry) }
{
    match row.of(row.chosen(rule)) {
        Some(_) => Some(row.path),
        None => next,
    }
}

impl<'a> Merged<'a> {
    /// Appends what a row is decided to, with the first path behind it of which an entry is taken.
    fn push(&mut self, rule: Rule, row: &Row<'a>, next: Option<&[u8]>) -> Result<(), AllocError>
        ensures lines { OnOk result (lines_of self.new ≡ lines_of self.old ++ row_lines rule (option_copied next.entry) (seen row.now)) }
        ensures conflicts { OnOk result (conflicts_of self.new ≡ conflicts_of self.old ++ row_conflicts rule (option_copied next.entry) (seen row.now)) }
    {
        let side = row.chosen(rule);
        let kept = row.is_kept(has_below(row.path, next), side);
        let settled = if kept { side.other() } else { side };
        let conflict = row.is_contested() || kept;
        push_path(&mut self.conflicts, row.path, conflict)?;
        push_line(&mut self.lines, row.path, settled, row.of(settled))
    }
}

/// Decides each row, from the last to the first, so that what stands below a directory is known before it.
fn decide<'a>(alloc: Global, rule: Rule, rows: Vec<Row<'a>>) -> Result<Merged<'a>, AllocError>
    ensures lines { IfOk result (λ merge. lines_of merge ≡ lines_in rule (map seen rows.entry.items)) }
    ensures conflicts { IfOk result (λ merge. conflicts_of merge ≡ conflicts_in rule (map seen rows.entry.items)) }
{
    let mut merged = Merged {
        lines: Vec::new(alloc),
        conflicts: Vec::new(alloc),
    };
    let mut next = None;
    let mut rows = rows;
    while let Some(row) = rows.pop() {
        merged.push(rule, &row, next)?;
        next = next_taken(rule, &row, next);
    }
    merged.lines.reverse();
    merged.conflicts.reverse();
    Ok(merged)
}

/// Merges what a command changed of the base, `mine`, into what the base has become meanwhile, `theirs`.
///
/// Each path is taken from the side that changed it; where both did, differently, from the side that the rule names. A
/// directory stays as long as something below it stands. Each listing is read once.
pub fn merge<'a>(
    alloc: Global,
    rule: Rule,
    base: &'a [Line],
    mine: &'a [Line],
    theirs: &'a [Line],
) -> Result<Merged<'a>, AllocError>
    requires base_rises { IsListing base.now }
    requires mine_rises { IsListing mine.now }
    requires theirs_rises { IsListing theirs.now }
    // Path by path, what stands after the merge, and from which side.
    ensures lines { IfOk result (λ merge. lines_of merge ≡ merged_lines rule base.now mine.now theirs.now) }
    ensures conflicts { IfOk result (λ merge. conflicts_of merge ≡ merged_conflicts rule base.now mine.now theirs.now) }
    ensures listing { IfOk result (λ merge. IsMerge rule base.now mine.now theirs.now (plain (lines_of merge))) }
{
    let rows = rows_of(alloc, base, mine, theirs)?;
    decide(alloc, rule, rows)
}
