//! Where things stand.
ghost use Rattle.std.specs.Prelude.{◌≡◌, ◌+◌, ◌<◌, ◌≤◌, ◌^◌, length};
ghost use Rattle.draw.specs.Rows.{first_row, words_at, place_of, column_of, has_line};

use super::frame::Frame;
use super::sought::{Sought, meets};

/// The row of the first of these frames that is looked for, where the first of all has this row; the row behind them if
/// none is.
pub(crate) fn first_row(sought: Sought, row: usize, frames: &[Frame]) -> usize
    requires { row + length frames.now < 2 ^ 64 }
    ensures row { result ≡ first_row sought row frames.now }
    ensures within { result ≤ row + length frames.now }
{
    let mut at = row;
    for frame in frames {
        if meets(sought, frame) {
            return at;
        }
        at += 1;
    }
    at
}

/// What is printed of the event of a row.
pub(crate) fn words_at(frames: &[Frame], row: usize) -> &[u8]
    ensures { result.now ≡ words_at frames.now row }
{
    match frames.get(row) {
        Some(frame) => frame.words.as_str().as_bytes(),
        None => &[],
    }
}

/// The place of a lifeline, if it is drawn.
fn place_of(lines: &[u32], line: u32) -> Option<usize>
    ensures { result ≡ place_of lines.now line }
{
    lines.iter().position(|drawn| *drawn == line)
}

/// The column of a lifeline.
pub(crate) fn column_of(lines: &[u32], line: u32) -> usize
    ensures { result ≡ column_of lines.now line }
{
    place_of(lines, line).unwrap_or(0)
}

/// Whether a lifeline is drawn.
pub(crate) fn has_line(lines: &[u32], line: u32) -> bool
    ensures { result ≡ has_line lines.now line }
{
    lines.iter().any(|drawn| *drawn == line)
}
