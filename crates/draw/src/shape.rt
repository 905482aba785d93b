//! The text of each mark.
ghost use Rattle.std.specs.Prelude.{◌≡◌, ◌+◌, ◌++◌, OnOk};
ghost use Rattle.std.specs.String.{string_bytes};
ghost use Rattle.draw.specs.Shapes.{x_of, y_of, title_text, titles_text, size_text, rect_text, bar_text, end_class, lease_x, number_text, number_x, number_y, point_text, line_text, shaft_text, numbered_text, arrow_text, arrival_text, spot_text, path_text, stub_text, lost_text, sign_class, sign_outline, sign_text, shortened, guide_text, beside_text, begun_label, label_text, mark_text};

use super::escape::{front_of, push_dots, push_escaped};
use super::frame::Frame;
use super::mark::{End, Mark, Sign};
use super::rows::words_at;
use std::alloc::AllocError;

/// The middle of a lifeline.
pub(crate) fn x_of(column: usize) -> u128
    ensures { result ≡ x_of column }
{
    80 + 130 * (column as u128)
}

/// The middle of a row.
pub(crate) fn y_of(row: usize) -> u128
    ensures { result ≡ y_of row }
{
    110 + 26 * (row as u128)
}

/// Adds what a mouse shows: what is printed of an event.
fn push_title(text: &mut String, frames: &[Frame], row: usize) -> Result<(), AllocError>
    ensures { OnOk result (string_bytes text.new ≡ string_bytes text.old ++ title_text frames.now row) }
{
    text.push_str("<title>")?;
    push_escaped(text, words_at(frames, row))?;
    text.push_str("</title>")
}

/// Adds what is printed of two events.
fn push_titles(
    text: &mut String,
    frames: &[Frame],
    from: usize,
    to: usize,
) -> Result<(), AllocError>
    ensures { OnOk result (string_bytes text.new ≡ string_bytes text.old ++ titles_text frames.now from to) }
{
    text.push_str("<title>")?;
    push_escaped(text, words_at(frames, from))?;
    push_escaped(text, words_at(frames, to))?;
    text.push_str("</title>")
}

/// Adds the size of something.
#[tactic(auto, unfolding(crate::specs::Shapes::size_text))]
pub(crate) fn push_size(text: &mut String, width: u128, height: u128) -> Result<(), AllocError>
    ensures { OnOk result (string_bytes text.new ≡ string_bytes text.old ++ size_text width height) }
{
    write!(text, "' width='{width}' height='{height}")
}

/// Where a bar stands: its left edge, its width, and its first and last row.
#[derive(Clone, Copy)]
struct Bar {
    x: u128,
    width: u128,
    from: usize,
    to: usize,
}

/// Adds the beginning of a bar.
fn push_rect(text: &mut String, class: &str, bar: Bar) -> Result<(), AllocError>
    ensures { OnOk result (string_bytes text.new ≡ string_bytes text.old ++ rect_text class.now bar.x bar.width bar.from bar.to) }
{
    let Bar { x, width, from, to } = bar;
    let y = y_of(from);
    let height = 26 * (to.saturating_sub(from) as u128);
    write!(text, "<rect class='{class}' x='{x}' y='{y}")?;
    push_size(text, width, height)?;
    text.push_str("' rx='2'>")
}

/// Adds a bar.
fn push_bar(text: &mut String, frames: &[Frame], class: &str, bar: Bar) -> Result<(), AllocError>
    ensures { OnOk result (string_bytes text.new ≡ string_bytes text.old ++ bar_text frames.now class.now bar.x bar.width bar.from bar.to) }
{
    push_rect(text, class, bar)?;
    push_titles(text, frames, bar.from, bar.to)?;
    text.push_str("</rect>\n")
}

fn end_class(end: End) -> &'static str
    ensures { result.now ≡ end_class end }
{
    match end {
        End::Committed => "committed",
        End::Released => "released",
        End::Withdrawn => "withdrawn",
        End::Died => "died",
        End::Restarted => "restarted",
        End::Open => "open",
    }
}

/// The left edge of a lease.
fn lease_x(column: usize, ticket: u64) -> u128
    ensures { result ≡ lease_x column ticket }
{
    x_of(column) + 9 + 10 * ((ticket as u128 + 4) % 5)
}

/// Adds the number of a message.
fn push_number(text: &mut String, x: u128, y: u128, number: u64) -> Result<(), AllocError>
    ensures { OnOk result (string_bytes text.new ≡ string_bytes text.old ++ number_text x y number) }
{
    write!(
        text,
        "<text class='number' x='{x}' y='{y}'>{number}</text>\n"
    )
}

/// Adds a point.
pub(crate) fn push_point(text: &mut String, x: u128, y: u128) -> Result<(), AllocError>
    ensures { OnOk result (string_bytes text.new ≡ string_bytes text.old ++ point_text x y) }
{
    write!(text, "{x} {y}")
}

/// Adds the beginning of an arrow.
fn push_line(text: &mut String, x: u128, y: u128, to_x: u128, to_y: u128) -> Result<(), AllocError>
    ensures { OnOk result (string_bytes text.new ≡ string_bytes text.old ++ line_text x y to_x to_y) }
{
    text.push_str("<path class='arrow' d='M")?;
    push_point(text, x, y)?;
    text.push_str("L")?;
    push_point(text, to_x, to_y)?;
    text.push_str("'>")
}

/// Where the number of an arrow stands: on it, a quarter of a column from its beginning.
fn number_x(from_column: usize, column: usize) -> u128
    ensures { result ≡ number_x from_column column }
{
    if from_column < column {
        x_of(from_column) + 32
    } else {
        48 + 130 * (from_column as u128)
    }
}

fn number_y(from_column: usize, from: usize, column: usize, to: usize) -> u128
    ensures { result ≡ number_y from_column from column to }
{
    let columns = from_column.saturating_sub(column) as u128
        + column.saturating_sub(from_column) as u128;
    let height = 26 * (to.saturating_sub(from) as u128);
    y_of(from) + height / (4 * columns.max(1))
}

/// The way of an arrow, from a row of one lifeline to a row of another.
#[derive(Clone, Copy)]
struct Way {
    from_column: usize,
    from: usize,
    column: usize,
    to: usize,
}

/// Adds the beginning of an arrow from one row to another.
fn push_shaft(text: &mut String, way: Way) -> Result<(), AllocError>
    ensures { OnOk result (string_bytes text.new ≡ string_bytes text.old ++ shaft_text way.from_column way.from way.column way.to) }
{
    let (x, to_x) = (x_of(way.from_column), x_of(way.column));
    push_line(text, x, y_of(way.from), to_x, y_of(way.to))
}

/// Adds the number on such an arrow.
fn push_numbered(text: &mut String, way: Way, number: u64) -> Result<(), AllocError>
    ensures { OnOk result (string_bytes text.new ≡ string_bytes text.old ++ numbered_text way.from_column way.from way.column way.to number) }
{
    let x = number_x(way.from_column, way.column);
    let y = number_y(way.from_column, way.from, way.column, way.to);
    push_number(text, x, y, number)
}

/// Adds the arrow of a message.
fn push_arrow(text: &mut String, frames: &[Frame], way: Way, number: u64) -> Result<(), AllocError>
    ensures { OnOk result (string_bytes text.new ≡ string_bytes text.old ++ arrow_text frames.now way.from_column way.from way.column way.to number) }
{
    push_shaft(text, way)?;
    push_titles(text, frames, way.from, way.to)?;
    text.push_str("</path>\n")?;
    push_numbered(text, way, number)
}

/// Adds the arrow of a message that was sent before the first row.
fn push_arrival(
    text: &mut String,
    frames: &[Frame],
    column: usize,
    row: usize,
    number: u64,
) -> Result<(), AllocError>
    ensures { OnOk result (string_bytes text.new ≡ string_bytes text.old ++ arrival_text frames.now column row number) }
{
    let left = 130 * (column as u128);
    push_line(text, 40 + left, y_of(row), x_of(column), y_of(row))?;
    push_title(text, frames, row)?;
    text.push_str("</path>\n")?;
    push_number(text, 34 + left, y_of(row), number)
}

/// Adds the middle of a row on a lifeline.
fn push_spot(text: &mut String, column: usize, row: usize) -> Result<(), AllocError>
    ensures { OnOk result (string_bytes text.new ≡ string_bytes text.old ++ spot_text column row) }
{
    push_point(text, x_of(column), y_of(row))
}

/// Adds an outline that begins there.
fn push_path(
    text: &mut String,
    class: &str,
    column: usize,
    row: usize,
    outline: &str,
) -> Result<(), AllocError>
    ensures { OnOk result (string_bytes text.new ≡ string_bytes text.old ++ path_text class.now column row outline.now) }
{
    write!(text, "<path class='{class}' d='M")?;
    push_spot(text, column, row)?;
    write!(text, "{outline}'>")
}

/// Adds the beginning of a stub.
fn push_stub(text: &mut String, column: usize, row: usize, way: &str) -> Result<(), AllocError>
    ensures { OnOk result (string_bytes text.new ≡ string_bytes text.old ++ stub_text column row way.now) }
{
    push_path(text, "lost", column, row, way)
}

/// Adds the stub of a message that is not taken.
fn push_lost(
    text: &mut String,
    frames: &[Frame],
    column: usize,
    to_column: usize,
    row: usize,
    number: u64,
) -> Result<(), AllocError>
    ensures { OnOk result (string_bytes text.new ≡ string_bytes text.old ++ lost_text frames.now column to_column row number) }
{
    let y = y_of(row) + 15;
    if column < to_column {
        push_stub(text, column, row, "l34 13")?;
        push_title(text, frames, row)?;
        text.push_str("</path>\n")?;
        push_number(text, x_of(column) + 46, y, number)
    } else {
        push_stub(text, column, row, "l-34 13")?;
        push_title(text, frames, row)?;
        text.push_str("</path>\n")?;
        push_number(text, 34 + 130 * (column as u128), y, number)
    }
}

fn sign_class(sign: Sign) -> &'static str
    ensures { result.now ≡ sign_class sign }
{
    match sign {
        Sign::Plain => "plain",
        Sign::Refused => "refused",
        Sign::Failed => "failed",
        Sign::Armed => "armed",
        Sign::Started => "started",
    }
}

/// A dot, a cross, a diamond or a triangle.
fn sign_outline(sign: Sign) -> &'static str
    ensures { result.now ≡ sign_outline sign }
{
    match sign {
        Sign::Plain => "m-3 0a3 3 0 1 0 6 0a3 3 0 1 0-6 0",
        Sign::Refused => "m-6-6l12 12m0-12l-12 12",
        Sign::Failed | Sign::Armed => "m0-9l9 9l-9 9l-9-9z",
        Sign::Started => "m-7 6l7-13l7 13z",
    }
}

/// Adds what happened.
fn push_sign(
    text: &mut String,
    frames: &[Frame],
    column: usize,
    row: usize,
    sign: Sign,
) -> Result<(), AllocError>
    ensures { OnOk result (string_bytes text.new ≡ string_bytes text.old ++ sign_text frames.now column row sign) }
{
    push_path(text, sign_class(sign), column, row, sign_outline(sign))?;
    push_title(text, frames, row)?;
    text.push_str("</path>\n")
}

/// Adds words, or the first of longer ones.
fn push_shortened(text: &mut String, words: &[u8]) -> Result<(), AllocError>
    ensures { OnOk result (string_bytes text.new ≡ string_bytes text.old ++ shortened words.now) }
{
    push_escaped(text, front_of(56, words))?;
    push_dots(text, 56, words)
}

/// Adds a faint line along a row.
fn push_guide(text: &mut String, y: u128, right: u128) -> Result<(), AllocError>
    ensures { OnOk result (string_bytes text.new ≡ string_bytes text.old ++ guide_text y right) }
{
    write!(text, "<path class='row' d='M20 {y}H{right}'/>")
}

/// Adds the beginning of the words beside it.
fn push_beside(text: &mut String, x: u128, y: u128) -> Result<(), AllocError>
    ensures { OnOk result (string_bytes text.new ≡ string_bytes text.old ++ beside_text x y) }
{
    write!(text, "<text class='label' x='{x}' y='{y}'>")
}

/// Adds the line of a row, and the beginning of the words beside it.
fn push_begun_label(text: &mut String, column: usize, row: usize) -> Result<(), AllocError>
    ensures { OnOk result (string_bytes text.new ≡ string_bytes text.old ++ begun_label column row) }
{
    let left = 130 * (column as u128);
    push_guide(text, y_of(row), 30 + left)?;
    push_beside(text, 40 + left, y_of(row) + 4)
}

/// Adds what is printed of an event, and a faint line to it.
fn push_label(
    text: &mut String,
    frames: &[Frame],
    column: usize,
    row: usize,
) -> Result<(), AllocError>
    ensures { OnOk result (string_bytes text.new ≡ string_bytes text.old ++ label_text frames.now column row) }
{
    push_begun_label(text, column, row)?;
    push_shortened(text, words_at(frames, row))?;
    push_title(text, frames, row)?;
    text.push_str("</text>\n")
}

/// Adds a mark.
pub(crate) fn push_mark(text: &mut String, frames: &[Frame], mark: Mark) -> Result<(), AllocError>
    ensures { OnOk result (string_bytes text.new ≡ string_bytes text.old ++ mark_text frames.now mark) }
{
    match mark {
        Mark::Life { column, from, to } => {
            let x = 76 + 130 * (column as u128);
            let width = 8;
            push_bar(text, frames, "life", Bar { x, width, from, to })
        }
        Mark::Lease {
            column,
            ticket,
            from,
            to,
            end,
        } => {
            let x = lease_x(column, ticket);
            let width = 9;
            push_bar(text, frames, end_class(end), Bar { x, width, from, to })
        }
        Mark::Run {
            column,
            ticket,
            from,
            to,
        } => {
            let x = lease_x(column, ticket) + 3;
            let width = 3;
            push_bar(text, frames, "run", Bar { x, width, from, to })
        }
        Mark::Arrow {
            from_column,
            from,
            column,
            to,
            number,
        } => {
            let way = Way {
                from_column,
                from,
                column,
                to,
            };
            push_arrow(text, frames, way, number)
        }
        Mark::Arrival {
            column,
            row,
            number,
        } => push_arrival(text, frames, column, row, number),
        Mark::Lost {
            column,
            to_column,
            row,
            number,
        } => push_lost(text, frames, column, to_column, row, number),
        Mark::Event { column, row, sign } => push_sign(text, frames, column, row, sign),
        Mark::Label { column, row } => push_label(text, frames, column, row),
    }
}
