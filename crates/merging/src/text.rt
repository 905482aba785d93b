//! Reading and writing the text of a listing.
ghost use Rattle.std.specs.Prelude.{◌≡◌, ◌≢◌, ℕ, ◌<◌, List, ◌++◌, length, IfOk, OnOk};
ghost use Rattle.names.specs.Digests.{IsBytes};
ghost use Rattle.merging.specs.Listings.{Listing, IsListing};
ghost use Rattle.merging.specs.Texts.{line_words, line_text, listing_text, IsLine, AreLines};

use super::escape::{path_of, push_path};
use super::listing::is_listing;
use super::refusal::ListingRefusal;
use super::row::Line;
use names::Items;
use names::reading::split;
use std::alloc::{AllocError, Global};

/// How long the text of a listing may be: 64 MiB.
pub const LISTING_LIMIT: usize = 64 << 20;

/// Adds a line.
pub(crate) fn push_line(text: &mut Vec<u8>, path: &[u8], entry: &[u8]) -> Result<(), AllocError>
    ensures { OnOk result (text.new.items ≡ text.old.items ++ line_text (path.now, entry.now)) }
{
    push_path(text, path)?;
    text.push(b' ')?;
    text.extend_from_slice(entry)?;
    text.push(b'\n')?;
    Ok(())
}

/// The text of the lines, which `read_listing` reads back, if no entry has the byte that ends a line.
pub fn listing_text(alloc: Global, lines: &[Line]) -> Result<Vec<u8>, AllocError>
    ensures { IfOk result (λ text. text.items ≡ listing_text lines.now) }
{
    let mut text = Vec::new(alloc);
    for (path, entry) in lines {
        push_line(&mut text, path.as_slice(), entry.as_slice())?;
    }
    Ok(text)
}

/// The line that a text without a line's end spells.
fn line_of(alloc: Global, text: &str) -> Result<Line, ListingRefusal>
    ensures spelled { IfOk result (λ line. text.now ≡ line_words line) }
    ensures bytes { IfOk result (λ line. IsBytes line.0) }
    ensures only { result ≡ Err ListingRefusal.BadForm → (line : List ℕ × List ℕ) → IsBytes line.0 → text.now ≢ line_words line }
    ensures short { result ≢ Err ListingRefusal.TooLong }
{
    let Some((path, entry)) = split(text, ' ') else {
        return Err(ListingRefusal::BadForm);
    };
    let path = path_of(alloc, path.as_bytes())?;
    let entry = Vec::from_slice(alloc, entry.as_bytes())?;
    Ok((Items::new(path), Items::new(entry)))
}

/// The lines that a text spells, in any order.
fn lines_of(alloc: Global, text: &str) -> Result<Vec<Line>, ListingRefusal>
    ensures spelled { IfOk result (λ lines. text.now ≡ listing_text lines.items) }
    ensures lines { IfOk result (λ lines. AreLines lines.items) }
    ensures only { result ≡ Err ListingRefusal.BadForm → (lines : Listing) → AreLines lines → text.now ≢ listing_text lines }
    ensures short { result ≢ Err ListingRefusal.TooLong }
{
    let mut lines = Vec::new(alloc);
    let mut rest = text;
    while !rest.is_empty() {
        let Some((line, behind)) = split(rest, '\n') else {
            return Err(ListingRefusal::BadForm);
        };
        lines.push(line_of(alloc, line)?)?;
        rest = behind;
    }
    Ok(lines)
}

/// The listing that a text spells: a line for each path, rising by their bytes.
///
/// A path is written as its names with `/` between them; of a name's bytes those that are not visible ASCII, and `#`, `%`, `@` and `/`,
/// as `%` and two digits (`/`, which no name has, as `%00`). Behind a space stands the entry. A text that is too long is refused before
/// anything of it is read.
pub fn read_listing(alloc: Global, text: &str) -> Result<Vec<Line>, ListingRefusal>
    ensures spelled { IfOk result (λ lines. text.now ≡ listing_text lines.items) }
    ensures listing { IfOk result (λ lines. IsListing lines.items) }
    ensures lines { IfOk result (λ lines. AreLines lines.items) }
    ensures only { result ≡ Err ListingRefusal.BadForm → (lines : Listing) → AreLines lines → IsListing lines → text.now ≢ listing_text lines }
    ensures too_long { LISTING_LIMIT < length text.now → result ≡ Err ListingRefusal.TooLong }
    ensures short { result ≡ Err ListingRefusal.TooLong → LISTING_LIMIT < length text.now }
{
    if LISTING_LIMIT < text.len() {
        return Err(ListingRefusal::TooLong);
    }
    let lines = lines_of(alloc, text)?;
    if is_listing(lines.as_slice()) {
        Ok(lines)
    } else {
        Err(ListingRefusal::BadForm)
    }
}
