//! The merge of listings, which stand in files.
ghost use Rattle.std.specs.Prelude.{◌≡◌, OnOk, IfOk};
ghost use Rattle.std.specs.Io.KnownBytes.{Appends};
ghost use Rattle.merging.specs.Answers.{merged_text};
ghost use Rattle.merging.specs.Listings.{IsListing};
ghost use Rattle.merging.specs.Texts.{AreLines, listing_text};

use super::fault::{Cause, ProcessFault};
use super::files::most_bytes_of;
use merging::{LISTING_LIMIT, Line, ListingRefusal, Rule, merged_text, read_listing};
use processcommands::MergePlace;
use std::alloc::Global;
use std::io::{self, Write};
use std::rt::Files;
use std::str;

/// The listing that bytes spell.
fn listing_of(alloc: Global, bytes: &[u8]) -> Result<Vec<Line>, Cause>
    ensures spelled { IfOk result (λ lines. bytes.now ≡ listing_text lines.items) }
    ensures lines { IfOk result (λ lines. AreLines lines.items) }
    ensures listing { IfOk result (λ lines. IsListing lines.items) }
{
    if LISTING_LIMIT < bytes.len() {
        return Err(Cause::TooLong);
    }
    let Ok(text) = str::from_utf8(bytes) else {
        return Err(Cause::BadListing);
    };
    match read_listing(alloc, text) {
        Ok(lines) => Ok(lines),
        Err(ListingRefusal::BadForm) => Err(Cause::BadListing),
        Err(ListingRefusal::TooLong) => Err(Cause::TooLong),
        Err(ListingRefusal::OutOfMemory) => Err(Cause::OutOfMemory),
    }
}

/// The listing of this file.
fn listing_in<R: Files + AllocGlobal>(rt: &R, path: &str) -> Result<Vec<Line>, ProcessFault>
    ensures { IfOk result (λ lines. IsListing lines.items) }
{
    let alloc = rt.alloc();
    let bytes = match most_bytes_of(rt, path, LISTING_LIMIT) {
        Ok(bytes) => bytes,
        Err(error) => return Err(ProcessFault::of_file(alloc, path, error)),
    };
    match listing_of(alloc, bytes.as_slice()) {
        Ok(lines) => Ok(lines),
        Err(cause) => Err(ProcessFault::of(alloc, path, cause)),
    }
}

/// Writes the merge of three listings.
pub fn write_merge<W: Write>(
    alloc: Global,
    rule: Rule,
    base: &[Line],
    mine: &[Line],
    theirs: &[Line],
    writer: &mut W,
) -> io::Result<()>
    requires base_rises { IsListing base.now }
    requires mine_rises { IsListing mine.now }
    requires theirs_rises { IsListing theirs.now }
    ensures { OnOk result (Appends (W.contents writer.old) (W.contents writer.new) (merged_text rule base.now mine.now theirs.now)) }
{
    let text = merged_text(alloc, rule, base, mine, theirs)?;
    writer.write_all(text.as_slice())?;
    writer.flush()
}

/// Writes the merge of the listings in these files. Where one of them holds none, nothing is written.
pub fn run_merge<R: Files + AllocGlobal, W: Write>(
    rt: &R,
    place: MergePlace<'_>,
    writer: &mut W,
) -> Result<(), ProcessFault> {
    let alloc = rt.alloc();
    let base = listing_in(rt, place.base)?;
    let mine = listing_in(rt, place.mine)?;
    let theirs = listing_in(rt, place.theirs)?;
    let written = write_merge(
        alloc,
        place.rule,
        base.as_slice(),
        mine.as_slice(),
        theirs.as_slice(),
        writer,
    );
    match written {
        Ok(()) => Ok(()),
        Err(error) => Err(ProcessFault::of_stream(alloc, error)),
    }
}
