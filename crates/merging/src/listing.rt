//! Whether lines are a listing.
ghost use Rattle.std.specs.Prelude.{◌≡◌, ◌↔◌, None, IsTrue};
ghost use Rattle.std.specs.Option.{option_copied};
ghost use Rattle.merging.specs.Listings.{IsListing, is_above, rises};

use super::row::Line;

/// Whether a path is above the one before it, if there is one.
fn is_above(last: Option<&[u8]>, path: &[u8]) -> bool
    ensures { result ≡ is_above (option_copied last.entry) path.now }
{
    match last {
        None => true,
        Some(last) => last.cmp(path).is_lt(),
    }
}

/// Whether each path is above the one before it.
fn rises(lines: &[Line]) -> bool
    ensures { result ≡ rises None lines.now }
{
    let mut last = None;
    let mut rest = lines;
    while let [(path, _), others @ ..] = rest {
        if !is_above(last, path.as_slice()) {
            return false;
        }
        last = Some(path.as_slice());
        rest = others;
    }
    true
}

/// Whether the paths rise by their bytes, each above the one before it.
pub fn is_listing(lines: &[Line]) -> bool
    ensures { IsTrue result ↔ IsListing lines.now }
{
    rises(lines)
}
