//! What is below a directory.
ghost use Rattle.std.specs.Prelude.{◌≡◌, []};
ghost use Rattle.std.specs.Option.{option_copied};
ghost use Rattle.merging.specs.Listings.{is_below, is_directory};
ghost use Rattle.merging.specs.Rows.{has_below};

/// Whether it begins with the byte 0.
fn begins_low(bytes: &[u8]) -> bool
    ensures { result ≡ is_below [] bytes.now }
{
    match bytes {
        [] => false,
        [first, ..] => *first == 0,
    }
}

/// Whether the path is below the directory: it begins with the directory's path and the byte 0.
fn is_below(dir: &[u8], path: &[u8]) -> bool
    ensures { result ≡ is_below dir.now path.now }
{
    match path.strip_prefix(dir) {
        None => false,
        Some(rest) => begins_low(rest),
    }
}

/// Whether the path, if there is one, is below the directory.
pub(crate) fn has_below(dir: &[u8], path: Option<&[u8]>) -> bool
    ensures { result ≡ has_below dir.now (option_copied path.entry) }
{
    match path {
        None => false,
        Some(path) => is_below(dir, path),
    }
}

/// Whether the entry is that of a directory: it begins with `d`.
pub(crate) fn is_directory(entry: Option<&[u8]>) -> bool
    ensures { result ≡ is_directory (option_copied entry.entry) }
{
    match entry {
        Some([kind, ..]) => *kind == b'd',
        _ => false,
    }
}
