//! A text within XML.
ghost use Rattle.std.specs.Prelude.{◌≡◌, ◌++◌, OnOk};
ghost use Rattle.std.specs.String.{string_bytes};
ghost use Rattle.draw.specs.Escapes.{escaped, escaped_text, front_of, dots_of};

use std::alloc::AllocError;

/// Adds one byte of a text, so that XML means nothing by it.
#[tactic(auto, unfolding(crate::specs::Escapes::escaped))]
pub(crate) fn push_byte(text: &mut String, byte: u8) -> Result<(), AllocError>
    ensures { OnOk result (string_bytes text.new ≡ string_bytes text.old ++ escaped byte) }
{
    match byte {
        b'&' => text.push_str("&amp;"),
        b'<' => text.push_str("&lt;"),
        b'>' => text.push_str("&gt;"),
        b'\'' => text.push_str("&#39;"),
        b'"' => text.push_str("&quot;"),
        b'\n' | b' '..=b'~' => text.push(byte as char),
        _ => text.push('?'),
    }
}

/// Adds a text, so that XML means nothing by it.
pub(crate) fn push_escaped(text: &mut String, bytes: &[u8]) -> Result<(), AllocError>
    ensures { OnOk result (string_bytes text.new ≡ string_bytes text.old ++ escaped_text bytes.now) }
{
    for byte in bytes {
        push_byte(text, *byte)?;
    }
    Ok(())
}

/// A text, or the first bytes of a longer one.
pub(crate) fn front_of(most: usize, bytes: &[u8]) -> &[u8]
    ensures { result.now ≡ front_of most bytes.now }
{
    if bytes.len() > most {
        &bytes[..most]
    } else {
        bytes
    }
}

/// Adds what stands for the rest of a longer text.
pub(crate) fn push_dots(text: &mut String, most: usize, bytes: &[u8]) -> Result<(), AllocError>
    ensures { OnOk result (string_bytes text.new ≡ string_bytes text.old ++ dots_of most bytes.now) }
{
    if bytes.len() > most {
        text.push_str("..")?;
    }
    Ok(())
}
