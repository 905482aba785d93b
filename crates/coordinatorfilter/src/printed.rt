//! Facts that are made of parts.
ghost use Rattle.std.specs.Prelude.{◌≡◌, ◌++◌, ℕ, List, OnOk};
ghost use Rattle.std.specs.List.{flat_map};
ghost use Rattle.std.specs.String.{string_bytes};

use std::alloc::{AllocError, Global};

/// A part of a text.
pub(crate) trait Printed {
    /// What is printed for it.
    ghost prints: { Self → List ℕ };

    /// Adds what is printed for it.
    fn push(&self, alloc: Global, text: &mut String) -> Result<(), AllocError>
        ensures { OnOk result (string_bytes text.new ≡ string_bytes text.old ++ prints self.now) };
}

/// Adds what is printed for each of these parts.
pub(crate) fn push_each<P: Printed>(
    alloc: Global,
    text: &mut String,
    parts: &[P],
) -> Result<(), AllocError>
    ensures { OnOk result (string_bytes text.new ≡ string_bytes text.old ++ flat_map P.prints parts.now) }
{
    for part in parts {
        part.push(alloc, text)?;
    }
    Ok(())
}
