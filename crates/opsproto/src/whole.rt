//! The body of a message that may stand in several fields of its number: lent where one field has it, else joined in an arena.
ghost use Rattle.std.specs.Prelude.{◌≡◌, IfOk};
ghost use Rattle.std.specs.Option.{option_map};
ghost use Rattle.protowire.specs.Seen.{entries};
ghost use Rattle.protowire.specs.Lookups.{joined_body, last_member};

use bumpalo::Bump;
use protowire::Field;
use std::alloc::{AllocError, Global};

/// The member of a oneof that counts, and its body.
pub(crate) fn whole_member<'a>(
    alloc: Global,
    arena: &'a Bump,
    fields: &[Field<'a>],
    members: &[u32],
) -> Result<Option<(u32, &'a [u8])>, AllocError>
    ensures { IfOk result (λ found. option_map (λ m. (m.0, m.1.now)) found ≡ last_member members.now (entries fields.now)) }
{
    if let Some(lone) = protowire::lone_member(fields, members) {
        return Ok(Some(lone));
    }
    match protowire::last_member(alloc, fields, members)? {
        Some((number, body)) => Ok(Some((number, arena.try_alloc_slice_copy(&body)?))),
        None => Ok(None),
    }
}

/// The body of this number, if there is one.
pub(crate) fn whole_body<'a>(
    alloc: Global,
    arena: &'a Bump,
    fields: &[Field<'a>],
    number: u32,
) -> Result<Option<&'a [u8]>, AllocError>
    ensures { IfOk result (λ found. option_map (λ body. body.now) found ≡ joined_body number (entries fields.now)) }
{
    match whole_member(alloc, arena, fields, &[number])? {
        Some((_, body)) => Ok(Some(body)),
        None => Ok(None),
    }
}
