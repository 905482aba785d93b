ghost use Rattle.std.specs.Prelude.{◌≡◌, Some, IfOk, IfSome, map};
ghost use Rattle.std.specs.Option.{option_map};
ghost use Rattle.protowire.specs.Seen.{entry, entries};
ghost use Rattle.protowire.specs.Lookups.{number_in, body_in, member_in, members_in, lone, last_varint, bodies, joined_body, last_member};

use super::field::{Field, Value};
use std::alloc::{AllocError, Global};

/// What a field holds, if it has this number and is a varint.
#[inline(always)]
fn number_in(field: &Field<'_>, number: u32) -> Option<u64>
    ensures { result ≡ number_in number (entry field.now) }
{
    match field.value {
        Value::Varint(held) if field.number == number => Some(held),
        _ => None,
    }
}

/// The body of a field, if it has this number and a body.
#[inline(always)]
pub fn body_in<'a>(field: &Field<'a>, number: u32) -> Option<&'a [u8]>
    ensures { option_map (λ body. body.now) result ≡ body_in number (entry field.now) }
{
    match field.value {
        Value::Bytes(body) if field.number == number => Some(body),
        _ => None,
    }
}

/// The body of a field, if it is one of these members and has a body.
#[inline(always)]
fn member_in<'a>(field: &Field<'a>, members: &[u32]) -> Option<&'a [u8]>
    ensures { option_map (λ body. (field.now.number, body.now)) result ≡ member_in members.now (entry field.now) }
{
    if members.contains(&field.number) {
        body_in(field, field.number)
    } else {
        None
    }
}

/// The last varint of this number. Fields of other wire types are skipped.
pub fn last_varint(fields: &[Field<'_>], number: u32) -> Option<u64>
    ensures { result ≡ last_varint number (entries fields.now) }
{
    let mut last = None;
    for field in fields {
        if let Some(held) = number_in(field, number) {
            last = Some(held);
        }
    }
    last
}

/// The bodies of this number, in order. Fields of other wire types are skipped.
pub fn bodies<'a>(
    alloc: Global,
    fields: &[Field<'a>],
    number: u32,
) -> Result<Vec<&'a [u8]>, AllocError>
    ensures { IfOk result (λ v. map (λ body. body.now) v.items ≡ bodies number (entries fields.now)) }
{
    let mut bodies = Vec::new(alloc);
    for field in fields {
        if let Some(body) = body_in(field, number) {
            bodies.push(body)?;
        }
    }
    Ok(bodies)
}

/// The bodies of this number joined, if there are any. Fields of other wire types are skipped.
pub fn joined_body(
    alloc: Global,
    fields: &[Field<'_>],
    number: u32,
) -> Result<Option<Vec<u8>>, AllocError>
    ensures { IfOk result (λ found. option_map (λ body. body.items) found ≡ joined_body number (entries fields.now)) }
{
    match last_member(alloc, fields, &[number])? {
        Some((_, body)) => Ok(Some(body)),
        None => Ok(None),
    }
}

/// The member that counts and its body, where exactly one field is a member. Nothing has to be joined then, so the body
/// is lent.
pub fn lone_member<'a>(fields: &[Field<'a>], members: &[u32]) -> Option<(u32, &'a [u8])>
    ensures value { option_map (λ m. (m.0, m.1.now)) result ≡ lone (members_in members.now (entries fields.now)) }
    ensures counts { IfSome result (λ m. last_member members.now (entries fields.now) ≡ Some (m.0, m.1.now)) }
{
    let mut lone: Option<(u32, &'a [u8])> = None;
    for field in fields {
        let Some(body) = member_in(field, members) else {
            continue;
        };
        if lone.is_some() {
            return None;
        }
        lone = Some((field.number, body));
    }
    lone
}

/// The body of this number, where there is exactly one. It is lent, as nothing has to be joined.
pub fn lone_body<'a>(fields: &[Field<'a>], number: u32) -> Option<&'a [u8]>
    ensures value { option_map (λ body. body.now) result ≡ lone (bodies number (entries fields.now)) }
    ensures counts { IfSome result (λ body. joined_body number (entries fields.now) ≡ Some body.now) }
{
    let (_, body) = lone_member(fields, &[number])?;
    Some(body)
}

/// Of the members of a oneof, given by their numbers, the one that counts, and its body: the bodies
/// after the last field of another member, joined.
pub fn last_member(
    alloc: Global,
    fields: &[Field<'_>],
    members: &[u32],
) -> Result<Option<(u32, Vec<u8>)>, AllocError>
    ensures { IfOk result (λ found. option_map (λ m. (m.0, m.1.items)) found ≡ last_member members.now (entries fields.now)) }
{
    let mut last = None;
    let mut joined = Vec::new(alloc);
    for field in fields {
        let Some(body) = member_in(field, members) else {
            continue;
        };
        if last != Some(field.number) {
            joined.clear();
        }
        joined.extend_from_slice(body)?;
        last = Some(field.number);
    }
    match last {
        Some(number) => Ok(Some((number, joined))),
        None => Ok(None),
    }
}
