ghost use Rattle.std.specs.Prelude.{◌≡◌, ◌<◌, List, IfOk, IfSome, IfNone, IsTrue};
ghost use Rattle.names.specs.declared.digest.Digest.{Digest as SpecDigest};
ghost use Rattle.names.specs.Digests.{IsDigest, digest_text, encode_lower};
ghost use Rattle.std.specs.List.{AllZip};
ghost use Rattle.opsproto.specs.Scalars.{Text};
ghost use Rattle.opsproto.specs.declared.input.Input.{Input};
ghost use Rattle.vertices.specs.declared.vertex.Vertex.{Vertex};
ghost use Rattle.vertices.specs.Asked.{NamesAs};
ghost use Rattle.vertices.specs.Outcomes.{Each, refused, Meets};
ghost use Rattle.vertices.specs.Edges.{IsDigestText, InputCheck, IsEdge, AreEdges, Numbers};

use super::refusal::LoadRefusal;
use super::unresolved::Named;
use names::Digest;
use ordering::Table;
use smallvec::SmallVec;
use std::alloc::Global;

/// The value of a lower-case digit, or any number for another byte. It has no branches, since digits come in no
/// order that a processor could foresee.
fn digit_value(digit: u8) -> u8
    ensures { result < 16 }
{
    (digit % 16 + 9 * (digit / 64)) % 16
}

/// The digest of 64 lower-case digits, or any digest for other bytes.
fn guessed(digits: &[u8]) -> Digest {
    let mut bytes = [0; 32];
    if digits.len() == 64 {
        for place in 0..32 {
            bytes[place] = 16 * digit_value(digits[2 * place]) + digit_value(digits[2 * place + 1]);
        }
    }
    Digest(bytes)
}

/// Whether these are the digits of a digest.
fn are_digits_of(digits: &[u8], digest: &Digest) -> bool
    ensures { IsTrue result → digits.now ≡ encode_lower digest.now.0 }
{
    let mut written = [0; 64];
    hex::encode_to_slice(digest.0, &mut written).is_ok() && written.as_slice() == digits
}

/// The digest that a text spells, if the quick guess is right.
fn spelled_digest(text: &str) -> Option<Digest>
    ensures { IfSome result (λ digest. text.now ≡ digest_text digest) }
{
    let digits = text.strip_prefix("sha256:")?.as_bytes();
    let digest = guessed(digits);
    if are_digits_of(digits, &digest) {
        Some(digest)
    } else {
        None
    }
}

/// The digest that a text spells. A good guess is checked faster than a text is parsed.
pub(crate) fn named_digest(text: &str) -> Option<Digest>
    ensures found { IfSome result (λ digest. IsDigest digest × (text.now ≡ digest_text digest)) }
    ensures none { IfNone result (¬ IsDigestText text.now) }
{
    let digest = match spelled_digest(text) {
        Some(digest) => digest,
        None => Digest::parse(text).ok()?,
    };
    prove!(digest.bytes().len() == 32);
    Some(digest)
}

/// The vertex that is named, by its number, and the index of the output.
pub(crate) fn edge_of(
    table: &Table,
    place: usize,
    named: &Named,
) -> Result<(usize, u64), LoadRefusal>
    ensures check { (input : Input Text) (digests : List SpecDigest) (vertices : List Vertex) → NamesAs input named.now
        → Numbers digests vertices table.now → InputCheck digests place input (refused result) }
    ensures edge { (input : Input Text) (digests : List SpecDigest) (vertices : List Vertex) → NamesAs input named.now
        → Numbers digests vertices table.now → IfOk result (IsEdge vertices input) }
{
    let Some(digest) = named.digest else {
        return Err(LoadRefusal::BadInputDigest(place));
    };
    let Some(number) = table.number(&digest) else {
        return Err(LoadRefusal::MissingInput(place));
    };
    let Ok(index) = u64::try_from(named.index) else {
        return Err(LoadRefusal::NegativeIndex(place));
    };
    Ok((number, index))
}

/// An edge for each input.
pub(crate) fn edges_of(
    alloc: Global,
    table: &Table,
    place: usize,
    all: &[Named],
) -> Result<SmallVec<(usize, u64), 1>, LoadRefusal>
    ensures check { (inputs : List (Input Text)) (digests : List SpecDigest) (vertices : List Vertex) → AllZip NamesAs inputs all.now
        → Numbers digests vertices table.now → Meets (Each (InputCheck digests place) inputs) result }
    ensures edges { (inputs : List (Input Text)) (digests : List SpecDigest) (vertices : List Vertex) → AllZip NamesAs inputs all.now
        → Numbers digests vertices table.now → IfOk result (λ edges. AreEdges vertices inputs edges.items) }
{
    let mut edges = SmallVec::with_capacity(alloc, all.len())?;
    for named in all {
        edges.push(edge_of(table, place, named)?)?;
    }
    Ok(edges)
}
