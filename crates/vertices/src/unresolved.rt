//! What is kept of an op until all digests are known.

ghost use Rattle.std.specs.Prelude.{◌≡◌, IfOk};
ghost use Rattle.std.specs.List.{AllZip};
ghost use Rattle.vertices.specs.declared.vertex.Vertex.{Vertex};
ghost use Rattle.vertices.specs.Asked.{NamesAs, Asks};
ghost use Rattle.vertices.specs.Taken.{IsEntry};
ghost use Rattle.vertices.specs.Outcomes.{Meets};
ghost use Rattle.vertices.specs.Loading.{ReadCheck};

use super::edges::named_digest;
use super::execs::check_kind;
use super::reading::{digest_of, read_entry, stripped_digest};
use super::refusal::LoadRefusal;
use bumpalo::Bump;
use names::Digest;
use opsproto::{Input, LentOp, LentText};
use smallvec::SmallVec;
use std::alloc::{AllocError, Global};

/// What an input names: a digest, where its text spells one, and an output's index.
#[derive(Default, Drop)]
pub(crate) struct Named {
    pub digest: Option<Digest>,
    pub index: i64,
}

/// What is to be checked of a vertex: the inputs that it names, and the first fault of what it does. One input takes no memory of
/// its own.
#[derive(Drop)]
pub(crate) struct Asked {
    pub place: usize,
    pub inputs: SmallVec<Named, 1>,
    pub fault: Option<LoadRefusal>,
}

/// What is kept of an entry: its digest, that of its op's stripped bytes, and what is to be checked of it.
#[derive(Drop)]
pub(crate) struct Entry {
    pub digest: Digest,
    pub stripped: Digest,
    pub asked: Asked,
}

impl Named {
    /// What an input names.
    pub(crate) fn of(input: &Input) -> Self
        ensures { NamesAs input.now result }
    {
        Named {
            digest: named_digest(input.digest.as_str()),
            index: input.index,
        }
    }

    /// What an input names that is lent from its entry.
    fn of_lent(input: &Input<LentText<'_>>) -> Self
        ensures { NamesAs input.now result }
    {
        Named {
            digest: named_digest(input.digest.as_str()),
            index: input.index,
        }
    }
}

fn all_named(
    alloc: Global,
    inputs: &[Input<LentText<'_>>],
) -> Result<SmallVec<Named, 1>, AllocError>
    ensures { IfOk result (λ all. AllZip NamesAs inputs.now all.items) }
{
    let mut all = SmallVec::with_capacity(alloc, inputs.len())?;
    for input in inputs {
        all.push(Named::of_lent(input))?;
    }
    Ok(all)
}

impl Asked {
    /// What is to be checked of the vertex at a place.
    fn of(alloc: Global, place: usize, op: &LentOp<'_>) -> Result<Self, AllocError>
        ensures { IfOk result (λ asked. (vertex : Vertex) → vertex.place ≡ place → vertex.op ≡ op.now → Asks vertex asked) }
    {
        let inputs = all_named(alloc, op.inputs())?;
        let fault = check_kind(place, op.inputs().len(), op.kind()).err();
        Ok(Asked {
            place,
            inputs,
            fault,
        })
    }
}

impl Entry {
    /// Reads the entry at a place. Of its bytes only what is spelled in several parts is copied.
    pub(crate) fn read(alloc: Global, place: usize, bytes: &[u8]) -> Result<Self, LoadRefusal>
        ensures check { Meets (ReadCheck place bytes.now) result }
        ensures entry { IfOk result (IsEntry place bytes.now) }
    {
        let arena = Bump::new(alloc);
        let op = read_entry(alloc, &arena, place, bytes)?;
        let digest = digest_of(bytes);
        let stripped = stripped_digest(bytes, digest, &op);
        let asked = Asked::of(alloc, place, &op)?;
        Ok(Entry {
            digest,
            stripped,
            asked,
        })
    }
}
