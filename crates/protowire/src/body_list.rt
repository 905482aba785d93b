ghost use Rattle.std.specs.Prelude.{◌≡◌, ◌<◌, Some, IfOk, length, slice_get};
ghost use Rattle.protowire.specs.BodyLists.{AreWithin, pieces};

use super::shared_bodies::SharedBodies;
use names::Copied;
use std::alloc::{AllocError, Global};
use std::marker::Model;
use std::sync::Arc;

/// Where a byte string stands in another: from `start` on, and before `end`.
#[derive(Clone, Copy)]
pub struct Span {
    pub start: usize,
    pub end: usize,
}

/// Byte strings that stand in one buffer, such as the bodies of a repeated field. A contract sees the list of them.
#[derive(Drop)]
pub struct BodyList {
    buffer: Vec<u8>,
    spans: Vec<Span>,
}

impl Model for BodyList {
    ghost use Rattle.std.specs.Prelude.{ℕ, List, length};
    ghost use Rattle.protowire.specs.BodyLists.{AreWithin, pieces};

    ghost Value = { List (List ℕ) };

    ghost view = { λ b. pieces b.buffer.items b.spans.items };

    ghost invariant = { λ b. AreWithin (length b.buffer.items) b.spans.items };
}

impl BodyList {
    ghost use Rattle.std.specs.Prelude.{◌++◌, ◌∷◌, [], OnOk, OnErr};

    /// No bodies.
    pub fn new(alloc: Global) -> Self
        ensures { result ≡ [] }
    {
        BodyList {
            buffer: Vec::new(alloc),
            spans: Vec::new(alloc),
        }
    }

    /// The byte strings at these places of a buffer.
    pub(crate) fn at(buffer: Vec<u8>, spans: Vec<Span>) -> Self
        requires { AreWithin (length buffer.items) spans.items }
        ensures { result ≡ pieces buffer.items spans.items }
    {
        BodyList { buffer, spans }
    }

    /// The number of byte strings.
    #[allow(clippy::len_without_is_empty)]
    pub fn len(&self) -> usize
        ensures { result ≡ length self.now }
    {
        self.spans.len()
    }

    /// The byte string at a place.
    pub fn body(&self, place: usize) -> &[u8]
        requires { place < length self.now }
        ensures { slice_get self.now place ≡ Some result.now }
    {
        let span = self.spans[place];
        &self.buffer[span.start..span.end]
    }

    /// Adds a copy of a byte string at the end.
    pub fn push(&mut self, body: &[u8]) -> Result<(), AllocError>
        ensures ok { OnOk result (self.new ≡ self.old ++ body.now ∷ []) }
        ensures err { OnErr result (self.new ≡ self.old) }
    {
        let start = self.buffer.len();
        self.buffer.extend_from_slice(body)?;
        let end = self.buffer.len();
        if let Err(failed) = self.spans.push(Span { start, end }) {
            self.buffer.truncate(start);
            return Err(failed.into());
        }
        Ok(())
    }

    /// The same byte strings, of which parts can be shared. No byte is copied.
    pub fn share(self, alloc: Global) -> Result<SharedBodies, AllocError>
        ensures { IfOk result (λ bodies. bodies ≡ self) }
    {
        let BodyList { buffer, spans } = self;
        Ok(SharedBodies::at(Arc::new(alloc, buffer)?, spans))
    }
}

impl Copied for BodyList {
    fn copy(&self, alloc: Global) -> Result<Self, AllocError> {
        Ok(BodyList {
            buffer: Vec::from_slice(alloc, self.buffer.as_slice())?,
            spans: Vec::from_slice(alloc, self.spans.as_slice())?,
        })
    }
}
