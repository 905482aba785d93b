ghost use Rattle.std.specs.Prelude.{◌≡◌, ◌≤◌, ◌<◌, ℕ, List, Some, IfOk, IfSome, length, slice_get, slice_range};
ghost use Rattle.std.specs.Arc.{arc_value};
ghost use Rattle.protowire.specs.BodyLists.{AreWithin, pieces};

use super::body_list::Span;
use super::shared_bytes::SharedBytes;
use std::alloc::AllocError;
use std::marker::Model;
use std::sync::Arc;

/// Byte strings that stand in one buffer, of which parts can be shared. A contract sees the list of them.
#[derive(Drop)]
pub struct SharedBodies {
    buffer: Arc<Vec<u8>>,
    spans: Vec<Span>,
}

impl Model for SharedBodies {
    ghost use Rattle.std.specs.Prelude.{ℕ, List, length};
    ghost use Rattle.std.specs.Arc.{arc_value};
    ghost use Rattle.protowire.specs.BodyLists.{AreWithin, pieces};

    ghost Value = { List (List ℕ) };

    ghost view = { λ b. pieces (arc_value b.buffer).items b.spans.items };

    ghost invariant = { λ b. AreWithin (length (arc_value b.buffer).items) b.spans.items };
}

impl SharedBodies {
    /// The byte strings at these places of a buffer.
    pub(crate) fn at(buffer: Arc<Vec<u8>>, spans: Vec<Span>) -> Self
        requires { AreWithin (length (arc_value buffer).items) spans.items }
        ensures { result ≡ pieces (arc_value buffer).items spans.items }
    {
        SharedBodies { buffer, spans }
    }

    /// The number of byte strings.
    #[allow(clippy::len_without_is_empty)]
    pub fn len(&self) -> usize
        ensures { result ≡ length self.now }
    {
        self.spans.len()
    }

    /// The byte string at a place.
    pub fn body(&self, place: usize) -> &[u8]
        requires { place < length self.now }
        ensures { slice_get self.now place ≡ Some result.now }
    {
        let span = self.spans[place];
        &self.buffer[span.start..span.end]
    }

    /// The bytes of the byte string at `place` that stand there in it. They stay where they are, and are shared.
    pub fn part(&self, place: usize, span: Span) -> Result<SharedBytes, AllocError>
        requires place { place < length self.now }
        requires rises { span.start ≤ span.end }
        requires within { IfSome (slice_get self.now place) (λ body. span.end ≤ length body) }
        ensures { IfOk result (λ bytes. IfSome (slice_get self.now place) (λ body. bytes ≡ slice_range body span.start span.end)) }
    {
        let body = self.spans[place];
        let within = Span {
            start: body.start + span.start,
            end: body.start + span.end,
        };
        Ok(SharedBytes::part(Arc::try_clone(&self.buffer)?, within))
    }
}
