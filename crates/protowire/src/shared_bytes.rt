ghost use Rattle.std.specs.Prelude.{◌≡◌, ◌≤◌, length, slice_range};
ghost use Rattle.std.specs.Arc.{arc_value};

use super::body_list::Span;
use std::marker::Model;
use std::sync::Arc;

/// Where some bytes stand.
#[derive(Drop)]
enum Place {
    /// In a buffer of their own.
    Own(Vec<u8>),
    /// In one that others have too.
    Part(Arc<Vec<u8>>, Span),
}

/// Bytes of their own, or a part of a buffer that others have too. A contract sees the list of them.
pub struct SharedBytes {
    place: Place,
}

// By hand, so that letting go of one is one step of a proof.
impl Drop for SharedBytes {
    fn drop(self) {
        let Self { place: _ } = self;
    }
}

impl Model for SharedBytes {
    ghost use Rattle.std.specs.Prelude.{ℕ, List};
    ghost use Rattle.protowire.specs.SharedBytes.{bytes_at, IsPlace};

    ghost Value = { List ℕ };

    ghost view = { λ b. bytes_at b.place };

    ghost invariant = { λ b. IsPlace b.place };
}

impl SharedBytes {
    /// These bytes, which no others share.
    pub fn own(bytes: Vec<u8>) -> Self
        ensures { result ≡ bytes.items }
    {
        SharedBytes {
            place: Place::Own(bytes),
        }
    }

    /// The bytes of a buffer from one place to another.
    pub(crate) fn part(buffer: Arc<Vec<u8>>, span: Span) -> Self
        requires rises { span.start ≤ span.end }
        requires within { span.end ≤ length (arc_value buffer).items }
        ensures { result ≡ slice_range (arc_value buffer).items span.start span.end }
    {
        SharedBytes {
            place: Place::Part(buffer, span),
        }
    }

    /// The bytes.
    pub fn as_slice(&self) -> &[u8]
        ensures { result.now ≡ self.now }
    {
        match &self.place {
            Place::Own(bytes) => bytes.as_slice(),
            Place::Part(buffer, span) => &buffer[span.start..span.end],
        }
    }
}
