ghost use Rattle.std.specs.Prelude.{◌≡◌, IfOk};
ghost use Rattle.names.specs.Digests.{IsBytes, IsDigest};
ghost use Rattle.names.specs.Contents.{bytes_at, content_digest, empty_digest};

use super::copied::Copied;
use super::digest::{Digest, are_bytes};
use sha2::Sha256;
use std::alloc::{AllocError, Global};
use std::marker::Model;
use std::sync::Arc;

/// Where the bytes of a content stand.
#[derive(Drop)]
enum Place {
    /// In the content, whose copies have bytes of their own.
    Own(Vec<u8>),
    /// In one place for it and its copies.
    Shared(Arc<Vec<u8>>),
}

/// Bytes with their digest, which contracts see as the list of the bytes. They are hashed once.
pub struct Content {
    place: Place,
    digest: Digest,
}

// By hand, so that letting go of one is one step of a proof.
impl Drop for Content {
    fn drop(self) {
        let Self {
            place: _,
            digest: _,
        } = self;
    }
}

impl Model for Content {
    ghost use Rattle.std.specs.Prelude.{◌≡◌, ℕ, List};
    ghost use Rattle.names.specs.Contents.{bytes_at, content_digest};

    ghost Value = { List ℕ };

    ghost view = { λ c. bytes_at c.place };

    ghost invariant = { λ c. c.digest ≡ content_digest (bytes_at c.place) };
}

impl Content {
    /// The content of these bytes, without taking memory.
    pub fn of(bytes: Vec<u8>) -> Self
        ensures { result ≡ bytes.items }
    {
        let digest = Digest(<Sha256 as sha2::Digest>::digest(bytes.as_slice()));
        Content {
            place: Place::Own(bytes),
            digest,
        }
    }

    /// The same content, with copies that take no room: they share its bytes.
    pub fn shared(self, alloc: Global) -> Result<Self, AllocError>
        ensures { IfOk result (λ content. content ≡ self) }
    {
        let Content { place, digest } = self;
        let place = match place {
            Place::Own(bytes) => Place::Shared(Arc::new(alloc, bytes)?),
            Place::Shared(bytes) => Place::Shared(bytes),
        };
        Ok(Content { place, digest })
    }

    /// The SHA-256 of the bytes, worked out when the content was made.
    pub fn digest(&self) -> Digest
        ensures value { result ≡ content_digest self.now }
        ensures digest { IsDigest result }
    {
        let _bytes = self.digest.bytes();
        self.digest
    }

    /// The bytes of the folder.
    pub fn bytes(&self) -> &[u8]
        ensures value { result.now ≡ self.now }
        ensures bytes { IsBytes result.now }
    {
        let bytes = match &self.place {
            Place::Own(bytes) => bytes.as_slice(),
            Place::Shared(bytes) => bytes.as_slice(),
        };
        are_bytes(bytes);
        bytes
    }
}

/// The digest of the empty content.
#[tactic(auto, unfolding(crate::specs::Contents::empty_digest))]
pub fn empty_digest(alloc: Global) -> Digest
    ensures { result ≡ empty_digest }
{
    Content::of(Vec::new(alloc)).digest()
}

impl Copied for Content {
    fn copy(&self, alloc: Global) -> Result<Self, AllocError> {
        let place = match &self.place {
            Place::Own(bytes) => Place::Own(Vec::from_slice(alloc, bytes.as_slice())?),
            Place::Shared(bytes) => Place::Shared(Arc::try_clone(bytes)?),
        };
        Ok(Content {
            place,
            digest: self.digest,
        })
    }
}
