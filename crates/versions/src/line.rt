ghost use Rattle.std.specs.Prelude.{◌≡◌, ◌≢◌, ℕ, ◌<◌, ◌^◌, [], ◌∷◌, ◌++◌, length, vec_len, All, IfOk, IfSome, IfNone, OnOk, OnErr};
ghost use Rattle.std.specs.Vec.{vec_capacity};
ghost use Rattle.versions.specs.Line.{IsLine, is_above_all, version_in, ticket_in, digest_in, number_in};

use super::probes::{LineProbes, search};
use farm_base::{Copied, Digest, LineVersion, Ticket};
use std::alloc::{AllocError, Global};
use std::marker::Model;

/// The versions of a slot, from number 1 on, which contracts see as their list.
pub struct Line {
    versions: Vec<LineVersion>,
}

// By hand, so that letting go of one is one step of a proof, which no other crate makes again.
impl Drop for Line {
    fn drop(self) {
        let Self { versions: _ } = self;
    }
}

impl Model for Line {
    ghost use Rattle.std.specs.Prelude.{List};
    ghost use Rattle.farm_base.specs.declared.message.LineVersion.{LineVersion};
    ghost use Rattle.versions.specs.Line.{IsLine};

    ghost Value = { List LineVersion };

    ghost view = { λ l. l.versions.items };

    ghost invariant = { λ l. IsLine l.versions.items };
}

impl Line {
    /// The line of a slot with no version but the empty folder.
    pub fn new(alloc: Global) -> Self
        ensures { result ≡ [] }
    {
        Line {
            versions: Vec::new(alloc),
        }
    }

    /// The line of these versions, without taking memory.
    pub fn of(versions: Vec<LineVersion>) -> Self
        requires { IsLine versions.items }
        ensures { result ≡ versions.items }
    {
        Line { versions }
    }

    /// The versions, the first with number 1.
    pub fn versions(&self) -> &[LineVersion]
        ensures { result.now ≡ self.now }
    {
        self.versions.as_slice()
    }

    /// The number of the last version, 0 where there is none.
    pub fn len(&self) -> u64
        ensures value { result ≡ length self.now }
        ensures rises { IsLine self.now }
        ensures range { result < 2 ^ 63 }
    {
        self.versions.len() as u64
    }

    /// The digest of a version. Version 0 is on no line.
    pub fn digest_at(&self, number: u64) -> Option<Digest>
        ensures { result ≡ digest_in self.now number }
    {
        Some(self.version_at(number)?.digest)
    }

    /// The ticket under which a version was added.
    pub fn ticket_at(&self, number: u64) -> Option<Ticket>
        ensures { result ≡ ticket_in self.now number }
    {
        Some(self.version_at(number)?.ticket)
    }

    fn version_at(&self, number: u64) -> Option<LineVersion>
        ensures { result ≡ version_in self.now number }
    {
        let index = number.checked_sub(1)?;
        self.versions.get(index as usize).copied()
    }

    /// The number of the version that was added under a ticket.
    pub fn number_of(&self, ticket: Ticket) -> Option<u64>
        ensures value { result ≡ number_in self.now ticket }
        ensures found { IfSome result (λ number. ticket_in self.now number ≡ Some ticket) }
        ensures only { IfNone result ((number : ℕ) → ticket_in self.now number ≢ Some ticket) }
    {
        search(&mut LineProbes::of(self), ticket)
    }

    /// Whether each ticket on the line is below this one.
    pub fn is_below(&self, ticket: Ticket) -> bool
        ensures { result ≡ is_above_all ticket self.now }
    {
        match self.versions.last() {
            None => true,
            Some(last) => last.ticket.0 < ticket.0,
        }
    }

    /// Adds a version.
    pub fn push(&mut self, ticket: Ticket, digest: Digest) -> Result<(), AllocError>
        requires { All (λ version. version.ticket.0 < ticket.0) self.old }
        ensures ok { OnOk result (self.new ≡ self.old ++ record { ticket = ticket; digest = digest } ∷ []) }
        ensures err { OnErr result (self.new ≡ self.old) }
        ensures rises { IsLine self.new }
    {
        self.versions.push(LineVersion { ticket, digest })?;
        Ok(())
    }
}

/// Room for one more version on a line, made before the line changes. Contracts see how many versions it holds.
#[derive(Drop)]
pub struct Room {
    versions: Vec<LineVersion>,
}

impl Model for Room {
    ghost use Rattle.std.specs.Prelude.{◌≡◌, ℕ, []};
    ghost use Rattle.std.specs.Vec.{vec_capacity};

    ghost Value = { ℕ };

    ghost view = { λ r. vec_capacity r.versions };

    ghost invariant = { λ r. r.versions.items ≡ [] };
}

impl Line {
    /// Room for the next version. `push_into` uses it if the line has none of its own.
    pub fn room(&self, alloc: Global) -> Result<Room, AllocError>
        ensures { IfOk result (λ room. length self.now < room) }
    {
        let versions = Vec::with_capacity(alloc, 2 * self.versions.len() + 1)?;
        Ok(Room { versions })
    }

    /// Adds a version, using only the room that was made for it.
    pub fn push_into(&mut self, room: Room, ticket: Ticket, digest: Digest)
        requires above { All (λ version. version.ticket.0 < ticket.0) self.old }
        requires room { length self.old < room }
        ensures value { self.new ≡ self.old ++ record { ticket = ticket; digest = digest } ∷ [] }
        ensures rises { IsLine self.new }
    {
        make_room(&mut self.versions, room.versions);
        self.versions.push(LineVersion { ticket, digest }).unwrap();
    }
}

/// Moves the versions into this room if they have none of their own.
fn make_room(versions: &mut Vec<LineVersion>, room: Vec<LineVersion>)
    requires empty { room.items ≡ [] }
    requires larger { vec_len versions.old < vec_capacity room }
    ensures items { versions.new.items ≡ versions.old.items }
    ensures room { vec_len versions.new < vec_capacity versions.new }
{
    if versions.len() == versions.capacity() {
        let mut room = room;
        room.extend_from_slice(versions.as_slice()).unwrap();
        *versions = room;
    }
}

impl Copied for Line {
    fn copy(&self, alloc: Global) -> Result<Self, AllocError> {
        let versions = Vec::from_slice(alloc, self.versions.as_slice())?;
        Ok(Line { versions })
    }
}
