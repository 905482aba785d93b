//! Lines of at most a limit, in bounded memory.
ghost use Rattle.std.specs.Prelude.{◌≡◌, ◌≢◌, ℕ, ◌<◌, List, [], ◌++◌, ◌∷◌};
ghost use Rattle.services.specs.Buffers.{HasRead};
ghost use Rattle.services.specs.Lines.{Ends, Grows};

use super::lost::Lost;
use farm_base::Items;
use std::alloc::Global;
use std::marker::Model;
use std::mem;

/// What was read of the line that hasn't ended yet. It never keeps as many bytes as the limit.
#[derive(Drop)]
pub struct LineBuffer {
    limit: usize,
    bytes: Vec<u8>,
    /// Why the bytes aren't kept.
    lost: Option<Lost>,
}

impl Model for LineBuffer {
    ghost use Rattle.services.specs.Buffers.{BufferParts, kept_of};

    ghost Value = { BufferParts };

    ghost view = { λ b. record { limit = b.limit; kept = kept_of b.bytes.items b.lost } };
}

impl LineBuffer {
    /// A buffer for lines of at most this many bytes, each with its end.
    pub fn new(alloc: Global, limit: usize) -> Self
        requires { 0 < limit }
        ensures limit { result.limit ≡ limit }
        ensures empty { HasRead result [] }
    {
        LineBuffer {
            limit,
            bytes: Vec::new(alloc),
            lost: None,
        }
    }

    /// Ends the line.
    fn end(&mut self, alloc: Global) -> Result<Items<u8>, Lost>
        requires { 0 < self.old.limit }
        ensures limit { self.new.limit ≡ self.old.limit }
        ensures line { result ≡ self.old.kept }
        ensures empty { HasRead self.new [] }
    {
        let bytes = mem::replace(&mut self.bytes, Vec::new(alloc));
        match mem::replace(&mut self.lost, None) {
            None => Ok(Items::new(bytes)),
            Some(lost) => Err(lost),
        }
    }

    /// Keeps one more byte, where its line still can be kept.
    fn keep(&mut self, alloc: Global, byte: u8)
        requires { 0 < self.old.limit }
        ensures limit { self.new.limit ≡ self.old.limit }
        ensures kept { (front : List ℕ) → HasRead self.old front → HasRead self.new (front ++ byte ∷ []) }
    {
        if self.lost.is_some() {
            return;
        }
        if self.bytes.len() >= self.limit - 1 {
            self.bytes = Vec::new(alloc);
            self.lost = Some(Lost::TooLong);
        } else if self.bytes.push(byte).is_err() {
            self.bytes = Vec::new(alloc);
            self.lost = Some(Lost::OutOfMemory);
        }
    }

    /// Takes one more byte, and gives the line that it ends, without its end.
    pub fn push(&mut self, alloc: Global, byte: u8) -> Option<Result<Items<u8>, Lost>>
        requires { 0 < self.old.limit }
        ensures limit { self.new.limit ≡ self.old.limit }
        ensures ends { byte ≡ 10 → (front : List ℕ) → HasRead self.old front → Ends self.old.limit front result self.new }
        ensures grows { byte ≢ 10 → (front : List ℕ) → HasRead self.old front → Grows front byte result self.new }
    {
        if byte == b'\n' {
            return Some(self.end(alloc));
        }
        self.keep(alloc, byte);
        None
    }
}
