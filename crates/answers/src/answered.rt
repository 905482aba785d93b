//! What a command answers.
ghost use Rattle.std.specs.Prelude.{◌≡◌, []};

use std::alloc::Global;
use world::EventRefusal;

/// An event of a schedule that the farm refuses.
#[derive(Clone, Copy)]
pub struct RefusedEvent {
    /// Its number, from 1.
    pub number: u64,
    pub refusal: EventRefusal,
}

/// What a command answers for a file.
#[derive(Drop)]
pub struct Answer {
    /// The lines that it prints.
    pub text: String,
    /// The events that the farm refuses, in their order, where it replays a schedule.
    pub refused: Vec<RefusedEvent>,
}

impl Answer {
    /// This text, and no refused event.
    pub(crate) fn of(alloc: Global, text: String) -> Self
        ensures text { result.text ≡ text }
        ensures refused { result.refused.items ≡ [] }
    {
        Answer {
            text,
            refused: Vec::new(alloc),
        }
    }
}
