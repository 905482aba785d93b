//! Answers that aren't written yet.
ghost use Rattle.std.specs.Prelude.{◌≡◌};
ghost use Rattle.services.specs.Served.{answer_text};

use std::alloc::AllocError;
use std::marker::Model;

/// What is answered where memory ran out.
const OUT_OF_MEMORY: &str = "= refused OutOfMemory\n";

/// The answer to a line. Only the loop of a process reads it, once what it says lasts.
#[derive(Drop)]
pub struct Answer(Result<String, AllocError>);

impl Model for Answer {
    ghost use Rattle.std.specs.Prelude.{ℕ, List};
    ghost use Rattle.services.specs.Served.{answer_text};

    ghost Value = { List ℕ };

    ghost view = { λ a. answer_text a.0 };
}

impl Answer {
    /// This text, or that memory ran out.
    pub fn of(text: Result<String, AllocError>) -> Self
        ensures { result ≡ answer_text text }
    {
        Answer(text)
    }

    /// What is written of it.
    pub(crate) fn text(&self) -> &str
        ensures { result.now ≡ self.now }
    {
        match &self.0 {
            Ok(text) => text.as_str(),
            Err(_) => OUT_OF_MEMORY,
        }
    }
}
