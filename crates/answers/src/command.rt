//! What each command answers for a file.
ghost use Rattle.std.specs.Prelude.{IfOk, IfErr};
ghost use Rattle.std.specs.String.{string_bytes};
ghost use Rattle.answers.specs.Answers.{AreRefused, IsRefused, IsAnswer};

use super::answered::Answer;
use super::definition::{checked, graph_of, listed};
use super::drawing::drawn;
use super::failure::Failure;
use super::record::recorded;
use super::replaying::replayed;
use super::wants::wanted;
use draw::Range;
use std::alloc::Global;

/// What the program is asked to do with a file.
#[derive(Clone, Copy)]
pub enum Command {
    /// Says whether a definition can be solved, and what its result is.
    Check,
    /// Prints the solver key of each vertex.
    Keys,
    /// Prints the folders that each vertex wants for its cache mounts.
    Wants,
    /// Prints what a record keeps.
    Record,
    /// Prints the result of each event of a schedule, and the lines of versions.
    Replay,
    /// Draws a range of the events of a schedule, and the lines of versions after them.
    Draw(Range),
}

/// The lines that the command prints for a file, and the events that are refused where it replays a schedule.
pub fn answer(alloc: Global, command: Command, bytes: Vec<u8>) -> Result<Answer, Failure>
    ensures printed { IfOk result (λ answer. IsAnswer command bytes.items (string_bytes answer.text)) }
    ensures refused_events { IfOk result (λ answer. AreRefused command bytes.items answer.refused.items) }
    ensures refused { IfErr result (IsRefused command bytes.items) }
{
    match command {
        Command::Check => {
            let graph = graph_of(alloc, bytes)?;
            let text = checked(alloc, &graph)?;
            Ok(Answer::of(alloc, text))
        }
        Command::Keys => {
            let graph = graph_of(alloc, bytes)?;
            let text = listed(alloc, graph)?;
            Ok(Answer::of(alloc, text))
        }
        Command::Wants => {
            let graph = graph_of(alloc, bytes)?;
            let text = wanted(alloc, &graph)?;
            Ok(Answer::of(alloc, text))
        }
        Command::Record => {
            let text = recorded(alloc, bytes.as_slice())?;
            Ok(Answer::of(alloc, text))
        }
        Command::Replay => replayed(alloc, bytes.as_slice()),
        Command::Draw(range) => {
            let text = drawn(alloc, bytes.as_slice(), range)?;
            Ok(Answer::of(alloc, text))
        }
    }
}
