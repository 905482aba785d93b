//! What the operator is shown.
ghost use Rattle.std.specs.Prelude.{◌≡◌, ◌++◌, IfOk, OnOk, option_copied};
ghost use Rattle.std.specs.List.{flat_map, enumerate_from};
ghost use Rattle.std.specs.String.{string_bytes};
ghost use Rattle.coordinatorfilter.specs.Shown.{version_line, line_answer, IsShown};

use super::needed::print_needed;
use super::status::print_status;
use coordinator::Coordinator;
use coordinatorlines::Question;
use farm_base::{Key, LineVersion};
use saverecord::Keeper;
use std::alloc::{AllocError, Global};
use versions::Line;

/// Adds a version.
fn push_version(
    alloc: Global,
    text: &mut String,
    number: u64,
    version: LineVersion,
) -> Result<(), AllocError>
    ensures { OnOk result (string_bytes text.new ≡ string_bytes text.old ++ version_line (number, version)) }
{
    let number = number.to_string(alloc)?;
    let ticket = version.ticket.0.to_string(alloc)?;
    let digits = Key(version.digest).to_text(alloc)?;
    text.push_str(": ")?;
    text.push_str(number.as_str())?;
    text.push_str(" ")?;
    text.push_str(ticket.as_str())?;
    text.push_str(" ")?;
    text.push_str(digits.as_str())?;
    text.push_str("\n")
}

/// Adds versions, numbered from 1.
fn push_versions(
    alloc: Global,
    text: &mut String,
    versions: &[LineVersion],
) -> Result<(), AllocError>
    ensures { OnOk result (string_bytes text.new ≡ string_bytes text.old ++ flat_map version_line (enumerate_from 1 versions.now)) }
{
    for index in 0..versions.len() {
        push_version(alloc, text, index as u64 + 1, versions[index])?;
    }
    Ok(())
}

/// The text of a slot's versions.
fn print_line(alloc: Global, line: Option<&Line>) -> Result<String, AllocError>
    ensures { IfOk result (λ text. string_bytes text ≡ line_answer (option_copied line.entry)) }
{
    let mut text = String::new(alloc);
    if let Some(line) = line {
        push_versions(alloc, &mut text, line.versions())?;
    }
    text.push_str("= line\n")?;
    Ok(text)
}

/// What the operator asks to be shown.
pub(crate) fn print_shown<K: Keeper>(
    alloc: Global,
    coordinator: &Coordinator<K>,
    question: &Question,
) -> Result<String, AllocError>
    ensures { IfOk result (λ text. IsShown coordinator.now.held question.now (string_bytes text)) }
{
    match question {
        Question::Line(slot) => print_line(alloc, coordinator.line(slot)),
        Question::Status => print_status(alloc, coordinator),
        Question::Needed => print_needed(alloc, coordinator),
    }
}
