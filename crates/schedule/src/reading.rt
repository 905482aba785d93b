//! The text of a schedule.
ghost use Rattle.std.specs.Prelude.{◌≡◌, [], ◌∷◌, length, IfOk, IfErr, IfSome, IfNone, OnOk, ◌==◌, position};
ghost use Rattle.std.specs.Option.{option_map_or};
ghost use Rattle.schedule.specs.declared.setup.Setup.{Setup};
ghost use Rattle.schedule.specs.Schedules.{lines, IsSetup, AreEvents, IsSchedule, IsRefused};
ghost use Rattle.schedule.specs.Steps.{AddsLine, AreRefused, IsLineRefused};

use super::line::event_of;
use super::refusal::{ScheduleRefusal, refusal_at};
use super::setup::Setup;
use events::Event;
use farm_base::reading::{after, number};
use farm_base::{EVENTS, NODES};
use std::alloc::Global;

/// The greatest size of a text: 16 MiB.
const MOST_BYTES: usize = 16 << 20;

/// The setup that a line spells.
pub(crate) fn setup_of(line: &[u8]) -> Option<Setup>
    ensures found { IfSome result (IsSetup line.now) }
    ensures only { IfNone result ((setup : Setup) → IsSetup line.now setup → ⊥) }
{
    let Ok(text) = str::from_utf8(line) else {
        return None;
    };
    let nodes = number(after(text, "nodes ")?)?;
    let most = NODES as u64;
    if 1 <= nodes && nodes <= most {
        Some(Setup {
            nodes: nodes as u32,
        })
    } else {
        None
    }
}

/// Adds the event of the line of this number. An empty line has none.
fn push_event(
    alloc: Global,
    events: &mut Vec<Event>,
    line: &[u8],
    number: u64,
) -> Result<(), ScheduleRefusal>
    ensures added { OnOk result (AddsLine events.old.items line.now events.new.items) }
    ensures refused { IfErr result (IsLineRefused line.now number (length events.old.items)) }
{
    if line.is_empty() {
        return Ok(());
    }
    if events.len() >= EVENTS {
        return Err(ScheduleRefusal::TooManyEvents);
    }
    match event_of(alloc, line) {
        Ok(event) => {
            events.push(event)?;
            Ok(())
        }
        Err(refusal) => Err(refusal_at(refusal, number)),
    }
}

/// The events of all lines but the first.
fn events_of(alloc: Global, text: &[u8]) -> Result<Vec<Event>, ScheduleRefusal>
    ensures events { IfOk result (λ events. AreEvents (lines text.now) events.items) }
    ensures refused { IfErr result (AreRefused (lines text.now)) }
{
    let mut events = Vec::new(alloc);
    let mut number = 1;
    for line in text.split(|byte| *byte == b'\n') {
        number += 1;
        push_event(alloc, &mut events, line, number)?;
    }
    Ok(events)
}

/// Where the first line ends with a line feed.
fn line_end(text: &[u8]) -> Option<usize>
    ensures { result ≡ position (λ b. b == 10) text.now }
{
    text.iter().position(|byte| *byte == b'\n')
}

/// The first line, and what follows its line feed.
fn first_line(text: &[u8]) -> (&[u8], Option<&[u8]>)
    ensures { lines text.now ≡ result.0.now ∷ option_map_or (λ rest. lines rest.now) result.1 [] }
{
    match line_end(text) {
        None => (text, None),
        Some(end) => (&text[..end], Some(&text[end + 1..])),
    }
}

/// The farm's setup and the events that a text spells.
///
/// The first line is `nodes N`, with N from 1 to 1,024. Each further line is empty, or an event: its verb, and the words
/// that `Verb::form` has for it, as `begin 1 7`. The folders of an `ask` may stand in any order, and `ro=` before one
/// makes it read only; the slots of a `finish` rise.
///
/// Lines end with a line feed, which the last may lack, and one space separates the words of a line. Numbers are
/// decimal without leading zeros, hexadecimal digits lower case. A refusal is the first fault from the top.
pub fn read_schedule(alloc: Global, bytes: &[u8]) -> Result<(Setup, Vec<Event>), ScheduleRefusal>
    ensures schedule { IfOk result (λ said. IsSchedule bytes.now said.0 said.1.items) }
    ensures refused { IfErr result (IsRefused bytes.now) }
{
    if bytes.len() > MOST_BYTES {
        return Err(ScheduleRefusal::TooLarge);
    }
    let (first, others) = first_line(bytes);
    let Some(setup) = setup_of(first) else {
        return Err(ScheduleRefusal::BadLine(1));
    };
    let events = match others {
        None => Vec::new(alloc),
        Some(text) => events_of(alloc, text)?,
    };
    Ok((setup, events))
}
