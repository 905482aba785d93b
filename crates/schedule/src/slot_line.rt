ghost use Rattle.std.specs.Prelude.{◌≡◌, IfOk, OnOk, ◌++◌};
ghost use Rattle.std.specs.List.{flat_map, enumerate_from};
ghost use Rattle.std.specs.String.{string_bytes};
ghost use Rattle.schedule.specs.Printing.{version_text, line_text};

use farm_base::{Digest, Slot, Ticket};
use std::alloc::{AllocError, Global};
use versions::Line;

/// Adds a version.
fn push_version(
    alloc: Global,
    text: &mut String,
    number: u64,
    ticket: Ticket,
    digest: Digest,
) -> Result<(), AllocError>
    ensures { OnOk result (string_bytes text.new ≡ string_bytes text.old ++ version_text (number, record { ticket = ticket; digest = digest })) }
{
    let number = number.to_string(alloc)?;
    let ticket = ticket.0.to_string(alloc)?;
    let digits = hex::encode(alloc, digest.0)?;
    text.push(' ')?;
    text.push_str(number.as_str())?;
    text.push(':')?;
    text.push_str(ticket.as_str())?;
    text.push(':')?;
    text.push_str(digits.as_str())
}

/// Adds the versions of a line.
fn push_versions(alloc: Global, text: &mut String, line: &Line) -> Result<(), AllocError>
    ensures { OnOk result (string_bytes text.new ≡ string_bytes text.old ++ flat_map version_text (enumerate_from 1 line.now)) }
{
    for index in 0..line.len() {
        let number = index + 1;
        let ticket = line.ticket_at(number).unwrap();
        let digest = line.digest_at(number).unwrap();
        push_version(alloc, text, number, ticket, digest)?;
    }
    Ok(())
}

/// The line of a slot, with its end: its name, and its versions from number 1 on.
pub fn print_line(alloc: Global, slot: &Slot, line: &Line) -> Result<String, AllocError>
    ensures { IfOk result (λ text. string_bytes text ≡ line_text slot.now line.now) }
{
    let mut text = slot.to_text(alloc)?;
    push_versions(alloc, &mut text, line)?;
    text.push('\n')?;
    Ok(text)
}
