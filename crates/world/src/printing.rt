ghost use Rattle.std.specs.Prelude.{◌≡◌, IfOk};
ghost use Rattle.std.specs.String.{string_bytes};
ghost use Rattle.schedule.specs.Printing.{line_text};
ghost use Rattle.world.specs.Printing.{ArePrinted, lines_of};
ghost use Rattle.coordinator.specs.Held.{ledger};
ghost use Rattle.world.specs.Shown.{shown};

use super::world::World;
use coordinator::Coordinator;
use farm_base::Slot;
use saverecord::MemoryKeeper;
use schedule::print_line;
use std::alloc::{AllocError, Global};
use versions::Line;

/// The line of a slot. A slot without a version has an empty one.
fn slot_line(
    alloc: Global,
    coordinator: &Coordinator<MemoryKeeper>,
    slot: &Slot,
) -> Result<String, AllocError>
    ensures { IfOk result (λ text. string_bytes text ≡ line_text slot.now ((ledger coordinator.now.held).line slot.now)) }
{
    match coordinator.line(slot) {
        Some(line) => print_line(alloc, slot, line),
        None => print_line(alloc, slot, &Line::new(alloc)),
    }
}

/// The lines of these slots, one text after another.
fn lines_of(
    alloc: Global,
    coordinator: &Coordinator<MemoryKeeper>,
    slots: &[Slot],
) -> Result<String, AllocError>
    ensures { IfOk result (λ text. string_bytes text ≡ lines_of (ledger coordinator.now.held).line slots.now) }
{
    let mut text = String::new(alloc);
    for slot in slots {
        let line = slot_line(alloc, coordinator, slot)?;
        text.push_str(line.as_str())?;
    }
    Ok(text)
}

/// The lines of versions: one for each slot that has a version, in the slots' order.
pub fn print_lines(alloc: Global, world: &World) -> Result<String, AllocError>
    ensures { IfOk result (λ text. ArePrinted (shown world.now).ledger.line (string_bytes text)) }
{
    let coordinator = world.coordinator();
    let slots = coordinator.slots(alloc)?;
    let text = lines_of(alloc, coordinator, slots.as_slice())?;
    Ok(text)
}
