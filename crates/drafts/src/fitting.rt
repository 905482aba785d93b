//! Slots that are as they have to be.
ghost use Rattle.std.specs.Prelude.{◌≡◌, filter};
ghost use Rattle.protocol.specs.Names.{slots_eq};
ghost use Rattle.protocol.specs.Machine.{slots_of};
ghost use Rattle.protocol.specs.Ledger.{writable_slots};
ghost use Rattle.drafts.specs.Idle.{is_open};

use farm_base::{Mode, News, Slot};
use leases::TableView;

/// Whether this is the slot of a LOCKED or SHARED folder that is not leased.
fn is_open(table: &TableView, slot: &(Slot, bool)) -> bool
    ensures { result ≡ is_open table.now.live slot.now }
{
    !matches!(slot.0.folder().mode, Mode::Private) && !table.is_leased(&slot.0)
}

/// Drops those of the slots that are leased again, and those of PRIVATE folders.
pub(crate) fn keep_open(table: &TableView, slots: &mut Vec<(Slot, bool)>)
    ensures { slots.new.items ≡ filter (is_open table.now.live) slots.old.items }
{
    slots.retain(|slot| is_open(table, slot));
}

/// Whether the news are for exactly the slots that may be written, in their order.
pub(crate) fn fit_slots(news: &[News], slots: &[(Slot, bool)]) -> bool
    ensures { result ≡ slots_eq (slots_of news.now) (writable_slots slots.now) }
{
    let mut place = 0;
    for held in slots {
        if held.1 {
            if place >= news.len() || news[place].slot != held.0 {
                return false;
            }
            place += 1;
        }
    }
    place == news.len()
}
