//! The table of leases with room for an event's changes: taken out of its place before the save, put back changed, or as it
//! was where the save fails. In functions of their own, since letting go of a table is many steps of a proof.
ghost use Rattle.std.specs.Prelude.{◌≡◌, IfOk, OnErr};
ghost use Rattle.leases.specs.Changes.{changed, HasRoom};
ghost use Rattle.holdings.specs.Leases.{AreLeases};

use leases::{LeaseTable, TableChange, TableWithRoom};
use std::alloc::{AllocError, Global};
use std::mem;

/// Takes the table out of its place, with room for changes. Where memory is refused, it stays there as it was.
pub(crate) fn take_table(
    alloc: Global,
    place: &mut LeaseTable,
    change: &TableChange,
) -> Result<TableWithRoom, AllocError>
    ensures table { IfOk result (λ roomy. roomy.table ≡ place.old) }
    ensures room { IfOk result (λ roomy. HasRoom roomy change.now) }
    ensures err { OnErr result (place.new ≡ place.old) }
{
    let table = mem::replace(place, LeaseTable::new(alloc));
    match table.with_room(alloc, change) {
        Ok(table) => Ok(table),
        Err(table) => {
            *place = table;
            Err(AllocError)
        }
    }
}

/// Puts a table back into its place, without the room.
pub(crate) fn put_back(place: &mut LeaseTable, table: TableWithRoom)
    ensures { place.new ≡ table.table }
{
    *place = table.into_table();
}

/// Puts a table back into its place, with the changes for which it has room. It takes no memory.
pub(crate) fn put_changed(place: &mut LeaseTable, table: TableWithRoom, change: TableChange)
    requires room { HasRoom table change }
    requires leases { AreLeases (changed table.table change).live }
    ensures { place.new ≡ changed table.table change }
{
    *place = table.apply(change);
}
