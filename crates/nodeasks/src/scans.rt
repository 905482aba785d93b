//! The asks of a node's present life, looked through together. One that is over takes no part.
ghost use Rattle.std.specs.Prelude.{◌≡◌, ◌+◌, ◌<◌, ◌==◌, ◌&&◌, Some, None, IfSome, IfNone, not, position, slice_get, vec_len};
ghost use Rattle.std.specs.List.{list_any};
ghost use Rattle.protocol.specs.Nodes.{is_tenure_of, is_home_of, uses, at_home, is_base, needs, in_use, others_use};
ghost use Rattle.nodeasks.specs.declared.ask_row.AskRow.{AskRow};
ghost use Rattle.nodeasks.specs.Asks.{is_in_use, is_sought};
ghost use Rattle.nodeasks.specs.Rows.{IsFirstRow};
ghost use Rattle.nodeasks.specs.Tickets.{AreIndexed};

use super::ask_row::AskRow;
use super::ask_table::AskTable;
use super::asks::{Sought, has_base, is_home_of, is_sought, is_tenure_of, needs, uses_some};
use super::ticket_index::{Holders, TicketIndex};
use events::KeptAsk;
use farm_base::{Digest, FolderName, Grant, Mode, Ticket, Want, Wants};

/// The first row of an ask with this ticket that stands so.
fn row_in(rows: &[AskRow], sought: Sought, ticket: Ticket) -> Option<usize>
    ensures { result ≡ position (λ r. is_sought sought ticket r.kept) rows.now }
{
    rows.iter()
        .position(|row| is_sought(&row.kept, sought, ticket))
}

/// The row of the first ask with this ticket that stands so, by an index of their tickets.
pub fn row_of(
    asks: &AskTable,
    by_ticket: &TicketIndex,
    sought: Sought,
    ticket: Ticket,
) -> Option<usize>
    requires { AreIndexed by_ticket.now asks.now.all.asks }
    ensures found { IfSome result (λ row. IsFirstRow (is_sought sought ticket) asks.now.all.asks asks.now.rows.items row) }
    ensures none { IfNone result (position (is_sought sought ticket) asks.now.all.asks ≡ None) }
{
    match by_ticket.holders(ticket) {
        None => None,
        Some(Holders::One(place)) => {
            let Some(row) = asks.row_at(place) else {
                return None;
            };
            if is_sought(&asks.rows[row].kept, sought, ticket) {
                Some(row)
            } else {
                None
            }
        }
        Some(Holders::Several) => row_in(asks.rows.as_slice(), sought, ticket),
    }
}

/// Whether the digest is the base of a granted ask of the rows.
fn rows_base(rows: &[AskRow], digest: Digest) -> bool
    ensures { result ≡ list_any (λ r. is_base digest r.kept) rows.now }
{
    rows.iter().any(|row| has_base(&row.kept, digest))
}

/// Whether the digest is the base of a granted ask.
pub fn any_base(asks: &AskTable, digest: Digest) -> bool
    ensures { result ≡ list_any (is_base digest) asks.now.all.asks }
{
    rows_base(asks.rows.as_slice(), digest)
}

/// Whether an ask of the rows needs the content of the digest.
fn rows_need(rows: &[AskRow], digest: Digest) -> bool
    ensures { result ≡ list_any (λ r. needs digest r.kept) rows.now }
{
    rows.iter().any(|row| needs(&row.kept, digest))
}

/// Whether an ask needs the content of the digest.
pub fn any_needs(asks: &AskTable, digest: Digest) -> bool
    ensures { result ≡ list_any (needs digest) asks.now.all.asks }
{
    rows_need(asks.rows.as_slice(), digest)
}

/// Whether an ask of the rows other than that at the place uses one of the folders.
fn other_rows_use(rows: &[AskRow], place: usize, wants: &[Want]) -> bool
    ensures { result ≡ list_any (λ r. not (r.place == place) && list_any (λ w. uses w.folder r.kept) wants.now) rows.now }
{
    rows.iter()
        .any(|row| row.place != place && uses_some(&row.kept, wants))
}

/// Whether an ask other than that at the place uses one of the folders.
fn others_use(asks: &AskTable, place: usize, wants: &[Want]) -> bool
    ensures { result ≡ others_use (place + 1) wants.now asks.now.all.asks 0 }
{
    other_rows_use(asks.rows.as_slice(), place, wants)
}

/// Whether the grant of the ask at the place is a tenure whose folder another ask uses.
fn is_used(asks: &AskTable, place: usize, wants: &Wants, grant: &Grant) -> bool
    ensures { result ≡ in_use asks.now.all.asks (place + 1) wants.now grant.now }
{
    grant.kind.is_tenure() && others_use(asks, place, wants.as_slice())
}

/// Whether the ask of a row is granted or running as a tenure whose folder another ask uses.
fn is_row_used(asks: &AskTable, row: &AskRow) -> bool
    ensures { result ≡ is_in_use asks.now.all.asks (row.now.place + 1) row.now.kept }
{
    match &row.kept {
        KeptAsk::Holding { wants, grant, .. } => is_used(asks, row.place, wants, grant),
        KeptAsk::Running { wants, grant, .. } => is_used(asks, row.place, wants, grant),
        _ => false,
    }
}

/// The same of the row at an index.
pub fn in_use(asks: &AskTable, row: usize) -> bool
    requires { row < vec_len asks.now.rows }
    ensures { (at : AskRow) → slice_get asks.now.rows.items row ≡ Some at → result ≡ is_in_use asks.now.all.asks (at.place + 1) at.kept }
{
    is_row_used(asks, &asks.rows[row])
}

/// Whether an ask of the rows is the tenure of the folder, in use and not recalled.
fn rows_home(rows: &[AskRow], folder: &FolderName) -> bool
    ensures { result ≡ list_any (λ r. is_home_of folder.now r.kept) rows.now }
{
    rows.iter().any(|row| is_home_of(&row.kept, folder))
}

/// Whether the tenure of the folder is in use and not recalled.
fn is_home(asks: &AskTable, folder: &FolderName) -> bool
    ensures { result ≡ list_any (is_home_of folder.now) asks.now.all.asks }
{
    rows_home(asks.rows.as_slice(), folder)
}

/// Whether an ask of the rows is the tenure of the folder.
fn rows_tenure(rows: &[AskRow], folder: &FolderName) -> bool
    ensures { result ≡ list_any (λ r. is_tenure_of folder.now r.kept) rows.now }
{
    rows.iter().any(|row| is_tenure_of(&row.kept, folder))
}

/// Whether an ask is the tenure of the folder.
pub fn has_tenure(asks: &AskTable, folder: &FolderName) -> bool
    ensures { result ≡ list_any (is_tenure_of folder.now) asks.now.all.asks }
{
    rows_tenure(asks.rows.as_slice(), folder)
}

/// Whether the tenure of each SHARED folder of the wants is in use and not recalled.
pub fn at_home(asks: &AskTable, wants: &[Want]) -> bool
    ensures { result ≡ at_home asks.now.all.asks wants.now }
{
    wants.iter().all(|want| !matches!(want.folder.mode, Mode::Shared)
        || is_home(asks, &want.folder))
}
