ghost use Rattle.std.specs.Prelude.{◌≡◌, ◌<◌, ℕ, [], Some, List, length, slice_get, IfOk, IfSome, IfNone, OnOk};
ghost use Rattle.names.specs.declared.digest.Digest.{Digest as SpecDigest};
ghost use Rattle.ordering.specs.Firsts.{IsTable};
ghost use Rattle.ordering.specs.Orders.{IsOrder, IsCyclic};
ghost use Rattle.ordering.specs.Entries.{Entry, digests_of, IsVertex, NamesInput, LacksInput, AreResolved, HasUnknown, IsRowOf, AreRowsOf};

use super::ordering::order_of;
use super::refusal::OrderRefusal;
use super::table::Table;
use names::Digest;
use std::alloc::{AllocError, Global};

/// The places of the entries in the order in which they can be solved: each place after its
/// inputs, the lowest ready one first. Of entries with one digest only the first is a vertex; the
/// inputs of the others aren't looked at, and the answer doesn't have their places.
pub fn order(alloc: Global, entries: &[(Digest, Vec<Digest>)]) -> Result<Vec<usize>, OrderRefusal>
    ensures order { IfOk result (λ places. IsOrder (IsVertex entries.now) (NamesInput entries.now) places.items) }
    ensures acyclic { OnOk result (¬ IsCyclic (NamesInput entries.now)) }
    ensures known { OnOk result ((place : ℕ) → ¬ LacksInput entries.now place) }

    // The first place with a missing input is reported, before any cycle.
    ensures missing { (place : ℕ) → result ≡ Err (OrderRefusal.MissingInput place)
        → LacksInput entries.now place × ((earlier : ℕ) → earlier < place → ¬ LacksInput entries.now earlier) }
    ensures cycle { result ≡ Err OrderRefusal.Cycle
        → IsCyclic (NamesInput entries.now) × ((place : ℕ) → ¬ LacksInput entries.now place) }
{
    let table = table_of(alloc, entries)?;
    let rows = rows_of(alloc, entries, &table)?;
    let Some(places) = order_of(alloc, table.places(), rows.as_slice())? else {
        return Err(OrderRefusal::Cycle);
    };
    Ok(places)
}

/// The first places of the digests of the entries.
fn table_of(alloc: Global, entries: &[(Digest, Vec<Digest>)]) -> Result<Table, AllocError>
    ensures { IfOk result (IsTable (digests_of entries.now)) }
{
    let mut table = Table::new(alloc);
    add_all(&mut table, entries)?;
    Ok(table)
}

/// Adds the digests of the entries to an empty table.
fn add_all(table: &mut Table, entries: &[(Digest, Vec<Digest>)]) -> Result<(), AllocError>
    requires { IsTable [] table.old }
    ensures { OnOk result (IsTable (digests_of entries.now) table.new) }
{
    for (place, entry) in entries.iter().enumerate() {
        table.add(place, entry.0)?;
    }
    Ok(())
}

/// The places of the inputs of each vertex, and nothing at the other places.
fn rows_of(
    alloc: Global,
    entries: &[(Digest, Vec<Digest>)],
    table: &Table,
) -> Result<Vec<Vec<usize>>, OrderRefusal>
    requires { IsTable (digests_of entries.now) table.now }
    ensures rows { IfOk result (λ rows. AreRowsOf entries.now (length entries.now) rows.items) }
    ensures missing { (place : ℕ) → result ≡ Err (OrderRefusal.MissingInput place)
        → LacksInput entries.now place × ((earlier : ℕ) → earlier < place → ¬ LacksInput entries.now earlier) }
    ensures no_cycle { ¬ (result ≡ Err OrderRefusal.Cycle) }
{
    let mut rows = Vec::with_capacity(alloc, entries.len())?;
    for (place, entry) in entries.iter().enumerate() {
        let Some(row) = row_of(alloc, place, entry, table)? else {
            return Err(OrderRefusal::MissingInput(place));
        };
        rows.push(row)?;
    }
    Ok(rows)
}

/// The places of the inputs of an entry, nothing where it isn't the first with its digest, and
/// None where no entry has the digest of one of them.
fn row_of(
    alloc: Global,
    place: usize,
    entry: &(Digest, Vec<Digest>),
    table: &Table,
) -> Result<Option<Vec<usize>>, AllocError>
    requires { (digests : List SpecDigest) × IsTable digests table.now }
    ensures found { IfOk result (λ answer. IfSome answer (λ row. (entries : List Entry) → IsTable (digests_of entries) table.now
        → slice_get entries place ≡ Some entry.now → IsRowOf entries place row.items)) }
    ensures known { IfOk result (λ answer. IfSome answer (λ _. (entries : List Entry) → IsTable (digests_of entries) table.now
        → slice_get entries place ≡ Some entry.now → ¬ LacksInput entries place)) }
    ensures missing { IfOk result (λ answer. IfNone answer ((entries : List Entry) → IsTable (digests_of entries) table.now
        → slice_get entries place ≡ Some entry.now → LacksInput entries place)) }
{
    match table.place(&entry.0) {
        Some(first) if first == place => inputs_of(alloc, entry.1.as_slice(), table),
        _ => Ok(Some(Vec::new(alloc))),
    }
}

/// The places of the vertices with these digests, or None where no vertex has one of them.
fn inputs_of(
    alloc: Global,
    inputs: &[Digest],
    table: &Table,
) -> Result<Option<Vec<usize>>, AllocError>
    requires { (digests : List SpecDigest) × IsTable digests table.now }
    ensures found { IfOk result (λ answer. IfSome answer (λ row. (digests : List SpecDigest) → IsTable digests table.now
        → AreResolved digests inputs.now row.items)) }
    ensures missing { IfOk result (λ answer. IfNone answer ((digests : List SpecDigest) → IsTable digests table.now
        → HasUnknown digests inputs.now)) }
{
    let mut row = Vec::with_capacity(alloc, inputs.len())?;
    for input in inputs {
        let Some(place) = table.place(input) else {
            return Ok(None);
        };
        row.push(place)?;
    }
    Ok(Some(row))
}
