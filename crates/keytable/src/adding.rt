//! The keys that a graph adds.
ghost use Rattle.std.specs.Prelude.{◌≡◌, ◌<◌, All, OnOk, IfOk, length};
ghost use Rattle.vertices.specs.Loading.{IsGraph};
ghost use Rattle.solverkeys.specs.GraphKeys.{AreKeys, TakesKeys};
ghost use Rattle.keytable.specs.Adding.{AddsKey, AreAdded, IsFront};
ghost use Rattle.keytable.specs.Reaching.{AreReached};
ghost use Rattle.keytable.specs.Tables.{IsTable};
ghost use Rattle.keytable.specs.Users.{IsClosed};

use super::table::Table;
use farm_base::{Items, Key};
use std::alloc::{AllocError, Global};
use vertices::Graph;

/// The key and the index of each edge.
fn inputs_of(
    alloc: Global,
    keys: &[Key],
    edges: &[(usize, u64)],
) -> Result<Vec<(Key, u64)>, AllocError>
    requires { All (λ edge. edge.0 < length keys.now) edges.now }
    ensures { IfOk result (λ inputs. TakesKeys keys.now edges.now inputs.items) }
{
    let mut inputs = Vec::with_capacity(alloc, edges.len())?;
    for (number, index) in edges {
        inputs.push((keys[*number], *index))?;
    }
    Ok(inputs)
}

/// Adds the key of a vertex, where it is new.
fn add(
    alloc: Global,
    table: &mut Table,
    graph: &Graph,
    keys: &[Key],
    number: usize,
) -> Result<(), AllocError>
    requires table { IsTable table.old }
    requires graph { IsGraph graph.now }
    requires keys { length keys.now ≡ length graph.now.vertices }
    requires within { number < length graph.now.vertices }
    ensures front { IsFront table.old table.new }
    ensures table { OnOk result (IsTable table.new) }
    ensures added { OnOk result (AddsKey graph.now keys.now number table.old.entries.items table.new.entries.items) }
{
    let key = keys[number];
    if table.number(&key).is_none() {
        let inputs = inputs_of(alloc, keys, graph.inputs_of(number))?;
        table.push(key, Items::new(inputs))?;
    }
    Ok(())
}

/// Adds the keys of the vertices that are reached, in order. Where memory runs out some may be there.
pub fn add_all(
    alloc: Global,
    table: &mut Table,
    graph: &Graph,
    keys: &[Key],
    reached: &[bool],
) -> Result<(), AllocError>
    requires table { IsTable table.old }
    requires keys { AreKeys graph.now keys.now }
    requires reached { AreReached graph.now reached.now }
    ensures front { IsFront table.old table.new }
    ensures table { OnOk result (IsTable table.new) }
    ensures added { OnOk result (AreAdded graph.now keys.now table.old.entries.items table.new.entries.items) }
    ensures closed { OnOk result (IsClosed table.old.entries.items → IsClosed table.new.entries.items) }
{
    for number in 0..graph.len() {
        if reached[number] {
            add(alloc, table, graph, keys, number)?;
        }
    }
    Ok(())
}
