ghost use Rattle.std.specs.Prelude.{◌≡◌, ◌<◌, ◌+◌, length, IfOk, IfSome, IfNone, OnOk, Contains};
ghost use Rattle.std.specs.HashMap.{get};

use super::graph::keys;
use names::Key;
use std::alloc::{AllocError, Global};
use std::collections::HashMap;
use std::marker::Model;
use vertices::Graph;

/// A graph with its solver keys, and the vertex of each key. The keys are always those of the graph.
pub struct Keyed {
    graph: Graph,
    keys: Vec<Key>,
    /// For each key the first vertex that has it.
    firsts: HashMap<Key, usize>,
}

// By hand, so that letting go of one is one step of a proof.
impl Drop for Keyed {
    fn drop(self) {
        let Self {
            graph: _,
            keys: _,
            firsts: _,
        } = self;
    }
}

impl Model for Keyed {
    ghost use Rattle.std.specs.Prelude.{length};
    ghost use Rattle.std.specs.HashMap.{get};
    ghost use Rattle.solverkeys.specs.GraphKeys.{AreKeys};
    ghost use Rattle.solverkeys.specs.Keyed.{KeyedParts, keyed, key_eq, AreFirsts};

    ghost Value = { KeyedParts };

    ghost view = { λ k. keyed k.graph k.keys.items };

    ghost invariant = { λ k. AreKeys k.graph k.keys.items × AreFirsts k.keys.items (length k.keys.items) (get key_eq k.firsts) };
}

impl Keyed {
    ghost use Rattle.solverkeys.specs.GraphKeys.{AreKeys};
    ghost use Rattle.solverkeys.specs.Keyed.{IsFirst};

    /// Makes the keys of a graph. It is refused only where memory runs out; the graph is dropped then.
    pub fn of(alloc: Global, graph: Graph) -> Result<Self, AllocError>
        ensures graph { IfOk result (λ keyed. keyed.graph ≡ graph) }
        ensures keys { IfOk result (λ keyed. AreKeys keyed.graph keyed.keys) }
    {
        let keys = keys(alloc, &graph)?;
        let firsts = firsts_of(alloc, keys.as_slice())?;
        Ok(Keyed {
            graph,
            keys,
            firsts,
        })
    }

    /// The graph.
    pub fn graph(&self) -> &Graph
        ensures { result.now ≡ self.now.graph }
    {
        &self.graph
    }

    /// The key of each vertex, by its number.
    pub fn keys(&self) -> &[Key]
        ensures value { result.now ≡ self.now.keys }
        ensures keys { AreKeys self.now.graph self.now.keys }
    {
        self.keys.as_slice()
    }

    /// The first vertex that has this key, as that of a task: vertices of one key do the same. It is
    /// looked up in a table, and takes no memory.
    pub fn find(&self, key: &Key) -> Option<usize>
        ensures first { IfSome result (IsFirst self.now.keys key.now) }
        ensures within { IfSome result (λ vertex. vertex < length self.now.graph.vertices) }
        ensures none { IfNone result (¬ Contains self.now.keys key.now) }
    {
        self.firsts.get(key).copied()
    }
}

ghost use Rattle.solverkeys.specs.Keyed.{key_eq, AreFirsts};

/// For each key its first place.
fn firsts_of(alloc: Global, keys: &[Key]) -> Result<HashMap<Key, usize>, AllocError>
    ensures { IfOk result (λ firsts. AreFirsts keys.now (length keys.now) (get key_eq firsts)) }
{
    let mut firsts = HashMap::with_capacity(alloc, keys.len())?;
    for place in 0..keys.len() {
        add_first(&mut firsts, keys, place)?;
    }
    Ok(firsts)
}

/// Adds the key at a place, where none before is the same.
fn add_first(firsts: &mut HashMap<Key, usize>, keys: &[Key], place: usize) -> Result<(), AllocError>
    requires within { place < length keys.now }
    requires firsts { AreFirsts keys.now place (get key_eq firsts.old) }
    ensures { OnOk result (AreFirsts keys.now (place + 1) (get key_eq firsts.new)) }
{
    let key = keys[place];
    if !firsts.contains_key(&key) {
        firsts.insert(key, place)?;
    }
    Ok(())
}
