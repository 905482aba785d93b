ghost use Rattle.std.specs.Prelude.{◌≡◌, []};

use super::ready_list::ReadyList;
use keytable::{Table, Users};
use std::alloc::Global;

/// The submitted keys, and what is kept of them.
#[derive(Drop)]
pub(crate) struct KnownKeys {
    pub table: Table,
    pub users: Users,
    /// For each key whether it fails.
    pub marks: Vec<bool>,
    /// The failing keys whose users are to be looked at: none between calls, and room for all keys.
    pub todo: Vec<usize>,
    /// The keys that were handed out, and the ready ones.
    pub ready: ReadyList,
}

impl KnownKeys {
    ghost use Rattle.jobs.specs.Kept.{AreListed};

    /// No keys.
    pub(crate) fn new(alloc: Global) -> Self
        ensures listed { AreListed result }
        ensures entries { result.table.entries.items ≡ [] }
    {
        KnownKeys {
            table: Table::new(alloc),
            users: Users::new(alloc),
            marks: Vec::new(alloc),
            todo: Vec::new(alloc),
            ready: ReadyList::new(alloc),
        }
    }
}
