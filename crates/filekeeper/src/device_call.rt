//! The calls of a device, which only clauses read.
ghost use Rattle.std.specs.Prelude.{◌≡◌, List, []};
ghost use Rattle.std.specs.Borrow.{ftrue};
ghost use Rattle.filekeeper.specs.Calls.{Called};

use std::marker::{Model, PhantomData};

/// A call of a device, and whether it was done. The bytes that it gave, or was given, stand beside it.
#[derive(Clone, Copy)]
pub enum DeviceCall {
    ReadRecord,
    ReadLog,
    WriteDraft(bool),
    RenameDraft(bool),
    SyncNames(bool),
    Append(bool),
    /// The log was to be cut to this length.
    Cut(usize, bool),
    SyncLog(bool),
}

/// The calls so far. It takes no bytes. Only the module of the host's device can note one.
#[derive(Drop)]
pub struct History {
    marker: PhantomData<u8>,
    pub ghost calls: { List Called },
}

impl Model for History {
    ghost also_owns = { λ _. ftrue };
}

impl History {
    /// Nothing was called.
    pub(crate) fn new() -> History
        ensures { result.calls ≡ [] }
    {
        History {
            marker: PhantomData,
        }
    }
}
