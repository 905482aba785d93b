//! A record and the ledger that it keeps. A function whose proof needs one of these laws calls it.
ghost use Rattle.saverecord.specs.Ledgers.{KeptIsRecord, ReadIsKept, RecordIsKept};

/// A record that keeps a lawful ledger, each of its lists in order, can be written.
pub fn what_is_kept_is_a_record()
    ensures { KeptIsRecord }
{}

/// A record that can be written keeps a lawful ledger, and so does each that is read: no two leases share a slot or
/// are of one ask, each is of its node's life, and so on.
pub fn what_is_read_is_lawful()
    ensures record { RecordIsKept }
    ensures read { ReadIsKept }
{}
