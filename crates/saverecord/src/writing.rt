//! Writing a record.
ghost use Rattle.std.specs.Prelude.{◌≡◌, ◌<◌, ◌^◌, ◌++◌, OnOk, IfOk, Ok};
ghost use Rattle.recordparts.specs.Fits.{IsTypedSlot};
ghost use Rattle.recordlists.specs.EntryFits.{IsTypedList, IsTypedNode, IsTypedLife, IsTypedLease, IsTypedLine};
ghost use Rattle.saverecord.specs.Fits.{IsRecord, IsTypedRecord};
ghost use Rattle.saverecord.specs.Records.{record_of};
ghost use Rattle.saverecord.specs.Spelling.{first_bytes, nodes_bytes, slots_bytes, record_bytes};

use super::record::Record;
use recordlists::put_counted;
use recordparts::put_home;
use sha2::Sha256;
use std::alloc::{AllocError, Global};

/// The bytes with which a record of version 3 begins.
pub(crate) const MAGIC: &[u8; 8] = b"BKFARM03";

#[tactic(auto, unfolding(crate::specs::Spelling::first_bytes))]
fn put_first(out: &mut Vec<u8>, saved: &Record) -> Result<(), AllocError>
    ensures spelled { OnOk result (out.new.items ≡ out.old.items ++ first_bytes saved.now) }
    ensures last { saved.now.last.0 < 2 ^ 64 }
{
    let last = saved.last.0;
    out.extend_from_slice(&last.to_be_bytes())?;
    put_home(out, saved.old_home)
}

#[tactic(auto, unfolding(crate::specs::Spelling::nodes_bytes))]
fn put_nodes(out: &mut Vec<u8>, saved: &Record) -> Result<(), AllocError>
    ensures spelled { OnOk result (out.new.items ≡ out.old.items ++ nodes_bytes saved.now) }
    ensures lives { OnOk result (IsTypedList IsTypedLife saved.now.lives) }
    ensures nodes { OnOk result (IsTypedList IsTypedNode saved.now.retired_nodes) }
{
    put_counted(out, saved.lives.as_slice())?;
    put_counted(out, saved.retired_nodes.as_slice())
}

#[tactic(auto, unfolding(crate::specs::Spelling::slots_bytes))]
fn put_slots(out: &mut Vec<u8>, saved: &Record) -> Result<(), AllocError>
    ensures spelled { OnOk result (out.new.items ≡ out.old.items ++ slots_bytes saved.now) }
    ensures leases { OnOk result (IsTypedList IsTypedLease saved.now.leases) }
    ensures retired { OnOk result (IsTypedList IsTypedSlot saved.now.retired) }
    ensures lines { OnOk result (IsTypedList IsTypedLine saved.now.lines) }
{
    put_counted(out, saved.leases.as_slice())?;
    put_counted(out, saved.retired.as_slice())?;
    put_counted(out, saved.lines.as_slice())
}

/// The text of a record, of version 3.
fn spelled(alloc: Global, saved: &Record) -> Result<Vec<u8>, AllocError>
    ensures spelled { IfOk result (λ v. v.items ≡ record_bytes saved.now) }
    ensures typed { OnOk result (IsTypedRecord saved.now) }
{
    let mut out = Vec::new(alloc);
    out.extend_from_slice(MAGIC)?;
    put_first(&mut out, saved)?;
    put_nodes(&mut out, saved)?;
    put_slots(&mut out, saved)?;
    let digest: [u8; 32] = <Sha256 as sha2::Digest>::digest(out.as_slice());
    out.extend_from_slice(&digest)?;
    Ok(out)
}

impl Record {
    /// The one text of a record, of version 3.
    pub fn write(&self, alloc: Global) -> Result<Vec<u8>, AllocError>
        requires { IsRecord self.now }
        ensures spelled { IfOk result (λ v. v.items ≡ record_bytes self.now) }
        // Reading it gives the record back.
        ensures again { IfOk result (λ v. record_of v.items ≡ Ok self.now) }
    {
        spelled(alloc, self)
    }
}
