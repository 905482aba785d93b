//! What texts hold while they are read, and the record that it makes.
ghost use Rattle.std.specs.Prelude.{◌≡◌, IfOk};
ghost use Rattle.std.specs.List.{list_all};
ghost use Rattle.holdings.specs.Leases.{among};
ghost use Rattle.protocol.specs.Ledger.{reads, saves};
ghost use Rattle.saverecord.specs.Ledgers.{IsKept, ledger_of};
ghost use Rattle.saverecord.specs.Logs.{is_open, some_retired, fits, agreed, folded_ledger, IsReadable};
ghost use Rattle.recordparts.specs.Parts.{Gives};
ghost use Rattle.versions.specs.Lines.{line_at};

use super::record::Record;
use farm_base::{Items, Lease, NodeId, Slot, Ticket};
use holdings::{Lives, RetiredNodes, is_saved, rising};
use recordlists::are_apart;
use recordparts::{Flaw, RecordRefusal};
use std::alloc::Global;
use versions::Lines;

/// What texts hold, up to an entry.
#[derive(Drop)]
pub struct Folded {
    pub last: Ticket,
    pub old_home: Option<NodeId>,
    pub lives: Lives,
    pub retired_nodes: RetiredNodes,
    /// By rising ticket.
    pub leases: Vec<Lease>,
    /// In any order.
    pub retired: Vec<Slot>,
    pub lines: Lines,
}

/// Whether a lease's ticket is above all on the lines of its slots.
fn is_open(lines: &Lines, lease: &Lease) -> bool
    ensures { result ≡ is_open (line_at lines.now) lease.now }
{
    lease
        .slots
        .as_slice()
        .iter()
        .all(|held| lines.is_above(lease.ticket, &held.0))
}

fn is_among(slots: &[Slot], slot: &Slot) -> bool
    ensures { result ≡ among slots.now slot.now }
{
    slots.iter().any(|other| *other == *slot)
}

/// Whether a slot of the lease is retired.
fn some_retired(retired: &[Slot], lease: &Lease) -> bool
    ensures { result ≡ some_retired (among retired.now) lease.now }
{
    lease
        .slots
        .as_slice()
        .iter()
        .any(|held| is_among(retired, &held.0))
}

/// Whether a lease fits what was read beside the leases.
fn fits(folded: &Folded, lease: &Lease) -> bool
    ensures { result ≡ fits (folded_ledger folded.now) lease.now }
{
    lease.ticket.0 <= folded.last.0
        && folded.lives.greatest(lease.node) == lease.life.0
        && !folded.retired_nodes.contains(lease.node)
        && !some_retired(folded.retired.as_slice(), lease)
        && is_open(&folded.lines, lease)
}

fn all_fit(folded: &Folded) -> bool
    ensures { result ≡ list_all (fits (folded_ledger folded.now)) folded.now.leases.items }
{
    folded
        .leases
        .as_slice()
        .iter()
        .all(|lease| fits(folded, lease))
}

impl Folded {
    /// What a whole record holds, but the leases that aren't saved, without taking memory.
    pub(crate) fn of(whole: Record) -> Self
        requires { IsKept whole }
        ensures { folded_ledger result ≡ reads (saves (ledger_of whole)) }
    {
        let mut leases = whole.leases.into_vec();
        leases.retain(|lease| is_saved(lease));
        Folded {
            last: whole.last,
            old_home: whole.old_home,
            lives: Lives::of(whole.lives.into_vec()),
            retired_nodes: RetiredNodes::of(whole.retired_nodes.into_vec()),
            leases,
            retired: whole.retired.into_vec(),
            lines: Lines::of(whole.lines.into_vec()),
        }
    }

    /// The record of all that was read, if its leases fit.
    pub(crate) fn into_record(self, alloc: Global) -> Result<Record, RecordRefusal>
        requires { IsReadable (folded_ledger self) }
        ensures exact { Gives ledger_of result (agreed (folded_ledger self)) }
        ensures kept { IfOk result IsKept }
    {
        if !all_fit(&self) || !are_apart(self.leases.as_slice()) {
            return Err(RecordRefusal::NotCanonical(Flaw::Relation));
        }
        Ok(Record {
            last: self.last,
            old_home: self.old_home,
            lives: Items::new(self.lives.into_vec()),
            retired_nodes: Items::new(self.retired_nodes.into_vec()),
            leases: Items::new(self.leases),
            retired: Items::new(rising(self.retired)?),
            lines: Items::new(self.lines.into_vec()),
        })
    }
}
