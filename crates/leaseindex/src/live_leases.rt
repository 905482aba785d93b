//! The leases of a table, and the ways to find one of them.
ghost use Rattle.std.specs.Prelude.{◌≡◌, ℕ, ◌+◌, ◌≤◌, not, [], ◌∷◌, ◌++◌, filter, length, IfOk, OnOk, OnErr, option_copied, vec_len};
ghost use Rattle.std.specs.List.{find};
ghost use Rattle.names.specs.declared.limits.TheConstants.{INSTANCES};
ghost use Rattle.protocol.specs.Names.{only_slot};
ghost use Rattle.protocol.specs.Ledger.{has_slot, is_at, lease_of, lease_under, some_lease, without};
ghost use Rattle.holdings.specs.Endings.{ends_lease, frees, has_ended};
ghost use Rattle.leaseindex.specs.Counts.{AreLast};
ghost use Rattle.leaseindex.specs.Index.{index_entries};
ghost use Rattle.leaseindex.specs.Instances.{has, lease_instances};
ghost use Rattle.holdings.specs.Leases.{AreLeases};
ghost use Rattle.leaseindex.specs.Live.{older, holds_some};
ghost use Rattle.leaseindex.specs.Marks.{Unmarks};
ghost use Rattle.holdings.specs.Leases.{takes};

use super::ending::drop_ending_from;
use super::folder_index::{entries_of, forget, forget_ending, index_of, put_all};
use super::held::{first_of, has_only, is_of, takes};
use super::instances::Instances;
use super::lease_counts::{AskName, LeaseCounts};
use super::marks::{unmark_ending, unmark_lease};
use super::taken_instances::{TakenInstances, instances_of, taken_of};
use farm_base::{Ask, FolderName, Lease, Life, NodeId, Ticket, Want};
use holdings::{Ending, place_of, standing};
use indexmap::IndexMap;
use std::alloc::{AllocError, Global};
use std::marker::Model;

/// Leases that may be live together, by rising ticket.
pub struct LiveLeases {
    leases: Vec<Lease>,
    /// The ticket of the lease that has a folder's one slot, and none or an old one where no lease has it.
    by_folder: IndexMap<FolderName, Ticket>,
    /// The instances from 1 on that leases have, by folder.
    taken: TakenInstances,
    /// How many leases each ask and each node has, and the oldest of them.
    counts: LeaseCounts,
}

// By hand, so that letting go of one is one step of a proof.
impl Drop for LiveLeases {
    fn drop(self) {
        let Self {
            leases: _,
            by_folder: _,
            taken: _,
            counts: _,
        } = self;
    }
}

/// What the indexes are to have of more leases.
#[derive(Drop)]
pub struct Entries {
    /// A ticket at each folder whose one slot a lease has.
    pub tickets: Vec<(FolderName, Ticket)>,
    /// The instances from 1 on that leases have.
    pub instances: Vec<(FolderName, u32)>,
}

impl Model for LiveLeases {
    ghost use Rattle.std.specs.Vec.{vec_capacity};
    ghost use Rattle.indexmap.specs.IndexMap.{spare};
    ghost use Rattle.leaseindex.specs.Counts.{count_room};
    ghost use Rattle.leaseindex.specs.Index.{ticket_at};
    ghost use Rattle.leaseindex.specs.Instances.{is_taken, folder_room};
    ghost use Rattle.leaseindex.specs.Live.{Live, AreLive};

    ghost Value = { Live };

    ghost view = { λ l. record { leases = l.leases.items; lease_room = vec_capacity l.leases; index_room = spare l.by_folder; instance_room = folder_room l.taken; count_room = count_room l.counts } };

    ghost invariant = { λ l. AreLive (ticket_at l.by_folder) (is_taken l.taken) l.counts l.leases.items };
}

impl LiveLeases {
    /// No leases.
    pub fn new(alloc: Global) -> Self
        ensures { result.leases ≡ [] }
    {
        LiveLeases {
            leases: Vec::new(alloc),
            by_folder: IndexMap::new(alloc),
            taken: TakenInstances::new(alloc),
            counts: LeaseCounts::new(alloc),
        }
    }

    /// These leases.
    pub fn of(alloc: Global, leases: Vec<Lease>) -> Result<Self, AllocError>
        requires { AreLeases leases.items }
        ensures { IfOk result (λ live. live.leases ≡ leases.items) }
    {
        let by_folder = index_of(alloc, leases.as_slice())?;
        let taken = taken_of(alloc, leases.as_slice())?;
        let mut counts = LeaseCounts::new(alloc);
        counts.reserve(leases.len())?;
        counts.add_all(leases.as_slice());
        Ok(LiveLeases {
            leases,
            by_folder,
            taken,
            counts,
        })
    }

    /// The leases, the oldest first.
    pub fn as_slice(&self) -> &[Lease]
        ensures value { result.now ≡ self.now.leases }
        ensures sound { AreLeases self.now.leases }
    {
        self.leases.as_slice()
    }

    /// The lease of a ticket.
    pub fn under(&self, ticket: Ticket) -> Option<&Lease>
        ensures value { option_copied result ≡ lease_under self.now.leases ticket }
        ensures sound { AreLeases self.now.leases }
    {
        match place_of(self.leases.as_slice(), ticket) {
            None => None,
            Some(place) => Some(&self.leases[place]),
        }
    }

    /// The lease that has the one slot of a folder.
    pub fn holding(&self, folder: &FolderName) -> Option<&Lease>
        ensures value { option_copied result ≡ find (λ g. has_slot g.slots (only_slot folder.now)) self.now.leases }
        ensures sound { AreLeases self.now.leases }
    {
        let ticket = self.by_folder.get(folder)?;
        let lease = self.under(*ticket)?;
        if has_only(lease.slots.as_slice(), folder) {
            Some(lease)
        } else {
            None
        }
    }

    /// The lease that has the one slot of a folder, unless one of these ends it.
    pub fn holding_beside(&self, folder: &FolderName, ended: &[Ending]) -> Option<&Lease>
        ensures value { option_copied result ≡ find (λ g. has_slot g.slots (only_slot folder.now)) (filter (λ g. not (has_ended ended.now g)) self.now.leases) }
        ensures sound { AreLeases self.now.leases }
    {
        standing(self.holding(folder), ended)
    }

    /// The oldest lease that none of these ends and that has the one slot of a folder for which an ask with these
    /// wants takes a slot.
    pub fn oldest_beside(&self, wants: &[Want], tenure: bool, ended: &[Ending]) -> Option<&Lease>
        ensures { option_copied result ≡ find (holds_some (filter (takes tenure) wants.now)) (filter (λ g. not (has_ended ended.now g)) self.now.leases) }
    {
        let mut oldest = None;
        for want in wants {
            if takes(want, tenure) {
                oldest = older(oldest, self.holding_beside(&want.folder, ended));
            }
        }
        oldest
    }

    /// The instances of a folder that leases have which none of these ends.
    pub fn taken_beside(&self, folder: &FolderName, ended: &[Ending]) -> Instances
        ensures { (i : ℕ) → 1 ≤ i → i ≤ INSTANCES → has result i ≡ some_lease (filter (λ g. not (has_ended ended.now g)) self.now.leases) (record { folder = folder.now; instance = i }) }
    {
        let mut taken = self.taken.of(folder);
        for ending in ended {
            self.unmark_ended(&mut taken, folder, ending);
        }
        taken
    }

    /// Takes the instances of a folder out that leases have which this ends.
    fn unmark_ended(&self, taken: &mut Instances, folder: &FolderName, ending: &Ending)
        ensures { Unmarks taken.old taken.new folder.now (λ s. frees ending.now self.now.leases s) }
    {
        match *ending {
            Ending::Ticket(ticket) => {
                if let Some(lease) = self.under(ticket) {
                    unmark_lease(taken, folder, lease.slots.as_slice());
                }
            }
            Ending::Node(_) | Ending::LivesBelow(_, _) => {
                unmark_ending(taken, folder, self.last_ending(ending), ending);
            }
        }
    }

    /// The lease of an ask.
    pub fn of_ask(&self, node: NodeId, life: Life, ask: Ask) -> Option<&Lease>
        ensures { option_copied result ≡ lease_of self.now.leases node life ask }
    {
        let ticket = self.counts.oldest(AskName { node, life, ask })?;
        if let Some(lease) = self.under(ticket) {
            if is_of(lease, node, life, ask) {
                return Some(lease);
            }
        }
        // The oldest lease of several with this ask has ended.
        first_of(self.leases.as_slice(), node, life, ask)
    }

    /// The last of the leases, those of a node among them.
    pub fn last_at(&self, node: NodeId) -> &[Lease]
        ensures { AreLast (is_at node) result.now self.now.leases }
    {
        self.counts.last_at(self.leases.as_slice(), node)
    }

    /// The last of the leases, those among them that this ends.
    pub fn last_ending(&self, ending: &Ending) -> &[Lease]
        ensures { AreLast (ends_lease ending.now) result.now self.now.leases }
    {
        self.counts.last_ending(self.leases.as_slice(), ending)
    }

    /// Adds a lease.
    pub fn add(&mut self, alloc: Global, lease: Lease) -> Result<(), AllocError>
        requires { AreLeases self.old.leases → AreLeases (self.old.leases ++ lease ∷ []) }
        ensures ok { OnOk result (self.new.leases ≡ self.old.leases ++ lease ∷ []) }
        ensures err { OnErr result (self.new.leases ≡ self.old.leases) }
    {
        let mut added = Vec::new(alloc);
        added.push(lease)?;
        let entries = self.room_for(alloc, added.as_slice())?;
        self.add_all(added, entries);
        Ok(())
    }

    /// Makes room for more leases, and what the indexes are to have of them.
    pub fn room_for(&mut self, alloc: Global, more: &[Lease]) -> Result<Entries, AllocError>
        ensures leases { self.new.leases ≡ self.old.leases }
        ensures room { OnOk result (length self.new.leases + length more.now ≤ self.new.lease_room) }
        ensures tickets { IfOk result (λ entries. entries.tickets.items ≡ index_entries more.now) }
        ensures folders { IfOk result (λ entries. vec_len entries.tickets ≤ self.new.index_room) }
        ensures instances { IfOk result (λ entries. entries.instances.items ≡ lease_instances more.now) }
        ensures taken { IfOk result (λ entries. vec_len entries.instances ≤ self.new.instance_room) }
        ensures counts { OnOk result (length more.now ≤ self.new.count_room) }
        ensures sound { OnOk result (AreLeases self.new.leases) }
    {
        let tickets = entries_of(alloc, more)?;
        let instances = instances_of(alloc, more)?;
        self.leases.reserve(more.len())?;
        self.by_folder.reserve(tickets.len())?;
        self.taken.reserve(instances.len())?;
        self.counts.reserve(more.len())?;
        Ok(Entries { tickets, instances })
    }

    /// Adds leases, for which there is room, with what the indexes are to have of them.
    pub fn add_all(&mut self, leases: Vec<Lease>, entries: Entries)
        requires room { length self.old.leases + length leases.items ≤ self.old.lease_room }
        requires tickets { entries.tickets.items ≡ index_entries leases.items }
        requires folders { vec_len entries.tickets ≤ self.old.index_room }
        requires instances { entries.instances.items ≡ lease_instances leases.items }
        requires taken { vec_len entries.instances ≤ self.old.instance_room }
        requires counts { length leases.items ≤ self.old.count_room }
        requires sound { AreLeases (self.old.leases ++ leases.items) }
        ensures { self.new.leases ≡ self.old.leases ++ leases.items }
    {
        let Entries { tickets, instances } = entries;
        let mut leases = leases;
        self.counts.add_all(leases.as_slice());
        self.leases.append(&mut leases).unwrap();
        put_all(&mut self.by_folder, tickets);
        self.taken.add_all(instances);
    }

    /// Takes out the lease of a ticket.
    pub fn end(&mut self, ticket: Ticket) -> Option<Lease>
        ensures ended { result ≡ lease_under self.old.leases ticket }
        ensures rest { self.new.leases ≡ without ticket self.old.leases }
        ensures room { self.new.lease_room ≡ self.old.lease_room }
        ensures folders { self.old.index_room ≤ self.new.index_room }
        ensures taken { self.old.instance_room ≤ self.new.instance_room }
        ensures counts { self.old.count_room ≤ self.new.count_room }
    {
        match place_of(self.leases.as_slice(), ticket) {
            None => None,
            Some(place) => {
                let lease = self.leases.remove(place);
                forget(&mut self.by_folder, &lease);
                self.taken.remove_lease(&lease);
                self.counts.remove(&lease);
                Some(lease)
            }
        }
    }

    /// Takes out the leases that this ends.
    pub fn end_all(&mut self, ending: &Ending)
        ensures rest { self.new.leases ≡ filter (λ g. not (ends_lease ending.now g)) self.old.leases }
        ensures room { self.new.lease_room ≡ self.old.lease_room }
        ensures folders { self.old.index_room ≤ self.new.index_room }
        ensures taken { self.old.instance_room ≤ self.new.instance_room }
        ensures counts { self.old.count_room ≤ self.new.count_room }
    {
        match *ending {
            Ending::Ticket(ticket) => {
                let _ = self.end(ticket);
            }
            Ending::Node(_) | Ending::LivesBelow(_, _) => {
                if !self.last_ending(ending).is_empty() {
                    self.end_last(ending);
                }
            }
        }
    }

    /// Takes out the leases that this ends, of the last of the leases.
    fn end_last(&mut self, ending: &Ending)
        ensures rest { self.new.leases ≡ filter (λ g. not (ends_lease ending.now g)) self.old.leases }
        ensures room { self.new.lease_room ≡ self.old.lease_room }
        ensures folders { self.old.index_room ≤ self.new.index_room }
        ensures taken { self.old.instance_room ≤ self.new.instance_room }
        ensures counts { self.old.count_room ≤ self.new.count_room }
    {
        let last = self.counts.last_ending(self.leases.as_slice(), ending);
        let from = self.leases.len() - last.len();
        forget_ending(&mut self.by_folder, last, ending);
        self.taken.remove_ending(last, ending);
        self.counts.remove_ending(last, ending);
        drop_ending_from(&mut self.leases, from, *ending);
    }

    /// Takes out the leases that one of these ends.
    pub fn end_each(&mut self, ended: &[Ending])
        ensures rest { self.new.leases ≡ filter (λ g. not (has_ended ended.now g)) self.old.leases }
        ensures room { self.new.lease_room ≡ self.old.lease_room }
        ensures folders { self.old.index_room ≤ self.new.index_room }
        ensures taken { self.old.instance_room ≤ self.new.instance_room }
        ensures counts { self.old.count_room ≤ self.new.count_room }
    {
        for ending in ended {
            self.end_all(ending);
        }
    }
}

/// The one with the lower ticket, of those that are there.
fn older<'t>(one: Option<&'t Lease>, other: Option<&'t Lease>) -> Option<&'t Lease>
    ensures { option_copied result ≡ older (option_copied one.entry) (option_copied other.entry) }
{
    match (one, other) {
        (None, other) => other,
        (Some(one), None) => Some(one),
        (Some(one), Some(other)) => {
            if other.ticket < one.ticket {
                Some(other)
            } else {
                Some(one)
            }
        }
    }
}
