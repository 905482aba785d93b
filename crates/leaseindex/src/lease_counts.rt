//! The live leases by ask and by node.
ghost use Rattle.std.specs.Prelude.{◌≡◌, ◌+◌, ◌<◌, ◌≤◌, [], ◌∷◌, ◌++◌, List, Some, AllPairs, false, filter, length, nat_lt, not, option_copied, IfSome, OnOk};
ghost use Rattle.indexmap.specs.IndexMap.{get, spare};
ghost use Rattle.farm_base.specs.declared.lease.Lease.{Lease};
ghost use Rattle.protocol.specs.Ledger.{is_at};
ghost use Rattle.holdings.specs.Endings.{ends_lease};
ghost use Rattle.leaseindex.specs.Counts.{name_of, ask_count, node_count, count_room, oldest_of, Counts, AreCounted, AreLast};
ghost use Rattle.holdings.specs.Leases.{IsBefore};

use farm_base::{Ask, Lease, Life, NodeId, Ticket};
use holdings::Ending;
use indexmap::IndexMap;
use std::alloc::{AllocError, Global};
use std::hash::Hash;

/// An ask of a life of a node.
#[derive(Clone, Copy, PartialEq, Eq, Hash)]
pub(crate) struct AskName {
    pub(crate) node: NodeId,
    pub(crate) life: Life,
    pub(crate) ask: Ask,
}

/// How many leases an ask or a node has, and the oldest of them.
#[derive(Clone, Copy)]
pub(crate) struct LeaseCount {
    /// How many. Where the count has reached its greatest value, it stays there.
    times: u64,
    /// The ticket of the oldest, or a lower one where that lease has ended.
    oldest: Ticket,
}

/// How many leases each ask and each node has, and the oldest of them. What has none is not in it.
#[derive(Drop)]
pub(crate) struct LeaseCounts {
    by_ask: IndexMap<AskName, LeaseCount>,
    by_node: IndexMap<NodeId, LeaseCount>,
}

impl AskName {
    /// The ask of a lease.
    fn of(lease: &Lease) -> Self
        ensures { result ≡ name_of lease.now }
    {
        AskName {
            node: lease.node,
            life: lease.life,
            ask: lease.ask,
        }
    }
}

/// The count with one lease more.
fn with_lease(count: Option<&LeaseCount>, lease: &Lease) -> LeaseCount
    ensures { (others : List Lease) → Counts (option_copied count.entry) others → Counts (Some result) (others ++ lease.now ∷ []) }
{
    match count {
        None => LeaseCount {
            times: 1,
            oldest: lease.ticket,
        },
        Some(count) => LeaseCount {
            times: if count.times < u64::MAX {
                count.times + 1
            } else {
                count.times
            },
            oldest: if lease.ticket < count.oldest {
                lease.ticket
            } else {
                count.oldest
            },
        },
    }
}

/// The count with one lease less.
fn without_lease(count: Option<&LeaseCount>) -> Option<LeaseCount>
    ensures counts { (front : List Lease) (lease : Lease) (back : List Lease) → Counts (option_copied count.entry) (front ++ lease ∷ back) → Counts result (front ++ back) }
    // A count of no lease is not kept.
    ensures some { IfSome result (λ left. 1 ≤ left.times) }
{
    let count = count?;
    if count.times <= 1 {
        None
    } else if count.times < u64::MAX {
        Some(LeaseCount {
            times: count.times - 1,
            oldest: count.oldest,
        })
    } else {
        Some(*count)
    }
}

/// Counts a lease more under a name.
fn count_more<K: Eq + Hash + Drop>(counts: &mut IndexMap<K, LeaseCount>, name: K, lease: &Lease)
    requires { 0 < spare counts.old }
    ensures counted { (others : List Lease) → Counts (get K.eq counts.old name) others → Counts (get K.eq counts.new name) (others ++ lease.now ∷ []) }
    ensures others { (k : K) → K.eq name k ≡ false → get K.eq counts.new k ≡ get K.eq counts.old k }
    ensures room { spare counts.old ≤ spare counts.new + 1 }
{
    let count = with_lease(counts.get(&name), lease);
    let Ok(_) = counts.insert(name, count) else {
        unreachable!();
    };
}

/// Counts a lease less under a name.
fn count_less<K: Eq + Hash + Drop>(counts: &mut IndexMap<K, LeaseCount>, name: &K)
    ensures counted { (front : List Lease) (lease : Lease) (back : List Lease) → Counts (get K.eq counts.old name.now) (front ++ lease ∷ back) → Counts (get K.eq counts.new name.now) (front ++ back) }
    ensures others { (k : K) → K.eq name.now k ≡ false → get K.eq counts.new k ≡ get K.eq counts.old k }
    ensures room { spare counts.old ≤ spare counts.new }
{
    let left = without_lease(counts.get(name));
    if let Some(left) = left {
        if let Some(kept) = counts.get_mut(name) {
            *kept = left;
        }
    } else {
        let _ = counts.swap_remove(name);
    }
}

/// The leases whose tickets are not below this one.
fn since(leases: &[Lease], ticket: Ticket) -> &[Lease]
    requires { AllPairs IsBefore leases.now }
    ensures { AreLast (λ g. not (nat_lt g.ticket.0 ticket.0)) result.now leases.now }
{
    let place = leases.partition_point(
        |lease: &Lease| -> bool
            ensures { result ≡ nat_lt lease.now.ticket.0 ticket.0 }
        { lease.ticket < ticket },
    );
    &leases[place..]
}

impl LeaseCounts {
    /// There are no leases.
    pub(crate) fn new(alloc: Global) -> Self
        ensures { AreCounted result [] }
    {
        LeaseCounts {
            by_ask: IndexMap::new(alloc),
            by_node: IndexMap::new(alloc),
        }
    }

    /// Makes room for more leases.
    pub(crate) fn reserve(&mut self, leases: usize) -> Result<(), AllocError>
        ensures same { (live : List Lease) → AreCounted self.old live → AreCounted self.new live }
        ensures room { OnOk result (leases ≤ count_room self.new) }
    {
        self.by_ask.reserve(leases)?;
        self.by_node.reserve(leases)
    }

    /// The ticket below which no lease has the ask. Where there is none, no lease has it.
    pub(crate) fn oldest(&self, name: AskName) -> Option<Ticket>
        ensures { result ≡ oldest_of (ask_count self.now name) }
    {
        match self.by_ask.get(&name) {
            None => None,
            Some(count) => Some(count.oldest),
        }
    }

    /// The ticket below which the node has no lease. Where there is none, it has no lease.
    fn oldest_at(&self, node: NodeId) -> Option<Ticket>
        ensures { result ≡ oldest_of (node_count self.now node) }
    {
        match self.by_node.get(&node) {
            None => None,
            Some(count) => Some(count.oldest),
        }
    }

    /// The last of the leases, those of the node among them.
    pub(crate) fn last_at<'t>(&self, leases: &'t [Lease], node: NodeId) -> &'t [Lease]
        requires rising { AllPairs IsBefore leases.now }
        requires counted { AreCounted self.now leases.now }
        ensures { AreLast (is_at node) result.now leases.now }
    {
        match self.oldest_at(node) {
            None => &[],
            Some(oldest) => since(leases, oldest),
        }
    }

    /// The last of the leases, those among them that this ends.
    pub(crate) fn last_ending<'t>(&self, leases: &'t [Lease], ending: &Ending) -> &'t [Lease]
        requires rising { AllPairs IsBefore leases.now }
        requires counted { AreCounted self.now leases.now }
        ensures { AreLast (ends_lease ending.now) result.now leases.now }
    {
        match *ending {
            Ending::Ticket(ticket) => since(leases, ticket),
            Ending::Node(node) => self.last_at(leases, node),
            Ending::LivesBelow(node, _) => self.last_at(leases, node),
        }
    }

    /// Counts a lease.
    fn add(&mut self, lease: &Lease)
        requires { 0 < count_room self.old }
        ensures counted { (live : List Lease) → AreCounted self.old live → AreCounted self.new (live ++ lease.now ∷ []) }
        ensures room { count_room self.old ≤ count_room self.new + 1 }
    {
        count_more(&mut self.by_ask, AskName::of(lease), lease);
        count_more(&mut self.by_node, lease.node, lease);
    }

    /// Counts leases.
    pub(crate) fn add_all(&mut self, leases: &[Lease])
        requires { length leases.now ≤ count_room self.old }
        ensures { (live : List Lease) → AreCounted self.old live → AreCounted self.new (live ++ leases.now) }
    {
        for lease in leases {
            self.add(lease);
        }
    }

    /// Counts a lease no more.
    pub(crate) fn remove(&mut self, lease: &Lease)
        ensures counted { (front : List Lease) (back : List Lease) → AreCounted self.old (front ++ lease.now ∷ back) → AreCounted self.new (front ++ back) }
        ensures room { count_room self.old ≤ count_room self.new }
    {
        count_less(&mut self.by_ask, &AskName::of(lease));
        count_less(&mut self.by_node, &lease.node);
    }

    /// Counts the leases that this ends no more.
    pub(crate) fn remove_ending(&mut self, leases: &[Lease], ending: &Ending)
        ensures counted { (front : List Lease) → AreCounted self.old (front ++ leases.now) → AreCounted self.new (front ++ filter (λ g. not (ends_lease ending.now g)) leases.now) }
        ensures room { count_room self.old ≤ count_room self.new }
    {
        for lease in leases {
            if ending.ends(lease) {
                self.remove(lease);
            }
        }
    }
}
