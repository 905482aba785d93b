//! The asks that wait.
ghost use Rattle.std.specs.Prelude.{◌≡◌, ◌==◌, ◌≤◌, ◌<◌, ℕ, [], All, true, false, drop, length, vec_len, slice_index_or, nat_lt};
ghost use Rattle.std.specs.List.Sorted.{IsNonDecreasing};
ghost use Rattle.protocol.specs.Machine.{Parked};
ghost use Rattle.parked.specs.Newest.{knows, node_room, AreKnown};
ghost use Rattle.parked.specs.Noted.{WantsNoneOf, AreIndexed, WantsNone};
ghost use Rattle.parked.specs.Waiting.{ends_ask};

use super::newest_asks::NewestAsks;
use super::noted_asks::NotedAsks;
use super::numbers::Numbers;
use super::passing::behind;
use farm_base::{Ask, FolderName, Life, NodeId, Parked, Slot};
use holdings::Ending;
use std::alloc::Global;

/// The asks that wait, in order of arrival. A node numbers its asks in turn, so nearly each new one is known not to wait
/// without a look at them.
#[derive(Drop)]
pub struct ParkedAsks {
    /// The asks, those first that are over.
    pub asks: Vec<Parked>,
    /// How many are over.
    pub start: usize,
    pub newest: NewestAsks,
    /// The number of each.
    pub numbers: Numbers,
    /// Which of them want each folder, and which are each node's.
    pub noted: NotedAsks,
    ghost inside: { start ≤ vec_len asks },
    ghost known: { AreKnown newest (drop start asks.items) },
    ghost indexed: { AreIndexed noted (drop start asks.items) (drop numbers.start numbers.items.items) },
}

/// Notes that these asks waited.
pub(crate) fn note_all(newest: &mut NewestAsks, asks: &[Parked])
    requires { length asks.now ≤ node_room newest.old }
    ensures known { AreKnown newest.new asks.now }
    ensures others { (q : Parked) → knows newest.old q.node q.life q.ask ≡ true → knows newest.new q.node q.life q.ask ≡ true }
{
    for p in asks {
        newest.note(p.node, p.life, p.ask);
    }
}

/// How many of these numbers, which rise, are less than this one.
fn count_below(numbers: &[u64], number: u64) -> usize
    requires { IsNonDecreasing numbers.now }
    ensures inside { result ≤ length numbers.now }
    ensures below { (k : ℕ) → k < result → slice_index_or numbers.now k 0 < number }
    ensures behind { (k : ℕ) → result ≤ k → k < length numbers.now → number ≤ slice_index_or numbers.now k 0 }
{
    numbers.partition_point(
        |n: &u64| -> bool
            ensures { result ≡ nat_lt n.now number }
        { *n < number },
    )
}

impl ParkedAsks {
    /// No ask waits.
    pub fn new(alloc: Global) -> Self
        ensures { drop result.start result.asks.items ≡ [] }
    {
        ParkedAsks {
            asks: Vec::new(alloc),
            start: 0,
            newest: NewestAsks::new(alloc),
            numbers: Numbers::new(alloc),
            noted: NotedAsks::new(alloc),
        }
    }

    /// The asks that wait.
    pub fn waiting(&self) -> &[Parked]
        ensures { result.now ≡ drop self.now.start self.now.asks.items }
    {
        behind(self.asks.as_slice(), self.start)
    }

    /// The place from this one on of the first ask that may want the folder of one of the slots, or one of the folders, or the
    /// place behind the last ask.
    pub fn next(&self, slots: &[(Slot, bool)], folders: &[FolderName], place: usize) -> usize
        requires { place ≤ length (drop self.now.start self.now.asks.items) }
        ensures forward { place ≤ result }
        ensures inside { result ≤ length (drop self.now.start self.now.asks.items) }
        ensures slots { (k : ℕ) (d : Parked) → place ≤ k → k < result → WantsNone slots.now (slice_index_or (drop self.now.start self.now.asks.items) k d) }
        ensures folders { (k : ℕ) (d : Parked) → place ≤ k → k < result → WantsNoneOf folders.now (slice_index_or (drop self.now.start self.now.asks.items) k d) }
    {
        let numbers = self.numbers.as_slice();
        if place >= numbers.len() {
            return place;
        }
        match self.noted.first_of_all(slots, folders, numbers[place]) {
            Some(first) => place.max(count_below(numbers, first)),
            None => numbers.len(),
        }
    }

    /// Whether an ask of a node may be among them.
    fn may_have_of(&self, node: NodeId) -> bool
        ensures { result ≡ false → All (λ p. (p.node.0 == node.0) ≡ false) (drop self.now.start self.now.asks.items) }
    {
        self.noted.has_some_of(node)
    }

    /// Whether this may end one of them.
    pub(crate) fn may_end(&self, ending: Ending) -> bool
        ensures { result ≡ false → All (λ p. ends_ask ending p ≡ false) (drop self.now.start self.now.asks.items) }
    {
        match ending {
            Ending::Ticket(_) => false,
            Ending::Node(node) => self.may_have_of(node),
            Ending::LivesBelow(node, _) => self.may_have_of(node),
        }
    }

    /// Whether an ask may be among them.
    pub(crate) fn may_have(&self, node: NodeId, life: Life, ask: Ask) -> bool
        ensures { result ≡ knows self.now.newest node life ask }
    {
        self.newest.may_have(node, life, ask)
    }
}
