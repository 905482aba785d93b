//! The changes that one event makes, over the asks that wait, which stay as they are until they are applied.
ghost use Rattle.std.specs.Prelude.{◌≡◌, ◌∷◌, [], ◌++◌, ◌+◌, ◌≤◌, ◌&&◌, ◌||◌, ◌==◌, not, filter, vec_len, IfOk, OnOk};
ghost use Rattle.protocol.specs.Ledger.{is_parked};
ghost use Rattle.std.specs.Vec.{vec_capacity};
ghost use Rattle.parked.specs.Over.{still_waiting};
ghost use Rattle.parked.specs.Waiting.{ends_ask, waits_after};
ghost use Rattle.parked.specs.Queue.{asks_of, HasRoomFor};

use super::over::{Over, split_over};
use super::parked_asks::{ParkedAsks, note_all};
use super::passing::{behind, take_out, trimmed};
use farm_base::{Ask, Life, NodeId, Parked};
use holdings::Ending;
use std::alloc::{AllocError, Global};
use std::mem;

/// Asks that wait no longer, and asks that wait since, where others wait.
#[derive(Drop)]
pub struct ParkedChange {
    /// The places of the asks that are over, of those that waited.
    pub over: Over,
    /// The asks that wait since, in order of arrival.
    pub since: Vec<Parked>,
}

fn is_ask(p: &Parked, node: NodeId, life: Life, ask: Ask) -> bool
    ensures { result ≡ ((p.now.node.0 == node.0) && (p.now.life.0 == life.0) && (p.now.ask.0 == ask.0)) }
{
    p.node == node && p.life == life && p.ask == ask
}

/// Whether what ends leases ends an ask too.
fn ends_ask(ending: Ending, p: &Parked) -> bool
    ensures { result ≡ ends_ask ending p.now }
{
    match ending {
        Ending::Ticket(_) => false,
        Ending::Node(node) => p.node == node,
        Ending::LivesBelow(node, life) => p.node == node && p.life < life,
    }
}

/// Whether an ask is over, if it was or this ends it.
fn is_over_after(was_over: bool, ending: Ending, p: &Parked) -> bool
    ensures { result ≡ (was_over || ends_ask ending p.now) }
{
    was_over || ends_ask(ending, p)
}

/// Whether an ask is among those that are not at these places.
fn still_waits(parked: &[Parked], over: &[usize], node: NodeId, life: Life, ask: Ask) -> bool
    ensures { result ≡ is_parked (still_waiting over.now parked.now) node life ask }
{
    let mut rest = over;
    let mut place = 0;
    while place < parked.len() {
        let (is_over, later) = split_over(rest, place);
        if !is_over && is_ask(&parked[place], node, life, ask) {
            return true;
        }
        rest = later;
        place += 1;
    }
    false
}

/// The places, with those of the asks that this ends.
fn ended(
    alloc: Global,
    parked: &[Parked],
    over: &[usize],
    ending: Ending,
) -> Result<Over, AllocError>
    ensures { IfOk result (λ done. still_waiting done.places.items parked.now ≡ filter (λ p. not (ends_ask ending p)) (still_waiting over.now parked.now)) }
{
    let mut rest = over;
    let mut done = Over::new(alloc);
    let mut place = 0;
    while place < parked.len() {
        let (is_over, later) = split_over(rest, place);
        done.note_if(place, is_over_after(is_over, ending, &parked[place]))?;
        rest = later;
        place += 1;
    }
    Ok(done)
}

/// Removes the asks that this ends.
fn drop_ending(asks: &mut Vec<Parked>, ending: Ending)
    ensures { asks.new.items ≡ filter (λ p. not (ends_ask ending p)) asks.old.items }
{
    asks.retain(|p| !ends_ask(ending, p));
}

impl ParkedChange {
    /// No change.
    pub fn new(alloc: Global) -> Self
        ensures over { result.over.places.items ≡ [] }
        ensures since { result.since.items ≡ [] }
    {
        ParkedChange {
            over: Over::new(alloc),
            since: Vec::new(alloc),
        }
    }

    /// Whether an ask waits.
    pub fn waits(&self, parked: &ParkedAsks, node: NodeId, life: Life, ask: Ask) -> bool
        ensures { result ≡ is_parked (waits_after (asks_of parked.now) self.now) node life ask }
    {
        self.still_waits(parked, node, life, ask)
            || still_waits(self.since.as_slice(), &[], node, life, ask)
    }

    /// Whether an ask that waited still does.
    fn still_waits(&self, parked: &ParkedAsks, node: NodeId, life: Life, ask: Ask) -> bool
        ensures { result ≡ is_parked (still_waiting self.now.over.places.items (asks_of parked.now)) node life ask }
    {
        if !parked.may_have(node, life, ask) {
            return false;
        }
        still_waits(parked.waiting(), self.over.as_slice(), node, life, ask)
    }

    /// Ends the asks of a node, or of its lives below one.
    pub fn end(
        &mut self,
        alloc: Global,
        parked: &ParkedAsks,
        ending: Ending,
    ) -> Result<(), AllocError>
        ensures { OnOk result (waits_after (asks_of parked.now) self.new ≡ filter (λ p. not (ends_ask ending p)) (waits_after (asks_of parked.now) self.old)) }
    {
        if parked.may_end(ending) {
            self.over = ended(alloc, parked.waiting(), self.over.as_slice(), ending)?;
        }
        drop_ending(&mut self.since, ending);
        Ok(())
    }

    /// Parks an ask.
    pub fn park(&mut self, p: Parked) -> Result<(), AllocError>
        ensures { OnOk result ((parked : _) → waits_after parked self.new ≡ waits_after parked self.old ++ p ∷ []) }
    {
        self.since.push(p)?;
        Ok(())
    }

    /// Makes room for the asks that wait since, and notes which folders they want and whose they are.
    pub fn room(&self, alloc: Global, parked: &mut ParkedAsks) -> Result<(), AllocError>
        ensures parked { asks_of parked.new ≡ asks_of parked.old }
        ensures room { OnOk result (HasRoomFor parked.new self.now.since.items) }
    {
        let since = self.since.as_slice();
        parked.noted.add_asks(alloc, since, parked.numbers.next)?;
        parked.numbers.reserve(since.len())?;
        parked.newest.reserve(since.len())?;
        parked.asks.reserve(since.len())?;
        Ok(())
    }

    /// Changes the asks that wait, in the room that was made for them. It takes no memory. In a function of its own, since
    /// letting go of what was there is many steps of a proof.
    pub fn apply_in(self, alloc: Global, place: &mut ParkedAsks)
        requires { HasRoomFor place.old self.since.items }
        ensures { asks_of place.new ≡ waits_after (asks_of place.old) self }
    {
        let parked = mem::replace(place, ParkedAsks::new(alloc));
        *place = self.apply(parked);
    }

    /// The asks that wait, in the room that was made for them. It takes no memory.
    fn apply(self, parked: ParkedAsks) -> ParkedAsks
        requires { HasRoomFor parked self.since.items }
        ensures { asks_of result ≡ waits_after (asks_of parked) self }
    {
        let ParkedChange { over, since } = self;
        let ParkedAsks {
            asks,
            start,
            newest,
            numbers,
            noted,
        } = parked;
        let mut newest = newest;
        note_all(&mut newest, since.as_slice());
        let numbers = numbers.changed(&over, since.as_slice());
        let mut noted = noted;
        noted.drop_over(
            behind(asks.as_slice(), start),
            over.as_slice(),
            numbers.as_slice(),
        );
        let mut asks = asks;
        let start = take_out(&mut asks, start, &over);
        let asks = joined(asks, since);
        let (asks, start) = trimmed(asks, start);
        ParkedAsks {
            asks,
            start,
            newest,
            numbers,
            noted,
        }
    }
}

/// The asks of both, in the first, which has room for them.
fn joined(asks: Vec<Parked>, more: Vec<Parked>) -> Vec<Parked>
    requires { vec_len asks + vec_len more ≤ vec_capacity asks }
    ensures { result.items ≡ asks.items ++ more.items }
{
    let mut all = asks;
    let mut more = more;
    all.append(&mut more).unwrap();
    all
}
