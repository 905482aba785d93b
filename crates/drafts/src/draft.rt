//! An event as it is worked out: its effects so far, over a state that stays as it is.
ghost use Rattle.std.specs.Prelude.{if◌then◌else◌, ◌++◌, ◌∷◌, [], ◌≡◌, ◌≢◌, ◌≤◌, ◌&&◌, All, IfOk, OnOk, not, false, is_some, ◌||◌, Some, None};
ghost use Rattle.std.specs.List.{find};
ghost use Rattle.std.specs.Vec.{vec_capacity};
ghost use Rattle.names.specs.Contents.{empty_digest};
ghost use Rattle.protocol.specs.Farm.{farm_limits};
ghost use Rattle.leases.specs.Table.{fit_of};
ghost use Rattle.leases.specs.declared.lease_table.Fit.{Fit};
ghost use Rattle.protocol.specs.Ledger.{begin_work, says, notes, parks, decision, decided, sees, lease_for, grant_of, gives, denies, tried, try_all, stays, waiting, retried, elsewhere, recall, recalls, holds_wanted, acquiring, lease_of, is_parked, confirms, committing, may_commit, may_release, lease_under, released, newer_life, answering, handled};
ghost use Rattle.effects.specs.Held.{ledger};
ghost use Rattle.effects.specs.Sound.{AreHeldUp};
ghost use Rattle.drafts.specs.Idle.{AreIdle};
ghost use Rattle.effects.specs.Keeps.{held, IsKeepable};
ghost use Rattle.farm_base.specs.Wanted.{IsWants};
ghost use Rattle.effects.specs.Shown.{IsFresh, table_after};
ghost use Rattle.drafts.specs.Shown.{work, Makes, Finishes, ended, ended_committed};
ghost use Rattle.parked.specs.Over.{still_waiting};
ghost use Rattle.parked.specs.Queue.{asks_of};
ghost use Rattle.parked.specs.Waiting.{waits_after};
ghost use Rattle.effects.specs.Sound.{IsSound};
ghost use Rattle.versions.specs.Lines.{lines_with, room_needed};

use super::granting::{give, grant_of, is_some_saved};
use super::home::{cleared, is_home};
use effects::{Effects, NewLife, Prepared, State};
use events::{CoordNote, Decision};
use farm_base::{
    Copied, FromCoord, Grant, Items, Life, News, NodeId, Parked, Request, Slot, Ticket, ToCoord,
    Why,
};
use holdings::Ending;
use parked::{Over, ParkedChange, split_over, take_out, without_first};
use std::alloc::{AllocError, Global};
use std::mem;
use versions::{Added, additions, all_stand, confirmed};

/// An event as it is worked out: its effects so far, over a state that stays as it is.
#[derive(Drop)]
pub struct Draft<'s> {
    pub base: &'s State,
    /// In a box, so that letting go of it is one step of a proof.
    pub effects: Box<Effects>,
}

impl<'s> Draft<'s> {
    /// An event that did nothing yet.
    pub fn begin(alloc: Global, base: &'s State) -> Result<Self, AllocError>
        ensures base { IfOk result (λ draft. draft.base.now ≡ base.now) }
        ensures work { IfOk result (λ draft. work draft ≡ begin_work (ledger (held base.now))) }
        ensures fresh { IfOk result (λ draft. IsFresh draft.effects.value) }
    {
        let effects = Effects::new(alloc, base)?;
        let effects = Box::new(alloc, effects)?;
        Ok(Draft { base, effects })
    }

    /// Its effects, with room for what they add to the lines.
    pub fn finish(self, alloc: Global) -> Result<Prepared, AllocError>
        ensures effects { IfOk result (λ prepared. prepared.effects ≡ self.entry.effects) }
        ensures empty { IfOk result (λ prepared. prepared.room.items ≡ []) }
        ensures larger { IfOk result (λ prepared. room_needed self.entry.base.now.lines self.entry.effects.value.added ≤ vec_capacity prepared.room) }
    {
        let room = self.base.lines.room_to_add(alloc, &self.effects.added)?;
        let Draft { base: _, effects } = self;
        Ok(Prepared { effects, room })
    }

    /// Notes what was done.
    pub(crate) fn note(&mut self, note: CoordNote)
        ensures { Makes (notes note) self.old self.new }
    {
        self.effects.note = note;
    }

    /// Sends a message.
    fn send(&mut self, message: FromCoord) -> Result<(), AllocError>
        ensures { OnOk result (Makes (says message) self.old self.new) }
    {
        self.effects.sends.push(message)?;
        Ok(())
    }

    /// Adds versions to the lines.
    fn add(&mut self, added: Added)
        ensures base { self.new.base.now ≡ self.old.base.now }
        ensures added { self.new.effects.value.added ≡ Some added }
        ensures work { work self.new ≡ record (work self.old) { ledger = record (work self.old).ledger { line = lines_with self.old.base.now.lines (Some added) } } }
    {
        self.effects.added = Some(added);
    }

    /// Takes out which asks wait, and leaves those of the state.
    fn take_parked(&mut self, alloc: Global) -> ParkedChange
        ensures parked { result ≡ self.old.effects.value.change.parked }
        ensures work { Makes (parks (asks_of self.old.base.now.parked)) self.old self.new }
    {
        mem::replace(&mut self.effects.change.parked, ParkedChange::new(alloc))
    }

    /// Puts in which asks wait.
    fn put_parked(&mut self, parked: ParkedChange)
        ensures { Makes (parks (waits_after (asks_of self.old.base.now.parked) parked)) self.old self.new }
    {
        self.effects.change.parked = parked;
    }

    /// Parks an ask.
    fn park(&mut self, p: Parked) -> Result<(), AllocError>
        ensures { OnOk result (Makes (λ w. parks (w.ledger.parked ++ p ∷ []) w) self.old self.new) }
    {
        self.effects.change.parked.park(p)?;
        Ok(())
    }

    /// Grants what the ask wants.
    fn give(&mut self, alloc: Global, p: &Parked) -> Result<Grant, AllocError>
        requires given { All (λ g. g.ticket.0 ≤ (work self.old).ledger.last) (work self.old).ledger.live }
        requires fits { fit_of (table_after (held self.old.base.now) self.old.effects.value.change) p.now.tenure p.now.wants ≡ Fit.Fits }
        requires room { (work self.old).ledger.last ≢ u64.MAX }
        ensures work { OnOk result (Makes (gives farm_limits p.now) self.old self.new) }
        ensures grant { IfOk result (λ grant. grant
            ≡ grant_of empty_digest (work self.old).ledger.line (lease_for farm_limits (work self.old).ledger p.now)) }
    {
        let grant = give(alloc, &mut *self.effects, self.base, p)?;
        Ok(grant)
    }

    fn deny(&mut self, p: &Parked, why: Why) -> Result<(), AllocError>
        ensures { OnOk result (Makes (denies why p.now) self.old self.new) }
    {
        self.send(FromCoord::Denied {
            node: p.node,
            life: p.life,
            ask: p.ask,
            why,
        })
    }

    /// Grants or denies an ask, or answers that it waits.
    fn try_ask(&mut self, alloc: Global, p: &Parked) -> Result<bool, AllocError>
        requires { IsSound (work self.old).ledger }
        ensures work { OnOk result (Makes (tried farm_limits p.now) self.old self.new) }
        ensures waits { IfOk result (λ waits. waits ≡ stays farm_limits p.now (work self.old)) }
    {
        match self.decision(p) {
            Decision::Give => {
                self.give(alloc, p)?;
                Ok(false)
            }
            Decision::Deny(why) => {
                self.deny(p, why)?;
                Ok(false)
            }
            Decision::Wait => Ok(true),
        }
    }

    /// Tries an ask unless it is over, and says whether it is over now.
    fn try_unless(&mut self, alloc: Global, p: &Parked, is_over: bool) -> Result<bool, AllocError>
        requires { IsSound (work self.old).ledger }
        ensures work { OnOk result (Makes (λ w. if is_over then w else tried farm_limits p.now w) self.old self.new) }
        ensures over { IfOk result (λ over. over ≡ (is_over || not (stays farm_limits p.now (work self.old)))) }
    {
        if is_over {
            return Ok(true);
        }
        let waits = self.try_ask(alloc, p)?;
        Ok(!waits)
    }

    /// Tries these asks, but for those at places that are over, and says which wait no longer.
    fn try_asks(
        &mut self,
        alloc: Global,
        asks: &[Parked],
        over: &[usize],
    ) -> Result<Over, AllocError>
        requires sound { IsSound (work self.old).ledger }
        requires wants { All (λ p. IsWants p.wants) asks.now }
        ensures work { OnOk result (Makes (try_all farm_limits (still_waiting over.now asks.now)) self.old self.new) }
        ensures stay { IfOk result (λ done. still_waiting done.places.items asks.now
            ≡ waiting farm_limits (still_waiting over.now asks.now) (work self.old)) }
        ensures sound { OnOk result (IsSound (work self.new).ledger) }
    {
        let mut rest = over;
        let mut done = Over::new(alloc);
        let mut place = 0;
        while place < asks.len() {
            let (is_over, later) = split_over(rest, place);
            let over_now = self.try_unless(alloc, &asks[place], is_over)?;
            done.note_if(place, over_now)?;
            rest = later;
            place += 1;
        }
        Ok(done)
    }

    /// Tries the parked asks, but for those that are over, and says which wait no longer. It looks at those alone that want a
    /// freed slot that isn't leased again, or a PRIVATE folder of which no instance is free: all others wait.
    fn try_wanting(
        &mut self,
        alloc: Global,
        over: &Over,
        freed: Vec<(Slot, bool)>,
    ) -> Result<Over, AllocError>
        requires sound { IsSound (work self.old).ledger }
        requires kept { IsKeepable self.old.base.now }
        requires idle { AreIdle freed.items (work self.old).ledger (still_waiting over.now.places.items (asks_of self.old.base.now.parked)) }
        ensures work { OnOk result (Makes (try_all farm_limits (still_waiting over.now.places.items (asks_of self.old.base.now.parked))) self.old self.new) }
        ensures stay { IfOk result (λ done. still_waiting done.places.items (asks_of self.old.base.now.parked)
            ≡ waiting farm_limits (still_waiting over.now.places.items (asks_of self.old.base.now.parked)) (work self.old)) }
    {
        let base = self.base;
        let asks = base.parked.waiting();
        let mut freed = freed;
        let mut spent = self.effects.change.spent(alloc, base)?;
        let mut rest = over.as_slice();
        let mut done = Over::new(alloc);
        let mut place = self.first_due(&mut freed, &spent, rest, 0);
        while place < asks.len() {
            let p = &asks[place];
            let (is_over, later) = split_over(rest, place);
            let over_now = self.try_unless(alloc, p, is_over)?;
            done.note_if(place, over_now)?;
            self.note_wants(alloc, &mut spent, p.wants.as_slice())?;
            rest = later;
            place = self.first_due(&mut freed, &spent, rest, place + 1);
        }
        Ok(done)
    }

    /// Tries the parked asks, in order of arrival.
    pub(crate) fn retry_all(&mut self, alloc: Global) -> Result<(), AllocError>
        requires sound { IsSound (work self.old).ledger }
        requires kept { IsKeepable self.old.base.now }
        ensures { OnOk result (Makes (retried farm_limits) self.old self.new) }
    {
        let asks = self.base.parked.waiting();
        let ParkedChange { over, since } = self.take_parked(alloc);
        let over = self.try_asks(alloc, asks, over.as_slice())?;
        let over_since = self.try_asks(alloc, since.as_slice(), &[])?;
        let since = without(since, &over_since);
        self.put_parked(ParkedChange { over, since });
        Ok(())
    }

    /// Tries the parked asks, in order of arrival, where none came since. It looks at those alone that may not wait.
    fn retry_wanting(&mut self, alloc: Global, freed: Vec<(Slot, bool)>) -> Result<(), AllocError>
        requires since { self.old.effects.value.change.parked.since.items ≡ [] }
        requires sound { IsSound (work self.old).ledger }
        requires kept { IsKeepable self.old.base.now }
        requires idle { AreIdle freed.items (work self.old).ledger (work self.old).ledger.parked }
        ensures { OnOk result (Makes (retried farm_limits) self.old self.new) }
    {
        let before = self.take_parked(alloc);
        let over = self.try_wanting(alloc, &before.over, freed)?;
        let since = Vec::new(alloc);
        self.put_parked(ParkedChange { over, since });
        Ok(())
    }

    /// Tries the parked asks, in order of arrival, where leases have ended that had these slots. Where many slots are free at
    /// once, looking up who wants each would cost more than to try all asks.
    pub(crate) fn retry(
        &mut self,
        alloc: Global,
        freed: Vec<(Slot, bool)>,
    ) -> Result<(), AllocError>
        requires sound { IsSound (work self.old).ledger }
        requires kept { IsKeepable self.old.base.now }
        requires idle { AreIdle freed.items (work self.old).ledger (work self.old).ledger.parked }
        ensures { OnOk result (Makes (retried farm_limits) self.old self.new) }
    {
        let asks = self.base.parked.waiting().len();
        let none_since = self.effects.change.parked.since.is_empty();
        if none_since && freed.len() <= asks / freed.len().max(1) {
            self.retry_wanting(alloc, freed)
        } else {
            self.retry_all(alloc)
        }
    }

    /// Tells the holder of a slot that is wanted to give it up.
    fn tell_holder(&mut self, p: &Parked) -> Result<(), AllocError>
        ensures { OnOk result (Makes (λ w. recall (find (holds_wanted p.now) w.ledger.live) w) self.old self.new) }
    {
        match self.table().holder_of(&p.wants, p.tenure) {
            Some(lease) => {
                let message = FromCoord::Recall {
                    node: lease.node,
                    life: lease.life,
                    ticket: lease.ticket,
                };
                self.send(message)?;
                Ok(())
            }
            None => Ok(()),
        }
    }

    /// Tells the holder of the tenure that is asked for to give it up.
    fn recall(&mut self, p: &Parked) -> Result<(), AllocError>
        ensures { OnOk result (Makes (λ w. recalls (p.now.tenure && not (elsewhere w.ledger p.now)) p.now w) self.old self.new) }
    {
        if !self.is_awaited(p) {
            return Ok(());
        }
        self.tell_holder(p)?;
        Ok(())
    }

    /// Grants or denies an ask, or parks it.
    fn decide(&mut self, alloc: Global, p: Parked) -> Result<(), AllocError>
        requires { IsSound (work self.old).ledger }
        ensures { OnOk result (Makes (λ w. decided farm_limits (decision farm_limits w.ledger p) p w) self.old self.new) }
    {
        match self.decision(&p) {
            Decision::Give => {
                let grant = self.give(alloc, &p)?;
                self.note(CoordNote::Granted(grant));
            }
            Decision::Deny(why) => {
                self.deny(&p, why)?;
                self.note(CoordNote::Denied(why));
            }
            Decision::Wait => {
                self.recall(&p)?;
                self.park(p)?;
                self.note(CoordNote::Parked);
            }
        }
        Ok(())
    }

    /// Sends the Grant of a lease again.
    fn grant_again(&mut self, alloc: Global, p: &Parked) -> Result<bool, AllocError>
        ensures found { IfOk result (λ found. found ≡ is_some (lease_of (work self.old).ledger.live p.now.node p.now.life p.now.ask)) }
        ensures work { IfOk result (λ found. Makes (λ w. if found
            then acquiring farm_limits (lease_of w.ledger.live p.now.node p.now.life p.now.ask) false p.now w
            else w) self.old self.new) }
    {
        let draft = &*self;
        let Some(lease) = draft.table().lease_of(p.node, p.life, p.ask) else {
            return Ok(false);
        };
        let grant = grant_of(alloc, &draft.base.lines, &draft.effects.added, lease)?;
        self.send(FromCoord::Granted(grant.copy(alloc)?))?;
        self.note(CoordNote::GrantedBefore(grant));
        Ok(true)
    }

    fn acquire(&mut self, alloc: Global, p: Parked) -> Result<(), AllocError>
        requires { IsSound (work self.old).ledger }
        ensures { OnOk result (Makes (λ w. acquiring farm_limits (lease_of w.ledger.live p.node p.life p.ask) (is_parked w.ledger.parked p.node p.life p.ask) p w) self.old self.new) }
    {
        if self.grant_again(alloc, &p)? {
            return Ok(());
        }
        if self.is_parked(&p) {
            self.note(CoordNote::Parked);
            return Ok(());
        }
        self.decide(alloc, p)?;
        Ok(())
    }

    /// Sends which versions a ticket has.
    fn confirm(
        &mut self,
        alloc: Global,
        node: NodeId,
        life: Life,
        ticket: Ticket,
        news: &[News],
    ) -> Result<(), AllocError>
        ensures { OnOk result (Makes (confirms node life ticket news.now) self.old self.new) }
    {
        let versions = confirmed(alloc, &self.base.lines, &self.effects.added, ticket, news)?;
        self.send(FromCoord::Committed {
            node,
            life,
            ticket,
            versions: Items::new(versions),
        })?;
        Ok(())
    }

    /// Answers a commit that adds nothing.
    fn answer_again(
        &mut self,
        alloc: Global,
        node: NodeId,
        life: Life,
        ticket: Ticket,
        news: &[News],
    ) -> Result<(), AllocError>
        requires { self.old.effects.value.added ≡ None }
        ensures { OnOk result (Makes (committing farm_limits false node life ticket news.now) self.old self.new) }
    {
        if !news.is_empty() && all_stand(&self.base.lines, ticket, news) {
            self.confirm(alloc, node, life, ticket, news)?;
            self.note(CoordNote::CommittedBefore(ticket));
        } else {
            self.send(FromCoord::Fenced { node, life, ticket })?;
            self.note(CoordNote::Fenced(ticket));
        }
        Ok(())
    }

    /// Ends the lease of a ticket, where there is one.
    fn end(&mut self, ticket: Ticket) -> Result<(), AllocError>
        ensures { OnOk result (Makes (ended ticket) self.old self.new) }
    {
        let is_saved = is_some_saved(self.table().lease(ticket));
        let effects = &mut *self.effects;
        effects.change.table.end(ticket)?;
        effects.changed = effects.changed || is_saved;
        Ok(())
    }

    fn release(
        &mut self,
        alloc: Global,
        node: NodeId,
        life: Life,
        ticket: Ticket,
    ) -> Result<(), AllocError>
        requires sound { IsSound (work self.old).ledger }
        requires kept { IsKeepable self.old.base.now }
        requires held_up { AreHeldUp (work self.old).ledger }
        ensures { OnOk result (Makes (λ w. released farm_limits (may_release node life (lease_under w.ledger.live ticket)) ticket (lease_under w.ledger.live ticket) w) self.old self.new) }
    {
        if !self.may_release(node, life, ticket) {
            return Ok(());
        }
        let freed = self.freed_by(alloc, ticket)?;
        self.end(ticket)?;
        self.retry(alloc, freed)?;
        self.note(CoordNote::Released(ticket));
        Ok(())
    }

    /// Ends the lease of a ticket whose versions the record has.
    fn end_committed(&mut self, ticket: Ticket) -> Result<(), AllocError>
        ensures { OnOk result (Makes (ended_committed ticket) self.old self.new) }
    {
        let effects = &mut *self.effects;
        effects.change.table.end(ticket)?;
        effects.changed = true;
        Ok(())
    }

    /// Adds the versions of a commit, if it counts.
    fn commit(
        &mut self,
        alloc: Global,
        node: NodeId,
        life: Life,
        ticket: Ticket,
        news: &[News],
    ) -> Result<(), AllocError>
        requires sound { IsSound (work self.old).ledger }
        requires kept { IsKeepable self.old.base.now }
        requires held_up { AreHeldUp (work self.old).ledger }
        requires first { self.old.effects.value.added ≡ None }
        ensures { OnOk result (Finishes (λ w. committing farm_limits (may_commit node life news.now (lease_under w.ledger.live ticket)) node life ticket news.now w) self.old self.new) }
    {
        if !self.may_commit(node, life, ticket, news) {
            self.answer_again(alloc, node, life, ticket, news)?;
            return Ok(());
        }
        let additions = additions(alloc, &self.base.lines, news)?;
        let freed = self.freed_by(alloc, ticket)?;
        self.end_committed(ticket)?;
        self.add(Added { ticket, additions });
        self.confirm(alloc, node, life, ticket, news)?;
        self.retry(alloc, freed)?;
        self.note(CoordNote::Committed(ticket));
        Ok(())
    }

    /// Ends what a newer life of a node ends.
    fn see(&mut self, alloc: Global, node: NodeId, life: Life) -> Result<(), AllocError>
        requires counted { 1 ≤ life.0 }
        requires first { self.old.effects.value.change.life ≡ None }
        ensures { OnOk result (Makes (sees node life) self.old self.new) }
    {
        let base = self.base;
        let effects = &mut *self.effects;
        let change = &mut effects.change;
        change.table.end_lives_below(node, life)?;
        change
            .parked
            .end(alloc, &base.parked, Ending::LivesBelow(node, life))?;
        change.life = Some(NewLife { node, life });
        change.old_home = cleared(node, change.old_home);
        effects.changed = true;
        Ok(())
    }

    /// A newer life of a node: where a lease of it ended, or the old home was cleared, the parked asks are tried.
    fn begin_life(&mut self, alloc: Global, node: NodeId, life: Life) -> Result<(), AllocError>
        requires sound { IsSound (work self.old).ledger }
        requires kept { IsKeepable self.old.base.now }
        requires held_up { AreHeldUp (work self.old).ledger }
        requires life { 1 ≤ life.0 }
        requires first { self.old.effects.value.change.life ≡ None }
        ensures { OnOk result (Makes (newer_life farm_limits node life) self.old self.new) }
    {
        let was_home = is_home(node, self.effects.change.old_home);
        let had_leases = self.table().has_lease_below(node, life);
        let freed = self.freed_by_node(alloc, Ending::LivesBelow(node, life))?;
        self.see(alloc, node, life)?;
        if was_home {
            self.retry_all(alloc)?;
        } else if had_leases {
            self.retry(alloc, freed)?;
        }
        Ok(())
    }

    /// Answers a message of the life that is now the node's greatest.
    fn answer(&mut self, alloc: Global, message: &ToCoord) -> Result<(), AllocError>
        requires sound { IsSound (work self.old).ledger }
        requires kept { IsKeepable self.old.base.now }
        requires held_up { AreHeldUp (work self.old).ledger }
        requires first { self.old.effects.value.added ≡ None }
        ensures { OnOk result (Finishes (answering farm_limits message.now.node message.now.life message.now.request) self.old self.new) }
    {
        let (node, life) = (message.node, message.life);
        match &message.request {
            Request::Hello => Ok(()),
            Request::Acquire { ask, wants, tenure } => {
                let p = Parked {
                    node,
                    life,
                    ask: *ask,
                    wants: wants.copy(alloc)?,
                    tenure: *tenure,
                };
                self.acquire(alloc, p)?;
                Ok(())
            }
            Request::Commit { ticket, news } => {
                self.commit(alloc, node, life, *ticket, news.as_slice())?;
                Ok(())
            }
            Request::Release { ticket } => {
                self.release(alloc, node, life, *ticket)?;
                Ok(())
            }
        }
    }

    /// Does what a message asks.
    pub fn deliver(&mut self, alloc: Global, message: &ToCoord) -> Result<(), AllocError>
        requires sound { IsSound (work self.old).ledger }
        requires kept { IsKeepable self.old.base.now }
        requires held_up { AreHeldUp (work self.old).ledger }
        requires first { IsFresh self.old.effects.value }
        ensures { OnOk result (Finishes (handled farm_limits message.now) self.old self.new) }
    {
        if self.is_gone(message.node) {
            self.note(CoordNote::NodeRetired);
            return Ok(());
        }
        let seen = self.greatest_life(message.node);
        if message.life.0 < seen {
            self.note(CoordNote::OldLife);
            return Ok(());
        }
        if seen < message.life.0 {
            self.begin_life(alloc, message.node, message.life)?;
            self.answer(alloc, message)?;
            return Ok(());
        }
        self.answer(alloc, message)?;
        Ok(())
    }
}

/// The asks that are not at these places.
fn without(asks: Vec<Parked>, over: &Over) -> Vec<Parked>
    ensures { result.items ≡ still_waiting over.now.places.items asks.items }
{
    let mut asks = asks;
    let start = take_out(&mut asks, 0, over);
    without_first(asks, start)
}
