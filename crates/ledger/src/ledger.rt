//! What a coordinator keeps of its farm, which is loaded, and saved before it changes.
ghost use Rattle.std.specs.Prelude.{◌≡◌, ◌+◌, ◌≤◌, [], IfOk, IfSome, OnOk, Ok, Err, false, is_some, length};
ghost use Rattle.std.specs.Vec.{vec_capacity};
ghost use Rattle.protocol.specs.Ledger.{saves, reads};
ghost use Rattle.saverecord.specs.Ledgers.{IsKept, ledger_of};
ghost use Rattle.saverecord.specs.Logs.{Holds};
ghost use Rattle.saverecord.specs.Texts.{Texts, whole_alone, with_text};
ghost use Rattle.ledger.specs.Keeping.{kept_with};
ghost use Rattle.effects.specs.Held.{line_at, ledger};
ghost use Rattle.versions.specs.Additions.{IsReady};
ghost use Rattle.leases.specs.Changes.{changed, HasRoom};
ghost use Rattle.holdings.specs.Leases.{AreLeases};
ghost use Rattle.saverecord.specs.Keepers.{HasFailed};
ghost use Rattle.effects.specs.Keeps.{held, IsKeepable};
ghost use Rattle.ledger.specs.Seen.{IsKeeping};
ghost use Rattle.ledger.specs.Settling.{Answers, Loads, OnlyGrow, is_save_fault};
ghost use Rattle.effects.specs.Shown.{work_of};
ghost use Rattle.versions.specs.Lines.{lines_with, room_needed};
ghost use Rattle.effects.specs.Sound.{IsRightful};
ghost use Rattle.effects.specs.Queue.{HasRoomFor};
ghost use Rattle.ledger.specs.Prepared.{IsPrepared};

use super::handled::Handled;
use super::nodes::{begin, retire};
use super::record::{entry_of, record_of, state_of};
use super::table_room::{put_back, put_changed, take_table};
use super::text::{Sizes, Text, save};
use effects::{Change, Effects, Prepared, SpentFolders, State};
use events::CoordRefusal;
use farm_base::Items;
use leases::TableWithRoom;
use saverecord::laws::what_is_kept_is_a_record;
use saverecord::{Keeper, KeeperRefusal, Record, RecordRefusal};
use std::alloc::{AllocError, Global};
use std::marker::Model;

/// What a coordinator keeps of its farm: who may use which slot, and the lines of versions. Contracts see it as lists.
pub struct Ledger {
    state: State,
    /// How long the texts are that its keeper has.
    sizes: Sizes,
}

// By hand, so that letting go of one is one step of a proof.
impl Drop for Ledger {
    fn drop(self) {
        let Self { state: _, sizes: _ } = self;
    }
}

impl Model for Ledger {
    ghost use Rattle.effects.specs.Held.{Held};

    ghost Value = { Held };

    ghost use Rattle.effects.specs.Keeps.{held, IsKeepable};

    ghost view = { λ c. held c.state };

    ghost invariant = { λ c. IsKeepable c.state };
}

/// Applies an event that was worked out, after its save, in the room that was made for it. It takes no memory.
fn apply(
    alloc: Global,
    state: &mut State,
    table: TableWithRoom,
    spent: SpentFolders,
    prepared: Prepared,
) -> Handled
    requires table_room { HasRoom table prepared.effects.value.change.table }
    requires leases { AreLeases (changed table.table prepared.effects.value.change.table).live }
    requires parking { HasRoomFor state.old.parked prepared.effects.value.change.parked.since.items }
    requires lives { length state.old.lives.seen + 1 ≤ state.old.lives.room }
    requires gone { length state.old.gone.retired + 1 ≤ state.old.gone.room }
    requires ready { IsReady state.old.lines prepared.effects.value.added }
    requires empty { prepared.room.items ≡ [] }
    requires larger { room_needed state.old.lines prepared.effects.value.added ≤ vec_capacity prepared.room }
    ensures lines { line_at state.new.lines ≡ lines_with state.old.lines prepared.effects.value.added }
    ensures ledger { ledger (held state.new) ≡ (work_of (record (held state.old) { live = table.table.live; retired = table.table.retired }) prepared.effects.value).ledger }
    ensures spent { state.new.spent ≡ spent }
    ensures sends { result.sends ≡ prepared.effects.value.sends.items }
    ensures note { result.note ≡ prepared.effects.value.note }
{
    let Prepared { effects, room } = prepared;
    let Effects {
        change,
        added,
        sends,
        changed: _,
        note,
    } = Box::into_inner(effects);
    let Change {
        table: table_change,
        tickets,
        life,
        gone,
        old_home,
        parked,
    } = change;
    parked.apply_in(alloc, &mut state.parked);
    put_changed(&mut state.table, table, table_change);
    state.tickets = tickets;
    begin(&mut state.lives, life);
    retire(&mut state.gone, gone);
    state.old_home = old_home;
    state.spent = spent;
    state.lines.add_to(added, room);
    Handled {
        sends: Items::new(sends),
        note,
    }
}

/// Makes room in a state for what an event changes, beside that of the table and of the lines. Nothing else changes.
fn make_room(alloc: Global, state: &mut State, change: &Change) -> Result<(), AllocError>
    ensures held { held state.new ≡ held state.old }
    ensures spent { state.new.spent ≡ state.old.spent }
    ensures life_room { OnOk result (length state.new.lives.seen + 1 ≤ state.new.lives.room) }
    ensures gone_room { OnOk result (length state.new.gone.retired + 1 ≤ state.new.gone.room) }
    ensures parking { OnOk result (HasRoomFor state.new.parked change.now.parked.since.items) }
{
    state.lives.reserve(1)?;
    state.gone.reserve(1)?;
    change.parked.room(alloc, &mut state.parked)
}

impl Ledger {
    /// What the keeper's texts hold, as a restart takes it up. Leases that the record has and a coordinator doesn't save
    /// are over.
    pub fn load<K: Keeper>(alloc: Global, keeper: &mut K) -> Result<Self, CoordRefusal>
        ensures answer { Loads K.loading (K.kept keeper.old) keeper.old keeper.new result }
        ensures kept { K.kept keeper.new ≡ K.kept keeper.old }
        ensures cause { result ≡ Err CoordRefusal.LoadFault → HasFailed (K.failed keeper.old) (K.failed keeper.new) }
    {
        let log = match keeper.load(alloc) {
            Ok(log) => log,
            Err(KeeperRefusal::Fault) => return Err(CoordRefusal::LoadFault),
            Err(KeeperRefusal::OutOfMemory) => return Err(CoordRefusal::OutOfMemory),
        };
        match log.read(alloc) {
            Ok(read) => {
                match Ledger::of(alloc, read, Sizes::of(&log)) {
                    Ok(ledger) => Ok(ledger),
                    Err(_) => Err(CoordRefusal::OutOfMemory),
                }
            }
            Err(RecordRefusal::OutOfMemory) => Err(CoordRefusal::OutOfMemory),
            Err(_) => Err(CoordRefusal::BadRecord),
        }
    }

    /// The ledger that a restart makes of a record.
    fn of(alloc: Global, read: Record, sizes: Sizes) -> Result<Self, AllocError>
        requires { IsKept read }
        ensures { IfOk result (λ made. ledger made ≡ reads (saves (ledger_of read))) }
    {
        let state = state_of(alloc, read)?;
        Ok(Ledger { state, sizes })
    }

    /// Its state, over which an event is worked out.
    pub fn state(&self) -> &State
        ensures held { held result.now ≡ self.now }
        ensures keepable { IsKeepable result.now }
    {
        &self.state
    }

    /// The whole record of an event that was worked out.
    fn record_bytes(&self, alloc: Global, prepared: &Prepared) -> Result<Vec<u8>, AllocError>
        requires rightful { IsRightful (work_of self.now prepared.now.effects.value).ledger }
        requires ready { IsReady self.now.lines prepared.now.effects.value.added }
        ensures { IfOk result (λ bytes. Holds (whole_alone bytes.items) (saves (work_of self.now prepared.now.effects.value).ledger)) }
    {
        let record = record_of(alloc, &self.state, &prepared.effects)?;
        what_is_kept_is_a_record();
        record.write(alloc)
    }

    /// The entry of an event that was worked out: what it changes in the record.
    fn entry_bytes(&self, alloc: Global, prepared: &Prepared) -> Result<Vec<u8>, AllocError>
        requires rightful { IsRightful (work_of self.now prepared.now.effects.value).ledger }
        requires ready { IsReady self.now.lines prepared.now.effects.value.added }
        requires block { self.now.ceiling ≤ prepared.now.effects.value.change.tickets.ceiling }
        ensures { IfOk result (λ bytes. (t : Texts) → Holds t (saves (ledger self.now))
            → Holds (with_text bytes.items t) (saves (work_of self.now prepared.now.effects.value).ledger)) }
    {
        let entry = entry_of(alloc, &self.state, &prepared.effects)?;
        entry.write(alloc)
    }

    /// The text to be saved of an event that was worked out, if the record changed: an entry, or the whole record where
    /// the entries are long enough by now.
    fn to_save(&self, alloc: Global, prepared: &Prepared) -> Result<Option<Text>, AllocError>
        requires rightful { IsRightful (work_of self.now prepared.now.effects.value).ledger }
        requires ready { IsReady self.now.lines prepared.now.effects.value.added }
        ensures text { IfOk result (λ o. IfSome o (λ text. (t : Texts) → Holds t (saves (ledger self.now))
            → Holds (kept_with text t) (saves (work_of self.now prepared.now.effects.value).ledger))) }
        ensures changed { IfOk result (λ o. is_some o ≡ prepared.now.effects.value.changed) }
    {
        if !prepared.effects.changed {
            return Ok(None);
        }
        let ceiling = prepared.effects.change.tickets.ceiling();
        let falls = ceiling.0 < self.state.tickets.ceiling().0;
        if falls || self.sizes.is_due() {
            Ok(Some(Text::Whole(self.record_bytes(alloc, prepared)?)))
        } else {
            Ok(Some(Text::Entry(self.entry_bytes(alloc, prepared)?)))
        }
    }

    /// Saves an event that was worked out, where the record changed, and then applies it. The room that applying takes is
    /// made before the save.
    pub fn settle<K: Keeper>(
        &mut self,
        alloc: Global,
        keeper: &mut K,
        prepared: Prepared,
    ) -> Result<Handled, CoordRefusal>
        requires prepared { IsPrepared self.old prepared }
        requires keeping { IsKeeping (K.kept keeper.old) self.old false }
        ensures answer { Answers K.saving (Ok (work_of self.old prepared.effects.value))
            (record { held = self.old; keeper = keeper.old; down = false }) (record { held = self.new; keeper = keeper.new; down = is_save_fault result }) result }
        ensures cause { result ≡ Err CoordRefusal.SaveFault → HasFailed (K.failed keeper.old) (K.failed keeper.new) }
        ensures keeping { IsKeeping (K.kept keeper.new) self.new (is_save_fault result) }
        ensures grow { OnlyGrow (line_at self.old.lines) (line_at self.new.lines) }
    {
        let Ok(to_save) = self.to_save(alloc, &prepared) else {
            return Err(CoordRefusal::OutOfMemory);
        };
        let change = &prepared.effects.change;
        let Ok(spent) = change.spent_after(alloc, &self.state) else {
            return Err(CoordRefusal::OutOfMemory);
        };
        let Ok(()) = make_room(alloc, &mut self.state, change) else {
            return Err(CoordRefusal::OutOfMemory);
        };
        let Ok(table) = take_table(alloc, &mut self.state.table, &change.table) else {
            return Err(CoordRefusal::OutOfMemory);
        };
        match save(keeper, self.sizes, to_save) {
            Ok(sizes) => {
                self.sizes = sizes;
                Ok(apply(alloc, &mut self.state, table, spent, prepared))
            }
            Err(refusal) => {
                put_back(&mut self.state.table, table);
                Err(refusal)
            }
        }
    }
}
