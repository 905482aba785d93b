//! The lines of slots, and what a commit adds to them.
ghost use Rattle.std.specs.Prelude.{◌≡◌, ◌≢◌, not, ◌<◌, ◌≤◌, ◌^◌, [], map, length, All, IfOk, IsOk, OnOk, OnErr, ◌∷◌, IfSome, IfNone, MatchResult, unwrap_or, option_copied, is_some, vec_len, ◌+◌, Some};
ghost use Rattle.std.specs.List.{list_any};
ghost use Rattle.std.specs.List.Sorted.{IsStrictlySortedBy};
ghost use Rattle.std.specs.Vec.{vec_capacity};
ghost use Rattle.names.specs.Slots.{slot_cmp};
ghost use Rattle.names.specs.Contents.{empty_digest};
ghost use Rattle.protocol.specs.Lists.{is_nil};
ghost use Rattle.protocol.specs.Names.{slot_eq};
ghost use Rattle.protocol.specs.Machine.{digest_for};
ghost use Rattle.protocol.specs.Ledger.{last_digest, place_on_line, versions_of, on_all, granted_slot};
ghost use Rattle.versions.specs.Lines.{line_at};
ghost use Rattle.versions.specs.Additions.{HasRoom, IsAbove, AreReady, IsReady, adds, IsInserted};
ghost use Rattle.versions.specs.Line.{is_above_all};
ghost use Rattle.versions.specs.Ordered.{AreLines, IsPlace, IsGap, slots};
ghost use Rattle.versions.specs.Lines.{lines_with, news_of, room_needed};

use super::line::{Line, Room};
use farm_base::{
    Confirmed, Copied, Digest, GrantedSlot, LineVersion, News, Slot, Ticket, copy_all, empty_digest,
};
use std::alloc::{AllocError, Global};
use std::cmp::Ordering;
use std::marker::Model;

/// The line of a slot.
#[derive(Drop)]
pub struct SlotLine {
    pub slot: Slot,
    pub line: Line,
}

impl Copied for SlotLine {
    fn copy(&self, alloc: Global) -> Result<Self, AllocError> {
        Ok(SlotLine {
            slot: self.slot.copy(alloc)?,
            line: self.line.copy(alloc)?,
        })
    }
}

/// A version that a commit adds to a slot's line, with room for it.
#[derive(Drop)]
pub struct Addition {
    pub slot: Slot,
    pub digest: Digest,
    pub room: Room,
    /// The line of a slot that has none yet.
    pub line: Line,
}

/// What a commit adds to the lines.
#[derive(Drop)]
pub struct Added {
    pub ticket: Ticket,
    pub additions: Vec<Addition>,
}

/// The version that a lease begins from.
#[derive(Drop)]
struct Base {
    number: u64,
    digest: Digest,
}

/// The lines of the slots that have a version, by rising slot. Contracts see the list of the lines.
pub struct Lines {
    lines: Vec<SlotLine>,
}

// By hand, so that letting go of one is one step of a proof, which no other crate makes again.
impl Drop for Lines {
    fn drop(self) {
        let Self { lines: _ } = self;
    }
}

impl Model for Lines {
    ghost use Rattle.std.specs.Prelude.{List};
    ghost use Rattle.versions.specs.declared.lines.SlotLine.{SlotLine};
    ghost use Rattle.versions.specs.Ordered.{AreLines};

    ghost Value = { List SlotLine };

    ghost view = { λ l. l.lines.items };

    ghost invariant = { λ l. AreLines l.lines.items };
}

impl Lines {
    /// No slot has a version.
    pub fn new(alloc: Global) -> Self
        ensures { result ≡ [] }
    {
        Lines {
            lines: Vec::new(alloc),
        }
    }

    /// The lines of these slots.
    pub fn of(lines: Vec<SlotLine>) -> Self
        requires { AreLines lines.items }
        ensures { result ≡ lines.items }
    {
        Lines { lines }
    }

    /// A copy of the lines as they are with what a commit adds.
    pub fn copy_with(
        &self,
        alloc: Global,
        added: &Option<Added>,
    ) -> Result<Vec<SlotLine>, AllocError>
        requires { IsReady self.now added.now }
        ensures lines { IfOk result (λ v. line_at v.items ≡ lines_with self.now added.now) }
        ensures sound { IfOk result (λ v. AreLines v.items) }
    {
        let mut copy = Lines {
            lines: copy_all(alloc, self.lines.as_slice())?,
        };
        let added = again(alloc, &copy, added)?;
        let room = copy.room_to_add(alloc, &added)?;
        copy.add_to(added, room);
        Ok(copy.into_vec())
    }

    /// The line of the slot, None where it has no version.
    pub fn find(&self, slot: &Slot) -> Option<&Line>
        ensures value { unwrap_or (option_copied result) [] ≡ line_at self.now slot.now }
        ensures filled { IfSome result (λ line. line.now ≢ []) }
    {
        match place_of(self.lines.as_slice(), slot) {
            Ok(place) => Some(&self.lines[place].line),
            Err(_) => None,
        }
    }

    /// Whether the slot's line has a version.
    pub fn has_version(&self, slot: &Slot) -> bool
        ensures { result ≡ not (is_nil (line_at self.now slot.now)) }
    {
        self.find(slot).is_some()
    }

    /// The slots that have a version, rising.
    pub fn slots(&self, alloc: Global) -> Result<Vec<Slot>, AllocError>
        ensures rising { IfOk result (λ v. IsStrictlySortedBy slot_cmp v.items) }
        ensures exact { IfOk result (λ v. (s : _) → list_any (λ x. slot_eq x s) v.items ≡ not (is_nil (line_at self.now s))) }
    {
        let slots = slots_of(alloc, self.lines.as_slice())?;
        Ok(slots)
    }

    /// Room for the lines and what a commit adds, and none where nothing is added, which takes no memory.
    pub fn room_to_add(
        &self,
        alloc: Global,
        added: &Option<Added>,
    ) -> Result<Vec<SlotLine>, AllocError>
        ensures empty { IfOk result (λ room. room.items ≡ []) }
        ensures nothing { IfNone added.now (IsOk result) }
        ensures larger { IfOk result (λ room. room_needed self.now added.now ≤ vec_capacity room) }
    {
        let lines = self.lines.as_slice();
        match added {
            None => Ok(Vec::new(alloc)),
            Some(added) => Vec::with_capacity(alloc, 2 * lines.len() + added.additions.len()),
        }
    }

    /// Adds one version to a slot's line: the only one of the line that is given.
    pub fn push(&mut self, more: SlotLine, version: LineVersion) -> Result<(), AllocError>
        requires one { more.line ≡ version ∷ [] }
        requires above { IsAbove self.old version.ticket more.slot }
        ensures added { OnOk result (line_at self.new ≡ adds more.slot version (line_at self.old)) }
        ensures err { OnErr result (self.new ≡ self.old) }
    {
        push_line(&mut self.lines, more, version)
    }

    /// Gives the lines back, without taking memory.
    pub fn into_vec(self) -> Vec<SlotLine>
        ensures items { result.items ≡ self }
        ensures sound { AreLines result.items }
    {
        let Self { lines } = self;
        lines
    }

    /// Whether a ticket is above all on a slot's line.
    pub fn is_above(&self, ticket: Ticket, slot: &Slot) -> bool
        ensures { result ≡ is_above_all ticket (line_at self.now slot.now) }
    {
        match self.find(slot) {
            None => true,
            Some(line) => line.is_below(ticket),
        }
    }

    /// Adds what a commit adds, if it adds anything, in the room that was made for it.
    pub fn add_to(&mut self, added: Option<Added>, room: Vec<SlotLine>)
        requires empty { room.items ≡ [] }
        requires larger { room_needed self.old added ≤ vec_capacity room }
        requires ready { IsReady self.old added }
        ensures { line_at self.new ≡ lines_with self.old added }
    {
        if let Some(added) = added {
            add_all(&mut self.lines, added, room);
        }
    }
}

/// The place of a slot's line, or the place where it would be inserted.
fn place_of(lines: &[SlotLine], slot: &Slot) -> Result<usize, usize>
    requires { AreLines lines.now }
    ensures { MatchResult result (IsPlace slot.now lines.now) (IsGap slot.now lines.now) }
{
    lines.binary_search_by(|line| compared(line, slot))
}

/// The order of a line's slot and another slot.
fn compared(line: &SlotLine, slot: &Slot) -> Ordering
    ensures { result ≡ slot_cmp line.now.slot slot.now }
{
    line.slot.cmp(slot)
}

fn slots_of(alloc: Global, lines: &[SlotLine]) -> Result<Vec<Slot>, AllocError>
    ensures { IfOk result (λ v. v.items ≡ slots lines.now) }
{
    let mut slots = Vec::with_capacity(alloc, lines.len())?;
    for line in lines {
        slots.push(line.slot.copy(alloc)?)?;
    }
    Ok(slots)
}

/// The digest that a commit adds to a slot's line.
fn added_digest(additions: &[Addition], slot: &Slot) -> Option<Digest>
    ensures { result ≡ digest_for slot.now (map news_of additions.now) }
{
    for addition in additions {
        if addition.slot == *slot {
            return Some(addition.digest);
        }
    }
    None
}

/// How many versions a slot's line has.
fn version_count(lines: &Lines, slot: &Slot) -> u64
    ensures value { result ≡ length (line_at lines.now slot.now) }
    ensures range { result < 2 ^ 63 }
{
    match lines.find(slot) {
        None => 0,
        Some(line) => line.len(),
    }
}

/// The digest of a line's last version; the empty content's where it has none.
pub fn last_digest(alloc: Global, line: &Line) -> Digest
    ensures { result ≡ last_digest empty_digest line.now }
{
    match line.digest_at(line.len()) {
        Some(digest) => digest,
        None => empty_digest(alloc),
    }
}

/// The last version of a slot's line.
fn last_version(alloc: Global, lines: &Lines, slot: &Slot) -> Base
    ensures number { result.number ≡ length (line_at lines.now slot.now) }
    ensures digest { result.digest ≡ last_digest empty_digest (line_at lines.now slot.now) }
    ensures range { result.number < 2 ^ 63 }
{
    match lines.find(slot) {
        None => Base {
            number: 0,
            digest: empty_digest(alloc),
        },
        Some(line) => Base {
            number: line.len(),
            digest: last_digest(alloc, line),
        },
    }
}

/// The version of a slot that a lease begins from.
fn base_of(alloc: Global, lines: &Lines, added: &Option<Added>, slot: &Slot) -> Base
    ensures number { result.number ≡ length (lines_with lines.now added.now slot.now) }
    ensures digest { result.digest ≡ last_digest empty_digest (lines_with lines.now added.now slot.now) }
{
    let base = last_version(alloc, lines, slot);
    let Some(added) = added else {
        return base;
    };
    match added_digest(added.additions.as_slice(), slot) {
        None => base,
        Some(digest) => Base {
            number: base.number + 1,
            digest,
        },
    }
}

/// The slots of a lease, as its holder hears of them.
pub fn granted_slots(
    alloc: Global,
    lines: &Lines,
    added: &Option<Added>,
    slots: &[(Slot, bool)],
) -> Result<Vec<GrantedSlot>, AllocError>
    ensures { IfOk result (λ v. v.items ≡ map (granted_slot empty_digest (lines_with lines.now added.now)) slots.now) }
{
    let mut granted = Vec::with_capacity(alloc, slots.len())?;
    for held in slots {
        let base = base_of(alloc, lines, added, &held.0);
        granted.push(GrantedSlot {
            slot: held.0.copy(alloc)?,
            writable: held.1,
            base: base.number,
            digest: base.digest,
        })?;
    }
    Ok(granted)
}

/// The number and digest of a ticket's version on a slot's line.
fn stands_at(lines: &Lines, ticket: Ticket, slot: &Slot) -> Option<(u64, Digest)>
    ensures { result ≡ place_on_line ticket (line_at lines.now slot.now) 0 }
{
    on_line(lines.find(slot)?, ticket)
}

fn on_line(line: &Line, ticket: Ticket) -> Option<(u64, Digest)>
    ensures { result ≡ place_on_line ticket line.now 0 }
{
    let number = line.number_of(ticket)?;
    let digest = line.digest_at(number)?;
    Some((number, digest))
}

/// The same, with what a commit adds.
fn place_with(
    lines: &Lines,
    added: &Option<Added>,
    ticket: Ticket,
    slot: &Slot,
) -> Option<(u64, Digest)>
    ensures { result ≡ place_on_line ticket (lines_with lines.now added.now slot.now) 0 }
{
    if let Some(found) = stands_at(lines, ticket, slot) {
        return Some(found);
    }
    match added {
        Some(added) => {
            if added.ticket == ticket {
                let digest = added_digest(added.additions.as_slice(), slot)?;
                let number = version_count(lines, slot);
                Some((number + 1, digest))
            } else {
                None
            }
        }
        None => None,
    }
}

/// The versions that a ticket has on the lines of these slots.
pub fn confirmed(
    alloc: Global,
    lines: &Lines,
    added: &Option<Added>,
    ticket: Ticket,
    news: &[News],
) -> Result<Vec<Confirmed>, AllocError>
    ensures { IfOk result (λ v. v.items ≡ versions_of (lines_with lines.now added.now) ticket news.now) }
{
    let mut versions = Vec::with_capacity(alloc, news.len())?;
    for x in news {
        if let Some((number, digest)) = place_with(lines, added, ticket, &x.slot) {
            versions.push(Confirmed {
                slot: x.slot.copy(alloc)?,
                number,
                digest,
            })?;
        }
    }
    Ok(versions)
}

/// Whether the line of each of these slots has the ticket.
pub fn all_stand(lines: &Lines, ticket: Ticket, news: &[News]) -> bool
    ensures { result ≡ on_all (line_at lines.now) ticket news.now }
{
    for x in news {
        if stands_at(lines, ticket, &x.slot).is_none() {
            return false;
        }
    }
    true
}

/// Room for the next version of a slot's line.
fn room_for(alloc: Global, lines: &Lines, slot: &Slot) -> Result<Room, AllocError>
    ensures { IfOk result (λ room. length (line_at lines.now slot.now) < room) }
{
    match lines.find(slot) {
        Some(line) => line.room(alloc),
        None => Line::new(alloc).room(alloc),
    }
}

/// What these news add to the lines, with room for it.
pub fn additions(alloc: Global, lines: &Lines, news: &[News]) -> Result<Vec<Addition>, AllocError>
    ensures news { IfOk result (λ v. map news_of v.items ≡ news.now) }
    ensures room { IfOk result (λ v. All (HasRoom lines.now) v.items) }
{
    let mut additions = Vec::with_capacity(alloc, news.len())?;
    for x in news {
        additions.push(Addition {
            slot: x.slot.copy(alloc)?,
            digest: x.digest,
            room: room_for(alloc, lines, &x.slot)?,
            line: Line::new(alloc),
        })?;
    }
    Ok(additions)
}

/// The news that these additions are of.
fn news_of(alloc: Global, additions: &[Addition]) -> Result<Vec<News>, AllocError>
    ensures { IfOk result (λ v. v.items ≡ map news_of additions.now) }
{
    let mut news = Vec::with_capacity(alloc, additions.len())?;
    for addition in additions {
        news.push(News {
            slot: addition.slot.copy(alloc)?,
            digest: addition.digest,
        })?;
    }
    Ok(news)
}

/// The same additions, with room of their own.
fn again(alloc: Global, lines: &Lines, added: &Option<Added>) -> Result<Option<Added>, AllocError>
    requires { IsReady lines.now added.now }
    ensures same { IfOk result (λ copy. lines_with lines.now copy ≡ lines_with lines.now added.now) }
    ensures ready { IfOk result (IsReady lines.now) }
{
    let Some(added) = added else {
        return Ok(None);
    };
    let news = news_of(alloc, added.additions.as_slice())?;
    let additions = additions(alloc, lines, news.as_slice())?;
    Ok(Some(Added {
        ticket: added.ticket,
        additions,
    }))
}

/// Adds a version to a slot's line.
fn add(lines: &mut Vec<SlotLine>, ticket: Ticket, addition: Addition)
    requires sound { AreLines lines.old.items }
    requires space { vec_len lines.old < vec_capacity lines.old }
    requires room { HasRoom lines.old.items addition }
    requires above { IsAbove lines.old.items ticket addition.slot }
    ensures lines { line_at lines.new.items ≡ adds addition.slot (record { ticket = ticket; digest = addition.digest }) (line_at lines.old.items) }
    ensures sound { AreLines lines.new.items }
    ensures len { vec_len lines.new ≤ vec_len lines.old + 1 }
    ensures capacity { vec_capacity lines.old ≤ vec_capacity lines.new }
{
    match place_of(lines.as_slice(), &addition.slot) {
        Ok(place) => lines[place]
            .line
            .push_into(addition.room, ticket, addition.digest),
        Err(place) => insert_line(lines, place, ticket, addition),
    }
}

/// Adds one version to a slot's line: the only one of the line that is given.
fn push_line(
    lines: &mut Vec<SlotLine>,
    more: SlotLine,
    version: LineVersion,
) -> Result<(), AllocError>
    requires sound { AreLines lines.old.items }
    requires one { more.line ≡ version ∷ [] }
    requires above { IsAbove lines.old.items version.ticket more.slot }
    ensures lines { OnOk result (line_at lines.new.items ≡ adds more.slot version (line_at lines.old.items)) }
    ensures err { OnErr result (lines.new.items ≡ lines.old.items) }
    ensures sound { AreLines lines.new.items }
{
    match place_of(lines.as_slice(), &more.slot) {
        Ok(place) => lines[place].line.push(version.ticket, version.digest)?,
        Err(place) => lines.insert(place, more)?,
    }
    Ok(())
}

/// Adds the line of a slot that has none.
fn insert_line(lines: &mut Vec<SlotLine>, place: usize, ticket: Ticket, addition: Addition)
    requires place { place ≤ vec_len lines.old }
    requires space { vec_len lines.old < vec_capacity lines.old }
    requires room { 0 < addition.room }
    requires line { addition.line ≡ [] }
    ensures line { IsInserted lines.old.items lines.new.items place addition.slot (record { ticket = ticket; digest = addition.digest }) }
    ensures len { vec_len lines.new ≤ vec_len lines.old + 1 }
    ensures capacity { vec_capacity lines.old ≤ vec_capacity lines.new }
{
    let mut line = addition.line;
    line.push_into(addition.room, ticket, addition.digest);
    let slot = addition.slot;
    lines.insert(place, SlotLine { slot, line }).unwrap();
}

/// Moves the lines into this room if they have too little of their own.
fn make_room(lines: &mut Vec<SlotLine>, room: Vec<SlotLine>, more: usize)
    requires empty { room.items ≡ [] }
    requires larger { vec_len lines.old + more ≤ vec_capacity room }
    ensures items { lines.new.items ≡ lines.old.items }
    ensures room { vec_len lines.new + more ≤ vec_capacity lines.new }
{
    if lines.capacity() - lines.len() < more {
        let mut room = room;
        room.append(lines).unwrap();
        *lines = room;
    }
}

/// Adds what a commit adds, in the room that was made for it.
fn add_all(lines: &mut Vec<SlotLine>, added: Added, room: Vec<SlotLine>)
    requires empty { room.items ≡ [] }
    requires larger { vec_len lines.old + vec_len added.additions ≤ vec_capacity room }
    requires sound { AreLines lines.old.items }
    requires ready { AreReady lines.old.items added.ticket added.additions.items }
    ensures sound { AreLines lines.new.items }
    ensures lines { line_at lines.new.items ≡ lines_with lines.old.items (Some added) }
{
    make_room(lines, room, added.additions.len());
    let ticket = added.ticket;
    for addition in added.additions {
        add(lines, ticket, addition);
    }
}
