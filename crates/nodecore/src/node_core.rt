ghost use Rattle.std.specs.Prelude.{◌≡◌, ◌∷◌, [], ◌<◌, ◌+◌, ◌^◌, ◌⊎◌, true, false, ◌↔◌, ℕ, OnOk, OnErr, slice_get, Some, IfOk, IfSome, vec_len, option_map, option_copied};
ghost use Rattle.protocol.specs.Lists.{nth};
ghost use Rattle.protocol.specs.Machine.{Said};
ghost use Rattle.protocol.specs.World.{first_node};
ghost use Rattle.protocol.specs.Nodes.{HeldGrant, first, held, aborted, all_stored, asked, asked_tenure, becomes, begun, gives_up, may_restart, opens, restarted};
ghost use Rattle.names.specs.Contents.{content_digest};
ghost use Rattle.protocol.specs.Farm.{farm_limits};
ghost use Rattle.events.specs.declared.ask.KeptAsk.{KeptAsk};
ghost use Rattle.nodeasks.specs.declared.ask_row.AskRow.{AskRow};
ghost use Rattle.nodeasks.specs.Asks.{told_unless};
ghost use Rattle.nodeasks.specs.Rows.{has_row, none_lost};
ghost use Rattle.nodecontents.specs.Stored.{kept_node, HaveOneDigestEach};
ghost use Rattle.nodeasks.specs.Tickets.{AreIndexed};

use super::message::NodeDone;
use events::{How, KeptAsk, NodeNote, NodeRefusal};
use farm_base::{
    Ask, Content, Copied, Digest, FolderName, GREATEST, GrantedSlot, Items, Life, Message, Mode,
    NodeId, Request, Ticket, ToCoord, Version, Want, Wants,
};
use indexmap::IndexMap;
use nodeasks::{
    AskChange, AskState, AskTable, Sought, TicketIndex, at_home, has_tenure, in_use, row_of, slots,
    told,
};
use nodecontents::{KeptContents, ResumeRefusal, StoredContents, ToKeep, known_from};
use std::alloc::{AllocError, Global};

/// One message to the coordinator.
fn one_message(
    alloc: Global,
    node: NodeId,
    life: Life,
    request: Request,
) -> Result<Items<Message>, AllocError>
    ensures { IfOk result (λ sends. sends ≡ Said (record { node = node; life = life; request = request }) ∷ []) }
{
    let mut sends = Vec::new(alloc);
    sends.push(Message::ToCoord(ToCoord {
        node,
        life,
        request,
    }))?;
    Ok(Items::new(sends))
}

/// A node of the farm: what it keeps in its present life.
pub struct NodeCore {
    pub(crate) node: NodeId,
    /// How many nodes the farm has.
    pub(crate) nodes: u32,
    pub(crate) life: Life,
    pub(crate) asks: AskTable,
    /// Which of them have their lease under a ticket.
    pub(crate) by_ticket: TicketIndex,
    pub(crate) contents: StoredContents,
    pub(crate) versions: IndexMap<Version, Digest>,
    /// Whether it is down for good.
    pub(crate) spent: bool,
    ghost indexed: { AreIndexed by_ticket asks.all.asks },
}

// By hand, so that letting go of one is one step of a proof.
impl Drop for NodeCore {
    fn drop(self) {
        let Self {
            node: _,
            nodes: _,
            life: _,
            asks: _,
            by_ticket: _,
            contents: _,
            versions: _,
            spent: _,
        } = self;
    }
}

impl NodeCore {
    ghost use Rattle.nodecore.specs.Shown.{content_of, forgets, shown, place, work_of, Does, Answers, HasBases};

    /// A node in its first life, which sends nothing. `node` is its number, from 1 to `nodes`, the greatest number that
    /// the farm will have: a Fetch goes to each other one. **It may be called once for a node number, ever**, as long as
    /// the coordinator's record lives, or the messages of one life would be of two processes; a process that starts
    /// again calls `resume`. Fails only where memory runs out.
    pub fn start(alloc: Global, node: NodeId, nodes: u32) -> Result<Self, AllocError>
        ensures node { IfOk result (λ core. shown core ≡ first_node content_digest) }
        ensures place { IfOk result (λ core. place core ≡ record { node = node; nodes = nodes }) }
        ensures told { IfOk result (λ core. forgets core ≡ none_lost) }
    {
        let contents = StoredContents::new(alloc)?;
        Ok(NodeCore {
            node,
            nodes,
            life: Life(1),
            asks: AskTable::new(alloc),
            by_ticket: TicketIndex::new(alloc),
            contents,
            versions: IndexMap::new(alloc),
            spent: false,
        })
    }

    /// The node of a process that starts again, in the life after the last one that the process had: its asks are
    /// over, and it has the contents and versions that were kept. `last_life` is 0 where the number had no life. The
    /// executions of the last life have to be over. The new life has to be on the disk before the Hello is sent, or a
    /// third process would have it too.
    ///
    /// Errors: `LivesSpent`, where the last life is the greatest; `TwoDigests`, where a version is kept with two
    /// digests, so what was kept isn't what a node knew; `OutOfMemory`. No node is made then, and no life begun.
    pub fn resume(
        alloc: Global,
        node: NodeId,
        nodes: u32,
        last_life: Life,
        kept: KeptContents,
    ) -> Result<(Self, NodeDone), ResumeRefusal>
        // What a restart makes of the node that kept this.
        ensures done { IfOk result (λ resumed. restarted (record { node = node; nodes = nodes }) (kept_node last_life kept.contents.items kept.versions.items) ≡ work_of (shown resumed.0) resumed.1) }
        ensures place { IfOk result (λ resumed. place resumed.0 ≡ record { node = node; nodes = nodes }) }
        ensures told { IfOk result (λ resumed. forgets resumed.0 ≡ none_lost) }
        ensures digests { OnOk result (HaveOneDigestEach kept.versions.items) }

        ensures spent { (result ≡ Err ResumeRefusal.LivesSpent) ↔ (may_restart farm_limits (kept_node last_life kept.contents.items kept.versions.items) ≡ false) }
        ensures two_digests { result ≡ Err ResumeRefusal.TwoDigests → ¬ HaveOneDigestEach kept.versions.items }
    {
        if last_life.0 == GREATEST {
            return Err(ResumeRefusal::LivesSpent);
        }
        let KeptContents { contents, versions } = kept;
        let versions = match known_from(alloc, versions) {
            Ok(versions) => versions,
            Err(refusal) => return Err(refusal),
        };
        let Ok(contents) = StoredContents::with(alloc, contents) else {
            return Err(ResumeRefusal::OutOfMemory);
        };
        let life = Life(last_life.0 + 1);
        let Ok(sends) = one_message(alloc, node, life, Request::Hello) else {
            return Err(ResumeRefusal::OutOfMemory);
        };
        let core = NodeCore {
            node,
            nodes,
            life,
            asks: AskTable::new(alloc),
            by_ticket: TicketIndex::new(alloc),
            contents,
            versions,
            spent: false,
        };
        let done = NodeDone {
            note: NodeNote::Life(life),
            sends,
        };
        Ok((core, done))
    }

    /// What a process has to keep of the node for `resume`, lent without a copy: the present life, and the contents
    /// that are stored and the versions that are known. To resume from it is to restart the node in place.
    pub fn kept(&self) -> ToKeep<'_>
        ensures life { result.life ≡ (shown self.now).life }
        ensures node { kept_node result.life result.contents result.versions ≡ record (shown self.now) { asks = []; spent = false } }
        ensures digests { HaveOneDigestEach result.versions }
        ensures restart { (shown self.now).spent ≡ false → (at : _) → restarted at (kept_node result.life result.contents result.versions) ≡ restarted at (shown self.now) }
    {
        ToKeep {
            life: self.life,
            contents: self.contents.values(),
            versions: self.versions.iter(),
        }
    }

    /// The present life, counted from 1.
    pub fn life(&self) -> Life
        ensures { result ≡ (shown self.now).life }
    {
        self.life
    }

    /// The content of a version, where the version is known and its content is stored here. `content` finds that of a
    /// granted slot by its digest.
    pub fn held(&self, version: &Version) -> Option<&Content>
        ensures { option_copied result ≡ content_of (shown self.now) version.now }
    {
        let digest = self.versions.get(version)?;
        self.contents.get(digest)
    }

    /// The content that is stored under a digest, as that of a granted slot's base.
    pub fn content(&self, digest: &Digest) -> Option<&Content>
        ensures value { option_copied result ≡ (shown self.now).store digest.now }
        ensures digest { IfSome result (λ content. content_digest content.now ≡ digest.now) }
    {
        self.contents.get(digest)
    }

    /// How an ask of this life stands. How one ended is told as long as it is kept, so of each ask where `forget_endings`
    /// isn't called.
    pub fn ask_state(&self, alloc: Global, ask: Ask) -> Result<Option<AskState>, AllocError>
        ensures { IfOk result (λ state. state ≡ option_map (told_unless (forgets self.now ask.0)) (nth (shown self.now).asks ask.0)) }
    {
        let Some(row) = self.asks.row_of_ask(ask) else {
            return Ok(self.lost_state(ask));
        };
        Ok(Some(told(&self.asks.rows[row].kept, alloc)?))
    }

    /// How an ask stands that has no row.
    fn lost_state(&self, ask: Ask) -> Option<AskState>
        requires { has_row self.now.asks.rows.items ask.0 ≡ false }
        ensures { result ≡ option_map (told_unless (forgets self.now ask.0)) (nth (shown self.now).asks ask.0) }
    {
        if self.asks.has_made(ask) {
            Some(AskState::Forgotten)
        } else {
            None
        }
    }
}

impl NodeCore {
    ghost use Rattle.nodecore.specs.Shown.{content_of, forgets, shown, place, work_of, Does, Answers, HasBases};

    /// One message to the coordinator.
    pub(crate) fn say(&self, alloc: Global, request: Request) -> Result<Items<Message>, AllocError>
        ensures { IfOk result (λ sends. sends ≡ Said (record { node = self.now.node; life = self.now.life; request = request }) ∷ []) }
    {
        one_message(alloc, self.node, self.life, request)
    }

    /// Opens an ask.
    fn open(&mut self, alloc: Global, wants: Wants, tenure: bool) -> Result<NodeDone, AllocError>
        requires { self.old.asks.made + 1 < 2 ^ 64 }
        ensures work { Does (opens (place self.old) wants tenure (shown self.old)) (shown self.old) (shown self.new) result }
        ensures place { place self.new ≡ place self.old }
        ensures told { forgets self.new ≡ forgets self.old }
    {
        let ask = Ask(self.asks.made as u64 + 1);
        let request = Request::Acquire {
            ask,
            wants: wants.copy(alloc)?,
            tenure,
        };
        let sends = self.say(alloc, request)?;
        self.asks.push(KeptAsk::Open { wants, tenure })?;
        Ok(NodeDone {
            note: NodeNote::Asked(ask),
            sends,
        })
    }

    /// Asks for a lease.
    pub fn ask(&mut self, alloc: Global, wants: Wants) -> Result<NodeDone, NodeRefusal>
        ensures answer { Answers (asked farm_limits (place self.old) wants (shown self.old)) (shown self.old) (shown self.new) result }
        ensures place { place self.new ≡ place self.old }
        ensures told { forgets self.new ≡ forgets self.old }
    {
        if self.spent {
            return Err(NodeRefusal::LivesSpent);
        }
        if !at_home(&self.asks, wants.as_slice()) {
            return Err(NodeRefusal::NotHomeHere);
        }
        if self.asks.made as u64 == GREATEST {
            return Err(NodeRefusal::AsksSpent);
        }
        let Ok(done) = self.open(alloc, wants, false) else {
            return Err(NodeRefusal::OutOfMemory);
        };
        Ok(done)
    }

    /// Asks for the tenure of the SHARED folder of this name.
    pub fn ask_tenure(&mut self, alloc: Global, folder: FolderName) -> Result<NodeDone, NodeRefusal>
        ensures answer { Answers (asked_tenure farm_limits (place self.old) folder (shown self.old)) (shown self.old) (shown self.new) result }
        ensures place { place self.new ≡ place self.old }
        ensures told { forgets self.new ≡ forgets self.old }
    {
        if self.spent {
            return Err(NodeRefusal::LivesSpent);
        }
        let mut folder = folder;
        folder.mode = Mode::Shared;
        if has_tenure(&self.asks, &folder) {
            return Err(NodeRefusal::TenureHere);
        }
        if self.asks.made as u64 == GREATEST {
            return Err(NodeRefusal::AsksSpent);
        }
        let Ok(wants) = Wants::one(alloc, folder, true) else {
            return Err(NodeRefusal::OutOfMemory);
        };
        let Ok(done) = self.open(alloc, wants, true) else {
            return Err(NodeRefusal::OutOfMemory);
        };
        Ok(done)
    }

    /// Whether all bases are stored.
    pub(crate) fn has_all(&self, slots: &[GrantedSlot]) -> bool
        ensures { result ≡ all_stored (shown self.now) slots.now }
    {
        slots.iter().all(|slot| self.contents.has(&slot.digest))
    }

    /// Begins the execution of a granted ask. The content of each base is stored then: `content` lends it by the digest
    /// that the grant has, and so does `held`, where the version is known by that digest.
    ///
    /// Errors, the first that applies: `LivesSpent`; `NoSuchTicket`, where no ask is granted under the ticket and not
    /// begun; `ContentsMissing`, until the Blobs of the bases have come.
    pub fn begin(&mut self, alloc: Global, ticket: Ticket) -> Result<NodeDone, NodeRefusal>
        ensures answer { Answers (begun ticket (shown self.old)) (shown self.old) (shown self.new) result }
        ensures bases { (at : ℕ) (h : HeldGrant) → first (held ticket) (shown self.old).asks 0 ≡ Some (at, h) → OnOk result (HasBases (shown self.new) h.grant.slots) }
        ensures place { place self.new ≡ place self.old }
        ensures told { forgets self.new ≡ forgets self.old }
    {
        if self.spent {
            return Err(NodeRefusal::LivesSpent);
        }
        let Some(row) = row_of(&self.asks, &self.by_ticket, Sought::Held, ticket) else {
            return Err(NodeRefusal::NoSuchTicket);
        };
        if !self.has_all(slots(&self.asks.rows[row].kept)) {
            return Err(NodeRefusal::ContentsMissing);
        }
        self.asks.change(row, AskChange::Begin);
        Ok(NodeDone {
            note: NodeNote::Begun(ticket),
            sends: Items::new(Vec::new(alloc)),
        })
    }

    /// Ends an execution without its news, or gives a lease back unused.
    pub fn abort(&mut self, alloc: Global, ticket: Ticket) -> Result<NodeDone, NodeRefusal>
        ensures answer { Answers (aborted (place self.old) ticket (shown self.old)) (shown self.old) (shown self.new) result }
        ensures place { place self.new ≡ place self.old }
        ensures told { forgets self.new ≡ forgets self.old }
    {
        if self.spent {
            return Err(NodeRefusal::LivesSpent);
        }
        let Some(row) = row_of(&self.asks, &self.by_ticket, Sought::HeldOrRunning, ticket) else {
            return Err(NodeRefusal::NoSuchTicket);
        };
        if in_use(&self.asks, row) {
            return Err(NodeRefusal::TenureInUse);
        }
        let Ok(done) = self.give_up(alloc, row, ticket, NodeNote::Aborted(ticket)) else {
            return Err(NodeRefusal::OutOfMemory);
        };
        Ok(done)
    }

    /// Gives a lease back.
    pub(crate) fn give_up(
        &mut self,
        alloc: Global,
        row: usize,
        ticket: Ticket,
        note: NodeNote,
    ) -> Result<NodeDone, AllocError>
        requires { row < vec_len self.old.asks.rows }
        ensures work { (at : AskRow) → slice_get self.old.asks.rows.items row ≡ Some at
            → Does (gives_up (place self.old) (at.place + 1) ticket note (shown self.old)) (shown self.old) (shown self.new) result }
        ensures place { place self.new ≡ place self.old }
        ensures told { forgets self.new ≡ forgets self.old }
    {
        let sends = self.say(alloc, Request::Release { ticket })?;
        self.end(row, ticket, How::Released(ticket));
        Ok(NodeDone { note, sends })
    }

    /// The ask of a row is over, and its lease under the ticket.
    pub(crate) fn end(&mut self, row: usize, ticket: Ticket, how: How)
        requires { row < vec_len self.old.asks.rows }
        ensures shown { (at : AskRow) → slice_get self.old.asks.rows.items row ≡ Some at → shown self.new ≡ becomes (at.place + 1) (KeptAsk.Over how) (shown self.old) }
        ensures place { place self.new ≡ place self.old }
        ensures told { forgets self.new ≡ forgets self.old }
    {
        let place = self.asks.rows[row].place;
        self.asks.change(row, AskChange::End(how));
        self.by_ticket.release(ticket, place);
    }

    /// Begins the next life: its asks are over, its contents and versions stay. The executions of the present life have
    /// to be over, and the new life has to be on the disk before its Hello is sent.
    ///
    /// Errors: `LivesSpent`, where there is no greater life: the node is then down for good; `OutOfMemory`.
    pub fn restart(&mut self, alloc: Global) -> Result<NodeDone, NodeRefusal>
        ensures done { IfOk result (λ done. (may_restart farm_limits (shown self.old) ≡ true) × (restarted (place self.old) (shown self.old) ≡ work_of (shown self.new) done)) }
        ensures spent { result ≡ Err NodeRefusal.LivesSpent
            → (may_restart farm_limits (shown self.old) ≡ false) × (shown self.new ≡ record (shown self.old) { spent = true }) }
        ensures memory { result ≡ Err NodeRefusal.OutOfMemory → shown self.new ≡ shown self.old }
        ensures only { OnErr result ((result ≡ Err NodeRefusal.LivesSpent) ⊎ (result ≡ Err NodeRefusal.OutOfMemory)) }
        ensures place { place self.new ≡ place self.old }
        ensures told { OnOk result (forgets self.new ≡ none_lost) }
        ensures kept { OnErr result (forgets self.new ≡ forgets self.old) }
    {
        if self.spent || self.life.0 == GREATEST {
            self.spent = true;
            return Err(NodeRefusal::LivesSpent);
        }
        let life = Life(self.life.0 + 1);
        let Ok(sends) = one_message(alloc, self.node, life, Request::Hello) else {
            return Err(NodeRefusal::OutOfMemory);
        };
        self.life = life;
        self.asks = AskTable::new(alloc);
        self.by_ticket.clear();
        Ok(NodeDone {
            note: NodeNote::Life(life),
            sends,
        })
    }
}
