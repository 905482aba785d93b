//! One coordinator and two nodes over a queue.
ghost use Rattle.std.specs.Prelude.{◌≡◌, IsTrue};
ghost use Rattle.names.specs.declared.limits.TheConstants.{NODES};
ghost use Rattle.protocol.specs.Lawful.{IsSaid, are_for_tenure};

use coordinator::Coordinator;
use farm_base::{
    Content, Copied, Digest, FolderName, FromCoord, Left, Message, Mode, NODES, NodeId, Request,
    Slot, Ticket, ToCoord, ToNode, Version, Want, Wants,
};
use nodecore::{AskState, KeptContents, NodeCore, NodeDone, NodeNote};
use saverecord::MemoryKeeper;
use std::alloc::{AllocError, Global};
use std::collections::VecDeque;

/// The folder that both nodes use, and its slot.
const FOLDER: &str = "locked:apt";

/// Whether a tenure is asked for so.
fn are_for_tenure(wants: &[Want]) -> bool
    ensures { result ≡ are_for_tenure wants.now }
{
    match wants {
        [want] => matches!(want.folder.mode, Mode::Shared) && want.writable,
        _ => false,
    }
}

/// Whether the numbers of a message are in their ranges.
fn is_said(message: &ToCoord) -> bool
    ensures { IsTrue result → IsSaid NODES message.now }
{
    let is_request = match &message.request {
        Request::Acquire { ask, wants, tenure } => {
            let wants = wants.as_slice();
            1 <= ask.0 && (!*tenure || are_for_tenure(wants))
        }
        _ => true,
    };
    1 <= message.node.0 && message.node.0 <= NODES && 1 <= message.life.0 && is_request
}

/// A coordinator, two nodes, and the messages that are under way. What is in a box is let go of in one step, which makes
/// proofs short.
#[derive(Drop)]
struct Farm {
    coordinator: Box<Coordinator<MemoryKeeper>>,
    first: Box<NodeCore>,
    second: Box<NodeCore>,
    queue: VecDeque<Message>,
}

fn start_coordinator(alloc: Global) -> anyhow::Result<Box<Coordinator<MemoryKeeper>>> {
    let keeper = MemoryKeeper::new(alloc, Vec::new(alloc));
    match Coordinator::start(alloc, keeper) {
        Ok(coordinator) => Ok(Box::new(alloc, coordinator)?),
        Err(not_started) => Err(not_started.refusal.into()),
    }
}

fn start_node(alloc: Global, node: NodeId) -> Result<Box<NodeCore>, AllocError> {
    let core = NodeCore::start(alloc, node, 2)?;
    Ok(Box::new(alloc, core)?)
}

impl Farm {
    fn start(alloc: Global) -> anyhow::Result<Farm> {
        Ok(Farm {
            coordinator: start_coordinator(alloc)?,
            first: start_node(alloc, NodeId(1))?,
            second: start_node(alloc, NodeId(2))?,
            queue: VecDeque::new(alloc),
        })
    }

    fn core(&mut self, node: NodeId) -> &mut NodeCore {
        if node == NodeId(1) {
            &mut self.first
        } else {
            &mut self.second
        }
    }

    /// Queues what a node sends, and returns its note.
    fn send(&mut self, done: NodeDone) -> Result<NodeNote, AllocError> {
        for message in done.sends.into_vec() {
            self.queue.push_back(message)?;
        }
        Ok(done.note)
    }

    /// Delivers a message. One whose numbers are out of range is dropped.
    fn deliver(&mut self, alloc: Global, message: &Message) -> anyhow::Result<()> {
        match message {
            Message::ToCoord(message) => {
                if is_said(message) {
                    self.queue.reserve(self.coordinator.most_sends())?;
                    let handled = self.coordinator.handle(alloc, message)?;
                    for message in handled.sends.into_vec() {
                        let message = ToNode::FromCoord(message);
                        self.queue.push_back(Message::ToNode(message))?;
                    }
                }
            }
            Message::ToNode(message) => {
                let core = self.core(message.node());
                let room = core.most_sends(message);
                self.queue.reserve(room)?;
                let done = self.core(message.node()).handle(alloc, message)?;
                let _note = self.send(done)?;
            }
        }
        Ok(())
    }

    /// Delivers what is under way, and what is sent of it, up to 64 messages.
    fn deliver_all(&mut self, alloc: Global) -> anyhow::Result<()> {
        for _ in 0..64 {
            match self.queue.pop_front() {
                Some(message) => self.deliver(alloc, &message)?,
                None => break,
            }
        }
        Ok(())
    }

    /// A node asks for the folder, and gets the ticket of the lease if that is free.
    fn lease(&mut self, alloc: Global, node: NodeId) -> anyhow::Result<Option<Ticket>> {
        let folder = FolderName::parse(alloc, FOLDER)?;
        let wants = Wants::one(alloc, folder, true)?;
        let asked = self.core(node).ask(alloc, wants)?;
        let note = self.send(asked)?;
        let NodeNote::Asked(ask) = &note else {
            return Ok(None);
        };
        self.deliver_all(alloc)?;
        match self.core(node).ask_state(alloc, *ask)? {
            Some(AskState::Granted(grant)) => Ok(Some(grant.ticket)),
            _ => Ok(None),
        }
    }

    /// A build on a node, which leaves these bytes in the folder.
    fn build(&mut self, alloc: Global, node: NodeId, bytes: &[u8]) -> anyhow::Result<()> {
        let Some(ticket) = self.lease(alloc, node)? else {
            return Ok(());
        };
        let begun = self.core(node).begin(alloc, ticket)?;
        let _begun = self.send(begun)?;
        let left = Left {
            slot: Slot::parse(alloc, FOLDER)?,
            content: Content::of(Vec::from_slice(alloc, bytes)?),
        };
        let lefts = vec![in alloc; left]?;
        let finished = self.core(node).finish(alloc, ticket, lefts)?;
        let _finished = self.send(finished)?;
        self.deliver_all(alloc)
    }

    /// The process of the first node starts again, from what it kept.
    fn start_first_again(&mut self, alloc: Global) -> anyhow::Result<()> {
        let last_life = self.first.life();
        let kept = KeptContents {
            contents: kept_contents(alloc, &self.first)?,
            versions: kept_versions(alloc, &self.first)?,
        };
        let (core, done) = NodeCore::resume(alloc, NodeId(1), 2, last_life, kept)?;
        *self.first = core;
        let _life = self.send(done)?;
        self.deliver_all(alloc)
    }

    fn build_three(&mut self, alloc: Global) -> anyhow::Result<u64> {
        self.build(alloc, NodeId(1), b"first")?;
        self.build(alloc, NodeId(2), b"second")?;
        self.start_first_again(alloc)?;
        self.build(alloc, NodeId(1), b"third")?;
        let slot = Slot::parse(alloc, FOLDER)?;
        match self.coordinator.line(&slot) {
            Some(line) => Ok(line.len()),
            None => Ok(0),
        }
    }
}

/// A copy of the contents that a process keeps of its node.
fn kept_contents(alloc: Global, core: &NodeCore) -> Result<Vec<Content>, AllocError> {
    let mut contents = Vec::new(alloc);
    for content in core.kept().contents {
        contents.push(content.copy(alloc)?)?;
    }
    Ok(contents)
}

/// A copy of the versions that a process keeps of its node.
fn kept_versions(alloc: Global, core: &NodeCore) -> Result<Vec<(Version, Digest)>, AllocError> {
    let mut versions = Vec::new(alloc);
    for (version, digest) in core.kept().versions {
        versions.push((version.copy(alloc)?, *digest))?;
    }
    Ok(versions)
}

/// Three builds, one after the other, the last on a node whose process started again; and how many versions of the
/// folder there are then. Each begins from what the one before it left.
pub fn three_builds(alloc: Global) -> anyhow::Result<u64> {
    let mut farm = Farm::start(alloc)?;
    farm.build_three(alloc)
}
