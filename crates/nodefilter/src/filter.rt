//! A node as a process that answers lines.
ghost use Rattle.std.specs.Prelude.{◌≡◌, [], true, false, IfOk, Err, is_ok};
ghost use Rattle.std.specs.String.{string_bytes};
ghost use Rattle.services.specs.Served.{answer_text, OrLost};
ghost use Rattle.nodelines.specs.declared.order.Order.TheVariants as order;
ghost use Rattle.nodefilter.specs.Filters.{file_fault, AreLeft, AnyLarge, Makes, Follows, Filters};
ghost use Rattle.nodestore.specs.Stores.{HasContent};
ghost use Rattle.nodestore.specs.declared.store.FileFault.TheVariants as faults;
ghost use Rattle.nodefilter.specs.States.{seen};

use super::asking::asked;
use super::carrying::carry_out;
use farm_base::{Ask, Copied, Digest, Items, Left, NodeId, Text, Ticket};
use farmwire::Keyring;
use nodecore::NodeCore;
use nodelines::{Call, LeftFile, Order, print_carried, print_content, print_state};
use nodestore::{FileFault, Store};
use services::{Answer, Lost, Settled, Step, print_unread};
use std::alloc::{AllocError, Global};

/// What is answered from the moment on that a content of the node can't be kept or forgotten.
const STORE_FAULT: &str = "= refused StoreFault\n";

/// What is answered where a file of the agent's can't be used.
const FILE_FAULT: &str = "= refused FileFault\n";

/// What is answered where a file of the agent's has more bytes than a content may have.
const TOO_LARGE: &str = "= refused TooLarge\n";

/// What is answered where a content isn't stored here.
const NO_CONTENT: &str = "= refused NoSuchContent\n";

/// A node that answers lines: the coordinator's, sealed under its key, those of other nodes, which bring and fetch contents, and its agent's.
pub struct NodeFilter<S: Store> {
    pub core: NodeCore,
    /// The node's number.
    pub me: NodeId,
    pub keys: Keyring,
    pub store: S,
    /// Whether a content of the node could not be kept or forgotten. Then nothing is done any more: the process has to end.
    pub down: bool,
}

// By hand, so that letting go of one is one step of a proof.
impl<S: Store> Drop for NodeFilter<S> {
    fn drop(self) {
        let Self {
            core: _,
            me: _,
            keys: _,
            store: _,
            down: _,
        } = self;
    }
}

/// A line of these words.
fn print_line(alloc: Global, line: &str) -> Result<String, AllocError>
    ensures { IfOk result (λ text. string_bytes text ≡ line.now) }
{
    String::from_str(alloc, line)
}

/// Makes a call.
fn make<S: Store>(
    filter: &mut NodeFilter<S>,
    alloc: Global,
    call: Call,
) -> Result<String, AllocError>
    requires { filter.old.down ≡ false }
    ensures { Makes S.kept S.last_life call (seen filter.old) (seen filter.new) (answer_text result) }
{
    let carried = carry_out(filter, alloc, call)?;
    if filter.down {
        return print_line(alloc, STORE_FAULT);
    }
    print_carried(alloc, &filter.keys, carried)
}

/// The answer where a file can't be used.
fn missed(alloc: Global, fault: FileFault) -> Result<String, AllocError>
    ensures { OrLost (λ text. text ≡ file_fault) (answer_text result) }
{
    match fault {
        FileFault::OutOfMemory => Err(AllocError),
        _ => print_line(alloc, FILE_FAULT),
    }
}

/// What the files have.
fn lefts_in<S: Store>(
    alloc: Global,
    store: &S,
    files: &[LeftFile],
) -> Result<Items<Left>, FileFault>
    ensures lefts { IfOk result (AreLeft (HasContent (S.had store.now)) files.now) }
    ensures large { result ≡ Err faults.TooLarge → AnyLarge (S.had store.now) files.now }
    ensures fails { files.now ≡ [] → is_ok result ≡ true }
{
    let mut lefts = Vec::new(alloc);
    for file in files {
        let content = store.read(alloc, file.file.as_str())?;
        let slot = file.slot.copy(alloc)?;
        lefts.push(Left { slot, content })?;
    }
    Ok(Items::new(lefts))
}

/// `finish`: the files are read, and the execution is over.
fn finish<S: Store>(
    filter: &mut NodeFilter<S>,
    alloc: Global,
    ticket: Ticket,
    files: Items<LeftFile>,
) -> Result<String, AllocError>
    requires { filter.old.down ≡ false }
    ensures { Follows S.kept S.last_life S.had (order.Finish ticket files) (seen filter.old) (seen filter.new) (answer_text result) }
{
    match lefts_in(alloc, &filter.store, files.as_slice()) {
        Ok(lefts) => make(filter, alloc, Call::Finish(ticket, lefts)),
        Err(FileFault::TooLarge) => print_line(alloc, TOO_LARGE),
        Err(fault) => missed(alloc, fault),
    }
}

/// `blob`: the file is read, and the content brought.
fn bring<S: Store>(
    filter: &mut NodeFilter<S>,
    alloc: Global,
    file: Text,
) -> Result<String, AllocError>
    requires { filter.old.down ≡ false }
    ensures { Follows S.kept S.last_life S.had (order.Blob file) (seen filter.old) (seen filter.new) (answer_text result) }
{
    match filter.store.read(alloc, file.as_str()) {
        Ok(content) => make(filter, alloc, Call::Bring(content)),
        Err(FileFault::TooLarge) => print_line(alloc, TOO_LARGE),
        Err(fault) => missed(alloc, fault),
    }
}

/// `content`: a content is put in the file.
fn hand<S: Store>(
    filter: &NodeFilter<S>,
    alloc: Global,
    digest: Digest,
    file: Text,
) -> Result<String, AllocError>
    ensures { Follows S.kept S.last_life S.had (order.Content digest file) (seen filter.now) (seen filter.now) (answer_text result) }
{
    let Some(content) = filter.core.content(&digest) else {
        return print_line(alloc, NO_CONTENT);
    };
    match filter.store.write(file.as_str(), content.bytes()) {
        Ok(()) => print_content(alloc, digest),
        Err(fault) => missed(alloc, fault),
    }
}

/// `state`: how an ask stands.
fn tell<S: Store>(filter: &NodeFilter<S>, alloc: Global, ask: Ask) -> Result<String, AllocError>
    ensures { Follows S.kept S.last_life S.had (order.State ask) (seen filter.now) (seen filter.now) (answer_text result) }
{
    let state = filter.core.ask_state(alloc, ask)?;
    print_state(alloc, ask, &state)
}

impl<S: Store> NodeFilter<S> {
    /// The text that answers a line.
    fn text_of(
        &mut self,
        alloc: Global,
        line: Result<Items<u8>, Lost>,
    ) -> Result<String, AllocError>
        ensures { Filters S.kept S.last_life S.had line (answer_text result) (seen self.old) (seen self.new) }
    {
        if self.down {
            return print_line(alloc, STORE_FAULT);
        }
        match asked(alloc, &self.keys, self.me, line) {
            Ok(Order::Call(call)) => make(self, alloc, call),
            Ok(Order::Finish(ticket, files)) => finish(self, alloc, ticket, files),
            Ok(Order::Blob(file)) => bring(self, alloc, file),
            Ok(Order::Content(digest, file)) => hand(self, alloc, digest, file),
            Ok(Order::State(ask)) => tell(self, alloc, ask),
            Err(why) => print_unread(alloc, why),
        }
    }
}

impl<S: Store> Step for NodeFilter<S> {
    ghost use Rattle.nodefilter.specs.Filters.{Filters, IsSettled};
    ghost use Rattle.nodefilter.specs.States.{seen};

    ghost steps = { λ old line answer new. Filters S.kept S.last_life S.had line answer (seen old) (seen new) };

    ghost settles = { IsSettled };

    fn step(&mut self, alloc: Global, line: Result<Items<u8>, Lost>) -> Answer {
        Answer::of(self.text_of(alloc, line))
    }

    fn settle(&mut self, _alloc: Global) -> Settled {
        Settled::Lasts
    }
}
