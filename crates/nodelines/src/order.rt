//! What a line asks of a node.
use farm_base::{Ask, Content, Digest, FolderName, Items, Left, Slot, Text, Ticket, ToNode, Wants};

/// What a node is asked to do.
#[derive(Drop)]
pub enum Call {
    /// A message for it came.
    Receive(ToNode),
    Ask(Wants),
    Tenure(FolderName),
    Begin(Ticket),
    Finish(Ticket, Items<Left>),
    Abort(Ticket),
    Resend,
    /// A content from anywhere.
    Bring(Content),
    /// The content of this digest isn't needed any more.
    Forget(Digest),
}

/// A slot, and the file that has what an execution left in it.
#[derive(Drop)]
pub struct LeftFile {
    pub slot: Slot,
    pub file: Text,
}

/// What a line asks for.
#[derive(Drop)]
pub enum Order {
    Call(Call),
    /// The execution under the ticket is over, and left what these files have.
    Finish(Ticket, Items<LeftFile>),
    /// This file has a content.
    Blob(Text),
    /// The content of this digest is to be put in this file.
    Content(Digest, Text),
    /// How the ask stands is to be told.
    State(Ask),
}
