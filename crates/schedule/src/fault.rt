//! What may be wrong with a line.

use super::verb::{Verb, Wanted};

/// How the words of a line are parted otherwise than by one space.
#[derive(Clone, Copy)]
pub enum Spacing {
    /// The line ends with a carriage return.
    CarriageReturn,
    Tab,
    /// A space stands at an end of the line or beside another.
    ExtraSpace,
}

/// Why a word doesn't stand for what was wanted. What it lacks may be lacking in a part of it alone: in the folder
/// behind `ro=`, or in the slot or the digits around the last `=`.
#[derive(Clone, Copy)]
pub enum WordFault {
    NoNode,
    NoMessage,
    NoTicket,
    NoFolder,
    /// A folder, but not a SHARED one.
    NotShared,
    NoSlot,
    /// A PRIVATE folder without its instance.
    NoInstance,
    /// Without a `=` between a slot and its content.
    NoLeft,
    /// Another byte than 0 to 9 and a to f.
    NoDigits,
    /// A byte has two digits, and one is left over.
    OddDigits,
    NoDigest,
    NotKept,
}

/// Why the words behind a verb say no event. They are counted from 0.
#[derive(Clone, Copy)]
pub enum FormFault {
    /// The word at this index is the first that doesn't stand for what is wanted there.
    BadWord(usize, Wanted, WordFault),
    /// No word may stand at this index.
    ExtraWord(usize),
    MissingWord,
    TooManyFolders,
    SameFolderTwice,
    SlotsDontRise,
}

/// Why a line can't be read.
#[derive(Clone, Copy)]
pub enum LineFault {
    NotUtf8,
    Spacing(Spacing),
    /// It's the first line, and not `nodes N`.
    NoSetup,
    /// It begins with no verb.
    NoEvent,
    Form(Verb, FormFault),
}
