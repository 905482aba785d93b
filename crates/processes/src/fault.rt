//! Why a process doesn't start, or ends before its input does.
use std::alloc::{AllocError, AllocFailed, Global};
use std::io::{self, ErrorKind};

/// What is at fault.
#[derive(Drop)]
pub enum Cause {
    /// Another process has the lock.
    Locked,
    /// The key is too short.
    KeyTooShort,
    /// The file holds no key of a node.
    BadKey,
    /// The record, or the log behind it, is damaged, or is one of a newer program.
    BadRecord,
    /// The log stands there without the record that it follows.
    LogAlone,
    /// The folder is the one of another node.
    OtherNode(u32),
    /// What the folder says of the node's life is damaged.
    BadLife,
    /// The node's greatest life has begun.
    LivesSpent,
    /// The node's next life could not be kept.
    NotKept,
    /// The file holds no listing.
    BadListing,
    /// The file is longer than a listing may be.
    TooLong,
    /// The file can't be read, made or written.
    File(io::Error),
    /// The record, or the log behind it, can't be read again, or has changed since it was opened.
    NotLoaded,
    /// The standard input can't be read, or the standard output not be written.
    Stream(io::Error),
    OutOfMemory,
}

/// Why a process ends with a status other than 0.
#[derive(Drop)]
pub struct ProcessFault {
    /// The file that it is about.
    pub path: String,
    pub cause: Cause,
}

impl ProcessFault {
    pub(crate) fn of(alloc: Global, path: &str, cause: Cause) -> Self {
        match String::from_str(alloc, path) {
            Ok(path) => ProcessFault { path, cause },
            Err(_) => Self::out_of_memory(alloc),
        }
    }

    pub(crate) fn out_of_memory(alloc: Global) -> Self {
        ProcessFault {
            path: String::new(alloc),
            cause: Cause::OutOfMemory,
        }
    }

    /// A file that can't be used.
    pub(crate) fn of_file(alloc: Global, path: &str, error: io::Error) -> Self {
        match error.kind() {
            ErrorKind::OutOfMemory => Self::out_of_memory(alloc),
            _ => Self::of(alloc, path, Cause::File(error)),
        }
    }

    /// Input that can't be read, or output that can't be written.
    pub(crate) fn of_stream(alloc: Global, error: io::Error) -> Self {
        match error.kind() {
            ErrorKind::OutOfMemory => Self::out_of_memory(alloc),
            _ => Self::of(alloc, "standard input or output", Cause::Stream(error)),
        }
    }

    /// What is said of it: a line with its name, and one that says which file it is about and what to do.
    pub fn text(&self, alloc: Global) -> Result<String, AllocError> {
        let path = self.path.as_str();
        match &self.cause {
            Cause::Locked => format!(in alloc;
                "fault Locked\n{path} is locked: another process has these files. End that one first, or name other files.\n"
            ),
            Cause::KeyTooShort => format!(in alloc;
                "refused KeyTooShort\n{path} has fewer than 32 bytes. `head -c 32 /dev/urandom >{path}` writes the farm's key, for the coordinator; a node has its own, which is made of it.\n"
            ),
            Cause::BadKey => format!(in alloc;
                "refused BadKey\n{path} holds no key of a node: 64 hexadecimal digits, 0 to 9 and a to f. `farm key N` on the coordinator's machine makes that of node N.\n"
            ),
            Cause::BadRecord => format!(in alloc;
                "refused BadRecord\n{path} or {path}.log is damaged, or was written by a newer program. Neither was changed. `farmctl record --explain {path}` says what is wrong.\n"
            ),
            Cause::LogAlone => format!(in alloc;
                "refused LogAlone\n{path} is empty or not there, but {path}.log has what follows a record. Neither was changed. Put the record back; only for a farm that begins anew, remove the log.\n"
            ),
            Cause::OtherNode(owner) => format!(in alloc;
                "refused OtherNode\n{path} is the folder of node {owner}. Name that node, or another folder.\n"
            ),
            Cause::BadLife => format!(in alloc;
                "refused BadLife\n{path}/life is damaged. Nothing was changed. Only where no process of this node runs, write `node N life L` into it, with a life greater than any before.\n"
            ),
            Cause::LivesSpent => format!(in alloc;
                "refused LivesSpent\n{path}: the node's greatest life has begun. Use another node number.\n"
            ),
            Cause::NotKept => format!(in alloc;
                "fault StoreFault\n{path}: the node's next life can't be kept there. See that there is room, and that this user may write it.\n"
            ),
            Cause::BadListing => format!(in alloc;
                "refused BadListing\n{path} holds no listing: a line `PATH ENTRY` for each path, rising, each once. Nothing was merged.\n"
            ),
            Cause::TooLong => format!(in alloc;
                "refused TooLong\n{path} has more than 64 MiB, which no listing may have. Nothing was merged.\n"
            ),
            Cause::File(error) => format!(in alloc;
                "fault FileFault\n{path}: {error}. See that its folder is there, and that this user may read and write it.\n"
            ),
            Cause::NotLoaded => format!(in alloc;
                "fault FileFault\n{path} or {path}.log can't be read any more, or another program changed it. See that this user may read both, and that nothing else writes them.\n"
            ),
            Cause::Stream(error) => format!(in alloc;
                "fault StreamFault\n{path}: {error}. What was answered before it counts.\n"
            ),
            Cause::OutOfMemory => String::from_str(alloc, "out of memory\n"),
        }
    }
}
