//! The texts of names, digests and numbers, as `Display` writes them. `to_text` says the same with a contract.

use super::digest::{Digest, Key};
use super::escape::is_plain;
use super::folder::{Base, FolderName};
use super::name::mode_name;
use super::number::{Ask, Life, NodeId, Ticket};
use super::slot::Slot;
use std::fmt;

impl fmt::Display for NodeId {
    fn fmt<W: fmt::Write>(&self, f: &mut fmt::Formatter<W>) -> fmt::Result {
        write!(f, "{}", self.0)
    }
}

impl fmt::Display for Life {
    fn fmt<W: fmt::Write>(&self, f: &mut fmt::Formatter<W>) -> fmt::Result {
        write!(f, "{}", self.0)
    }
}

impl fmt::Display for Ask {
    fn fmt<W: fmt::Write>(&self, f: &mut fmt::Formatter<W>) -> fmt::Result {
        write!(f, "{}", self.0)
    }
}

impl fmt::Display for Ticket {
    fn fmt<W: fmt::Write>(&self, f: &mut fmt::Formatter<W>) -> fmt::Result {
        write!(f, "{}", self.0)
    }
}

/// Writes the digits of a digest, lower case.
fn write_digits<W: fmt::Write>(digest: &Digest, f: &mut fmt::Formatter<W>) -> fmt::Result {
    for byte in digest.0 {
        write!(f, "{byte:02x}")?;
    }
    Ok(())
}

impl fmt::Display for Digest {
    fn fmt<W: fmt::Write>(&self, f: &mut fmt::Formatter<W>) -> fmt::Result {
        f.write_str("sha256:")?;
        write_digits(self, f)
    }
}

impl fmt::Debug for Digest {
    fn fmt<W: fmt::Write>(&self, f: &mut fmt::Formatter<W>) -> fmt::Result {
        write!(f, "{self}")
    }
}

impl fmt::Display for Key {
    fn fmt<W: fmt::Write>(&self, f: &mut fmt::Formatter<W>) -> fmt::Result {
        write_digits(&self.0, f)
    }
}

/// Writes an id, with what isn't plain as its digits behind `%`.
fn write_id<W: fmt::Write>(id: &str, f: &mut fmt::Formatter<W>) -> fmt::Result {
    for byte in id.bytes() {
        if is_plain(byte) {
            f.write_char(byte as char)?;
        } else {
            write!(f, "%{byte:02X}")?;
        }
    }
    Ok(())
}

impl fmt::Display for Base {
    fn fmt<W: fmt::Write>(&self, f: &mut fmt::Formatter<W>) -> fmt::Result {
        write!(f, "{}.{}", self.key, self.index.get())
    }
}

impl fmt::Display for FolderName {
    fn fmt<W: fmt::Write>(&self, f: &mut fmt::Formatter<W>) -> fmt::Result {
        f.write_str(mode_name(self.mode))?;
        write_id(self.id.as_str(), f)?;
        match &self.base {
            Some(base) => write!(f, "@{base}"),
            None => Ok(()),
        }
    }
}

impl fmt::Display for Slot {
    fn fmt<W: fmt::Write>(&self, f: &mut fmt::Formatter<W>) -> fmt::Result {
        write!(f, "{}", self.folder())?;
        match self.instance() {
            0 => Ok(()),
            instance => write!(f, "#{instance}"),
        }
    }
}
