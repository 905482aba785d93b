//! Lines that aren't carried out.
ghost use Rattle.std.specs.Prelude.{◌≡◌, IfOk};
ghost use Rattle.std.specs.String.{string_bytes};
ghost use Rattle.services.specs.Unreads.{unread_of, lost_line, unread_line};

use super::lost::Lost;
use farmwire::LineFault;
use std::alloc::{AllocError, Global};

/// Why a line isn't carried out.
#[derive(Clone, Copy)]
pub enum Unread {
    TooLong,
    /// What stands behind `m ` is no text with its MAC.
    BadMac,
    /// The text behind `m ` spells no message.
    BadForm,
    /// The message is for another process.
    NotMine,
    /// It has no `m ` at its front, and isn't the owner's.
    BadLine,
    OutOfMemory,
}

/// Why what isn't opened isn't carried out.
pub fn unread_of(fault: LineFault) -> Unread
    ensures { result ≡ unread_of fault }
{
    match fault {
        LineFault::TooLong => Unread::TooLong,
        LineFault::BadMac => Unread::BadMac,
        LineFault::BadForm => Unread::BadForm,
        LineFault::OutOfMemory => Unread::OutOfMemory,
    }
}

/// Why a line that wasn't kept isn't carried out.
pub fn lost_line(lost: Lost) -> Unread
    ensures { result ≡ lost_line lost }
{
    match lost {
        Lost::TooLong => Unread::TooLong,
        Lost::OutOfMemory => Unread::OutOfMemory,
    }
}

/// The line of what isn't carried out.
pub fn unread_line(why: Unread) -> &'static str
    ensures { result.now ≡ unread_line why }
{
    match why {
        Unread::TooLong => "= dropped TooLong\n",
        Unread::BadMac => "= dropped BadMac\n",
        Unread::BadForm => "= dropped BadForm\n",
        Unread::NotMine => "= dropped NotMine\n",
        Unread::BadLine => "= refused BadLine\n",
        Unread::OutOfMemory => "= refused OutOfMemory\n",
    }
}

/// The text of what isn't carried out.
pub fn print_unread(alloc: Global, why: Unread) -> Result<String, AllocError>
    ensures { IfOk result (λ text. string_bytes text ≡ unread_line why) }
{
    let mut text = String::new(alloc);
    text.push_str(unread_line(why))?;
    Ok(text)
}
