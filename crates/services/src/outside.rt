//! What goes between a process and others, each line with `m ` at its front.
ghost use Rattle.std.specs.Prelude.{◌≡◌, ◌≢◌, ℕ, List, IfOk, OnOk, IfSome, IfNone};
ghost use Rattle.std.specs.String.{string_bytes};
ghost use Rattle.farmwire.specs.Sealed.{IsSealed, key_in};
ghost use Rattle.services.specs.Outside.{from_outside, HasNoLine, Adds, Sends};

use farm_base::Message;
use farmwire::{Keyring, SealRefusal, seal};
use std::alloc::{AllocError, Global};

/// What stands behind `m ` at the front of a line.
pub fn from_outside(line: &[u8]) -> Option<&[u8]>
    ensures found { IfSome result (λ sealed. line.now ≡ from_outside sealed.now) }
    ensures only { IfNone result ((sealed : List ℕ) → line.now ≢ from_outside sealed) }
{
    match line {
        [b'm', b' ', sealed @ ..] => Some(sealed),
        _ => None,
    }
}

/// The sealed line of a message, if it has one.
pub fn line_of(
    alloc: Global,
    keys: &Keyring,
    message: &Message,
) -> Result<Option<String>, AllocError>
    ensures sealed { IfOk result (λ found. IfSome found (λ line. IsSealed (key_in keys.now) (string_bytes line) message.now)) }
    ensures none { IfOk result (λ found. IfNone found (HasNoLine (key_in keys.now) message.now)) }
{
    match seal(alloc, keys, message) {
        Ok(line) => Ok(Some(line)),
        Err(SealRefusal::OutOfMemory) => Err(AllocError),
        Err(SealRefusal::Unlawful) => Ok(None),
        Err(SealRefusal::NoKey) => Ok(None),
        Err(SealRefusal::TooLong) => Ok(None),
    }
}

/// Adds `m ` and the sealed line of a message. Of one that has none, nothing is added.
pub fn push_message(
    alloc: Global,
    keys: &Keyring,
    text: &mut String,
    message: &Message,
) -> Result<(), AllocError>
    ensures { OnOk result (Adds (key_in keys.now) message.now (string_bytes text.old) (string_bytes text.new)) }
{
    let Some(line) = line_of(alloc, keys, message)? else {
        return Ok(());
    };
    text.push_str("m ")?;
    text.push_str(line.as_str())?;
    text.push_str("\n")
}

/// Adds these messages, in order.
pub fn push_messages(
    alloc: Global,
    keys: &Keyring,
    text: &mut String,
    messages: &[Message],
) -> Result<(), AllocError>
    ensures { OnOk result (Sends (key_in keys.now) messages.now (string_bytes text.old) (string_bytes text.new)) }
{
    for message in messages {
        push_message(alloc, keys, text, message)?;
    }
    Ok(())
}
