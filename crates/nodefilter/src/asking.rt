//! What a line asks of a node, its agent's or one from outside.
ghost use Rattle.std.specs.Prelude.{IfOk, IfErr, IfSome, IfNone};
ghost use Rattle.nodefilter.specs.Asked.{IsFor, IsForOthers, IsHeard, IsDropped, Orders, IsUnread, AsksFor, AsksNothing};
ghost use Rattle.farmwire.specs.Sealed.{key_in};

use farm_base::{Items, Message, NodeId};
use farmwire::{Keyring, ReadRefusal, open};
use nodelines::{Call, Order, own_order};
use services::{Lost, Unread, from_outside, lost_line, unread_of};
use std::alloc::Global;

/// The call of a message, where it is for this node.
fn mine(me: NodeId, message: Message) -> Option<Order>
    ensures mine { IfSome result (IsFor me message) }
    ensures others { IfNone result (IsForOthers me message) }
{
    match message {
        Message::ToCoord(_) => None,
        Message::ToNode(message) => {
            if message.node() == me {
                Some(Order::Call(Call::Receive(message)))
            } else {
                None
            }
        }
    }
}

/// The call that a sealed line asks for.
fn heard_order(alloc: Global, keys: &Keyring, me: NodeId, sealed: &[u8]) -> Result<Order, Unread>
    ensures heard { IfOk result (IsHeard (key_in keys.now) me sealed.now) }
    ensures dropped { IfErr result (IsDropped (key_in keys.now) me sealed.now) }
{
    match open(alloc, keys, sealed) {
        Ok(message) => mine(me, message).ok_or(Unread::NotMine),
        Err(fault) => Err(unread_of(fault)),
    }
}

/// What a line asks for.
fn order_of(alloc: Global, keys: &Keyring, me: NodeId, line: &[u8]) -> Result<Order, Unread>
    ensures asked { IfOk result (Orders (key_in keys.now) me line.now) }
    ensures unread { IfErr result (IsUnread (key_in keys.now) me line.now) }
{
    if let Some(sealed) = from_outside(line) {
        return heard_order(alloc, keys, me, sealed);
    }
    let Ok(line) = str::from_utf8(line) else {
        return Err(Unread::BadLine);
    };
    match own_order(alloc, line) {
        Ok(order) => Ok(order),
        Err(ReadRefusal::BadForm) => Err(Unread::BadLine),
        Err(ReadRefusal::OutOfMemory) => Err(Unread::OutOfMemory),
    }
}

/// What is asked for by what is handed on.
pub(crate) fn asked(
    alloc: Global,
    keys: &Keyring,
    me: NodeId,
    line: Result<Items<u8>, Lost>,
) -> Result<Order, Unread>
    ensures asked { IfOk result (AsksFor (key_in keys.now) me line) }
    ensures nothing { IfErr result (AsksNothing (key_in keys.now) me line) }
{
    match line {
        Ok(line) => order_of(alloc, keys, me, line.as_slice()),
        Err(lost) => Err(lost_line(lost)),
    }
}
