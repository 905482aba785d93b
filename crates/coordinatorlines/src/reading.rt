//! The call that a line asks for.
ghost use Rattle.std.specs.Prelude.{◌≡◌, ◌≢◌, ◌<◌, ◌^◌, ◌++◌, decimal, IfOk, IfErr, IfSome, IfNone};
ghost use Rattle.names.specs.declared.limits.TheConstants.{NODES};
ghost use Rattle.names.specs.declared.number.NodeId.{NodeId};
ghost use Rattle.names.specs.declared.number.Ticket.{Ticket};
ghost use Rattle.names.specs.Names.{slot_text, IsSlot};
ghost use Rattle.names.specs.Slots.{SlotParts};
ghost use Rattle.protocol.specs.Lawful.{IsNumber};
ghost use Rattle.coordinatorlines.specs.declared.call.Call.{Call};
ghost use Rattle.coordinatorlines.specs.declared.call.Order.{Order};
ghost use Rattle.coordinatorlines.specs.declared.call.Question.{Question};
ghost use Rattle.coordinatorlines.specs.Calls.{withdraw_line, retire_line, IsOwn, IsQuestion, IsOperators, IsHeard, IsDropped, IsUnread, Orders, AsksFor, AsksNothing};
ghost use Rattle.farmwire.specs.Sealed.{key_in};

use super::call::{Call, Order, Question};
use farm_base::laws::is_slot;
use farm_base::reading::{after, number};
use farm_base::{Items, Message, NODES, NodeId, Slot, SlotRefusal, Ticket};
use farmwire::{Keyring, open};
use services::{Lost, Unread, from_outside, lost_line, unread_of};
use std::alloc::Global;

/// The ticket of `withdraw T`.
fn withdrawn(line: &str) -> Option<Ticket>
    ensures found { IfSome result (λ ticket. line.now ≡ withdraw_line ticket) }
    ensures range { IfSome result (λ ticket. ticket.0 < 2 ^ 64) }
    ensures only { IfNone result ((ticket : Ticket) → ticket.0 < 2 ^ 64 → line.now ≢ withdraw_line ticket) }
{
    Some(Ticket(number(after(line, "withdraw ")?)?))
}

/// The node of a number.
fn node_of(word: &str) -> Option<NodeId>
    ensures found { IfSome result (λ node. word.now ≡ decimal node.0) }
    ensures range { IfSome result (IsNumber NODES) }
    ensures only { IfNone result ((node : NodeId) → IsNumber NODES node → word.now ≢ decimal node.0) }
{
    let value = number(word)?;
    if 1 <= value && value <= NODES as u64 {
        Some(NodeId(value as u32))
    } else {
        None
    }
}

/// The node of `retire N`.
fn retired(line: &str) -> Option<NodeId>
    ensures found { IfSome result (λ node. line.now ≡ retire_line node) }
    ensures range { IfSome result (IsNumber NODES) }
    ensures only { IfNone result ((node : NodeId) → IsNumber NODES node → line.now ≢ retire_line node) }
{
    node_of(after(line, "retire ")?)
}

/// The slot of a word.
fn slot_of(alloc: Global, word: &str) -> Result<Slot, Unread>
    ensures found { IfOk result (λ slot. word.now ≡ slot_text slot) }
    ensures range { IfOk result IsSlot }
    ensures refused { IfErr result (λ why. why ≢ Unread.OutOfMemory → why ≡ Unread.BadLine) }
    ensures only { result ≡ Err Unread.BadLine → (slot : SlotParts) → IsSlot slot → word.now ≢ slot_text slot }
{
    match Slot::parse(alloc, word) {
        Ok(slot) => {
            is_slot(&slot);
            Ok(slot)
        }
        Err(SlotRefusal::BadSlot) => Err(Unread::BadLine),
        Err(SlotRefusal::OutOfMemory) => Err(Unread::OutOfMemory),
    }
}

/// The slot behind the front of a line.
fn slot_behind(alloc: Global, line: &str, front: &str) -> Result<Slot, Unread>
    ensures found { IfOk result (λ slot. line.now ≡ front.now ++ slot_text slot) }
    ensures range { IfOk result IsSlot }
    ensures refused { IfErr result (λ why. why ≢ Unread.OutOfMemory → why ≡ Unread.BadLine) }
    ensures only { result ≡ Err Unread.BadLine → (slot : SlotParts) → IsSlot slot → line.now ≢ front.now ++ slot_text slot }
{
    match after(line, front) {
        Some(slot) => slot_of(alloc, slot),
        None => Err(Unread::BadLine),
    }
}

/// The call of the operator's line.
fn own_call(alloc: Global, line: &str) -> Result<Call, Unread>
    ensures found { IfOk result (IsOwn line.now) }
    ensures refused { IfErr result (λ why. why ≢ Unread.OutOfMemory → why ≡ Unread.BadLine) }
    ensures only { result ≡ Err Unread.BadLine → (call : Call) → IsOwn line.now call → ⊥ }
{
    if let Some(ticket) = withdrawn(line) {
        return Ok(Call::Withdraw(ticket));
    }
    if let Some(node) = retired(line) {
        return Ok(Call::Retire(node));
    }
    if line == "nudge" {
        return Ok(Call::Nudge);
    }
    Ok(Call::Prune(slot_behind(alloc, line, "prune ")?))
}

/// What the operator's line asks to be shown.
fn own_question(alloc: Global, line: &str) -> Result<Question, Unread>
    ensures found { IfOk result (IsQuestion line.now) }
    ensures refused { IfErr result (λ why. why ≢ Unread.OutOfMemory → why ≡ Unread.BadLine) }
    ensures only { result ≡ Err Unread.BadLine → (question : Question) → IsQuestion line.now question → ⊥ }
{
    if line == "status" {
        return Ok(Question::Status);
    }
    if line == "needed" {
        return Ok(Question::Needed);
    }
    Ok(Question::Line(slot_behind(alloc, line, "line ")?))
}

/// What the operator's line asks for.
fn own_order(alloc: Global, line: &str) -> Result<Order, Unread>
    ensures found { IfOk result (IsOperators line.now) }
    ensures refused { IfErr result (λ why. why ≢ Unread.OutOfMemory → why ≡ Unread.BadLine) }
    ensures only { result ≡ Err Unread.BadLine → (asked : Order) → IsOperators line.now asked → ⊥ }
{
    match own_call(alloc, line) {
        Ok(call) => Ok(Order::Call(call)),
        Err(Unread::BadLine) => Ok(Order::Show(own_question(alloc, line)?)),
        Err(_) => Err(Unread::OutOfMemory),
    }
}

/// The call that a sealed line asks for.
fn heard_call(alloc: Global, keys: &Keyring, sealed: &[u8]) -> Result<Call, Unread>
    ensures heard { IfOk result (IsHeard (key_in keys.now) sealed.now) }
    ensures dropped { IfErr result (IsDropped (key_in keys.now) sealed.now) }
{
    match open(alloc, keys, sealed) {
        Ok(Message::ToCoord(message)) => Ok(Call::Handle(message)),
        Ok(Message::ToNode(_)) => Err(Unread::NotMine),
        Err(fault) => Err(unread_of(fault)),
    }
}

/// What a line asks for.
fn order_of(alloc: Global, keys: &Keyring, line: &[u8]) -> Result<Order, Unread>
    ensures asked { IfOk result (Orders (key_in keys.now) line.now) }
    ensures unread { IfErr result (IsUnread (key_in keys.now) line.now) }
{
    if let Some(sealed) = from_outside(line) {
        return Ok(Order::Call(heard_call(alloc, keys, sealed)?));
    }
    match str::from_utf8(line) {
        Ok(line) => own_order(alloc, line),
        Err(_) => Err(Unread::BadLine),
    }
}

/// What is asked for by what is handed on.
pub fn asked(alloc: Global, keys: &Keyring, line: Result<Items<u8>, Lost>) -> Result<Order, Unread>
    ensures asked { IfOk result (AsksFor (key_in keys.now) line) }
    ensures nothing { IfErr result (AsksNothing (key_in keys.now) line) }
{
    match line {
        Ok(line) => order_of(alloc, keys, line.as_slice()),
        Err(lost) => Err(lost_line(lost)),
    }
}
