//! Slots in a record.
ghost use Rattle.std.specs.Prelude.{◌≡◌, ◌<◌, ◌^◌, ◌++◌, length, IsTrue, option_copied, OnOk};
ghost use Rattle.names.specs.Slots.{IsInstance};
ghost use Rattle.recordparts.specs.Parts.{Gives};
ghost use Rattle.recordparts.specs.Slots.{mode_at, output_at, base_at, has_instance, slot_at, is_slot_above, slot_after};
ghost use Rattle.recordparts.specs.Fits.{IsTypedSlot};
ghost use Rattle.recordparts.specs.Spelling.{mode_bytes, id_bytes, base_bytes, slot_bytes};

use super::layout::Layout;
use super::part::{take_digest, take_flag, take_id, take_u32, take_u64};
use super::refusal::{Flaw, RecordRefusal};
use names::laws::is_slot;
use names::{Base, FolderName, INSTANCES, Index, Key, Mode, Slot};
use std::alloc::{AllocError, Global};

#[tactic(auto, unfolding(crate::specs::Slots::mode_at))]
fn take_mode(layout: Layout, bytes: &[u8]) -> Result<(Mode, &[u8]), RecordRefusal>
    ensures { Gives (λ x. (x.0, x.1.now)) result (mode_at layout bytes.now) }
{
    match bytes {
        [] => Err(RecordRefusal::Truncated),
        [0, rest @ ..] if layout.has_shared() => Ok((Mode::Shared, rest)),
        [1, rest @ ..] => Ok((Mode::Private, rest)),
        [2, rest @ ..] => Ok((Mode::Locked, rest)),
        [_, ..] => Err(RecordRefusal::NotCanonical(Flaw::Range)),
    }
}

/// The output that a folder begins from.
#[tactic(auto, unfolding(crate::specs::Slots::output_at))]
fn take_output(bytes: &[u8]) -> Result<(Base, &[u8]), RecordRefusal>
    ensures { Gives (λ x. (x.0, x.1.now)) result (output_at bytes.now) }
{
    let (key, rest) = take_digest(bytes)?;
    let (number, rest) = take_u64(rest, 0, u64::MAX)?;
    match Index::new(number) {
        Some(index) => Ok((
            Base {
                key: Key(key),
                index,
            },
            rest,
        )),
        None => Err(RecordRefusal::NotCanonical(Flaw::Range)),
    }
}

#[tactic(auto, unfolding(crate::specs::Slots::base_at))]
fn take_base(bytes: &[u8]) -> Result<(Option<Base>, &[u8]), RecordRefusal>
    ensures { Gives (λ x. (x.0, x.1.now)) result (base_at bytes.now) }
{
    let (some, rest) = take_flag(bytes)?;
    if some {
        match take_output(rest) {
            Ok((base, rest)) => Ok((Some(base), rest)),
            Err(refusal) => Err(refusal),
        }
    } else {
        Ok((None, rest))
    }
}

fn has_instance(mode: Mode, instance: u32) -> bool
    ensures value { result ≡ has_instance mode instance }
    ensures valid { IsTrue result → IsInstance mode instance }
{
    match mode {
        Mode::Shared => instance == 0,
        Mode::Private => 1 <= instance && instance <= INSTANCES,
        Mode::Locked => instance == 0,
    }
}

#[tactic(auto, unfolding(crate::specs::Slots::slot_at))]
fn take_slot(alloc: Global, layout: Layout, bytes: &[u8]) -> Result<(Slot, &[u8]), RecordRefusal>
    ensures { Gives (λ x. (x.0, x.1.now)) result (slot_at layout bytes.now) }
{
    let (mode, rest) = take_mode(layout, bytes)?;
    let (id, rest) = take_id(alloc, rest)?;
    let (base, rest) = match take_base(rest) {
        Ok(read) => read,
        Err(refusal) => return Err(refusal),
    };
    let (instance, rest) = take_u32(rest, 0, u32::MAX)?;
    if !has_instance(mode, instance) {
        return Err(RecordRefusal::NotCanonical(Flaw::Range));
    }
    Ok((Slot::new(FolderName { id, mode, base }, instance), rest))
}

/// Whether a slot is above the one before it.
fn is_above(before: Option<&Slot>, slot: &Slot) -> bool
    ensures { result ≡ is_slot_above (option_copied before.entry) slot.now }
{
    match before {
        None => true,
        Some(before) => before.cmp(slot).is_lt(),
    }
}

/// A slot of a list that rises.
#[tactic(auto, unfolding(crate::specs::Slots::slot_after))]
pub fn take_slot_after<'a>(
    alloc: Global,
    layout: Layout,
    before: Option<&Slot>,
    bytes: &'a [u8],
) -> Result<(Slot, &'a [u8]), RecordRefusal>
    ensures { Gives (λ x. (x.0, x.1.now)) result (slot_after layout (option_copied before.entry) bytes.now) }
{
    let (slot, rest) = match take_slot(alloc, layout, bytes) {
        Ok(read) => read,
        Err(refusal) => return Err(refusal),
    };
    if !is_above(before, &slot) {
        return Err(RecordRefusal::NotCanonical(Flaw::Order));
    }
    Ok((slot, rest))
}

fn put_base(out: &mut Vec<u8>, base: Option<Base>) -> Result<(), AllocError>
    ensures { OnOk result (out.new.items ≡ out.old.items ++ base_bytes base) }
{
    match base {
        None => out.push(0)?,
        Some(base) => {
            out.push(1)?;
            out.extend_from_slice(&base.key.0.0)?;
            out.extend_from_slice(&base.index.get().to_be_bytes())?;
        }
    }
    Ok(())
}

fn put_mode(out: &mut Vec<u8>, mode: Mode) -> Result<(), AllocError>
    ensures { OnOk result (out.new.items ≡ out.old.items ++ mode_bytes mode) }
{
    let number = match mode {
        Mode::Shared => 0,
        Mode::Private => 1,
        Mode::Locked => 2,
    };
    out.push(number)?;
    Ok(())
}

fn put_id(out: &mut Vec<u8>, id: &str) -> Result<(), AllocError>
    ensures spelled { OnOk result (out.new.items ≡ out.old.items ++ id_bytes id.now) }
    ensures length { length id.now < 2 ^ 64 }
{
    out.extend_from_slice(&(id.len() as u64).to_be_bytes())?;
    out.extend_from_slice(id.as_bytes())?;
    Ok(())
}

#[tactic(auto, unfolding(crate::specs::Spelling::slot_bytes))]
pub fn put_slot(out: &mut Vec<u8>, slot: &Slot) -> Result<(), AllocError>
    ensures spelled { OnOk result (out.new.items ≡ out.old.items ++ slot_bytes slot.now) }
    ensures typed { OnOk result (IsTypedSlot slot.now) }
{
    is_slot(slot);
    let folder = slot.folder();
    put_mode(out, folder.mode)?;
    put_id(out, folder.id.as_str())?;
    put_base(out, folder.base)?;
    out.extend_from_slice(&slot.instance().to_be_bytes())?;
    Ok(())
}
