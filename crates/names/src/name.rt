ghost use Rattle.std.specs.Prelude.{◌≡◌, ◌≢◌, ℕ, ◌<◌, List, ◌++◌, IfOk, IfSome, IfNone, OnOk, decimal};
ghost use Rattle.std.specs.String.{string_bytes};
ghost use Rattle.names.specs.Decimals.{Lacks};
ghost use Rattle.names.specs.Names.{mode_text, output_text, base_text, folder_text, instance_text, slot_text, IsOutput, IsName, IsSlot};
ghost use Rattle.names.specs.Slots.{IsInstance, SlotParts};
ghost use Rattle.names.specs.declared.folder.Base.{Base};
ghost use Rattle.names.specs.declared.folder.FolderName.{FolderName};
ghost use Rattle.names.specs.declared.folder.Mode.{Mode};

use super::digest::{Key, lower_digits};
use super::escape::{id_of, push_id};
use super::folder::{Base, FolderName, Index, Mode};
use super::limits::INSTANCES;
use super::reading::{after, number, split};
use super::refusal::{FolderRefusal, SlotRefusal};
use super::slot::Slot;
use std::alloc::{AllocError, Global};

/// The mode that a text begins with, and what follows.
fn mode_at(text: &str) -> Option<(Mode, &str)>
    ensures found { IfSome result (λ x. text.now ≡ mode_text x.0 ++ x.1.now) }
    ensures only { IfNone result ((mode : Mode) (rest : List ℕ) → text.now ≢ mode_text mode ++ rest) }
{
    if let Some(rest) = after(text, "shared:") {
        return Some((Mode::Shared, rest));
    }
    if let Some(rest) = after(text, "private:") {
        return Some((Mode::Private, rest));
    }
    if let Some(rest) = after(text, "locked:") {
        return Some((Mode::Locked, rest));
    }
    None
}

/// The base that the text behind `@` spells.
fn output_of(text: &str) -> Option<Base>
    ensures found { IfSome result (λ base. text.now ≡ output_text base) }
    ensures only { IfNone result ((base : Base) → IsOutput base → text.now ≢ output_text base) }
{
    let (key, index) = split(text, '.')?;
    let key = Key(lower_digits(key.as_bytes())?);
    let index = Index::new(number(index)?)?;
    Some(Base { key, index })
}

/// The mode, the spelling of the id, and the base.
fn parts(text: &str) -> Option<(Mode, &str, Option<Base>)>
    ensures found { IfSome result (λ x. text.now ≡ mode_text x.0 ++ (x.1.now ++ base_text x.2)) }
    ensures no_at { IfSome result (λ x. Lacks 64 x.1.now) }
    ensures only { IfNone result ((name : FolderName) → IsName name → text.now ≢ folder_text name) }
{
    let (mode, rest) = mode_at(text)?;
    match split(rest, '@') {
        None => Some((mode, rest, None)),
        Some((id, base)) => {
            let base = output_of(base)?;
            Some((mode, id, Some(base)))
        }
    }
}

/// The text of a mode.
pub(crate) fn mode_name(mode: Mode) -> &'static str
    ensures { result.now ≡ mode_text mode }
{
    match mode {
        Mode::Shared => "shared:",
        Mode::Private => "private:",
        Mode::Locked => "locked:",
    }
}

/// Adds the text of a base.
fn push_base(alloc: Global, text: &mut String, base: Option<Base>) -> Result<(), AllocError>
    ensures { OnOk result (string_bytes text.new ≡ string_bytes text.old ++ base_text base) }
{
    let Some(base) = base else {
        return Ok(());
    };
    let key = base.key.to_text(alloc)?;
    let index = base.index.get().to_string(alloc)?;
    text.push('@')?;
    text.push_str(key.as_str())?;
    text.push('.')?;
    text.push_str(index.as_str())?;
    Ok(())
}

impl FolderName {
    /// Reads the one spelling of a folder's name.
    pub fn parse(alloc: Global, text: &str) -> Result<Self, FolderRefusal>
        ensures spelled { IfOk result (λ name. text.now ≡ folder_text name) }
        ensures only { result ≡ Err FolderRefusal.BadFolder → (name : FolderName) → IsName name → text.now ≢ folder_text name }
    {
        let Some((mode, id, base)) = parts(text) else {
            return Err(FolderRefusal::BadFolder);
        };
        let id = id_of(alloc, id)?;
        Ok(FolderName { id, mode, base })
    }

    /// The one text of the folder: its mode, its id with escapes, and its base if it has one.
    pub fn to_text(&self, alloc: Global) -> Result<String, AllocError>
        ensures { IfOk result (λ text. string_bytes text ≡ folder_text self.now) }
    {
        let mut text = String::from_str(alloc, mode_name(self.mode))?;
        push_id(&mut text, self.id.as_str())?;
        push_base(alloc, &mut text, self.base)?;
        Ok(text)
    }
}

/// The instance that the text behind `#` spells.
fn instance_of(text: &str) -> Option<u32>
    ensures found { IfSome result (λ n. text.now ≡ decimal n) }
    ensures range { IfSome result (λ n. IsInstance Mode.Private n) }
    ensures only { IfNone result ((n : ℕ) → IsInstance Mode.Private n → text.now ≢ decimal n) }
{
    let instance = number(text)?;
    if 1 <= instance && instance <= INSTANCES as u64 {
        Some(instance as u32)
    } else {
        None
    }
}

/// The spelling of the folder, and the instance.
fn slot_parts(text: &str) -> Option<(&str, u32)>
    ensures spelled { IfSome result (λ x. (mode : Mode) → IsInstance mode x.1 → text.now ≡ x.0.now ++ instance_text mode x.1) }
    ensures parts { IfSome result (λ x. (slot : SlotParts) → IsSlot slot → text.now ≡ slot_text slot
        → (x.0.now ≡ folder_text slot.folder) × (x.1 ≡ slot.instance)) }
    ensures only { IfNone result ((slot : SlotParts) → IsSlot slot → text.now ≢ slot_text slot) }
{
    match split(text, '#') {
        None => Some((text, 0)),
        Some((folder, instance)) => {
            let instance = instance_of(instance)?;
            Some((folder, instance))
        }
    }
}

impl Slot {
    /// Reads the one spelling of a slot.
    pub fn parse(alloc: Global, text: &str) -> Result<Self, SlotRefusal>
        ensures spelled { IfOk result (λ slot. text.now ≡ slot_text slot) }
        ensures only { result ≡ Err SlotRefusal.BadSlot → (slot : SlotParts) → IsSlot slot → text.now ≢ slot_text slot }
    {
        let Some((folder, instance)) = slot_parts(text) else {
            return Err(SlotRefusal::BadSlot);
        };
        match FolderName::parse(alloc, folder) {
            Err(FolderRefusal::OutOfMemory) => Err(SlotRefusal::OutOfMemory),
            Err(FolderRefusal::BadFolder) => Err(SlotRefusal::BadSlot),
            Ok(folder) => {
                if Slot::has_instance(folder.mode, instance) {
                    Ok(Slot::new(folder, instance))
                } else {
                    Err(SlotRefusal::BadSlot)
                }
            }
        }
    }

    /// The one text of the slot: that of its folder, with the instance of a PRIVATE one.
    pub fn to_text(&self, alloc: Global) -> Result<String, AllocError>
        ensures { IfOk result (λ text. string_bytes text ≡ slot_text self.now) }
    {
        let mut text = self.folder().to_text(alloc)?;
        if self.instance() != 0 {
            let instance = self.instance().to_string(alloc)?;
            text.push('#')?;
            text.push_str(instance.as_str())?;
        }
        Ok(text)
    }
}
