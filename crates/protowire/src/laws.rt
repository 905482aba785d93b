//! Laws of the wire form, which callers of the readers and writers may rest on.

ghost use Rattle.std.specs.Prelude.{◌≡◌, ℕ, ◌<◌, ◌≤◌, ◌^◌, List, length, Err};
ghost use Rattle.protowire.specs.declared.refusal.WireRefusal.{WireRefusal};
ghost use Rattle.protowire.specs.Varints.{IsVarint};
ghost use Rattle.protowire.specs.Fields.{Spelled, IsField, AreFields};
ghost use Rattle.protowire.specs.Reading.{fields_of, Faulted};
ghost use Rattle.protowire.specs.Writing.{minimal, spelled_varint, spelled_bytes};

/// A message spells at most one list of fields.
pub fn fields_are_determined()
    ensures { (text : List ℕ) (fs gs : List Spelled) → AreFields text fs → AreFields text gs → fs ≡ gs }
{}

/// A refusal is the fault of the first place where no field can be read.
pub fn first_fault_decides()
    ensures { (text : List ℕ) (refusal : WireRefusal) → fields_of text ≡ Err refusal → Faulted text refusal }
{}

/// What the writers append is a field, which `fields` reads again wherever it stands.
pub fn written_fields_are_fields()
    ensures varints { (number n : ℕ) → 1 ≤ number → number < 2 ^ 29 → n < 2 ^ 64
        → IsField (spelled_varint number n) }
    ensures bodies { (number : ℕ) (body : List ℕ) → 1 ≤ number → number < 2 ^ 29 → length body < 2 ^ 64
        → IsField (spelled_bytes number body) }
{}

/// No spelling of a number is shorter than the one that is written.
pub fn written_numbers_are_shortest()
    ensures { (text : List ℕ) (n : ℕ) → IsVarint text n → length (minimal n) ≤ length text }
{}
