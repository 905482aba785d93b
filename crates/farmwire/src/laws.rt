//! Laws of lines.
ghost use Rattle.std.specs.Prelude.{◌≡◌, ℕ, List};
ghost use Rattle.farm_base.specs.declared.message.Message.{Message};
ghost use Rattle.farmwire.specs.Lawful.{IsLawful};
ghost use Rattle.farmwire.specs.Lines.{message_text};
ghost use Rattle.farmwire.specs.Sealed.{IsSealed};
ghost use Rattle.seals.specs.Keyrings.{Keys};

/// No two lawful messages have the same text.
pub fn one_message_per_text()
    ensures { (a b : Message) → IsLawful a → IsLawful b → message_text a ≡ message_text b → a ≡ b }
{}

/// A line is that of one message at most, whatever the keys.
pub fn one_message_per_line()
    ensures { (keys others : Keys) (line : List ℕ) (a b : Message) → IsSealed keys line a → IsSealed others line b → a ≡ b }
{}
