//! Reading the parts of a text, for the grammars of the layers above too.
ghost use Rattle.std.specs.Prelude.{◌≡◌, ◌≢◌, ℕ, ◌<◌, ◌^◌, List, ◌++◌, ◌∷◌, decimal, IfSome, IfNone, IsTrue, ◌↔◌};
ghost use Rattle.names.specs.Decimals.{Lacks, StartsNumber};

/// The rest of a text that begins with `front`.
pub fn after<'a>(text: &'a str, front: &str) -> Option<&'a str>
    ensures found { IfSome result (λ rest. text.now ≡ front.now ++ rest.now) }
    ensures only { IfNone result ((rest : List ℕ) → text.now ≢ front.now ++ rest) }
{
    text.strip_prefix(front)
}

/// The parts before and after the first occurrence of a character.
pub fn split<'a>(text: &'a str, at: char) -> Option<(&'a str, &'a str)>
    requires { at < 128 }
    ensures found { IfSome result (λ parts. (text.now ≡ parts.0.now ++ at ∷ parts.1.now) × Lacks at parts.0.now) }
    ensures only { IfNone result (Lacks at text.now) }
{
    text.split_once(at)
}

/// The number that a text spells, without a sign or leading zeros.
pub fn number(text: &str) -> Option<u64>
    ensures found { IfSome result (λ n. text.now ≡ decimal n) }
    ensures range { IfSome result (λ n. n < 2 ^ 64) }
    ensures only { IfNone result ((n : ℕ) → n < 2 ^ 64 → text.now ≢ decimal n) }
{
    if !starts_number(text.as_bytes()) {
        return None;
    }
    text.parse().ok()
}

/// Whether a text starts as a number does, without a sign or leading zeros.
fn starts_number(text: &[u8]) -> bool
    ensures { IsTrue result ↔ StartsNumber text.now }
{
    !text.is_empty() && text[0] != b'+' && (text[0] != b'0' || text.len() == 1)
}
