ghost use Rattle.std.specs.Prelude.{◌≡◌, ℕ, List};
ghost use Rattle.sha2.specs.Sha256.{sha256};
ghost use Rattle.solverkeys.specs.Keys.{solver_key};

use names::{Digest, Key};
use sha2::{Digest as Hasher, Sha256};

/// The byte that begins the message of a key.
const KEY_MARK: u8 = 1;

/// The solver key of a vertex with these stripped bytes, whose inputs have these keys and output
/// indexes. It takes no memory.
pub fn key_of(stripped: &[u8], inputs: &[(Key, u64)]) -> Key
    ensures { result ≡ solver_key stripped.now inputs.now }
{
    key_from(&Digest(Sha256::digest(stripped)), inputs)
}

/// The same, by the SHA-256 of the stripped bytes.
pub(crate) fn key_from(stripped: &Digest, inputs: &[(Key, u64)]) -> Key
    ensures { (bytes : List ℕ) → stripped.now.0 ≡ sha256 bytes → result ≡ solver_key bytes inputs.now }
{
    let mut hasher = Sha256::new();
    hasher.update([KEY_MARK]);
    hasher.update(stripped.0);
    for (key, index) in inputs {
        hasher.update(key.0.0);
        hasher.update(index.to_be_bytes());
    }
    Key(Digest(hasher.finalize()))
}
