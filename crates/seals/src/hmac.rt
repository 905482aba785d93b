//! HMAC-SHA256, and the key of a farm.
ghost use Rattle.std.specs.Prelude.{◌≡◌, ◌↔◌, ◌<◌, ◌≤◌, ◌-◌, ◌++◌, ℕ, List, length, replicate, IfOk, IsErrOf};
ghost use Rattle.sha2.specs.Hashers.{Holds256};
ghost use Rattle.sha2.specs.Sha256.{sha256};
ghost use Rattle.seals.specs.Hashers.{HasTaken};
ghost use Rattle.seals.specs.Macs.{key_block, block_xor, hmac_sha256, without_end, node_name, node_key};
ghost use Rattle.std.specs.String.{string_bytes};

use super::refusal::KeyRefusal;
use names::{Digest, NodeId};
use sha2::Sha256;
use std::alloc::{AllocError, Global};
use std::marker::Model;

/// The length of a block of SHA-256.
const BLOCK: usize = 64;

/// A key of at most one block, filled up with zeros.
fn filled(key: &[u8]) -> [u8; 64]
    requires { length key.now ≤ 64 }
    ensures { result ≡ key.now ++ replicate (64 - length key.now) 0 }
{
    let mut block = [0; 64];
    block[..key.len()].copy_from_slice(key);
    block
}

/// A key as one block: hashed first where it is longer, filled up with zeros.
fn block_of(key: &[u8]) -> [u8; 64]
    ensures { result ≡ key_block key.now }
{
    if key.len() > BLOCK {
        let digest: [u8; 32] = <Sha256 as sha2::Digest>::digest(key);
        filled(&digest)
    } else {
        filled(key)
    }
}

/// The block with this byte added to each of its bytes, without carry.
fn padded(block: &[u8; 64], pad: u8) -> [u8; 64]
    ensures { result ≡ block_xor block.now pad }
{
    let mut padded = [0; 64];
    for index in 0..BLOCK {
        padded[index] = block[index] ^ pad;
    }
    padded
}

/// A hasher that has taken in a block.
fn holding(block: &[u8; 64]) -> Sha256
    ensures { Holds256 result block.now }
{
    let mut hasher = <Sha256 as sha2::Digest>::new();
    sha2::Digest::update(&mut hasher, block.as_slice());
    hasher
}

/// The SHA-256 of what a hasher has taken in and this text behind it.
fn digest_behind(front: &Sha256, text: &[u8]) -> [u8; 32]
    ensures { (bytes : List ℕ) → Holds256 front.now bytes → result ≡ sha256 (bytes ++ text.now) }
{
    let mut hasher = front.clone().unwrap();
    sha2::Digest::update(&mut hasher, text);
    sha2::Digest::finalize(hasher)
}

/// What each MAC under a key begins with: hashers that have taken in the key's two blocks.
#[derive(Drop)]
struct KeyedHashers {
    inner: Sha256,
    outer: Sha256,
}

impl KeyedHashers {
    fn of(key: &[u8]) -> Self
        ensures { HasTaken result key.now }
    {
        let block = block_of(key);
        KeyedHashers {
            inner: holding(&padded(&block, 0x36)),
            outer: holding(&padded(&block, 0x5c)),
        }
    }

    /// The MAC of a text.
    #[tactic(auto, unfolding(crate::specs::Macs::hmac_sha256))]
    fn mac(&self, text: &[u8]) -> Digest
        ensures { (key : List ℕ) → HasTaken self.now key → result ≡ record { 0 = hmac_sha256 key text.now } }
    {
        let inner = digest_behind(&self.inner, text);
        Digest(digest_behind(&self.outer, inner.as_slice()))
    }
}

/// The MAC of a text under a key of any length: HMAC-SHA256, as RFC 2104 defines it.
pub fn mac(key: &[u8], text: &[u8]) -> Digest
    ensures { result ≡ record { 0 = hmac_sha256 key.now text.now } }
{
    KeyedHashers::of(key).mac(text)
}

/// What is said of a node and an epoch to make its key.
fn node_name(alloc: Global, node: NodeId, epoch: u64) -> Result<String, AllocError>
    ensures { IfOk result (λ name. string_bytes name ≡ node_name node.0 epoch) }
{
    let mut name = String::from_str(alloc, "key of node ")?;
    let number = node.0.to_string(alloc)?;
    let epoch = epoch.to_string(alloc)?;
    name.push_str(number.as_str())?;
    name.push_str(" in epoch ")?;
    name.push_str(epoch.as_str())?;
    Ok(name)
}

/// The key that the processes of a farm share, which contracts see as its bytes. It has at least 32.
#[derive(Drop)]
pub struct FarmKey {
    bytes: Vec<u8>,
    hashers: KeyedHashers,
}

impl Model for FarmKey {
    ghost use Rattle.std.specs.Prelude.{ℕ, List, ◌≤◌, length};
    ghost use Rattle.seals.specs.Hashers.{HasTaken};

    ghost Value = { List ℕ };

    ghost view = { λ k. k.bytes.items };

    ghost invariant = { λ k. (32 ≤ length k.bytes.items) × HasTaken k.hashers k.bytes.items };
}

impl FarmKey {
    /// How many bytes a key has at least.
    pub const LEAST: usize = 32;

    /// The key of a file with these bytes. A last LF isn't of the key.
    pub fn of(alloc: Global, file: &[u8]) -> Result<Self, KeyRefusal>
        ensures key { IfOk result (λ key. key ≡ without_end file.now) }
        ensures short { IsErrOf result KeyRefusal.KeyTooShort ↔ (length (without_end file.now) < 32) }
    {
        let key = front_of(file);
        if key.len() < Self::LEAST {
            return Err(KeyRefusal::KeyTooShort);
        }
        let hashers = KeyedHashers::of(key);
        match Vec::from_slice(alloc, key) {
            Ok(bytes) => Ok(FarmKey { bytes, hashers }),
            Err(_) => Err(KeyRefusal::OutOfMemory),
        }
    }

    /// The MAC of a text under this key.
    pub fn mac(&self, text: &[u8]) -> Digest
        ensures { result ≡ record { 0 = hmac_sha256 self.now text.now } }
    {
        self.hashers.mac(text)
    }

    /// The key of a node in an epoch, which that node and the coordinator alone have. This key is the farm's then: it
    /// seals nothing.
    pub fn of_node(&self, alloc: Global, node: NodeId, epoch: u64) -> Result<FarmKey, AllocError>
        ensures { IfOk result (λ key. key ≡ node_key self.now node.0 epoch) }
    {
        let name = node_name(alloc, node, epoch)?;
        let mac = self.mac(name.as_bytes());
        let mut digits = [0; 64];
        hex::encode_to_slice(mac.0, &mut digits).unwrap();
        let hashers = KeyedHashers::of(&digits);
        let bytes = Vec::from_slice(alloc, digits.as_slice())?;
        Ok(FarmKey { bytes, hashers })
    }
}

/// The bytes of a file without a last LF.
fn front_of(file: &[u8]) -> &[u8]
    ensures { result.now ≡ without_end file.now }
{
    match file {
        [front @ .., b'\n'] => front,
        _ => file,
    }
}
