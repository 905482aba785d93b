//! The keys that a process has.
ghost use Rattle.std.specs.Prelude.{◌≡◌, ℕ, List, None, IfOk, IfSome, IfNone};
ghost use Rattle.std.specs.String.{string_bytes};
ghost use Rattle.seals.specs.Keyrings.{key_in, HasMac};

use super::hmac::FarmKey;
use super::sealing::{sealed, text_of};
use names::NodeId;
use std::alloc::{AllocError, Global};

/// The keys of nodes that a process has.
#[derive(Drop)]
pub enum Keyring {
    /// Those of all nodes, which are made of the farm's key.
    Farm(FarmKey),
    /// That of this node alone.
    Node(NodeId, FarmKey),
}

impl Keyring {
    /// The text sealed under the key of this node, if that is here.
    pub fn sealed(
        &self,
        alloc: Global,
        node: NodeId,
        text: String,
    ) -> Result<Option<String>, AllocError>
        ensures sealed { IfOk result (λ found. IfSome found (λ line. HasMac (key_in self.now) node (string_bytes text) (string_bytes line))) }
        ensures none { IfOk result (λ found. IfNone found (key_in self.now node ≡ None)) }
    {
        match self {
            Keyring::Farm(farm) => {
                let key = farm.of_node(alloc, node, 0)?;
                Ok(Some(sealed(alloc, &key, text)?))
            }
            Keyring::Node(owner, key) => {
                if owner.0 == node.0 {
                    Ok(Some(sealed(alloc, key, text)?))
                } else {
                    Ok(None)
                }
            }
        }
    }

    /// The text of a line, where what stands behind it is a space and its MAC under the key of this node, which is here.
    pub fn text_of<'a>(
        &self,
        alloc: Global,
        node: NodeId,
        line: &'a [u8],
    ) -> Result<Option<&'a [u8]>, AllocError>
        ensures found { IfOk result (λ found. IfSome found (λ text. HasMac (key_in self.now) node text.now line.now)) }
        ensures only { IfOk result (λ found. IfNone found ((text : List ℕ) → HasMac (key_in self.now) node text line.now → ⊥)) }
    {
        match self {
            Keyring::Farm(farm) => {
                let key = farm.of_node(alloc, node, 0)?;
                Ok(text_of(&key, line))
            }
            Keyring::Node(owner, key) => {
                if owner.0 == node.0 {
                    Ok(text_of(key, line))
                } else {
                    Ok(None)
                }
            }
        }
    }
}
