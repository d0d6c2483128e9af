//! Hashes in hex.
ghost use Rattle.std.specs.Prelude.{◌≡◌, ◌↔◌, length, Ok, IsSome, IfSome, IfOk, string_bytes};
ghost use Rattle.std.specs.List.{AllPass};
ghost use Rattle.hex.specs.Hex.{decode_of, encode_lower, is_hex_digit};
ghost use Rattle.rp_seal.specs.Hash.{bytes_of};

use crate::hash::NodeHash;
use hex::FromHex;
use std::alloc::{AllocError, Global};

/// Returns the 32 bytes that `text` spells in hex; `None` unless it has 64 hex digits and nothing else.
fn digits_of(text: &str) -> Option<[u8; 32]>
    ensures value { IfSome result (λ bytes. decode_of text.now ≡ Ok bytes) }
    ensures found { IsSome result ↔ ((length text.now ≡ 64) × AllPass is_hex_digit text.now) }
{
    <[u8; 32] as FromHex>::from_hex(text).ok()
}

impl NodeHash {
    /// Returns the hash that `text` spells in hex; `None` unless it has 64 hex digits and nothing else.
    pub fn from_hex(text: &str) -> Option<NodeHash>
        ensures value { IfSome result (λ root. decode_of text.now ≡ Ok (bytes_of root)) }
        ensures found { IsSome result ↔ ((length text.now ≡ 64) × AllPass is_hex_digit text.now) }
    {
        match digits_of(text) {
            Some(bytes) => Some(NodeHash { bytes }),
            None => None,
        }
    }

    /// Returns the hash as 64 hex digits with lower-case letters.
    ///
    /// # Errors
    ///
    /// `AllocError` if there is no memory for the text.
    pub fn to_hex(&self, alloc: Global) -> Result<String, AllocError>
        ensures { IfOk result (λ text. string_bytes text ≡ encode_lower (bytes_of self.now)) }
    {
        hex::encode(alloc, self.bytes.as_slice())
    }
}
