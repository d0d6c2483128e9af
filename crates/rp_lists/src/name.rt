//! Names of regions and lots.
ghost use Rattle.std.specs.Prelude.{◌≡◌, true};
ghost use Rattle.std.specs.List.{list_all};
ghost use Rattle.std.specs.Hash as fed;
ghost use Rattle.std.specs.Cmp.Rules.{comparing, hashing};
ghost use Rattle.std.proofs.Common.{rules};
ghost use Rattle.rp_language.specs.Name.{label_eq, is_letter, is_name_byte, is_name, name_of};

use std::hash::{Hash, Hasher};
use std::marker::Model;

/// The greatest number of bytes of a name.
const MAX_NAME: usize = 32;

/// A name of 1 to 32 bytes: letters `a` to `z` and `A` to `Z`, digits, `_`, `-` and `.`; the first byte is a letter. A
/// contract sees the list of its bytes.
#[derive(Clone, Copy, Debug)]
pub struct Name {
    bytes: [u8; 32],
    len: u8,
}

impl Model for Name {
    ghost use Rattle.std.specs.Prelude.{List, ℕ};

    ghost Value = { List ℕ };

    ghost use Rattle.rp_lists.specs.NameBytes.{kept_bytes, name_back, IsNameInside, kept_back};

    ghost view = { kept_bytes };

    ghost invariant = { IsNameInside };

    ghost inverse = { name_back };

    ghost inverse_ok = { λ a h. kept_back a h };
}

impl Name {
    /// Returns the name of `bytes`; `None` iff they are not a name.
    pub fn new(bytes: &[u8]) -> Option<Name>
        ensures { result ≡ name_of bytes.now }
    {
        if !is_name(bytes) {
            return None;
        }
        let mut kept = [0; MAX_NAME];
        kept[..bytes.len()].copy_from_slice(bytes);
        Some(Name {
            bytes: kept,
            len: bytes.len() as u8,
        })
    }

    /// Returns the bytes of the name.
    pub fn bytes(&self) -> &[u8]
        ensures value { result.now ≡ self.now }
        ensures name { is_name result.now ≡ true }
    {
        &self.bytes[..self.len as usize]
    }
}

/// Two names are equal iff their bytes are.
impl PartialEq for Name {
    ghost eq = { label_eq };

    ghost laws = { Prim.search (comparing, rules) };

    fn eq(&self, other: &Name) -> bool {
        self.bytes() == other.bytes()
    }
}

impl Eq for Name {
    ghost laws = { Prim.search (comparing, rules) };
}

impl Hash for Name {
    ghost hash_input = { fed.slice fed.u8 };

    ghost respects_eq = { Prim.search (hashing, rules) };

    fn hash<H: Hasher>(&self, state: &mut H) {
        self.bytes().hash(state);
    }
}

/// Returns whether `byte` is a letter.
fn is_letter(byte: u8) -> bool
    ensures { result ≡ is_letter byte }
{
    (97 <= byte && byte <= 122) || (65 <= byte && byte <= 90)
}

/// Returns whether a name may contain `byte`.
fn is_name_byte(byte: u8) -> bool
    ensures { result ≡ is_name_byte byte }
{
    is_letter(byte) || byte.is_ascii_digit() || byte == b'_' || byte == b'-' || byte == b'.'
}

/// Returns whether a name may contain all of `bytes`.
fn are_name_bytes(bytes: &[u8]) -> bool
    ensures { result ≡ list_all is_name_byte bytes.now }
{
    bytes.iter().all(|byte| is_name_byte(*byte))
}

/// Returns whether `bytes` are a name.
fn is_name(bytes: &[u8]) -> bool
    ensures { result ≡ is_name bytes.now }
{
    match bytes {
        [] => false,
        [first, rest @ ..] => {
            is_letter(*first) && are_name_bytes(rest) && bytes.len() <= MAX_NAME
        }
    }
}
