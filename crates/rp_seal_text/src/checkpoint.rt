//! Checkpoints.
ghost use Rattle.std.specs.Prelude.{◌≡◌, ◌<◌, ◌^◌, IsTrue, nat_le, string_bytes};
ghost use Rattle.std.specs.List.{list_all};
ghost use Rattle.base64.specs.GeneralPurpose.{IsBytes};
ghost use Rattle.rp_seal_text.specs.Origin.{is_origin};

use rp_seal::NodeHash;

/// A checkpoint of a log: all of its entries, in one hash.
#[derive(Drop)]
pub struct Checkpoint {
    /// The name of the log, as `example.org/register`.
    pub origin: String,
    /// The number of entries.
    pub size: u64,
    /// The root hash of the tree over all entries.
    pub root: NodeHash,
    ghost named: { IsTrue (is_origin (string_bytes origin)) },
    // The ranges of the types, for whoever has a checkpoint by reference.
    ghost fits: { size < 2 ^ 64 },
    ghost bytes: { IsBytes root.bytes },
}

/// Returns whether `text` has no ASCII control character.
fn is_printable(text: &[u8]) -> bool
    ensures { result ≡ list_all (nat_le 32) text.now }
{
    text.iter().all(|byte| *byte >= b' ')
}

/// Returns whether `text` may be the origin of a log: it is not empty and has no ASCII control character.
fn is_origin(text: &str) -> bool
    ensures { result ≡ is_origin text.now }
{
    !text.is_empty() && is_printable(text.as_bytes())
}

impl Checkpoint {
    ghost use Rattle.std.specs.Prelude.{◌↔◌, IsSome, IfSome};
    ghost use Rattle.rp_seal_text.specs.Checkpoint.{fields_of};

    /// Creates a checkpoint of `size` entries with the root hash `root`; `None` if `origin` is empty or has an ASCII
    /// control character.
    pub fn new(origin: String, size: u64, root: NodeHash) -> Option<Checkpoint>
        ensures found { IsSome result ↔ IsTrue (is_origin (string_bytes origin)) }
        ensures value { IfSome result (λ c. fields_of c ≡ record { origin = string_bytes origin; size = size; root = root.bytes }) }
    {
        if is_origin(origin.as_str()) {
            Some(Checkpoint { origin, size, root })
        } else {
            None
        }
    }
}
