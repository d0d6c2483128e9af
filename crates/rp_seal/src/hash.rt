//! Hashes of leaves and nodes.
ghost use Rattle.std.specs.Prelude.{◌≡◌, length};

/// The hash of a leaf or of an inner node: 32 bytes of SHA-256. A tree's root hash is one, or that of no bytes.
#[derive(Clone, Copy, PartialEq, Eq)]
pub struct NodeHash {
    pub bytes: [u8; 32],
    // The length is a field, so that every proof about a hash has it: 1 ∷ left ++ right tells its halves apart by it alone.
    ghost sized: { length bytes ≡ 32 },
}
