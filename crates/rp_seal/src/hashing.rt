//! The hashes of entries, of inner nodes and of whole trees (RFC 9162, section 2.1.1).
ghost use Rattle.std.specs.Prelude.{◌≡◌, [], ◌<◌, length};
ghost use Rattle.sha2.specs.Sha256.{sha256};
ghost use Rattle.rp_seal.specs.Merkle.{leaf_hash, node_hash, root_of, split_point};
ghost use Rattle.rp_seal.specs.Hash.{bytes_of, hashes_of};

use crate::hash::NodeHash;
use sha2::{Digest, Sha256};

/// Returns the root hash of no entries: SHA-256 of no bytes.
pub fn empty_root() -> NodeHash
    ensures { bytes_of result ≡ sha256 [] }
{
    let hasher = Sha256::new();
    NodeHash {
        bytes: hasher.finalize(),
    }
}

/// Returns the leaf hash of `entry`: SHA-256 of a byte 0 and the entry.
pub fn leaf_hash(entry: &[u8]) -> NodeHash
    ensures { bytes_of result ≡ leaf_hash entry.now }
{
    let mut hasher = Sha256::new();
    hasher.update([0].as_slice());
    hasher.update(entry);
    NodeHash {
        bytes: hasher.finalize(),
    }
}

/// Returns the hash of an inner node: SHA-256 of a byte 1 and the hashes of its two subtrees.
pub fn node_hash(left: &NodeHash, right: &NodeHash) -> NodeHash
    ensures { bytes_of result ≡ node_hash (bytes_of left.now) (bytes_of right.now) }
{
    let mut hasher = Sha256::new();
    hasher.update([1].as_slice());
    hasher.update(left.bytes.as_slice());
    hasher.update(right.bytes.as_slice());
    NodeHash {
        bytes: hasher.finalize(),
    }
}

/// Returns how many leaves the left subtree of a tree of `size` leaves has: the largest power of two below `size`.
pub(crate) fn split_point(size: u64) -> u64
    requires { 1 < size }
    ensures value { result ≡ split_point size }
    ensures some { 0 < result }
    ensures below { result < size }
{
    let mut left_size = 1;
    while left_size < size - left_size {
        left_size *= 2;
    }
    left_size
}

/// Returns the root hash of the tree with the leaf hashes `hashes`.
pub fn root_of(hashes: &[NodeHash]) -> NodeHash
    ensures { bytes_of result ≡ root_of (hashes_of hashes.now) }
{
    match hashes {
        [] => empty_root(),
        [only] => *only,
        _ => {
            let left_size = split_point(hashes.len() as u64) as usize;
            node_hash(
                &root_of(&hashes[..left_size]),
                &root_of(&hashes[left_size..]),
            )
        }
    }
}
