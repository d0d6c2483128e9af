//! Proofs of inclusion: that a list of entries has an entry at an index (RFC 9162, section 2.1.3).
ghost use Rattle.std.specs.Prelude.{◌≡◌, ◌⊎◌, ◌↔◌, ◌<◌, ◌-◌, ℕ, List, Some, [], length, reverse, option_map, slice_get, slice_index_or, IfOk, IsTrue};
ghost use Rattle.rp_seal.specs.Collision.{HasCollision};
ghost use Rattle.rp_seal.specs.Inclusion.{IsInclusionProof, inclusion_inputs, inclusion_root};
ghost use Rattle.rp_seal.specs.Merkle.{leaf_hash, root_of, tree_hash};
ghost use Rattle.rp_seal.specs.Hash.{bytes_of, hashes_of};

use crate::hash::NodeHash;
use crate::hashing::{leaf_hash, node_hash, root_of, split_point};
use std::alloc::{AllocError, Global};

/// Returns the root hash of `size` leaves that a proof gives with the leaf hash `leaf` at `index`; `None` if its length
/// does not fit. The last hash of `proof` is the one next to the root.
fn inclusion_root(index: u64, size: u64, leaf: &NodeHash, proof: &[NodeHash]) -> Option<NodeHash>
    ensures { option_map bytes_of result ≡ inclusion_root index size (bytes_of leaf.now) (reverse (hashes_of proof.now)) }
{
    let Some((sibling, below)) = proof.split_last() else {
        return if size == 1 { Some(*leaf) } else { None };
    };
    if size <= 1 {
        return None;
    }
    let left_size = split_point(size);
    if index < left_size {
        let Some(left) = inclusion_root(index, left_size, leaf, below) else {
            return None;
        };
        Some(node_hash(&left, sibling))
    } else {
        let Some(right) = inclusion_root(index - left_size, size - left_size, leaf, below) else {
            return None;
        };
        Some(node_hash(sibling, &right))
    }
}

/// Returns whether `proof` leads from `entry` at `index` among `size` entries to `root`.
fn is_included(root: &NodeHash, size: u64, index: u64, entry: &[u8], proof: &[NodeHash]) -> bool
    ensures { IsTrue result ↔ IsInclusionProof (bytes_of root.now) size index (leaf_hash entry.now) (hashes_of proof.now) }
{
    if index >= size {
        return false;
    }
    match inclusion_root(index, size, &leaf_hash(entry), proof) {
        Some(found) => found == *root,
        None => false,
    }
}

/// Returns whether `proof` shows that the list of `size` entries with the root hash `root` has `entry` at `index`,
/// counted from
/// 0. It reads at most 64 hashes of `proof`.
pub fn check_inclusion(
    root: &NodeHash,
    size: u64,
    index: u64,
    entry: &[u8],
    proof: &[NodeHash],
) -> bool
    ensures exact { IsTrue result ↔ IsInclusionProof (bytes_of root.now) size index (leaf_hash entry.now) (hashes_of proof.now) }
    // Each such list has the entry there, or two strings have one SHA-256: two of those that are hashed to compute the list's
    // tree hash and to follow the proof.
    ensures sound { IsTrue result → (entries : List (List ℕ)) → length entries ≡ size → tree_hash entries ≡ bytes_of root.now
        → (slice_get entries index ≡ Some entry.now) ⊎ HasCollision (inclusion_inputs entries size index entry.now (hashes_of proof.now)) }
{
    is_included(root, size, index, entry, proof)
}

/// Returns the proof that the list with the leaf hashes `hashes` has at `index`, counted from 0, the entry that it has
/// there.
///
/// # Errors
///
/// `AllocError` if there is no memory for the proof.
pub fn prove_inclusion(
    alloc: Global,
    hashes: &[NodeHash],
    index: usize,
) -> Result<Vec<NodeHash>, AllocError>
    requires { index < length hashes.now }
    ensures { IfOk result (λ proof. IsInclusionProof (root_of (hashes_of hashes.now)) (length hashes.now) index (slice_index_or (hashes_of hashes.now) index []) (hashes_of proof.items)) }
{
    if hashes.len() == 1 {
        return Ok(Vec::new(alloc));
    }
    let left_size = split_point(hashes.len() as u64) as usize;
    let (left, right) = hashes.split_at(left_size);
    if index < left_size {
        let mut proof = prove_inclusion(alloc, left, index)?;
        proof.push(root_of(right))?;
        Ok(proof)
    } else {
        let mut proof = prove_inclusion(alloc, right, index - left_size)?;
        proof.push(root_of(left))?;
        Ok(proof)
    }
}
