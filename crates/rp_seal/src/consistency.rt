//! Proofs of consistency: that a longer list of entries begins with a shorter one (RFC 9162, section 2.1.4).
ghost use Rattle.std.specs.Prelude.{◌≡◌, ◌⊎◌, ◌↔◌, ◌<◌, ◌≤◌, ℕ, List, [], length, reverse, take, option_map, IfOk, IsTrue};
ghost use Rattle.sha2.specs.Sha256.{sha256};
ghost use Rattle.rp_seal.specs.Collision.{HasCollision};
ghost use Rattle.rp_seal.specs.Consistency.{IsConsistencyProof, IsConsistencyPath, consistency_inputs, root_pair, bytes_pair, consistency_roots, common_roots};
ghost use Rattle.rp_seal.specs.Merkle.{root_of, tree_hash};
ghost use Rattle.rp_seal.specs.Hash.{bytes_of, hashes_of};

use crate::hash::NodeHash;
use crate::hashing::{empty_root, node_hash, root_of, split_point};
use std::alloc::{AllocError, Global};

/// The root hashes of a shorter tree and of a longer one.
type RootPair = (NodeHash, NodeHash);

/// Returns both root hashes of a subtree that the two trees share: the known one, if `proof` is empty, or else the only
/// hash of `proof`.
fn common_roots(known: Option<NodeHash>, proof: &[NodeHash]) -> Option<RootPair>
    ensures { option_map bytes_pair result ≡ option_map root_pair (common_roots (option_map bytes_of known) (reverse (hashes_of proof.now))) }
{
    match (known, proof) {
        (Some(root), []) => Some((root, root)),
        (None, [root]) => Some((*root, *root)),
        _ => None,
    }
}

/// Returns the root hashes of the first `first` and of all `second` leaves that a proof gives; `None` if its length
/// does not fit. The last hash of `proof` is the one next to the longer tree's root; `known` is the shorter tree's root
/// hash as long as only left subtrees were entered.
fn consistency_roots(
    first: u64,
    second: u64,
    known: Option<NodeHash>,
    proof: &[NodeHash],
) -> Option<RootPair>
    requires some { 0 < first }
    requires longer { first ≤ second }
    ensures { option_map bytes_pair result ≡ option_map root_pair (consistency_roots first second (option_map bytes_of known) (reverse (hashes_of proof.now))) }
{
    if first == second {
        return common_roots(known, proof);
    }
    let Some((sibling, below)) = proof.split_last() else {
        return None;
    };
    let left_size = split_point(second);
    if first <= left_size {
        let Some((left, wide)) = consistency_roots(first, left_size, known, below) else {
            return None;
        };
        Some((left, node_hash(&wide, sibling)))
    } else {
        let Some((right, wide)) = consistency_roots(
            first - left_size,
            second - left_size,
            None,
            below,
        ) else {
            return None;
        };
        Some((node_hash(sibling, &right), node_hash(sibling, &wide)))
    }
}

/// Returns whether `root` is the root hash of no entries.
fn is_empty_root(root: &NodeHash) -> bool
    ensures { IsTrue result ↔ (bytes_of root.now ≡ sha256 []) }
{
    empty_root() == *root
}

/// Returns whether `root` is the root hash of no entries, or `size` is above 0.
fn fits_size(size: u64, root: &NodeHash) -> bool
    ensures { IsTrue result ↔ (size ≡ 0 → bytes_of root.now ≡ sha256 []) }
{
    size > 0 || is_empty_root(root)
}

/// Returns whether `proof` is empty, `first` is the root hash of no entries, and `second` is as well if `second_size`
/// is 0.
fn extends_empty_tree(
    first: &NodeHash,
    second_size: u64,
    second: &NodeHash,
    proof: &[NodeHash],
) -> bool
    ensures { IsTrue result ↔ ((hashes_of proof.now ≡ []) × (bytes_of first.now ≡ sha256 []) × (second_size ≡ 0 → bytes_of second.now ≡ sha256 [])) }
{
    proof.is_empty() && is_empty_root(first) && fits_size(second_size, second)
}

/// Returns whether `proof` leads from `first` to `second`.
fn is_consistent(
    first_size: u64,
    first: &NodeHash,
    second_size: u64,
    second: &NodeHash,
    proof: &[NodeHash],
) -> bool
    ensures { IsTrue result ↔ IsConsistencyProof first_size (bytes_of first.now) second_size (bytes_of second.now) (hashes_of proof.now) }
{
    if first_size == 0 {
        return extends_empty_tree(first, second_size, second, proof);
    }
    if second_size < first_size {
        return false;
    }
    match consistency_roots(first_size, second_size, Some(*first), proof) {
        Some((short, long)) => short == *first && long == *second,
        None => false,
    }
}

/// Returns whether `proof` shows that the list of `second_size` entries with the root hash `second` begins with the
/// list of `first_size` entries with the root hash `first`. It reads at most 64 hashes of `proof`.
pub fn check_consistency(
    first_size: u64,
    first: &NodeHash,
    second_size: u64,
    second: &NodeHash,
    proof: &[NodeHash],
) -> bool
    ensures exact { IsTrue result ↔ IsConsistencyProof first_size (bytes_of first.now) second_size (bytes_of second.now) (hashes_of proof.now) }
    ensures longer { IsTrue result → first_size ≤ second_size }
    // Each longer list begins with each shorter one, or two strings have one SHA-256: two of those that are hashed to compute
    // the tree hashes of both lists and to follow the proof.
    ensures sound { IsTrue result → (before after : List (List ℕ)) → length before ≡ first_size → length after ≡ second_size
        → tree_hash before ≡ bytes_of first.now → tree_hash after ≡ bytes_of second.now
        → (before ≡ take first_size after) ⊎ HasCollision (consistency_inputs before after first_size second_size (bytes_of first.now) (hashes_of proof.now)) }
{
    is_consistent(first_size, first, second_size, second, proof)
}

/// Returns the proof that the list with the leaf hashes `hashes` begins with its `first` first entries, with the root
/// hash of a shared subtree unless `is_known`.
fn consistency_path(
    alloc: Global,
    hashes: &[NodeHash],
    first: usize,
    is_known: bool,
) -> Result<Vec<NodeHash>, AllocError>
    requires some { 0 < first }
    requires longer { first ≤ length hashes.now }
    ensures { IfOk result (λ proof. IsConsistencyPath hashes.now first is_known proof.items) }
{
    if first == hashes.len() {
        let mut proof = Vec::new(alloc);
        if !is_known {
            proof.push(root_of(hashes))?;
        }
        return Ok(proof);
    }
    let left_size = split_point(hashes.len() as u64) as usize;
    let (left, right) = hashes.split_at(left_size);
    if first <= left_size {
        let mut proof = consistency_path(alloc, left, first, is_known)?;
        proof.push(root_of(right))?;
        Ok(proof)
    } else {
        let mut proof = consistency_path(alloc, right, first - left_size, false)?;
        proof.push(root_of(left))?;
        Ok(proof)
    }
}

/// Returns the proof that the list with the leaf hashes `hashes` begins with its `first` first entries.
///
/// # Errors
///
/// `AllocError` if there is no memory for the proof.
pub fn prove_consistency(
    alloc: Global,
    hashes: &[NodeHash],
    first: usize,
) -> Result<Vec<NodeHash>, AllocError>
    requires { first ≤ length hashes.now }
    ensures { IfOk result (λ proof. IsConsistencyProof first (root_of (hashes_of (take first hashes.now))) (length hashes.now) (root_of (hashes_of hashes.now)) (hashes_of proof.items)) }
{
    if first == 0 {
        return Ok(Vec::new(alloc));
    }
    consistency_path(alloc, hashes, first, true)
}
