//! The compact Merkle tree: a list that grows, of which only the root hashes of perfect subtrees are kept.
ghost use Rattle.std.specs.Prelude.{◌≡◌, ◌≤◌, ◌<◌, ◌+◌, ◌^◌, ◌∷◌, ◌++◌, [], ℕ, List, length, reverse, map, OnOk, OnErr, sum_by, vec_len, vec_capacity};
ghost use Rattle.rp_seal.specs.Merkle.{root_of};
ghost use Rattle.rp_seal.specs.Peaks.{root_over, has_size, subtree_of, subtrees_of, total_size, with_subtree};
ghost use Rattle.rp_seal.specs.Hash.{bytes_of};

use crate::hash::NodeHash;
use crate::hashing::{empty_root, node_hash};
use crate::peak::Peak;
use std::alloc::{AllocError, Global};

/// Returns whether the last peak has `size` leaves.
fn has_size(peaks: &[Peak], size: u64) -> bool
    ensures { result ≡ has_size (subtrees_of peaks.now) size }
{
    match peaks {
        [.., last] => last.size == size,
        [] => false,
    }
}

/// Pops the last peak as long as it is as large as `top`, joins the two, and returns the last join.
fn merge(peaks: &mut Vec<Peak>, top: Peak) -> Peak
    requires { top.size + total_size peaks.old.items < 2 ^ 64 }
    ensures subtrees { subtree_of result ∷ subtrees_of peaks.new.items ≡ with_subtree (subtrees_of peaks.old.items) (subtree_of top) }
    ensures total { result.size + total_size peaks.new.items ≡ top.size + total_size peaks.old.items }
    ensures len { vec_len peaks.new ≤ vec_len peaks.old }
    ensures room { vec_capacity peaks.new ≡ vec_capacity peaks.old }
{
    if !has_size(peaks, top.size) {
        return top;
    }
    let Some(left) = peaks.pop() else {
        return top;
    };
    let joined = Peak {
        root: node_hash(&left.root, &top.root),
        size: 2 * top.size,
    };
    merge(peaks, joined)
}

/// Returns the root hash over `peaks` and the leaves after them, of which `root` is the root hash.
fn root_over(peaks: &[Peak], root: NodeHash) -> NodeHash
    ensures { bytes_of result ≡ root_over (subtrees_of peaks.now) (bytes_of root) }
{
    match peaks.split_last() {
        Some((last, before)) => root_over(before, node_hash(&last.root, &root)),
        None => root,
    }
}

/// A Merkle tree to which leaf hashes are added one at a time. It has at most one hash for each binary digit of its
/// size.
#[derive(Drop)]
pub struct CompactTree {
    pub(crate) peaks: Vec<Peak>,
    pub(crate) size: u64,
    ghost counted: { total_size peaks.items ≡ size },
}

impl CompactTree {
    ghost use Rattle.rp_seal.specs.Tree.{IsTreeOver, size_of};

    /// Creates a tree without leaves.
    pub fn new(alloc: Global) -> CompactTree
        ensures { IsTreeOver result [] }
    {
        CompactTree {
            peaks: Vec::new(alloc),
            size: 0,
        }
    }

    /// Returns the number of leaves.
    pub fn size(&self) -> u64
        ensures value { result ≡ size_of self.now }
        ensures count { (hashes : List (List ℕ)) → IsTreeOver self.now hashes → result ≡ length hashes }
    {
        self.size
    }

    /// Appends a leaf with the hash `leaf`.
    ///
    /// # Errors
    ///
    /// `AllocError` if there is no memory for one more hash; the tree is as before.
    pub fn push(&mut self, leaf: NodeHash) -> Result<(), AllocError>
        requires { size_of self.old + 1 < 2 ^ 64 }
        ensures ok { OnOk result ((hashes : List (List ℕ)) → IsTreeOver self.old hashes → IsTreeOver self.new (hashes ++ bytes_of leaf ∷ [])) }
        ensures err { OnErr result ((hashes : List (List ℕ)) → IsTreeOver self.old hashes → IsTreeOver self.new hashes) }
    {
        self.peaks.reserve(1)?;
        let top = merge(
            &mut self.peaks,
            Peak {
                root: leaf,
                size: 1,
            },
        );
        self.peaks.push(top).unwrap();
        self.size += 1;
        Ok(())
    }

    /// Returns the root hash.
    pub fn root(&self) -> NodeHash
        ensures { (hashes : List (List ℕ)) → IsTreeOver self.now hashes → bytes_of result ≡ root_of hashes }
    {
        match self.peaks.split_last() {
            Some((last, before)) => root_over(before, last.root),
            None => empty_root(),
        }
    }
}
