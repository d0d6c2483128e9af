//! Subtrees of which a compact tree has the root hashes.

use crate::hash::NodeHash;

/// The root hash of a perfect subtree, and the number of its leaves.
#[derive(Clone, Copy)]
pub struct Peak {
    pub root: NodeHash,
    pub size: u64,
}
