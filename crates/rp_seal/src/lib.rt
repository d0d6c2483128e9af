#![tactic(auto)]
//! Merkle trees over SHA-256 (RFC 9162, section 2.1): tree hashes, proofs of inclusion and of consistency, made and
//! checked; and the entry of an act in the log of a book. docs/seal.md has the format, and says what an accepted proof
//! means.

mod act;
mod consistency;
mod encoding;
mod hash;
mod hashing;
mod inclusion;
mod laws;
mod peak;
mod text;
mod threads;
mod tree;

pub use act::SealedAct;
pub use consistency::{check_consistency, prove_consistency};
pub use encoding::{encode_act, encoding_is_injective};
pub use hash::NodeHash;
pub use hashing::{empty_root, leaf_hash, node_hash, root_of};
pub use inclusion::{check_inclusion, prove_inclusion};
pub use laws::{tree_hash_equations, tree_hash_is_binding};
pub use threads::root_by_threads;
pub use tree::CompactTree;
