//! A link between two lists of acts, as a file.

use rp_seal::NodeHash;

/// A link: the proof that a list of acts begins with an older one.
#[derive(Drop)]
pub struct Link {
    /// The number of entries of the older list.
    pub from: u64,
    /// The number of entries of the newer list.
    pub to: u64,
    /// The hashes of the proof of consistency.
    pub proof: Vec<NodeHash>,
}
