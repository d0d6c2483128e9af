//! An act with its proof of inclusion, as a file.

use rp_seal::{NodeHash, SealedAct};

/// An act with its proof of inclusion.
#[derive(Drop)]
pub struct ActProof<'a> {
    /// The act.
    pub act: SealedAct<'a>,
    /// The number of entries of the log for which the proof is.
    pub size: u64,
    /// The hashes of the proof, the one next to the leaf first.
    pub proof: Vec<NodeHash>,
}
