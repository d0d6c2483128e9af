#![tactic(auto)]
//! The texts of a log, written and read: checkpoints (C2SP tlog-checkpoint), acts, act proofs and links. Other tools
//! sign them. docs/seal.md has the formats.

mod act_proof;
mod act_stream;
mod acts;
mod checkpoint;
mod fields;
mod hashes;
mod lines;
mod link;
mod proof_files;
mod read;
mod write;

pub use act_proof::ActProof;
pub use act_stream::read_acts;
pub use acts::{ACTS_MARK, read_act, read_end, write_act, write_end};
pub use checkpoint::Checkpoint;
pub use link::Link;
pub use proof_files::{act_proof_text, link_text, read_act_proof, read_link};
pub use read::read_checkpoint;
pub use write::checkpoint_text;
