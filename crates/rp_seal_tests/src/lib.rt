#![tactic(auto)]
//! Tests of `rp_seal` and `rp_seal_text` against vectors from outside.

#[cfg(test)]
mod act_streams;
#[cfg(test)]
mod acts;
#[cfg(test)]
mod checkpoints;
#[cfg(test)]
mod proof_files;
#[cfg(test)]
mod streams;
#[cfg(test)]
mod trees;
#[cfg(test)]
mod vectors;
