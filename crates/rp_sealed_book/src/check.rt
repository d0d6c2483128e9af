//! Proofs, checked without a book.
ghost use Rattle.std.specs.Prelude.{◌↔◌, IfOk, IsTrue};
ghost use Rattle.rp_seal_text.specs.Checkpoint.{fields_of};
ghost use Rattle.rp_seal_text.specs.ProofFiles.{act_proof_fields, link_fields};
ghost use Rattle.rp_sealed_book.specs.Proof.{Continues, HasAct, LeadsFrom, LeadsToSeal};

use rp_seal::{check_consistency, check_inclusion, encode_act};
use rp_seal_text::{ActProof, Checkpoint, Link};
use std::alloc::{AllocError, Global};

/// Returns whether `proof` shows that the book of `seal` has the act of `proof`.
///
/// If it does, every book with this seal has the act with its number: its lines, when it was added, by whom and under
/// which deed. The one way out is a collision of SHA-256.
///
/// # Errors
///
/// `AllocError` if there is not enough memory.
pub fn check_act(alloc: Global, proof: &ActProof<'_>, seal: &Checkpoint) -> Result<bool, AllocError>
    ensures exact { IfOk result (λ yes. IsTrue yes ↔ LeadsToSeal (act_proof_fields proof.now) (fields_of seal.now)) }
    // Each log with this seal has the act, or two strings have one SHA-256: two of those that are hashed to compute its root hash
    // and to follow the proof.
    ensures sound { IfOk result (λ yes. IsTrue yes → HasAct (act_proof_fields proof.now) (fields_of seal.now)) }
{
    let bytes = encode_act(alloc, &proof.act)?;
    let Some(place) = proof.act.number.checked_sub(1) else {
        return Ok(false);
    };
    if proof.size != seal.size {
        return Ok(false);
    }
    Ok(check_inclusion(
        &seal.root,
        seal.size,
        u64::from(place),
        &bytes,
        &proof.proof,
    ))
}

/// Returns whether `link` shows that the book of `new` begins with the acts of `old`.
///
/// If it does, every book with the seal `new` begins with the acts of every book with the seal `old`. The one way out
/// is a collision of SHA-256.
pub fn check_link(old: &Checkpoint, new: &Checkpoint, link: &Link) -> bool
    ensures exact { IsTrue result ↔ LeadsFrom (fields_of old.now) (fields_of new.now) (link_fields link.now) }
    // Each log with the seal `new` begins with each that has the seal `old`, or two strings have one SHA-256: two of those that
    // are hashed to compute the root hashes of both and to follow the link.
    ensures sound { IsTrue result → Continues (fields_of old.now) (fields_of new.now) (link_fields link.now) }
{
    if link.from != old.size || link.to != new.size {
        return false;
    }
    check_consistency(old.size, &old.root, new.size, &new.root, &link.proof)
}
