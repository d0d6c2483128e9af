//! The files of a proof, read and written: act proofs and links.
ghost use Rattle.std.specs.Prelude.{◌≡◌, ◌<◌, ◌≤◌, ◌^◌, ◌++◌, ℕ, List, length, IfOk, IfSome, IsSomeAnd};
ghost use Rattle.rp_seal.specs.Act.{ActEntry, entry_of};
ghost use Rattle.rp_seal_text.specs.ActText.{IsActText};
ghost use Rattle.rp_seal_text.specs.ProofFiles.{ActProofFields, IsActProof, IsLink, LinkFields, act_head, act_proof_fields, act_proof_text, link_fields, link_head, link_text};

use crate::act_proof::ActProof;
use crate::acts::{read_act, write_act};
use crate::fields::{take_number, take_prefix, write_number};
use crate::hashes::{read_proof, write_proof};
use crate::link::Link;
use rp_seal::SealedAct;
use std::alloc::{AllocError, Global};

/// The first line of an act proof, with its line end.
const ACT_PROOF_MARK: &[u8] = b"rpstore act 1\n";

/// The first line of a link, with its line end.
const LINK_MARK: &[u8] = b"rpstore link 1\n";

/// Returns the text of `proof`. [`read_act_proof`] reads it again if `proof` has at most 64 hashes.
///
/// # Errors
///
/// `AllocError` if there is no memory for the text.
pub fn act_proof_text(alloc: Global, proof: &ActProof<'_>) -> Result<Vec<u8>, AllocError>
    ensures text { IfOk result (λ text. text.items ≡ act_proof_text (act_proof_fields proof.now)) }
    // So `read_act_proof` reads the text again.
    ensures valid { IfOk result (λ _. length proof.now.proof.items ≤ 64 → IsActProof (act_proof_fields proof.now)) }
{
    let mut text = Vec::from_slice(alloc, ACT_PROOF_MARK)?;
    write_act(&mut text, &proof.act)?;
    write_number(&mut text, b"size", proof.size)?;
    write_proof(&mut text, proof.proof.as_slice())?;
    Ok(text)
}

/// Returns the act and the number of entries with which the text of an act proof begins, and what follows.
fn take_act_head(text: &[u8]) -> Option<(SealedAct<'_>, u64, &[u8])>
    ensures found { IfSome result (λ p. text.now ≡ act_head (entry_of p.0) p.1 ++ p.2.now) }
    ensures each { (act : ActEntry) (size : ℕ) (rest : List ℕ) → IsActText act → size < 2 ^ 64 → text.now ≡ act_head act size ++ rest
        → IsSomeAnd result (λ p. (entry_of p.0 ≡ act) × (p.1 ≡ size) × (p.2.now ≡ rest)) }
    ensures valid { IfSome result (λ p. IsActText (entry_of p.0) × (p.1 < 2 ^ 64)) }
{
    let after_mark = take_prefix(ACT_PROOF_MARK, text)?;
    let (act, after_act) = read_act(after_mark)?;
    let (size, rest) = take_number(b"size", after_act)?;
    Some((act, size, rest))
}

/// Returns the act proof whose text is `text`; `None` unless `text` is the text of an act proof with at most 64 hashes.
///
/// # Errors
///
/// `AllocError` if there is no memory for the hashes.
pub fn read_act_proof(alloc: Global, text: &[u8]) -> Result<Option<ActProof<'_>>, AllocError>
    ensures found { IfOk result (λ found. IfSome found (λ p. text.now ≡ act_proof_text (act_proof_fields p))) }
    ensures each { (f : ActProofFields) → IsActProof f → text.now ≡ act_proof_text f
        → IfOk result (λ found. IsSomeAnd found (λ p. act_proof_fields p ≡ f)) }
    ensures valid { IfOk result (λ found. IfSome found (λ p. IsActProof (act_proof_fields p))) }
{
    let Some((act, size, rest)) = take_act_head(text) else {
        return Ok(None);
    };
    let Some(proof) = read_proof(alloc, rest)? else {
        return Ok(None);
    };
    Ok(Some(ActProof { act, size, proof }))
}

/// Returns the text of `link`. [`read_link`] reads it again if `link` has at most 64 hashes.
///
/// # Errors
///
/// `AllocError` if there is no memory for the text.
pub fn link_text(alloc: Global, link: &Link) -> Result<Vec<u8>, AllocError>
    ensures text { IfOk result (λ text. text.items ≡ link_text (link_fields link.now)) }
    // So `read_link` reads the text again.
    ensures valid { IfOk result (λ _. length link.now.proof.items ≤ 64 → IsLink (link_fields link.now)) }
{
    let mut text = Vec::from_slice(alloc, LINK_MARK)?;
    write_number(&mut text, b"from", link.from)?;
    write_number(&mut text, b"to", link.to)?;
    write_proof(&mut text, link.proof.as_slice())?;
    Ok(text)
}

/// Returns the two numbers of entries with which the text of a link begins, and what follows.
fn take_link_head(text: &[u8]) -> Option<(u64, u64, &[u8])>
    ensures found { IfSome result (λ p. text.now ≡ link_head p.0 p.1 ++ p.2.now) }
    ensures each { (from to : ℕ) (rest : List ℕ) → from < 2 ^ 64 → to < 2 ^ 64 → text.now ≡ link_head from to ++ rest
        → IsSomeAnd result (λ p. (p.0 ≡ from) × (p.1 ≡ to) × (p.2.now ≡ rest)) }
    ensures valid { IfSome result (λ p. (p.0 < 2 ^ 64) × (p.1 < 2 ^ 64)) }
{
    let after_mark = take_prefix(LINK_MARK, text)?;
    let (from, after_from) = take_number(b"from", after_mark)?;
    let (to, rest) = take_number(b"to", after_from)?;
    Some((from, to, rest))
}

/// Returns the link whose text is `text`; `None` unless `text` is the text of a link with at most 64 hashes.
///
/// # Errors
///
/// `AllocError` if there is no memory for the hashes.
pub fn read_link(alloc: Global, text: &[u8]) -> Result<Option<Link>, AllocError>
    ensures found { IfOk result (λ found. IfSome found (λ l. text.now ≡ link_text (link_fields l))) }
    ensures each { (f : LinkFields) → IsLink f → text.now ≡ link_text f
        → IfOk result (λ found. IsSomeAnd found (λ l. link_fields l ≡ f)) }
    ensures valid { IfOk result (λ found. IfSome found (λ l. IsLink (link_fields l))) }
{
    let Some((from, to, rest)) = take_link_head(text) else {
        return Ok(None);
    };
    let Some(proof) = read_proof(alloc, rest)? else {
        return Ok(None);
    };
    Ok(Some(Link { from, to, proof }))
}
