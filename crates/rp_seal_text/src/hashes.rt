//! The hashes of a proof, read and written.
ghost use Rattle.std.specs.Prelude.{◌≡◌, ◌≤◌, ◌++◌, ℕ, List, length, IfOk, IfSome, IsSomeAnd, OnOk};
ghost use Rattle.rp_seal.specs.Hash.{bytes_of, hashes_of};
ghost use Rattle.rp_seal_text.specs.Hashes.{AreHashes, IsHash, hash_line, hash_lines, hashes_text};

use crate::fields::{take_number, write_number};
use crate::lines::next_line;
use crate::read::read_root;
use base64::engine::general_purpose::STANDARD;
use rp_seal::NodeHash;
use std::alloc::{AllocError, Global};

/// The greatest number of hashes that are read. No proof in a list of at most 2^63 entries has more.
const MAX_HASHES: u64 = 64;

/// Returns the hash of the line with which `text` begins, and what follows the line.
///
/// # Errors
///
/// `AllocError` if there is no memory for the hash.
fn take_hash(alloc: Global, text: &[u8]) -> Result<Option<(NodeHash, &[u8])>, AllocError>
    ensures found { IfOk result (λ found. IfSome found (λ p. text.now ≡ hash_line (bytes_of p.0) ++ p.1.now)) }
    ensures each { (hash rest : List ℕ) → IsHash hash → text.now ≡ hash_line hash ++ rest
        → IfOk result (λ found. IsSomeAnd found (λ p. (bytes_of p.0 ≡ hash) × (p.1.now ≡ rest))) }
    ensures hash { IfOk result (λ found. IfSome found (λ p. IsHash (bytes_of p.0))) }
{
    let Some((line, rest)) = next_line(text) else {
        return Ok(None);
    };
    let Some(hash) = read_root(alloc, line)? else {
        return Ok(None);
    };
    Ok(Some((hash, rest)))
}

/// Returns the hashes of `text`, if it is `count` lines with a hash each and nothing else.
///
/// # Errors
///
/// `AllocError` if there is no memory for the hashes.
fn read_hashes(
    alloc: Global,
    count: usize,
    text: &[u8],
) -> Result<Option<Vec<NodeHash>>, AllocError>
    ensures found { IfOk result (λ found. IfSome found (λ v. (length v.items ≡ count) × (text.now ≡ hash_lines (hashes_of v.items)))) }
    ensures each { (hashes : List (List ℕ)) → length hashes ≡ count → AreHashes hashes → text.now ≡ hash_lines hashes
        → IfOk result (λ found. IsSomeAnd found (λ v. hashes_of v.items ≡ hashes)) }
    ensures hashes { IfOk result (λ found. IfSome found (λ v. AreHashes (hashes_of v.items))) }
{
    let mut hashes = Vec::with_capacity(alloc, count)?;
    let mut rest = text;
    'lines: for _ in 0..count {
        let Some((hash, more)) = take_hash(alloc, rest)? else {
            return Ok(None);
        };
        hashes.push(hash)?;
        rest = more;
    }
    if rest.is_empty() {
        Ok(Some(hashes))
    } else {
        Ok(None)
    }
}

/// Returns the hashes of a proof if `text` is their text and nothing else. It refuses more than 64 hashes before it
/// takes memory.
///
/// # Errors
///
/// `AllocError` if there is no memory for the hashes.
pub(crate) fn read_proof(alloc: Global, text: &[u8]) -> Result<Option<Vec<NodeHash>>, AllocError>
    ensures found { IfOk result (λ found. IfSome found (λ v. text.now ≡ hashes_text (hashes_of v.items))) }
    ensures few { IfOk result (λ found. IfSome found (λ v. length v.items ≤ 64)) }
    ensures each { (hashes : List (List ℕ)) → length hashes ≤ 64 → AreHashes hashes → text.now ≡ hashes_text hashes
        → IfOk result (λ found. IsSomeAnd found (λ v. hashes_of v.items ≡ hashes)) }
    ensures hashes { IfOk result (λ found. IfSome found (λ v. AreHashes (hashes_of v.items))) }
{
    let Some((count, rest)) = take_number(b"proof", text) else {
        return Ok(None);
    };
    if count > MAX_HASHES {
        return Ok(None);
    }
    read_hashes(alloc, count as usize, rest)
}

/// Appends the line of `hash`.
///
/// # Errors
///
/// `AllocError` if there is no memory for the line.
fn write_hash(text: &mut Vec<u8>, hash: NodeHash) -> Result<(), AllocError>
    ensures text { OnOk result (text.new.items ≡ text.old.items ++ hash_line (bytes_of hash)) }
    ensures hash { OnOk result (IsHash (bytes_of hash)) }
{
    let mut line = [0; 44];
    STANDARD
        .encode_slice(hash.bytes.as_slice(), line.as_mut_slice())
        .unwrap();
    text.extend_from_slice(line.as_slice())?;
    text.push(b'\n')?;
    Ok(())
}

/// Appends the text of the hashes of a proof.
///
/// # Errors
///
/// `AllocError` if there is no memory for the text.
pub(crate) fn write_proof(text: &mut Vec<u8>, hashes: &[NodeHash]) -> Result<(), AllocError>
    ensures text { OnOk result (text.new.items ≡ text.old.items ++ hashes_text (hashes_of hashes.now)) }
    ensures hashes { OnOk result (AreHashes (hashes_of hashes.now)) }
{
    write_number(text, b"proof", hashes.len() as u64)?;
    for hash in hashes {
        write_hash(text, *hash)?;
    }
    Ok(())
}
