//! An act, with the proof that a book has it.
ghost use Rattle.std.specs.Prelude.{◌≡◌, ◌≤◌, None, map, option_map, IfOk, IfSome, MatchOption};
ghost use Rattle.rp_book.specs.Act.{act_of};
ghost use Rattle.rp_seal.specs.Act.{entry_of};
ghost use Rattle.rp_seal_text.specs.ProofFiles.{act_proof_fields};
ghost use Rattle.rp_sealed_book.specs.Log.{entry_numbered, log_of};
ghost use Rattle.rp_sealed_book.specs.Proof.{IsProofOf, PutsProof};

use crate::log::{entry_at, leaf_hashes};
use rp_book::{Act, Book, start_of};
use rp_io::Sink;
use rp_scripts::{OutputFault, put_lines};
use rp_seal::{SealedAct, prove_inclusion};
use rp_seal_text::{ActProof, act_proof_text};
use std::alloc::{AllocError, Global};
use std::thread::Threads;

/// Returns the entry of the act `number` of `acts`, the acts of `script`; `None` if there is no such act.
fn entry_with<'a>(script: &'a [u8], acts: &'a [Act], number: u32) -> Option<SealedAct<'a>>
    ensures { option_map entry_of result ≡ entry_numbered (log_of script.now (map act_of acts.now)) number }
{
    let place = (number as usize).checked_sub(1)?;
    let act = acts.get(place)?;
    Some(entry_at(number, script, start_of(acts, place), act))
}

/// Returns the act `number` of `acts`, the acts of `script`, with the proof that they have it; `None` if there is no
/// such act.
fn proof_of<'a, T: Threads + Sync>(
    threads: &T,
    alloc: Global,
    script: &'a [u8],
    acts: &'a [Act],
    number: u32,
) -> Result<Option<ActProof<'a>>, AllocError>
    ensures { IfOk result (λ found. MatchOption found (entry_numbered (log_of script.now (map act_of acts.now)) number ≡ None)
        (λ proof. IsProofOf (log_of script.now (map act_of acts.now)) number (act_proof_fields proof))) }
{
    let Some(act) = entry_with(script, acts, number) else {
        return Ok(None);
    };
    let leaves = leaf_hashes(threads, alloc, script, acts)?;
    let proof = prove_inclusion(alloc, &leaves, number as usize - 1)?;
    let size = leaves.len() as u64;
    Ok(Some(ActProof { act, size, proof }))
}

/// Puts into `sink` the act `number` of `book`, with the proof that the book has it. Returns whether there is such an
/// act; otherwise nothing is put. The hashes of the book are computed by `threads`.
///
/// # Errors
///
/// - `Put` if a put fails.
/// - `Memory` if there is not enough memory.
pub fn prove<T: Threads + Sync, B: Book, K: Sink>(
    threads: &T,
    alloc: Global,
    book: &B,
    number: u32,
    sink: &mut K,
) -> Result<bool, OutputFault>
    ensures counts { K.faults sink.old ≤ K.faults sink.new }
    ensures proof { IfOk result (λ found. IfSome (B.script book.now) (λ script. IfSome (B.acts book.now) (λ acts.
        PutsProof (log_of script acts) number found (K.said sink.old) (K.said sink.new)))) }
{
    let Some(proof) = proof_of(threads, alloc, book.text(), book.acts(), number)? else {
        return Ok(false);
    };
    let text = act_proof_text(alloc, &proof)?;
    put_lines(sink, &text)?;
    Ok(true)
}
