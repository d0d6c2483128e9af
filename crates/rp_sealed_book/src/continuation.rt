//! The proof that a book continues the acts of a seal.
ghost use Rattle.std.specs.Prelude.{◌≡◌, ◌≤◌, List, length, IfOk, IfSome};
ghost use Rattle.rp_seal.specs.Act.{ActEntry};
ghost use Rattle.rp_seal.specs.Hash.{hashes_of};
ghost use Rattle.rp_seal_text.specs.Checkpoint.{fields_of};
ghost use Rattle.rp_seal_text.specs.ProofFiles.{link_fields};
ghost use Rattle.rp_sealed_book.specs.Log.{leaves_of, log_of};
ghost use Rattle.rp_sealed_book.specs.Proof.{IsLinkOf, PutsLink};
ghost use Rattle.rp_sealed_book.specs.Verdict.{IsVerdict};

use crate::comparison::compare;
use crate::log::leaf_hashes;
use crate::verdict::SealVerdict;
use rp_book::Book;
use rp_io::Sink;
use rp_scripts::{OutputFault, put_lines};
use rp_seal::{NodeHash, prove_consistency};
use rp_seal_text::{Checkpoint, Link, link_text};
use std::alloc::{AllocError, Global};
use std::thread::Threads;

/// Returns the link from the first `size` acts of a log to all, by the leaf hashes of the log.
fn link_of(alloc: Global, leaves: &[NodeHash], size: u64) -> Result<Link, AllocError>
    requires { size ≤ length leaves.now }
    ensures { IfOk result (λ link. (log : List ActEntry) → hashes_of leaves.now ≡ leaves_of log → IsLinkOf log size (link_fields link)) }
{
    let proof = prove_consistency(alloc, leaves, size as usize)?;
    Ok(Link {
        from: size,
        to: leaves.len() as u64,
        proof,
    })
}

/// Puts into `sink` the proof that `book` continues the acts of `seal`, if it does, and compares the two as
/// [`crate::verify`] does. Nothing is put unless the verdict is `Begins`. The hashes of the book are computed by
/// `threads`.
///
/// # Errors
///
/// - `Put` if a put fails.
/// - `Memory` if there is not enough memory.
pub fn link<T: Threads + Sync, B: Book, K: Sink>(
    threads: &T,
    alloc: Global,
    book: &B,
    seal: &Checkpoint,
    sink: &mut K,
) -> Result<SealVerdict, OutputFault>
    ensures counts { K.faults sink.old ≤ K.faults sink.new }
    ensures verdict { IfOk result (λ verdict. IfSome (B.script book.now) (λ script. IfSome (B.acts book.now) (λ acts.
        IsVerdict (fields_of seal.now) (log_of script acts) verdict))) }
    ensures link { IfOk result (λ verdict. IfSome (B.script book.now) (λ script. IfSome (B.acts book.now) (λ acts.
        PutsLink (log_of script acts) (fields_of seal.now) verdict (K.said sink.old) (K.said sink.new)))) }
{
    let leaves = leaf_hashes(threads, alloc, book.text(), book.acts())?;
    let verdict = compare(threads, &leaves, seal);
    if verdict == SealVerdict::Begins {
        let link = link_of(alloc, &leaves, seal.size)?;
        let text = link_text(alloc, &link)?;
        put_lines(sink, &text)?;
    }
    Ok(verdict)
}
