//! A book, compared with a seal.
ghost use Rattle.std.specs.Prelude.{◌≡◌, ◌↔◌, List, IfOk, IfSome, IsTrue};
ghost use Rattle.rp_seal.specs.Act.{ActEntry};
ghost use Rattle.rp_seal.specs.Hash.{bytes_of, hashes_of};
ghost use Rattle.rp_seal_text.specs.Checkpoint.{fields_of};
ghost use Rattle.rp_sealed_book.specs.Log.{leaves_of, log_of};
ghost use Rattle.rp_sealed_book.specs.Verdict.{Binds, IsVerdict};
ghost use Rattle.rp_sealed_book.specs.declared.verdict.SealVerdict.TheVariants.{Begins};

use crate::log::leaf_hashes;
use crate::verdict::SealVerdict;
use rp_book::Book;
use rp_seal::{NodeHash, root_by_threads};
use rp_seal_text::Checkpoint;
use std::alloc::{AllocError, Global};
use std::thread::Threads;

/// Returns whether two hashes are equal.
fn is_equal(one: &NodeHash, other: &NodeHash) -> bool
    ensures { IsTrue result ↔ (bytes_of one.now ≡ bytes_of other.now) }
{
    *one == *other
}

/// Compares the leaf hashes of a log with `seal`.
pub(crate) fn compare<T: Threads + Sync>(
    threads: &T,
    leaves: &[NodeHash],
    seal: &Checkpoint,
) -> SealVerdict
    ensures { (log : List ActEntry) → hashes_of leaves.now ≡ leaves_of log → IsVerdict (fields_of seal.now) log result }
{
    if seal.size > leaves.len() as u64 {
        return SealVerdict::Shorter;
    }
    let root = root_by_threads(threads, &leaves[..seal.size as usize]);
    if is_equal(&root, &seal.root) {
        SealVerdict::Begins
    } else {
        SealVerdict::Differs
    }
}

/// Compares `book` with `seal`. Returns `Begins` if the first acts of the book, as many as were sealed, have the sealed
/// root hash, `Differs` if they have another one, and `Shorter` if there are fewer acts.
///
/// After `Begins` the acts that were sealed, whatever they were, are the first acts of the book: their lines, when they
/// were added, by whom and under which deed. The one way out is a collision of SHA-256. The hashes of the book are
/// computed by `threads`.
///
/// # Errors
///
/// `AllocError` if there is not enough memory.
pub fn verify<T: Threads + Sync, B: Book>(
    threads: &T,
    alloc: Global,
    book: &B,
    seal: &Checkpoint,
) -> Result<SealVerdict, AllocError>
    ensures verdict { IfOk result (λ verdict. IfSome (B.script book.now) (λ script. IfSome (B.acts book.now) (λ acts.
        IsVerdict (fields_of seal.now) (log_of script acts) verdict))) }
    // Each list of acts that was sealed so is the beginning of the book's, or two strings have one SHA-256: two of those that
    // are hashed to compute the root hashes of both.
    ensures sound { IfOk result (λ verdict. verdict ≡ Begins → IfSome (B.script book.now) (λ script. IfSome (B.acts book.now) (λ acts.
        Binds (fields_of seal.now) (log_of script acts)))) }
{
    let leaves = leaf_hashes(threads, alloc, book.text(), book.acts())?;
    Ok(compare(threads, &leaves, seal))
}
