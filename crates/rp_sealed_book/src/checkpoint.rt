//! The checkpoint of a book.
ghost use Rattle.std.specs.Prelude.{◌≡◌, ◌≤◌, true, false, IfOk, IfSome, MatchOption, string_bytes};
ghost use Rattle.rp_seal_text.specs.Checkpoint.{lines_of};
ghost use Rattle.rp_seal_text.specs.Origin.{is_origin};
ghost use Rattle.rp_seal.specs.Hash.{bytes_of};
ghost use Rattle.rp_sealed_book.specs.Log.{checkpoint_of, log_of, log_root};
ghost use Rattle.rp_sealed_book.specs.Proof.{PutsSeal};

use crate::log::leaf_hashes;
use rp_book::Book;
use rp_io::Sink;
use rp_scripts::{OutputFault, put_lines};
use rp_seal::{NodeHash, root_by_threads};
use rp_seal_text::{Checkpoint, checkpoint_text};
use std::alloc::{AllocError, Global};
use std::thread::Threads;

/// Returns the root hash of the acts of `book`, as [`seal`] puts it. It is computed by `threads`.
///
/// # Errors
///
/// `AllocError` if there is not enough memory.
pub fn root<T: Threads + Sync, B: Book>(
    threads: &T,
    alloc: Global,
    book: &B,
) -> Result<NodeHash, AllocError>
    ensures { IfOk result (λ root. IfSome (B.script book.now) (λ script. IfSome (B.acts book.now) (λ acts.
        bytes_of root ≡ log_root (log_of script acts)))) }
{
    let leaves = leaf_hashes(threads, alloc, book.text(), book.acts())?;
    Ok(root_by_threads(threads, &leaves))
}

/// Returns the text of the checkpoint of `book` under `origin`; `None` if `origin` is empty or has an ASCII control
/// character.
fn text_of<T: Threads + Sync, B: Book>(
    threads: &T,
    alloc: Global,
    book: &B,
    origin: &str,
) -> Result<Option<String>, AllocError>
    ensures { IfOk result (λ found. MatchOption found (false ≡ is_origin origin.now) (λ text. (true ≡ is_origin origin.now)
        × IfSome (B.script book.now) (λ script. IfSome (B.acts book.now) (λ acts. string_bytes text ≡ lines_of (checkpoint_of origin.now (log_of script acts)))))) }
{
    let leaves = leaf_hashes(threads, alloc, book.text(), book.acts())?;
    let origin = String::from_str(alloc, origin)?;
    let root = root_by_threads(threads, &leaves);
    let Some(checkpoint) = Checkpoint::new(origin, leaves.len() as u64, root) else {
        return Ok(None);
    };
    let text = checkpoint_text(alloc, &checkpoint)?;
    Ok(Some(text))
}

/// Puts into `sink` the checkpoint of `book` under `origin`: the origin, how many acts the book has, and the root hash
/// of its acts. Returns whether `origin` may be one: it is not empty and has no ASCII control character. Otherwise
/// nothing is put. The root hash is computed by `threads`.
///
/// # Errors
///
/// - `Put` if a put fails.
/// - `Memory` if there is not enough memory.
pub fn seal<T: Threads + Sync, B: Book, K: Sink>(
    threads: &T,
    alloc: Global,
    book: &B,
    origin: &str,
    sink: &mut K,
) -> Result<bool, OutputFault>
    ensures counts { K.faults sink.old ≤ K.faults sink.new }
    ensures origin { IfOk result (λ written. written ≡ is_origin origin.now) }
    ensures text { IfOk result (λ written. IfSome (B.script book.now) (λ script. IfSome (B.acts book.now) (λ acts.
        PutsSeal origin.now (log_of script acts) written (K.said sink.old) (K.said sink.new)))) }
{
    let Some(text) = text_of(threads, alloc, book, origin)? else {
        return Ok(false);
    };
    put_lines(sink, text.as_bytes())?;
    Ok(true)
}
