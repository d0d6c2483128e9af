//! The acts of another book, which are added as they are.

use crate::fault::Fault;
use crate::seal_fault::{SealFault, Text};
use crate::seal_text::found_text;
use rp_book::Book;
use rp_book_service::replay::{Replayed, replay};
use rp_seal_text::read_acts;
use std::thread::Threads;

/// Adds the acts of `text`, which another book wrote, to `book`. Returns whether a line is refused; nothing is added
/// then.
///
/// # Errors
/// `Seal` if `text` is no stream of acts, or if they do not continue `book`; `Stopped` if the book fails or there is not enough
/// memory. If the book fails, the acts before are added.
pub fn add_acts<T: Threads + Sync, B: Book>(
    rt: &HostRuntime,
    threads: &T,
    book: &mut B,
    text: &[u8],
) -> Result<bool, Fault> {
    let acts = found_text(read_acts(rt.alloc(), text), Text::Acts)?;
    let outcome = replay(threads, rt.alloc(), book, &acts)?;
    match outcome {
        Replayed::Whole => {
            let count = acts.len();
            let _ = eprintln!(rt; "rpstore-book: {count} acts were added");
            Ok(false)
        }
        Replayed::Refused => {
            let _ = eprintln!(rt;
                "rpstore-book: a line of the acts is refused; nothing was added: check the report of the other book"
            );
            Ok(true)
        }
        Replayed::Unlike { .. } => Err(Fault::Seal(SealFault::NoContinuation)),
    }
}
