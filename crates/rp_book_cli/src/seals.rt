//! Seals of a book, and what is asked of a book by a seal.

use crate::fault::Fault;
use crate::seal_fault::SealFault;
use crate::seal_text::seal_in;
use rp_book::Book;
use rp_book_service::Stop;
use rp_io::StdSink;
use rp_seal_text::Checkpoint;
use rp_sealed_book::{SealVerdict, link, prove, put_acts, seal, verify};
use std::thread::Threads;

/// Writes the seal of `book` under `origin`.
pub fn write_seal<T: Threads + Sync, B: Book>(
    rt: &HostRuntime,
    threads: &T,
    book: &B,
    origin: &str,
) -> Result<(), Fault> {
    let mut sink = StdSink::new(rt.stdout());
    if seal(threads, rt.alloc(), book, origin, &mut sink).map_err(Stop::from)? {
        Ok(())
    } else {
        Err(Fault::Seal(SealFault::NoOrigin))
    }
}

/// Returns what the verdict is if the book does not begin with the sealed acts.
fn refusal_of(verdict: SealVerdict) -> Result<(), Fault> {
    match verdict {
        SealVerdict::Begins => Ok(()),
        SealVerdict::Differs => Err(Fault::Seal(SealFault::Differs)),
        SealVerdict::Shorter => Err(Fault::Seal(SealFault::Shorter)),
    }
}

/// Writes that `book` begins with the acts of the seal in `text`.
///
/// # Errors
/// `Seal` if it does not, or if `text` begins with no seal.
pub fn write_verified<T: Threads + Sync, B: Book>(
    rt: &HostRuntime,
    threads: &T,
    book: &B,
    text: &[u8],
) -> Result<(), Fault> {
    let seal = seal_in(rt.alloc(), text)?;
    let verdict = verify(threads, rt.alloc(), book, &seal).map_err(Stop::Memory)?;
    refusal_of(verdict)?;
    write_accepted(rt, &seal)
}

/// Writes that the acts of `seal` are accepted.
fn write_accepted(rt: &HostRuntime, seal: &Checkpoint) -> Result<(), Fault> {
    let size = seal.size;
    let done = println!(rt; "accepted {size} acts");
    done.map_err(|_| Fault::Stopped(Stop::Put))
}

/// Writes the act of `book` with the number `number`, with the proof that `book` has it.
///
/// # Errors
/// `Seal` if there is no such act.
pub fn write_proof<T: Threads + Sync, B: Book>(
    rt: &HostRuntime,
    threads: &T,
    book: &B,
    number: u32,
) -> Result<(), Fault> {
    let mut sink = StdSink::new(rt.stdout());
    if prove(threads, rt.alloc(), book, number, &mut sink).map_err(Stop::from)? {
        Ok(())
    } else {
        Err(Fault::Seal(SealFault::NoAct))
    }
}

/// Writes the proof that `book` continues the acts of the seal in `text`.
///
/// # Errors
/// `Seal` if it does not, or if `text` begins with no seal.
pub fn write_link<T: Threads + Sync, B: Book>(
    rt: &HostRuntime,
    threads: &T,
    book: &B,
    text: &[u8],
) -> Result<(), Fault> {
    let seal = seal_in(rt.alloc(), text)?;
    let mut sink = StdSink::new(rt.stdout());
    let verdict = link(threads, rt.alloc(), book, &seal, &mut sink).map_err(Stop::from)?;
    refusal_of(verdict)
}

/// Writes the acts of `book` from the number `from` on.
pub fn write_acts<B: Book>(rt: &HostRuntime, book: &B, from: u32) -> Result<(), Fault> {
    let mut sink = StdSink::new(rt.stdout());
    put_acts(rt.alloc(), book, from, &mut sink).map_err(Stop::from)?;
    Ok(())
}
