//! Seals and the texts that go with them, read from files.

use crate::fault::Fault;
use crate::seal_fault::{SealFault, Text};
use rp_book_service::Stop;
use rp_io::{IntakeFault, StdSource, read_whole};
use rp_seal_text::{Checkpoint, read_checkpoint};
use std::alloc::{AllocError, Global};
use std::fs;

/// The most bytes of a text. The lines of an act, which a proof has, may be all of a script.
const MOST_TEXT_BYTES: usize = 33_554_432;

/// The most bytes of a stream of acts.
const MOST_ACTS_BYTES: usize = 268_435_456;

/// Returns why a file was not read.
fn intake_fault(fault: IntakeFault, text: Text) -> Fault {
    match fault {
        IntakeFault::TooLong => Fault::Seal(SealFault::Other(text)),
        IntakeFault::Failed => Fault::Seal(SealFault::Unread(text)),
        IntakeFault::Memory(error) => Fault::Stopped(Stop::Memory(error)),
    }
}

/// Reads the file at `path`, which is to have `text`.
///
/// # Errors
/// `Seal` if the file cannot be read, or if it is longer than each such text; `Stopped` if there is not enough memory.
pub fn read_text(rt: &HostRuntime, path: &str, text: Text) -> Result<Vec<u8>, Fault> {
    let Ok(file) = fs::open(rt, path) else {
        return Err(Fault::Seal(SealFault::Unread(text)));
    };
    let mut source = StdSource::new(file);
    match read_whole(rt.alloc(), &mut source, MOST_TEXT_BYTES) {
        Ok(bytes) => Ok(bytes),
        Err(fault) => Err(intake_fault(fault, text)),
    }
}

/// Reads standard input, which is to have the acts of a book, to its end.
///
/// # Errors
/// `Seal` if a read fails, or if there are more than 268,435,456 bytes; `Stopped` if there is not enough memory.
pub fn read_acts_text(rt: &HostRuntime) -> Result<Vec<u8>, Fault> {
    let mut source = StdSource::new(rt.stdin());
    match read_whole(rt.alloc(), &mut source, MOST_ACTS_BYTES) {
        Ok(bytes) => Ok(bytes),
        Err(fault) => Err(intake_fault(fault, Text::Acts)),
    }
}

/// Returns what was read, if there was enough memory and the bytes are such a text.
pub fn found_text<T>(read: Result<Option<T>, AllocError>, text: Text) -> Result<T, Fault> {
    match read {
        Ok(Some(found)) => Ok(found),
        Ok(None) => Err(Fault::Seal(SealFault::Other(text))),
        Err(error) => Err(Fault::Stopped(Stop::Memory(error))),
    }
}

/// Reads the seal that `bytes` begin with.
///
/// # Errors
/// `Seal` if they begin with no seal; `Stopped` if there is not enough memory.
pub fn seal_in(alloc: Global, bytes: &[u8]) -> Result<Checkpoint, Fault> {
    found_text(read_checkpoint(alloc, bytes), Text::Seal)
}
