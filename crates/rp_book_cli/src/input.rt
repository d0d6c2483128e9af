//! What is read before a book is opened: the lines of standard input, or a seal.

use crate::act::{Act, Query};
use crate::fault::Fault;
use crate::limits::MOST_SCRIPT_BYTES;
use crate::seal_fault::Text;
use crate::seal_text::{read_acts_text, read_text};
use rp_book_service::{Length, Stop};
use rp_io::{IntakeFault, StdSource, read_whole};

/// Returns why standard input was not read.
fn stop_of(fault: IntakeFault) -> Stop {
    match fault {
        IntakeFault::TooLong => Stop::TooLong(Length::MoreThan(MOST_SCRIPT_BYTES)),
        IntakeFault::Failed => Stop::Read,
        IntakeFault::Memory(error) => Stop::Memory(error),
    }
}

/// Reads standard input to its end.
///
/// # Errors
/// `TooLong` as soon as there is a byte that no script has room for; `Read` if a read fails; `Memory` if there is not enough
/// memory.
fn read_lines(rt: &HostRuntime) -> Result<Vec<u8>, Stop> {
    let mut source = StdSource::new(rt.stdin());
    match read_whole(rt.alloc(), &mut source, MOST_SCRIPT_BYTES) {
        Ok(bytes) => Ok(bytes),
        Err(fault) => Err(stop_of(fault)),
    }
}

/// Reads what `act` needs, to its end: standard input, or the file of a seal. Returns no bytes for an act that needs
/// none.
///
/// # Errors
/// `Stopped` if standard input is not read to its end; `Seal` if the file of the seal is not.
pub fn read_input(rt: &HostRuntime, act: Act<'_>) -> Result<Vec<u8>, Fault> {
    match act {
        Act::Add(_) => Ok(read_lines(rt)?),
        Act::Replay => read_acts_text(rt),
        Act::Read(Query::Verify(path) | Query::Link(path)) => read_text(rt, path, Text::Seal),
        _ => Ok(Vec::new(rt.alloc())),
    }
}
