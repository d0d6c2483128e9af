//! The lines of an input.
ghost use Rattle.std.specs.Prelude.{◌≡◌, ◌+◌, ◌≤◌, length, IfErr, IfOk, IfSome};
ghost use Rattle.rp_book.specs.Lines.{IsEnded};
ghost use Rattle.rp_reports.specs.Output.{most_script_bytes};
ghost use Rattle.rp_book_service.specs.Added.{ended};
ghost use Rattle.rp_book_service.specs.Cause.{HasInputCause, stop_of_intake};
ghost use Rattle.rp_book_service.specs.Layers.{lines_in};

use crate::layers::put_in_layer;
use crate::stop::{Length, Stop};
use rp_io::{IntakeFault, Source, read_whole};
use rp_lists::Name;
use std::alloc::{AllocError, Global};

/// The most bytes of a script.
pub const MOST_BYTES: usize = 16_777_216;

/// Returns `lines` with a line feed at the end of the last line, if it lacks one.
pub fn end_lines(mut lines: Vec<u8>) -> Result<Vec<u8>, AllocError>
    ensures lines { IfOk result (λ all. all.items ≡ ended lines.items) }
    ensures end { IfOk result (λ all. IsEnded all.items) }
{
    match lines.as_slice() {
        [] | [.., b'\n'] => {}
        _ => lines.push(b'\n')?,
    }
    Ok(lines)
}

/// Returns why lines that are to stand behind a script of so many bytes were not read.
fn intake_stop(fault: IntakeFault, script: usize) -> Stop
    requires { script ≤ most_script_bytes }
    ensures { result ≡ stop_of_intake script fault }
{
    match fault {
        IntakeFault::Failed => Stop::Read,
        IntakeFault::TooLong => Stop::TooLong(Length::MoreThan(script + MOST_BYTES)),
        IntakeFault::Memory(error) => Stop::Memory(error),
    }
}

/// Reads the lines of `source` to its end, which are to be added to `script`. If `layer` is named, a line that chooses
/// it is put before them.
///
/// # Errors
///
/// `TooLong` if `script` and the lines together are longer than a script may be.
pub fn read_lines<S: Source>(
    alloc: Global,
    script: &[u8],
    layer: Option<Name>,
    source: &mut S,
) -> Result<Vec<u8>, Stop>
    requires { length script.now ≤ most_script_bytes }
    ensures counts { S.faults source.old ≤ S.faults source.new }
    ensures lines { IfOk result (λ lines. IfSome (S.left source.old) (λ input. lines.items ≡ lines_in layer (ended input))) }
    ensures end { IfOk result (λ lines. IsEnded lines.items) }
    ensures short { IfOk result (λ lines. length script.now + length lines.items ≤ most_script_bytes) }
    ensures cause { IfErr result (HasInputCause (S.faults source.old) (S.faults source.new) script.now layer (S.left source.old)) }
{
    let input = match read_whole(alloc, source, MOST_BYTES) {
        Ok(input) => input,
        Err(fault) => return Err(intake_stop(fault, script.len())),
    };
    let lines = put_in_layer(alloc, layer, end_lines(input)?)?;
    if lines.len() > MOST_BYTES - script.len() {
        return Err(Stop::TooLong(Length::Exactly(script.len() + lines.len())));
    }
    Ok(lines)
}
