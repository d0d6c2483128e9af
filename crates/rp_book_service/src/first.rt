//! The first bytes of a source, up to the line feed of its first line or more.
ghost use Rattle.std.specs.Prelude.{◌<◌, ◌≤◌, [], length, IfErr, IfOk};
ghost use Rattle.rp_book_service.specs.Cause.{HasAskCause};
ghost use Rattle.rp_book_service.specs.Session.{IsFirst, IsShort};

use crate::lines::MOST_BYTES;
use crate::session::cut_lines;
use crate::stop::{Length, Stop};
use rp_io::Source;
use std::alloc::Global;

/// The first bytes of a source.
#[derive(Drop)]
pub enum First {
    /// All bytes of the source, none of which is a line feed.
    All(Vec<u8>),
    /// Complete lines, of which there is at least one, and the bytes that came after them.
    Lines(Vec<u8>, Vec<u8>),
}

/// Reads `source` into `buffer` until its first line is complete, or until the source ends.
///
/// # Errors
///
/// - `TooLong` if more than 16,777,216 bytes come before a line feed.
/// - `Read` if a read failed.
/// - `Memory` if memory ran out.
pub fn read_first<S: Source>(
    alloc: Global,
    buffer: &mut [u8],
    source: &mut S,
) -> Result<First, Stop>
    requires { 0 < length buffer.old }
    ensures counts { S.faults source.old ≤ S.faults source.new }
    ensures short { IfOk result IsShort }
    ensures first { IfOk result (IsFirst (S.left source.old) (S.left source.new)) }
    ensures cause { IfErr result (HasAskCause (S.faults source.old) (S.faults source.new) 0 0 [] (S.left source.old)) }
{
    let mut held = Vec::new(alloc);
    loop {
        let Ok(count) = source.read(buffer) else {
            return Err(Stop::Read);
        };
        if count == 0 {
            return Ok(First::All(held));
        }
        if count > MOST_BYTES - held.len() {
            return Err(Stop::TooLong(Length::MoreThan(MOST_BYTES)));
        }
        let (lines, rest) = cut_lines(&buffer[..count]);
        held.extend_from_slice(lines)?;
        if !lines.is_empty() {
            return Ok(First::Lines(held, Vec::from_slice(alloc, rest)?));
        }
        held.extend_from_slice(rest)?;
    }
}
