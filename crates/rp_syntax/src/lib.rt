#![tactic(auto)]
//! The line grammar: a line of bytes is read as a command, or refused.
//!
//! In each version and for every sequence of bytes, [`read_line`] reads the command that the grammar reads, or finds
//! its first fault. A call returns `AllocError` only if memory runs out.

ghost use Rattle.std.specs.Prelude.{◌≡◌, IfOk};
ghost use Rattle.rp_command.specs.Versions.{version_of};
ghost use Rattle.rp_command.specs.Views.{line_of};
ghost use Rattle.rp_language.specs.Grammar.{most_bytes, reading, is_blank};

mod commands;
mod expression;
mod fault;
mod keywords;
mod numbers;
mod space;
mod words;

use fault::ReadFault;
use rp_command::Line;
pub use rp_command::{Command, Expr, Version, Why};
use std::alloc::{AllocError, Global};
use words::Words;

/// Returns the most bytes that a command line may have in `version`.
fn max_line(version: Version) -> usize
    ensures { result ≡ most_bytes (version_of version) }
{
    match version {
        Version::One => 65536,
        Version::Two => 262144,
    }
}

/// Returns whether a line is blank: empty, or a note, which begins with `#`.
fn is_blank(line: &[u8]) -> bool
    ensures { result ≡ is_blank line.now }
{
    match line {
        [] => true,
        [first, ..] => *first == b'#',
    }
}

/// Reads `line`, which has no line end, in `version`: it is blank, a command, or bad by its first fault in reading
/// order.
///
/// The fault is `Long` iff the line has more than 65,536 bytes, or 262,144 in version 2.
#[tactic(auto, unfolding(rp_language::specs::Grammar::reading))]
pub fn read_line(alloc: Global, version: Version, line: &[u8]) -> Result<Line, AllocError>
    ensures { IfOk result (λ l. line_of l ≡ reading (version_of version) line.now) }
{
    if line.len() > max_line(version) {
        return Ok(Line::Bad(Why::Long));
    }
    if is_blank(line) {
        return Ok(Line::Blank);
    }
    let mut words = Words::new(line);
    match words.command(alloc, version) {
        Ok(command) => Ok(Line::Cmd(command)),
        Err(ReadFault::Bad(why)) => Ok(Line::Bad(why)),
        Err(ReadFault::Memory(error)) => Err(error),
    }
}
