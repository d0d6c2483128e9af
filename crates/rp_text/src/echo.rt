//! Echo lines, written and read.
ghost use Rattle.std.specs.Prelude.{◌≡◌, ◌≤◌, IfSome, length, option_map};
ghost use Rattle.rp_reports.specs.ProofText.{echo_read, line_number};
ghost use Rattle.rp_reports.specs.Text.{echo_text};
ghost use Rattle.rp_text.specs.Readers.{echo_of};

use crate::items::WriteText;
use crate::pieces::append_all;
use crate::readers::{behind, place_of};
use itoa::Buffer;
use rp_command::spelled;
use std::alloc::AllocError;

/// The greatest number that a line can have.
const MAX_LINE: i128 = 16777216;

/// The echo of a line of a script.
#[derive(Drop)]
pub struct Echo<'a> {
    /// The line's number.
    pub number: u32,
    /// The text of the line; empty if the line was too long.
    pub line: &'a [u8],
}

impl<'a> WriteText for Echo<'a> {
    ghost text = { λ e. echo_text e.number e.line.now };

    fn write_text(&self, out: &mut Vec<u8>) -> Result<(), AllocError> {
        let mut buffer = Buffer::new();
        let number = buffer.format(self.number).as_bytes();
        if self.line.is_empty() {
            append_all(&[b"> ", number], out)
        } else {
            append_all(&[b"> ", number, b" ", self.line], out)
        }
    }
}

/// Returns the line number that `word` spells: 1 to 16,777,216, without a sign or leading zeros. Otherwise `None`.
fn line_number(word: &[u8]) -> Option<u32>
    ensures { result ≡ line_number word.now }
{
    let n = spelled(word)?;
    if 1 <= n && n <= MAX_LINE {
        Some(n as u32)
    } else {
        None
    }
}

/// Returns the line number that `word` spells, together with `place`. `None` iff it spells none.
fn numbered(word: &[u8], place: Option<usize>) -> Option<(u32, Option<usize>)>
    ensures { result ≡ option_map (λ n. (n, place)) (line_number word.now) }
{
    Some((line_number(word)?, place))
}

/// Returns the number in an echo line, and the index at which the echoed text begins. The index is `None` if the line
/// ends after the number. It is the length of the line if the echoed text is empty.
///
/// Returns `None` iff `line` is not spelled in this way: `> `, then a number from 1 to 16777216 without a sign or
/// leading zeros, then nothing or one space and any text. Takes no memory.
pub fn read_echo(line: &[u8]) -> Option<(u32, Option<usize>)>
    ensures read { option_map (echo_of line.now) result ≡ echo_read line.now }
    ensures within { IfSome result (λ r. IfSome r.1 (λ place. place ≤ length line.now)) }
{
    let rest = behind(b"> ", line)?;
    match place_of(b' ', rest) {
        None => numbered(rest, None),
        Some(end) => numbered(&rest[..end], Some(end + 3)),
    }
}
