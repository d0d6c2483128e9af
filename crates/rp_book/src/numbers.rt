//! Which numbers lines have that are added to a script.
ghost use Rattle.std.specs.Prelude.{◌≡◌, ◌+◌, ◌≤◌, ◌++◌, length, IsTrue};
ghost use Rattle.rp_command.specs.Versions.{version_of};
ghost use Rattle.rp_reports.specs.Output.{most_script_bytes};
ghost use Rattle.rp_reports.specs.Report.{script_lines};
ghost use Rattle.rp_book.specs.Lines.{HasEnd, IsEnded, first_number, last_number, number_of_first};

use rp_command::Version;
use rp_scripts::{next_line, split_mark};

/// Returns whether `text` ends in a line end.
pub fn has_end(text: &[u8]) -> bool
    ensures { IsTrue result → HasEnd text.now }
{
    matches!(text, [.., b'\n'])
}

/// Returns how many lines `text` has.
fn count_lines(text: &[u8]) -> u32
    requires { length text.now ≤ most_script_bytes }
    ensures count { result ≡ length (script_lines text.now) }
    ensures few { result ≤ length text.now }
{
    let mut count = 0;
    let mut rest = text;
    while let Some((_, behind)) = next_line(rest) {
        count += 1;
        rest = behind;
    }
    count
}

/// Returns the number of the first line of a script of `version`.
fn first_of(version: Version) -> u32
    ensures { result ≡ number_of_first (version_of version) }
{
    match version {
        Version::One => 1,
        Version::Two => 0,
    }
}

/// Returns the numbers of the first and the last of `lines` after `script`, as the report of the two together echoes
/// them. The last line of `script` has the number `before`. The line that marks version 2 has the number 0.
pub fn line_numbers(script: &[u8], before: u32, lines: &[u8]) -> (u32, u32)
    requires end { IsEnded script.now }
    requires short { length script.now + length lines.now ≤ most_script_bytes }
    requires before { before ≡ last_number script.now }
    requires fits { before ≤ length script.now }
    ensures first { result.0 ≡ first_number script.now lines.now }
    ensures last { result.1 ≡ last_number (script.now ++ lines.now) }
    ensures fits { result.1 ≤ length script.now + length lines.now }
{
    if script.is_empty() {
        let (version, body) = split_mark(lines);
        return (first_of(version), count_lines(body));
    }
    (before + 1, before + count_lines(lines))
}
