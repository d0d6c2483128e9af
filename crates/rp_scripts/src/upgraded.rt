//! The line that takes the place of a line of a script in version 2.

ghost use Rattle.std.specs.Prelude.{◌≡◌, ◌++◌, not, IfOk, OnErr, OnOk};
ghost use Rattle.rp_command.specs.Fronts.{Appends, AppendsFront};
ghost use Rattle.rp_command.specs.Versions.{version_of};
ghost use Rattle.rp_command.specs.Views.{line_of};
ghost use Rattle.rp_language.specs.Grammar.{reading};
ghost use Rattle.rp_reports.specs.Output.{is_bad_reading};
ghost use Rattle.rp_reports.specs.Upgrade.{upgraded_line};
ghost use Rattle.rp_scripts.specs.Upgraded.{upgraded_text};

use rp_command::{Line, Version};
use rp_spelling::write_command;
use rp_syntax::read_line;
use std::alloc::{AllocError, Global};

/// Returns whether a line is neither blank nor a command.
fn is_bad(read: &Line) -> bool
    ensures { result ≡ is_bad_reading (line_of read.now) }
{
    matches!(read, Line::Bad(_))
}

/// Appends the line that takes the place of one that is read so, without a line feed.
fn write_upgraded(line: &[u8], read: &Line, out: &mut Vec<u8>) -> Result<(), AllocError>
    ensures { Appends result out.old.items out.new.items (upgraded_line line.now (line_of read.now)) }
{
    match read {
        Line::Blank => out.extend_from_slice(line),
        Line::Cmd(command) => write_command(Version::Two, command, out),
        Line::Bad(_) => Ok(()),
    }
}

/// Appends the line that takes the place of one that is read so, with a line feed. Answers whether it is blank or a
/// command.
fn write_line(line: &[u8], read: &Line, out: &mut Vec<u8>) -> Result<bool, AllocError>
    ensures line { OnOk result (out.new.items ≡ out.old.items ++ upgraded_text line.now (line_of read.now)) }
    ensures good { IfOk result (λ good. good ≡ not (is_bad_reading (line_of read.now))) }
    ensures front { OnErr result (AppendsFront out.old.items out.new.items (upgraded_text line.now (line_of read.now))) }
{
    write_upgraded(line, read, out)?;
    out.push(b'\n')?;
    Ok(!is_bad(read))
}

/// Appends to `out` the line that takes the place of `line`, of a script of `version`, in the script as one of version
/// 2, with its line feed: a blank line stays, a command is in its spelling of version 2, and a bad line is empty.
/// Answers whether `line` is blank or a command. After `AllocError` `out` has what it had and a front of that line.
pub fn upgrade_line(
    alloc: Global,
    version: Version,
    line: &[u8],
    out: &mut Vec<u8>,
) -> Result<bool, AllocError>
    ensures line { OnOk result (out.new.items ≡ out.old.items ++ upgraded_text line.now (reading (version_of version) line.now)) }
    ensures good { IfOk result (λ good. good ≡ not (is_bad_reading (reading (version_of version) line.now))) }
    ensures front { OnErr result (AppendsFront out.old.items out.new.items (upgraded_text line.now (reading (version_of version) line.now))) }
{
    let read = read_line(alloc, version, line)?;
    write_line(line, &read, out)
}
