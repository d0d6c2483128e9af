//! Lines that change which lots there are.
ghost use Rattle.std.specs.Prelude.{◌≡◌, IfOk};
ghost use Rattle.rp_command.specs.Versions.{version_of};
ghost use Rattle.rp_command.specs.Views.{command_of, line_of};
ghost use Rattle.rp_language.specs.Grammar.{reading};
ghost use Rattle.rp_book_service.specs.Added.{changes, has_change, is_change};

use rp_command::{Command, Line, Version};
use rp_scripts::next_line;
use rp_syntax::read_line;
use std::alloc::{AllocError, Global};

/// Returns whether `command` changes which lots there are.
fn is_change(command: &Command) -> bool
    ensures { result ≡ is_change (command_of command.now) }
{
    matches!(
        command,
        Command::Register(..)
            | Command::Cut(..)
            | Command::Subdivide(..)
            | Command::Consolidate(..)
            | Command::Retire(..)
    )
}

/// Returns whether `line` changes which lots there are.
fn changes(line: &Line) -> bool
    ensures { result ≡ changes (line_of line.now) }
{
    match line {
        Line::Cmd(command) => is_change(command),
        Line::Blank | Line::Bad(_) => false,
    }
}

/// Returns whether `line`, of a script of `version`, changes which lots there are.
pub fn line_changes(alloc: Global, version: Version, line: &[u8]) -> Result<bool, AllocError>
    ensures { IfOk result (λ found. found ≡ changes (reading (version_of version) line.now)) }
{
    let read = read_line(alloc, version, line)?;
    let found = changes(&read);
    drop(read);
    Ok(found)
}

/// Returns whether one of `lines`, of a script of `version`, changes which lots there are.
pub fn has_change(alloc: Global, version: Version, lines: &[u8]) -> Result<bool, AllocError>
    ensures { IfOk result (λ found. found ≡ has_change (version_of version) lines.now) }
{
    let mut rest = lines;
    while let Some((line, behind)) = next_line(rest) {
        if line_changes(alloc, version, line)? {
            return Ok(true);
        }
        rest = behind;
    }
    Ok(false)
}
