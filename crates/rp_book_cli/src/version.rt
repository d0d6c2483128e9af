//! The version of lines that follow a script.

use rp_command::{Line, Version, Why};
use rp_scripts::{next_line, split_mark};
use rp_syntax::read_line;
use std::alloc::{AllocError, Global};

/// Returns `lines` without the mark of version 2, if they begin with it and `script` does.
pub fn unmarked<'a>(script: &[u8], lines: &'a [u8]) -> &'a [u8] {
    match (split_mark(script), split_mark(lines)) {
        ((Version::Two, _), (Version::Two, body)) => body,
        _ => lines,
    }
}

/// Returns the version of `script` with `lines` after it.
pub fn version_after(script: &[u8], lines: &[u8]) -> Version {
    let (version, _) = split_mark(if script.is_empty() { lines } else { script });
    version
}

/// Returns the version that `version` is not.
fn other(version: Version) -> Version {
    match version {
        Version::One => Version::Two,
        Version::Two => Version::One,
    }
}

/// Returns whether `line` is refused as `syntax` in `version`.
fn is_refused(alloc: Global, version: Version, line: &[u8]) -> Result<bool, AllocError> {
    let read = read_line(alloc, version, line)?;
    let found = matches!(read, Line::Bad(Why::Syntax));
    drop(read);
    Ok(found)
}

/// Returns whether `line` is a command in `version`.
fn is_command(alloc: Global, version: Version, line: &[u8]) -> Result<bool, AllocError> {
    let read = read_line(alloc, version, line)?;
    let found = matches!(read, Line::Cmd(_));
    drop(read);
    Ok(found)
}

/// Returns whether `line` is refused as `syntax` in `version` and is a command in the other version.
fn is_of_other(alloc: Global, version: Version, line: &[u8]) -> Result<bool, AllocError> {
    Ok(is_refused(alloc, version, line)? && is_command(alloc, other(version), line)?)
}

/// Returns whether `lines` begin with the mark of version 2, which is a refused line in `version`, or have a line that
/// is refused as `syntax` in `version` and is a command in the other version.
pub fn are_of_other(alloc: Global, version: Version, lines: &[u8]) -> Result<bool, AllocError> {
    if let (Version::One, (Version::Two, _)) = (version, split_mark(lines)) {
        return Ok(true);
    }
    let mut rest = lines;
    while let Some((line, behind)) = next_line(rest) {
        if is_of_other(alloc, version, line)? {
            return Ok(true);
        }
        rest = behind;
    }
    Ok(false)
}
