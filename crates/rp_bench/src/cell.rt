//! The cell on standard input.
ghost use Rattle.std.specs.Prelude.{◌≤◌, length, IfOk};

use anyhow::{Context, Result, bail, ensure};
use rp_command::{Command, Expr, Line, Version};
use rp_space::Half;
use rp_syntax::read_line;
use std::alloc::{AllocError, Global};
use std::io::{BufRead, BufReader, Read};

/// The most half-spaces of a cell.
const MOST_HALVES: usize = 64;

/// Returns the half-space of `line`, if it asks whether one half-space has a point.
fn half_asked(line: &Line) -> Option<Half> {
    match line {
        Line::Cmd(Command::Empty(Expr::Half(half))) => Some(*half),
        _ => None,
    }
}

/// Returns the half-space of `line`, if it reads `empty half A B C D`.
fn half_of_line(alloc: Global, line: &[u8]) -> Result<Option<Half>, AllocError> {
    let read = read_line(alloc, Version::One, line)?;
    let half = half_asked(&read);
    drop(read);
    Ok(half)
}

/// Returns the half-space of `line`, which has the number `number`.
///
/// # Errors
///
/// An error that names the line if it has another form.
fn half_at(alloc: Global, number: usize, line: &[u8]) -> Result<Half> {
    let Some(half) = half_of_line(alloc, line)? else {
        bail!("line {number} is not of the form: empty half A B C D")
    };
    Ok(half)
}

/// Returns the half-spaces of `input`, one a line, at most 64.
///
/// # Errors
///
/// An error that names the line if it has another form, has a half-space after the 64th, or cannot be read.
pub fn read_cell<R: Read + Drop>(alloc: Global, input: R) -> Result<Vec<Half>>
    ensures { IfOk result (λ cell. length cell.items ≤ 64) }
{
    let mut cell = Vec::new(alloc);
    for (i, line) in BufReader::new(alloc, input)?.lines(alloc).enumerate() {
        let number = i + 1;
        let line = line.context(format_args!("line {number}"))?;
        let half = half_at(alloc, number, line.as_bytes())?;
        ensure!(
            cell.len() < MOST_HALVES,
            "line {number}: more than {MOST_HALVES} half-spaces"
        );
        cell.push(half)?;
    }
    Ok(cell)
}
