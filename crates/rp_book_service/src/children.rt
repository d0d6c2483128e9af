//! The lots that an ended lot became.
ghost use Rattle.std.specs.Prelude.{◌≡◌, ◌++◌, IfOk, OnOk, map};
ghost use Rattle.rp_command.specs.Versions.{version_of};
ghost use Rattle.rp_command.specs.Views.{child_of, line_of};
ghost use Rattle.rp_language.specs.Grammar.{reading};
ghost use Rattle.rp_model.specs.commands.Checks.{child_ids};
ghost use Rattle.rp_reports.specs.Report.{script_body, script_lines, script_version};
ghost use Rattle.rp_book_service.specs.Children.{after_commas, became, became_by, became_in, children_of, children_text};

use crate::lot_line::ended_lot;
use itoa::Buffer;
use rp_command::{Command, Expr, Line, Version};
use rp_lists::Name;
use rp_scripts::{next_line, split_mark};
use rp_syntax::read_line;
use std::alloc::{AllocError, Global};

/// Returns the ids of the children of a subdivision.
fn child_ids(alloc: Global, entries: &[(Name, Expr)]) -> Result<Vec<Name>, AllocError>
    ensures { IfOk result (λ ids. ids.items ≡ child_ids (map child_of entries.now)) }
{
    let mut ids = Vec::new(alloc);
    for entry in entries {
        ids.push(entry.0)?;
    }
    Ok(ids)
}

/// Returns the new lots of `line` in which lots end. Returns none if no lot ends.
fn children(alloc: Global, line: &Line) -> Result<Vec<Name>, AllocError>
    ensures { IfOk result (λ ids. ids.items ≡ children_of (line_of line.now)) }
{
    match line {
        Line::Cmd(Command::Cut(_, _, first, second)) => Vec::from_slice(alloc, &[*first, *second]),
        Line::Cmd(Command::Subdivide(_, entries)) => child_ids(alloc, entries.items()),
        Line::Cmd(Command::Consolidate(id, _)) => Vec::from_slice(alloc, &[*id]),
        _ => Ok(Vec::new(alloc)),
    }
}

/// Returns the new lots of a line of a script of `version` in which lots end.
fn line_children(alloc: Global, version: Version, line: &[u8]) -> Result<Vec<Name>, AllocError>
    ensures { IfOk result (λ ids. ids.items ≡ children_of (reading (version_of version) line.now)) }
{
    let read = read_line(alloc, version, line)?;
    let ids = children(alloc, &read)?;
    drop(read);
    Ok(ids)
}

/// Writes `ids`, each after a comma.
fn write_more(ids: &[Name], text: &mut Vec<u8>) -> Result<(), AllocError>
    ensures { OnOk result (text.new.items ≡ text.old.items ++ after_commas ids.now) }
{
    let mut rest = ids;
    while let Some((id, more)) = rest.split_first() {
        text.extend_from_slice(b", ")?;
        text.extend_from_slice(id.bytes())?;
        rest = more;
    }
    Ok(())
}

/// Writes what the lot `id` became in the line with the number `line`: the lots `ids`. Writes nothing if there are
/// none.
fn write_became(id: &[u8], line: u32, ids: &[Name], text: &mut Vec<u8>) -> Result<(), AllocError>
    ensures { OnOk result (text.new.items ≡ text.old.items ++ became id.now line ids.now) }
{
    let Some((first, more)) = ids.split_first() else {
        return Ok(());
    };
    let mut buffer = Buffer::new();
    text.extend_from_slice(b"  ")?;
    text.extend_from_slice(id)?;
    text.extend_from_slice(b" ended ")?;
    text.extend_from_slice(buffer.format(line).as_bytes())?;
    text.extend_from_slice(b": became ")?;
    text.extend_from_slice(first.bytes())?;
    write_more(more, text)?;
    text.push(b'\n')?;
    Ok(())
}

/// Writes what the lot `id` became, which ended in the line of `body` with the number `number`.
fn write_ended(
    alloc: Global,
    version: Version,
    body: &[&[u8]],
    id: &[u8],
    number: u32,
    text: &mut Vec<u8>,
) -> Result<(), AllocError>
    ensures { OnOk result (text.new.items ≡ text.old.items ++ became_in (version_of version) (map (λ line. line.now) body.now) id.now number) }
{
    let Some(line) = body.get(number.saturating_sub(1) as usize) else {
        return Ok(());
    };
    let ids = line_children(alloc, version, line)?;
    write_became(id, number, &ids, text)
}

/// Writes what a lot became, if `told`, a line of a report, says that the lot ended. Otherwise writes nothing.
fn write_children(
    alloc: Global,
    version: Version,
    body: &[&[u8]],
    told: &[u8],
    text: &mut Vec<u8>,
) -> Result<(), AllocError>
    ensures { OnOk result (text.new.items ≡ text.old.items ++ became_by (version_of version) (map (λ line. line.now) body.now) told.now) }
{
    match ended_lot(told) {
        Some((id, number)) => write_ended(alloc, version, body, id, number, text),
        None => Ok(()),
    }
}

/// Returns what the lots became of which lines of `answer` say that they ended.
fn answer_children(
    alloc: Global,
    version: Version,
    body: &[&[u8]],
    answer: &[u8],
) -> Result<Vec<u8>, AllocError>
    ensures { IfOk result (λ text. text.items ≡ children_text (version_of version) (map (λ line. line.now) body.now) answer.now) }
{
    let mut text = Vec::new(alloc);
    let mut rest = answer;
    while let Some((told, behind)) = next_line(rest) {
        write_children(alloc, version, body, told, &mut text)?;
        rest = behind;
    }
    Ok(text)
}

/// Returns the lines of `body`, so that each is found by its number.
fn body_lines(alloc: Global, body: &[u8]) -> Result<Vec<&[u8]>, AllocError>
    ensures { IfOk result (λ lines. map (λ line. line.now) lines.items ≡ script_lines body.now) }
{
    let mut lines = Vec::new(alloc);
    let mut rest = body;
    while let Some((line, behind)) = next_line(rest) {
        lines.push(line)?;
        rest = behind;
    }
    Ok(lines)
}

/// Returns what the lots became of which `answer`, the answer to `history` after `script`, says that they ended: the
/// new lots of the lines in which they ended.
pub(crate) fn children_text(
    alloc: Global,
    script: &[u8],
    answer: &[u8],
) -> Result<Vec<u8>, AllocError>
    ensures { IfOk result (λ text. text.items ≡ children_text (script_version script.now) (script_body script.now) answer.now) }
{
    let (version, body) = split_mark(script);
    let body = body_lines(alloc, body)?;
    answer_children(alloc, version, &body, answer)
}
