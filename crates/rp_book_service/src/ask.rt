//! Questions that come after the lines of a script.
ghost use Rattle.std.specs.Prelude.{◌≡◌, ◌+◌, ◌<◌, ◌≤◌, ◌++◌, [], false, length, vec_len, IfErr, IfOk, IfSome};
ghost use Rattle.rp_book.specs.Lines.{HasEnd, IsEnded};
ghost use Rattle.rp_reports.specs.Output.{most_script_bytes};
ghost use Rattle.rp_reports.specs.Report.{script_version};
ghost use Rattle.rp_book_service.specs.Added.{PutsBehind, ended, has_change};
ghost use Rattle.rp_book_service.specs.Cause.{HasAskCause, HasFirstCause, HasQuestionCause};
ghost use Rattle.rp_book_service.specs.Session.{HasNoEnd, IfChange, PutsBeforeChange, with_front};

use crate::answers::put_behind;
use crate::change::has_change;
use crate::first::{First, read_first};
use crate::lines::{MOST_BYTES, end_lines};
use crate::pieces::answer_rest;
use crate::stop::{Length, Stop};
use rp_io::{Sink, Source};
use rp_scripts::split_mark;
use std::alloc::{AllocError, Global};
use std::thread::Threads;

/// The most bytes that are read at once.
const PIECE_BYTES: usize = 65_536;

/// Returns `length` bytes, all of them 0.
fn zeros(alloc: Global, length: usize) -> Result<Vec<u8>, AllocError>
    ensures { IfOk result (λ bytes. vec_len bytes ≡ length) }
{
    vec![in alloc; 0u8; length]
}

/// Puts the answers to `lines`, which come after `script`, into `sink`. Returns whether a line of either is refused.
///
/// # Errors
///
/// - `TooLong` if `script` and `lines` have more than 16,777,216 bytes together. Nothing was put.
/// - `Put` if a put failed.
/// - `Memory` if memory ran out.
pub(crate) fn answer<R: Threads + Sync, K: Sink>(
    rt: &R,
    alloc: Global,
    script: &[u8],
    lines: &[u8],
    sink: &mut K,
) -> Result<bool, Stop>
    requires end { IsEnded script.now }
    requires short { length script.now ≤ most_script_bytes }
    ensures counts { K.faults sink.old ≤ K.faults sink.new }
    ensures answers { IfOk result (λ refused. PutsBehind script.now lines.now (K.said sink.old) (K.said sink.new) refused) }
    ensures cause { IfErr result (HasQuestionCause (K.faults sink.old) (K.faults sink.new) (λ n. n ≡ length script.now + length lines.now)) }
{
    if lines.len() > MOST_BYTES - script.len() {
        return Err(Stop::TooLong(Length::Exactly(script.len() + lines.len())));
    }
    let refused = put_behind(rt, alloc, script, lines, sink)?;
    Ok(refused)
}

/// Answers `lines`, the first of which decides their version. Returns whether a line is refused.
///
/// # Errors
///
/// - `Change` if a line changes which lots there are. No line is answered.
/// - `TooLong` if the lines have more than 16,777,216 bytes.
/// - `Put` if a put failed.
/// - `Memory` if memory ran out.
fn answer_first<R: Threads + Sync, K: Sink>(
    rt: &R,
    alloc: Global,
    lines: &[u8],
    sink: &mut K,
) -> Result<bool, Stop>
    ensures counts { K.faults sink.old ≤ K.faults sink.new }
    ensures questions { IfOk result (λ _. has_change (script_version lines.now) lines.now ≡ false) }
    ensures answers { IfOk result (λ refused. PutsBehind [] lines.now (K.said sink.old) (K.said sink.new) refused) }
    ensures cause { IfErr result (HasFirstCause (K.faults sink.old) (K.faults sink.new) lines.now) }
{
    let (version, _) = split_mark(lines);
    if has_change(alloc, version, lines)? {
        return Err(Stop::Change);
    }
    answer(rt, alloc, &[], lines, sink)
}

/// Answers `lines` and then the lines after them: `rest` has the first bytes of the next line, and `source` those after
/// `rest`. Returns whether a line is refused.
///
/// # Errors
///
/// - `Change` if a line changes which lots there are. No line after it is answered.
/// - `TooLong` if `lines`, `rest` and `source` have more than 16,777,216 bytes together.
/// - `Read` if a read failed.
/// - `Put` if a put failed.
/// - `Memory` if memory ran out.
fn answer_after<R: Threads + Sync, S: Source, K: Sink>(
    rt: &R,
    alloc: Global,
    lines: &[u8],
    rest: Vec<u8>,
    buffer: &mut [u8],
    source: &mut S,
    sink: &mut K,
) -> Result<bool, Stop>
    requires end { HasEnd lines.now }
    requires unended { HasNoEnd rest.items }
    requires short { length lines.now + length rest.items ≤ most_script_bytes }
    requires room { 0 < length buffer.old }
    ensures counts { (S.faults source.old ≤ S.faults source.new) × (K.faults sink.old ≤ K.faults sink.new) }
    ensures questions { IfOk result (λ _. IfSome (with_front (lines.now ++ rest.items) (S.left source.old)) (λ all. has_change (script_version (ended all)) (ended all) ≡ false)) }
    ensures answers { IfOk result (λ refused. IfSome (with_front (lines.now ++ rest.items) (S.left source.old)) (λ all. PutsBehind [] (ended all) (K.said sink.old) (K.said sink.new) refused)) }
    ensures cause { IfErr result (HasAskCause (S.faults source.old) (S.faults source.new) (K.faults sink.old) (K.faults sink.new) [] (with_front (lines.now ++ rest.items) (S.left source.old))) }
{
    answer_first(rt, alloc, lines, sink)?;
    answer_rest(rt, alloc, lines, rest, buffer, source, sink)
}

/// Answers the lines of `source` after an empty script. Returns whether a line is refused.
///
/// # Errors
///
/// - `Change` if a line changes which lots there are. No line after it is answered.
/// - `TooLong` if `source` has more than 16,777,216 bytes.
/// - `Read` if a read failed.
/// - `Put` if a put failed.
/// - `Memory` if memory ran out.
fn ask_first<R: Threads + Sync, S: Source, K: Sink>(
    rt: &R,
    alloc: Global,
    buffer: &mut [u8],
    source: &mut S,
    sink: &mut K,
) -> Result<bool, Stop>
    requires { 0 < length buffer.old }
    ensures counts { (S.faults source.old ≤ S.faults source.new) × (K.faults sink.old ≤ K.faults sink.new) }
    ensures questions { IfOk result (λ _. IfSome (S.left source.old) (λ lines. has_change (script_version (ended lines)) (ended lines) ≡ false)) }
    ensures answers { IfOk result (λ refused. IfSome (S.left source.old) (λ lines. PutsBehind [] (ended lines) (K.said sink.old) (K.said sink.new) refused)) }
    ensures cause { IfErr result (HasAskCause (S.faults source.old) (S.faults source.new) (K.faults sink.old) (K.faults sink.new) [] (S.left source.old)) }
{
    match read_first(alloc, buffer, source)? {
        First::All(bytes) => answer_first(rt, alloc, &end_lines(bytes)?, sink),
        First::Lines(lines, rest) => answer_after(rt, alloc, &lines, rest, buffer, source, sink),
    }
}

/// Answers the lines of `source` after those of `script`, which has lines. Returns whether a line of either is refused.
///
/// # Errors
///
/// - `Change` if a line of `source` changes which lots there are. The lines before it have been answered, and no line after it.
/// - `TooLong` if `script` and `source` have more than 16,777,216 bytes together. The lines that were complete before the last read
///   have been answered.
/// - `Read` if a read failed.
/// - `Put` if a put failed.
/// - `Memory` if memory ran out.
fn ask_after<R: Threads + Sync, S: Source, K: Sink>(
    rt: &R,
    alloc: Global,
    script: &[u8],
    buffer: &mut [u8],
    source: &mut S,
    sink: &mut K,
) -> Result<bool, Stop>
    requires end { HasEnd script.now }
    requires short { length script.now ≤ most_script_bytes }
    requires room { 0 < length buffer.old }
    ensures counts { (S.faults source.old ≤ S.faults source.new) × (K.faults sink.old ≤ K.faults sink.new) }
    ensures questions { IfOk result (λ _. IfSome (S.left source.old) (λ lines. has_change (script_version (script.now ++ ended lines)) (ended lines) ≡ false)) }
    ensures answers { IfOk result (λ refused. IfSome (S.left source.old) (λ lines. PutsBehind script.now (ended lines) (K.said sink.old) (K.said sink.new) refused)) }
    ensures cause { IfErr result (HasAskCause (S.faults source.old) (S.faults source.new) (K.faults sink.old) (K.faults sink.new) script.now (S.left source.old)) }
    ensures before { IfErr result (λ stop. IfChange stop (IfSome (S.left source.old) (λ lines. PutsBeforeChange script.now (ended lines) (K.said sink.old) (K.said sink.new)))) }
{
    answer_rest(rt, alloc, script, Vec::new(alloc), buffer, source, sink)
}

/// Answers the questions of `source`, as if their lines came after those of `script`, and puts the answers into `sink`.
/// Returns whether a line of `script` or of `source` is refused.
///
/// Runs `script` once, and then reads at most 65,536 bytes at a time. The answers to all lines that are complete are
/// put before the next bytes are read, so that no answer waits for a later question. The last line may lack its line
/// feed.
///
/// An empty script has no version: the first line of `source` decides it.
///
/// # Errors
///
/// - `Change` if a line of `source` changes which lots there are. No line after it is answered. The lines before it have been
///   answered, unless `script` is empty.
/// - `TooLong` if `script` and the lines of `source` have more than 16,777,216 bytes together. The lines that were complete before
///   the last read have been answered.
/// - `Read` if a read failed.
/// - `Put` if a put failed.
/// - `Memory` if memory ran out.
pub fn ask<R: Threads + Sync, S: Source, K: Sink>(
    rt: &R,
    alloc: Global,
    script: &[u8],
    source: &mut S,
    sink: &mut K,
) -> Result<bool, Stop>
    requires end { IsEnded script.now }
    requires short { length script.now ≤ most_script_bytes }
    ensures counts { (S.faults source.old ≤ S.faults source.new) × (K.faults sink.old ≤ K.faults sink.new) }
    ensures questions { IfOk result (λ _. IfSome (S.left source.old) (λ lines. has_change (script_version (script.now ++ ended lines)) (ended lines) ≡ false)) }
    ensures answers { IfOk result (λ refused. IfSome (S.left source.old) (λ lines. PutsBehind script.now (ended lines) (K.said sink.old) (K.said sink.new) refused)) }
    ensures cause { IfErr result (HasAskCause (S.faults source.old) (S.faults source.new) (K.faults sink.old) (K.faults sink.new) script.now (S.left source.old)) }
    ensures before { 0 < length script.now → IfErr result (λ stop. IfChange stop (IfSome (S.left source.old) (λ lines. PutsBeforeChange script.now (ended lines) (K.said sink.old) (K.said sink.new)))) }
{
    let mut buffer = zeros(alloc, PIECE_BYTES)?;
    if script.is_empty() {
        return ask_first(rt, alloc, &mut buffer, source, sink);
    }
    ask_after(rt, alloc, script, &mut buffer, source, sink)
}
