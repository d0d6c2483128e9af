//! Lines of a source that are answered piece by piece.
ghost use Rattle.std.specs.Prelude.{◌≡◌, ◌+◌, ◌<◌, ◌≤◌, ◌++◌, false, length, IfErr, IfOk, IfSome};
ghost use Rattle.rp_book.specs.Lines.{HasEnd};
ghost use Rattle.rp_reports.specs.Output.{most_script_bytes};
ghost use Rattle.rp_reports.specs.Report.{script_version};
ghost use Rattle.rp_book_service.specs.Added.{PutsBehind, ended, has_change};
ghost use Rattle.rp_book_service.specs.Cause.{HasAskCause};
ghost use Rattle.rp_book_service.specs.Session.{HasNoEnd, IfChange, IsBehind, IsReady, PutsBeforeChange, with_front};

use crate::lines::MOST_BYTES;
use crate::session::Session;
use crate::stop::{Length, Stop};
use rp_io::{Sink, Source};
use std::alloc::Global;
use std::thread::Threads;

/// Answers the lines of `source` piece by piece: all lines that a piece completes, before the next piece is read into
/// `buffer`. Returns whether a line of `script` or a line after it is refused.
///
/// The bytes of `source` come after the unfinished line of `session`, and the lines of both after `script`.
///
/// # Errors
///
/// - `Change` if a line of `source` changes which lots there are. The lines before it have been answered, and no line after it.
/// - `TooLong` if `script`, the unfinished line and `source` have more than 16,777,216 bytes together. The lines that were complete
///   before the last read have been answered.
/// - `Read` if a read failed.
/// - `Put` if a put failed.
/// - `Memory` if memory ran out.
fn answer_pieces<R: Threads + Sync, S: Source, K: Sink>(
    rt: &R,
    alloc: Global,
    script: &[u8],
    session: &mut Session,
    buffer: &mut [u8],
    source: &mut S,
    sink: &mut K,
) -> Result<bool, Stop>
    requires end { HasEnd script.now }
    requires short { length script.now + length session.old.unfinished.items ≤ most_script_bytes }
    requires room { 0 < length buffer.old }
    requires ready { IsReady session.old }
    requires behind { IsBehind script.now session.old }
    ensures counts { (S.faults source.old ≤ S.faults source.new) × (K.faults sink.old ≤ K.faults sink.new) }
    ensures questions { IfOk result (λ _. IfSome (with_front session.old.unfinished.items (S.left source.old)) (λ lines. has_change (script_version (script.now ++ ended lines)) (ended lines) ≡ false)) }
    ensures answers { IfOk result (λ refused. IfSome (with_front session.old.unfinished.items (S.left source.old)) (λ lines. PutsBehind script.now (ended lines) (K.said sink.old) (K.said sink.new) refused)) }
    ensures cause { IfErr result (HasAskCause (S.faults source.old) (S.faults source.new) (K.faults sink.old) (K.faults sink.new) script.now (with_front session.old.unfinished.items (S.left source.old))) }
    ensures before { IfErr result (λ stop. IfChange stop (IfSome (with_front session.old.unfinished.items (S.left source.old)) (λ lines. PutsBeforeChange script.now (ended lines) (K.said sink.old) (K.said sink.new)))) }
{
    let mut room = MOST_BYTES - script.len() - session.unfinished_bytes();
    loop {
        let Ok(count) = source.read(buffer) else {
            return Err(Stop::Read);
        };
        if count == 0 {
            session.finish(rt, alloc, sink)?;
            return Ok(session.is_refused());
        }
        if count > room {
            return Err(Stop::TooLong(Length::MoreThan(MOST_BYTES)));
        }
        session.answer_piece(rt, alloc, &buffer[..count], sink)?;
        room -= count;
    }
}

/// Answers the lines of `source` after those of `script`. The first of them begins with the bytes of `unfinished`.
/// Returns whether a line of `script` or a line after it is refused.
///
/// Runs `script` once. Answers all lines that a read into `buffer` completes before the next read.
///
/// # Errors
///
/// - `Change` if a line changes which lots there are. The lines before it have been answered, and no line after it.
/// - `TooLong` if `script`, `unfinished` and `source` have more than 16,777,216 bytes together. The lines that were complete before
///   the last read have been answered.
/// - `Read` if a read failed.
/// - `Put` if a put failed.
/// - `Memory` if memory ran out.
pub fn answer_rest<R: Threads + Sync, S: Source, K: Sink>(
    rt: &R,
    alloc: Global,
    script: &[u8],
    unfinished: Vec<u8>,
    buffer: &mut [u8],
    source: &mut S,
    sink: &mut K,
) -> Result<bool, Stop>
    requires end { HasEnd script.now }
    requires short { length script.now + length unfinished.items ≤ most_script_bytes }
    requires room { 0 < length buffer.old }
    requires unended { HasNoEnd unfinished.items }
    ensures counts { (S.faults source.old ≤ S.faults source.new) × (K.faults sink.old ≤ K.faults sink.new) }
    ensures questions { IfOk result (λ _. IfSome (with_front unfinished.items (S.left source.old)) (λ lines. has_change (script_version (script.now ++ ended lines)) (ended lines) ≡ false)) }
    ensures answers { IfOk result (λ refused. IfSome (with_front unfinished.items (S.left source.old)) (λ lines. PutsBehind script.now (ended lines) (K.said sink.old) (K.said sink.new) refused)) }
    ensures cause { IfErr result (HasAskCause (S.faults source.old) (S.faults source.new) (K.faults sink.old) (K.faults sink.new) script.now (with_front unfinished.items (S.left source.old))) }
    ensures before { IfErr result (λ stop. IfChange stop (IfSome (with_front unfinished.items (S.left source.old)) (λ lines. PutsBeforeChange script.now (ended lines) (K.said sink.old) (K.said sink.new)))) }
{
    let mut session = Session::open(rt, alloc, script, unfinished)?;
    answer_pieces(rt, alloc, script, &mut session, buffer, source, sink)
}
