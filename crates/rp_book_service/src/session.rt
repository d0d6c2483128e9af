//! Questions that come in pieces after a script. Each is answered with the piece that ends its line.
ghost use Rattle.std.specs.Prelude.{◌≡◌, ◌+◌, ◌<◌, ◌≤◌, ◌^◌, ◌++◌, [], false, length, IfErr, IfOk, OnOk};
ghost use Rattle.rp_command.specs.Versions.{version_of};
ghost use Rattle.rp_model.specs.states.State.{state_of_parts};
ghost use Rattle.rp_model.specs.states.Sound.{IsLaterThan};
ghost use Rattle.rp_reports.specs.Output.{most_script_bytes};
ghost use Rattle.rp_scripts.specs.Output.{HasOutputCause};
ghost use Rattle.rp_book_service.specs.Added.{has_change};
ghost use Rattle.rp_book_service.specs.Answered.{Answers};
ghost use Rattle.rp_book_service.specs.Session.{AnswersLines, HasAnswerCause, HasNoEnd, HasPieceCause, IsBehind, IsCut, IsReady, Replies, missing_end};

use crate::answers::{answer_line, run_body};
use crate::change::line_changes;
use crate::stop::Stop;
use rp_command::Version;
use rp_io::Sink;
use rp_machine::Machine;
use rp_scripts::{OutputFault, next_line, split_mark};
use std::alloc::Global;
use std::thread::Threads;

/// Returns the complete lines at the beginning of `text`, up to its last line feed, and the bytes after them.
pub fn cut_lines(text: &[u8]) -> (&[u8], &[u8])
    ensures { IsCut text.now result.0.now result.1.now }
{
    let mut end = text.len();
    while end > 0 && text[end - 1] != b'\n' {
        end -= 1;
    }
    text.split_at(end)
}

/// Has `machine` answer `lines`, of a script of `version`, and puts the report lines of each before the next is read.
/// Returns the number of the line after them, and whether one of them is refused. The first line has the number
/// `number`.
///
/// # Errors
///
/// - `Change` if a line changes which lots there are. The lines before it have been answered, and no line after it.
/// - `Put` if a put failed.
/// - `Memory` if memory ran out.
fn answer_questions<R: Threads + Sync, K: Sink>(
    rt: &R,
    alloc: Global,
    version: Version,
    machine: &mut Machine,
    number: u32,
    lines: &[u8],
    sink: &mut K,
) -> Result<(u32, bool), Stop>
    requires version { version_of version ≡ machine.old.version }
    requires few { number + length lines.now < 2 ^ 32 }
    requires later { IsLaterThan number (state_of_parts machine.old.state) }
    ensures counts { K.faults sink.old ≤ K.faults sink.new }
    ensures few { IfOk result (λ done. done.0 ≤ number + length lines.now) }
    ensures later { IfOk result (λ done. IsLaterThan done.0 (state_of_parts machine.new.state)) }
    ensures questions { IfOk result (λ _. has_change machine.old.version lines.now ≡ false) }
    ensures answers { IfOk result (λ done.
        Answers false machine.old number lines.now machine.new done.0 (K.said sink.old) (K.said sink.new) done.1) }
    ensures cause { IfErr result (HasAnswerCause (K.faults sink.old) (K.faults sink.new) machine.old number lines.now (K.said sink.old) (K.said sink.new)) }
{
    let mut text = Vec::new(alloc);
    let mut rest = lines;
    let mut next = number;
    let mut refused = false;
    while let Some((line, behind)) = next_line(rest) {
        if line_changes(alloc, version, line)? {
            return Err(Stop::Change);
        }
        refused |= answer_line(rt, alloc, machine, next, line, false, &mut text, sink)?;
        rest = behind;
        next += 1;
    }
    Ok((next, refused))
}

/// A machine that has answered a script and the complete lines after it that have come so far.
pub struct Session {
    /// The version of the script, by which lines are read.
    version: Version,
    /// The machine after the last line that was answered.
    machine: Machine,
    /// The number of the next line.
    next: u32,
    /// The bytes after the last line feed, with which the next line begins.
    unfinished: Vec<u8>,
    /// Set if a line of the script or a line after it is refused.
    refused: bool,
}

// A derived drop stands in line, with all that a machine holds, at each way out of a function that holds a session; this one is
// a call there.
impl Drop for Session {
    fn drop(self) {
        let Session {
            version: _,
            machine,
            next: _,
            unfinished,
            refused: _,
        } = self;
        drop(machine);
        drop(unfinished);
    }
}

impl Session {
    /// Runs `script` and returns the session for the lines after it, the first of which begins with the bytes of
    /// `unfinished`. Puts nothing.
    ///
    /// # Errors
    ///
    /// `Memory` if memory ran out.
    pub fn open<R: Threads + Sync>(
        rt: &R,
        alloc: Global,
        script: &[u8],
        unfinished: Vec<u8>,
    ) -> Result<Session, OutputFault>
        requires short { length script.now ≤ most_script_bytes }
        requires unended { HasNoEnd unfinished.items }
        ensures ready { IfOk result (λ session. IsReady session) }
        ensures unfinished { IfOk result (λ session. session.unfinished.items ≡ unfinished.items) }
        ensures behind { IfOk result (λ session. IsBehind script.now session) }
        ensures cause { IfErr result (HasOutputCause 0 0) }
    {
        let (version, body) = split_mark(script);
        let mut machine = Machine::new(alloc, version)?;
        match run_body(rt, alloc, &mut machine, body) {
            Ok((next, refused)) => Ok(Session {
                version,
                machine,
                next,
                unfinished,
                refused,
            }),
            Err(fault) => {
                drop(machine);
                Err(fault)
            }
        }
    }

    /// Returns how many bytes the unfinished line has.
    pub fn unfinished_bytes(&self) -> usize
        ensures { result ≡ length self.now.unfinished.items }
    {
        self.unfinished.len()
    }

    /// Returns whether a line of the script or one of the lines that were answered is refused.
    pub fn is_refused(&self) -> bool
        ensures { result ≡ self.now.refused }
    {
        self.refused
    }

    /// Answers the bytes that were unfinished and are complete lines now, puts the answers into `sink`, and drops the
    /// bytes.
    ///
    /// # Errors
    ///
    /// - `Change` if a line changes which lots there are. The lines before it have been answered, and no line after it.
    /// - `Put` if a put failed.
    /// - `Memory` if memory ran out.
    fn answer_unfinished<R: Threads + Sync, K: Sink>(
        &mut self,
        rt: &R,
        alloc: Global,
        sink: &mut K,
    ) -> Result<(), Stop>
        requires version { version_of self.old.version ≡ self.old.machine.version }
        requires later { IsLaterThan self.old.next (state_of_parts self.old.machine.state) }
        requires few { self.old.next + length self.old.unfinished.items < 2 ^ 32 }
        ensures counts { K.faults sink.old ≤ K.faults sink.new }
        ensures few { OnOk result (self.new.next ≤ self.old.next + length self.old.unfinished.items) }
        ensures ready { OnOk result (IsReady self.new) }
        ensures none { OnOk result (self.new.unfinished.items ≡ []) }
        ensures answers { OnOk result (AnswersLines self.old.unfinished.items self.old self.new (K.said sink.old) (K.said sink.new)) }
        ensures cause { IfErr result (HasAnswerCause (K.faults sink.old) (K.faults sink.new) self.old.machine self.old.next self.old.unfinished.items (K.said sink.old) (K.said sink.new)) }
    {
        let (next, refused) = answer_questions(
            rt,
            alloc,
            self.version,
            &mut self.machine,
            self.next,
            &self.unfinished,
            sink,
        )?;
        self.next = next;
        self.refused |= refused;
        self.unfinished.clear();
        Ok(())
    }

    /// Answers all lines that are complete with `piece`, which comes after the pieces of the calls before, and puts the
    /// answers into `sink`. Keeps the bytes after the last line feed for the next call.
    ///
    /// # Errors
    ///
    /// - `Change` if a complete line changes which lots there are. The lines before it have been answered, and no line after it.
    /// - `Put` if a put failed.
    /// - `Memory` if memory ran out.
    pub fn answer_piece<R: Threads + Sync, K: Sink>(
        &mut self,
        rt: &R,
        alloc: Global,
        piece: &[u8],
        sink: &mut K,
    ) -> Result<(), Stop>
        requires ready { IsReady self.old }
        requires few { self.old.next + length self.old.unfinished.items + length piece.now < 2 ^ 32 }
        ensures counts { K.faults sink.old ≤ K.faults sink.new }
        ensures few { OnOk result (self.new.next + length self.new.unfinished.items ≤ self.old.next + length self.old.unfinished.items + length piece.now) }
        ensures ready { OnOk result (IsReady self.new) }
        ensures replies { OnOk result (Replies piece.now self.old self.new (K.said sink.old) (K.said sink.new)) }
        ensures cause { IfErr result (HasPieceCause (K.faults sink.old) (K.faults sink.new) self.old (self.old.unfinished.items ++ piece.now) (K.said sink.old) (K.said sink.new)) }
    {
        let (lines, rest) = cut_lines(piece);
        if lines.is_empty() {
            self.unfinished.extend_from_slice(piece)?;
            return Ok(());
        }
        self.unfinished.extend_from_slice(lines)?;
        self.answer_unfinished(rt, alloc, sink)?;
        self.unfinished.extend_from_slice(rest)?;
        Ok(())
    }

    /// Answers the unfinished line after the last piece, if there is one, and puts the answer into `sink`.
    ///
    /// # Errors
    ///
    /// - `Change` if the line changes which lots there are. It is not answered.
    /// - `Put` if a put failed.
    /// - `Memory` if memory ran out.
    pub fn finish<R: Threads + Sync, K: Sink>(
        &mut self,
        rt: &R,
        alloc: Global,
        sink: &mut K,
    ) -> Result<(), Stop>
        requires ready { IsReady self.old }
        requires few { self.old.next + length self.old.unfinished.items + 1 < 2 ^ 32 }
        ensures counts { K.faults sink.old ≤ K.faults sink.new }
        ensures none { OnOk result (self.new.unfinished.items ≡ []) }
        ensures replies { OnOk result (Replies (missing_end self.old.unfinished.items) self.old self.new (K.said sink.old) (K.said sink.new)) }
        ensures cause { IfErr result (HasPieceCause (K.faults sink.old) (K.faults sink.new) self.old (self.old.unfinished.items ++ missing_end self.old.unfinished.items) (K.said sink.old) (K.said sink.new)) }
    {
        if self.unfinished.is_empty() {
            return Ok(());
        }
        self.unfinished.extend_from_slice(b"\n")?;
        self.answer_unfinished(rt, alloc, sink)
    }
}
