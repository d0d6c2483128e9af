//! The answer to a line, and what it changes.
ghost use Rattle.std.specs.Prelude.{◌≡◌, ◌<◌, ◌∷◌, ◌++◌, [], Err, map, IfOk, OnOk, OnErr};
ghost use Rattle.std.specs.List.{AllByRecursion};
ghost use Rattle.rp_command.specs.Views.{command_of, fault_of};
ghost use Rattle.rp_geometry.specs.parts.Parts.{IsPart};
ghost use Rattle.rp_geometry.specs.sections.Trace.{IsHeight};
ghost use Rattle.rp_language.specs.Expression.{IsKeptExpression, expressions_of, heights_of, HasFewChildren};
ghost use Rattle.rp_language.specs.Grammar.{command};
ghost use Rattle.rp_model.specs.states.State.{changed, state_of_parts};
ghost use Rattle.rp_model.specs.states.Sound.{IsLaterThan};
ghost use Rattle.rp_reports.specs.Report.{echoed, bad_answer};
ghost use Rattle.rp_reports.specs.Machine.{answer_read, state_read};
ghost use Rattle.rp_cert.specs.Lines.{line_of};
ghost use Rattle.rp_answer.specs.Views.{answer_of, verdict_of};
ghost use Rattle.rp_register_state.specs.Taken.{IsTaken};
ghost use Rattle.rp_machine.specs.Replies.{made_by, made_by_row, verdicts_of_row, proofs_of_row, IsWant};

use crate::state::State;
use rp_answer::{Answer, Echo, Refusal, RowEnd, Verdict, Verdicts};
use rp_cert::Proofs;
use rp_command::{Command, Why};
use rp_oracle::Stopped;
use rp_region::{Region, Work};
use rp_register_state::Reply;
use std::alloc::{AllocError, Global};
use std::thread::Threads;

/// Returns the bytes of a line that is no command, as they are echoed: none of a line that is too long.
fn echoed(line: &[u8], why: Why) -> &[u8]
    ensures { result.now ≡ echoed (fault_of why) line.now }
{
    match why {
        Why::Long => &[],
        _ => line,
    }
}

/// Returns the answer to a line that is no command.
pub(crate) fn bad_line(alloc: Global, n: u32, line: &[u8], why: Why) -> Result<Answer, AllocError>
    ensures { IfOk result (λ a. answer_of a ≡ bad_answer n line.now (fault_of why)) }
{
    let verdict = Verdict::Refused(Refusal::Bad(why));
    Answer::with_verdict(alloc, n, echoed(line, why), Proofs::new(alloc), verdict)
}

/// Returns an empty list with room for one verdict line.
fn room_for_one(alloc: Global) -> Result<Verdicts, AllocError>
    ensures empty { IfOk result (λ lines. lines.items ≡ []) }
    ensures room { IfOk result (λ lines. 0 < lines.spare) }
{
    let mut lines = Verdicts::new(alloc);
    lines.reserve(1)?;
    Ok(lines)
}

/// Returns the list with one more verdict line, for which there is room. Takes no memory.
fn with_line(mut lines: Verdicts, verdict: Verdict) -> Verdicts
    requires { 0 < lines.spare }
    ensures { result.items ≡ lines.items ++ verdict ∷ [] }
{
    lines.push(verdict).unwrap();
    lines
}

/// Returns the verdict lines of a row that has no reply: the one line of a refusal or of a limit, for which there is
/// room. Takes no memory. Answers `AllocError` only where the row does.
fn end_lines(end: RowEnd, room: Verdicts) -> Result<Verdicts, AllocError>
    requires empty { room.items ≡ [] }
    requires room { 0 < room.spare }
    ensures lines { IfOk result (λ lines. map verdict_of lines.items ≡ verdicts_of_row (Err end)) }
    ensures there { OnOk result (¬ IsWant (Err end)) }
    ensures want { OnErr result (IsWant (Err end)) }
{
    match end {
        RowEnd::Refused(refusal) => Ok(with_line(room, Verdict::Refused(refusal))),
        RowEnd::Stopped(Stopped::Memory(fault)) => Err(fault),
        RowEnd::Stopped(
            Stopped::Wrong | Stopped::TakenWrong | Stopped::LimitReported | Stopped::Limit,
        ) => { Ok(with_line(room, Verdict::Refused(Refusal::Limit))) }
    }
}

/// Returns the proof lines of a row, which has done this work: none where it is stopped. Takes no memory.
fn row_proofs(alloc: Global, row: &Result<Reply<Region>, RowEnd>, work: Work) -> Proofs
    ensures { map line_of result.items ≡ proofs_of_row row.now work.proofs }
{
    match row {
        Err(RowEnd::Stopped(_)) => Proofs::new(alloc),
        _ => work.into_proofs(),
    }
}

impl State {
    /// Returns the verdict lines of a row, whose change, if it has one, is made; there is room for one line. Takes
    /// memory for the change alone. After `AllocError` all is as before.
    fn follow(
        &mut self,
        alloc: Global,
        n: u32,
        row: Result<Reply<Region>, RowEnd>,
        room: Verdicts,
    ) -> Result<Verdicts, AllocError>
        requires later { IsLaterThan n (state_of_parts self.old) }
        requires taken { IfOk row (λ reply. IsTaken IsPart n self.old (made_by reply)) }
        requires empty { room.items ≡ [] }
        requires room { 0 < room.spare }
        ensures lines { IfOk result (λ lines. map verdict_of lines.items ≡ verdicts_of_row row) }
        ensures state { OnOk result (self.new ≡ changed n self.old (made_by_row row)) }
        ensures there { OnOk result (¬ IsWant row) }
        ensures unchanged { OnErr result (self.new ≡ self.old) }
    {
        match row {
            Ok(Reply::Told(lines)) => Ok(lines),
            Ok(Reply::Changed(change)) => {
                self.apply(alloc, n, change)?;
                Ok(with_line(room, Verdict::Ok))
            }
            Err(end) => end_lines(end, room),
        }
    }

    /// Returns the answer to a line that reads as the command, and what it changes. The memory of the answer is taken
    /// before anything changes.
    pub(crate) fn answer<R: Threads + Sync>(
        &mut self,
        rt: &R,
        alloc: Global,
        n: u32,
        line: &[u8],
        asked: &Command,
    ) -> Result<Answer, AllocError>
        requires later { IsLaterThan n (state_of_parts self.old) }
        requires kept { AllByRecursion IsKeptExpression (expressions_of (command_of asked.now)) }
        requires heights { AllByRecursion IsHeight (heights_of (command_of asked.now)) }
        requires few { HasFewChildren (command_of asked.now) }
        ensures answer { IfOk result (λ a. answer_of a ≡ answer_read self.old n line.now (command (command_of asked.now))) }
        ensures state { OnOk result (self.new ≡ state_read self.old n (command (command_of asked.now))) }
        ensures unchanged { OnErr result (self.new ≡ self.old) }
    {
        self.keep_sound();
        let echo = Echo::copy_of(alloc, line)?;
        let room = room_for_one(alloc)?;
        let mut work = Work::over(alloc, self.lend_room());
        let row = self.carry_out(rt, alloc, asked, &mut work);
        self.keep_room(work.hand_on_room());
        let proofs = row_proofs(alloc, &row, work);
        let verdicts = self.follow(alloc, n, row, room)?;
        Ok(Answer {
            n,
            echo,
            proofs,
            verdicts,
        })
    }
}
