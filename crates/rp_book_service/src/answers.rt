//! The answers to lines behind those of a script.
ghost use Rattle.std.specs.Prelude.{◌≡◌, ◌+◌, ◌≤◌, [], None, false, length, true, IfErr, IfOk, OnOk};
ghost use Rattle.std.specs.List.{list_any};
ghost use Rattle.rp_io.specs.Bytes.{Appends};
ghost use Rattle.rp_model.specs.states.State.{opening, state_of_parts};
ghost use Rattle.rp_model.specs.states.Sound.{IsLaterThan};
ghost use Rattle.rp_command.specs.Versions.{version_of};
ghost use Rattle.rp_reports.specs.Machine.{after_line, step_answer};
ghost use Rattle.rp_reports.specs.Output.{is_refused_line, most_script_bytes};
ghost use Rattle.rp_reports.specs.Text.{answer_lines, text_of_lines};
ghost use Rattle.rp_scripts.specs.Output.{HasOutputCause};
ghost use Rattle.rp_book.specs.Lines.{IsEnded};
ghost use Rattle.rp_book_service.specs.Added.{PutsBehind};
ghost use Rattle.rp_book_service.specs.Answered.{Answers, AnswersBehind};

use rp_io::{QuietSink, Sink};
use rp_machine::Machine;
use rp_runner::run::run;
use rp_scripts::{OutputFault, next_line, put_answer, split_mark};
use std::alloc::Global;
use std::thread::Threads;

/// Has `machine` answer `line`, and puts the report lines of the answer, full or brief, into `sink`, by way of `text`,
/// a buffer for their bytes. Returns whether one of them is a refusal.
pub fn answer_line<R: Threads + Sync, K: Sink>(
    rt: &R,
    alloc: Global,
    machine: &mut Machine,
    number: u32,
    line: &[u8],
    brief: bool,
    text: &mut Vec<u8>,
    sink: &mut K,
) -> Result<bool, OutputFault>
    requires { IsLaterThan number (state_of_parts machine.old.state) }
    ensures counts { K.faults sink.old ≤ K.faults sink.new }
    ensures put { OnOk result (Appends (K.said sink.old) (K.said sink.new)
        (text_of_lines (answer_lines brief (step_answer machine.old.version machine.old.state number line.now)))) }
    ensures mark { IfOk result (λ refused. refused ≡ list_any is_refused_line (answer_lines false (step_answer machine.old.version machine.old.state number line.now))) }
    ensures state { OnOk result (machine.new ≡ after_line machine.old number line.now) }
    ensures later { OnOk result (IsLaterThan (number + 1) (state_of_parts machine.new.state)) }
    ensures cause { IfErr result (HasOutputCause (K.faults sink.old) (K.faults sink.new)) }
{
    let answer = machine.step(rt, alloc, number, line)?;
    put_answer(&answer, brief, text, sink)
}

/// Has `machine` answer `lines`, the first of which has the number `number`, and puts their report lines, full or
/// brief, into `sink`. Returns the number of the line after them, and whether a report line is a refusal.
pub fn answer_lines<R: Threads + Sync, K: Sink>(
    rt: &R,
    alloc: Global,
    machine: &mut Machine,
    number: u32,
    lines: &[u8],
    brief: bool,
    sink: &mut K,
) -> Result<(u32, bool), OutputFault>
    requires few { number + length lines.now ≤ most_script_bytes + 1 }
    requires later { IsLaterThan number (state_of_parts machine.old.state) }
    ensures counts { K.faults sink.old ≤ K.faults sink.new }
    ensures few { IfOk result (λ done. done.0 ≤ number + length lines.now) }
    ensures later { IfOk result (λ done. IsLaterThan done.0 (state_of_parts machine.new.state)) }
    ensures answers { IfOk result (λ done.
        Answers brief machine.old number lines.now machine.new done.0 (K.said sink.old) (K.said sink.new) done.1) }
    ensures cause { IfErr result (HasOutputCause (K.faults sink.old) (K.faults sink.new)) }
{
    let mut text = Vec::new(alloc);
    let mut rest = lines;
    let mut next = number;
    let mut refused = false;
    while let Some((line, behind)) = next_line(rest) {
        refused |= answer_line(rt, alloc, machine, next, line, brief, &mut text, sink)?;
        rest = behind;
        next += 1;
    }
    Ok((next, refused))
}

/// Has `machine`, which has answered no line, answer `body`, and puts nothing. Returns the number of the line after
/// `body`, and whether one of its report lines is a refusal.
///
/// # Errors
///
/// `Memory` if memory ran out.
pub fn run_body<R: Threads + Sync>(
    rt: &R,
    alloc: Global,
    machine: &mut Machine,
    body: &[u8],
) -> Result<(u32, bool), OutputFault>
    requires few { length body.now ≤ most_script_bytes }
    requires opened { machine.old.state ≡ opening }
    ensures few { IfOk result (λ done. done.0 ≤ 1 + length body.now) }
    ensures later { IfOk result (λ done. IsLaterThan done.0 (state_of_parts machine.new.state)) }
    ensures answers { IfOk result (λ done. Answers true machine.old 1 body.now machine.new done.0 None None done.1) }
    ensures cause { IfErr result (HasOutputCause 0 0) }
{
    let mut nowhere = QuietSink::new(alloc, 0)?;
    answer_lines(rt, alloc, machine, 1, body, true, &mut nowhere)
}

/// Has `machine`, which has answered no line, answer `body` and then `lines`. Puts the report lines of `lines` alone
/// into `sink`. Returns whether a report line of either is a refusal.
///
/// # Errors
///
/// - `Put` if a put failed.
/// - `Memory` if memory ran out.
fn answer_both<R: Threads + Sync, K: Sink>(
    rt: &R,
    alloc: Global,
    machine: &mut Machine,
    body: &[u8],
    lines: &[u8],
    sink: &mut K,
) -> Result<bool, OutputFault>
    requires few { length body.now + length lines.now ≤ most_script_bytes }
    requires opened { machine.old.state ≡ opening }
    ensures counts { K.faults sink.old ≤ K.faults sink.new }
    ensures answers { IfOk result (λ refused.
        AnswersBehind machine.old.version body.now lines.now (K.said sink.old) (K.said sink.new) refused) }
    ensures cause { IfErr result (HasOutputCause (K.faults sink.old) (K.faults sink.new)) }
{
    let (number, before) = run_body(rt, alloc, machine, body)?;
    let (_, refused) = answer_lines(rt, alloc, machine, number, lines, false, sink)?;
    Ok(before | refused)
}

/// Puts into `sink` what the report of `script` with `lines` after it has after the report of `script`. Returns whether
/// a line of the report of both is a refusal.
///
/// # Errors
///
/// - `Put` if a put failed.
/// - `Memory` if memory ran out.
pub fn put_behind<R: Threads + Sync, K: Sink>(
    rt: &R,
    alloc: Global,
    script: &[u8],
    lines: &[u8],
    sink: &mut K,
) -> Result<bool, OutputFault>
    requires end { IsEnded script.now }
    requires short { length script.now + length lines.now ≤ most_script_bytes }
    ensures counts { K.faults sink.old ≤ K.faults sink.new }
    ensures answers { IfOk result (λ refused. PutsBehind script.now lines.now (K.said sink.old) (K.said sink.new) refused) }
    ensures cause { IfErr result (HasOutputCause (K.faults sink.old) (K.faults sink.new)) }
{
    if script.is_empty() {
        return put_first(rt, alloc, lines, sink);
    }
    let (version, body) = split_mark(script);
    let mut machine = Machine::new(alloc, version)?;
    let answered = answer_both(rt, alloc, &mut machine, body, lines, sink);
    drop(machine);
    answered
}

/// Puts the report of `lines`, which come after an empty script, into `sink`. Returns whether a line of it is a
/// refusal.
///
/// # Errors
///
/// - `Put` if a put failed.
/// - `Memory` if memory ran out.
fn put_first<R: Threads + Sync, K: Sink>(
    rt: &R,
    alloc: Global,
    lines: &[u8],
    sink: &mut K,
) -> Result<bool, OutputFault>
    requires { length lines.now ≤ most_script_bytes }
    ensures counts { K.faults sink.old ≤ K.faults sink.new }
    ensures answers { IfOk result (λ refused. PutsBehind [] lines.now (K.said sink.old) (K.said sink.new) refused) }
    ensures cause { IfErr result (HasOutputCause (K.faults sink.old) (K.faults sink.new)) }
{
    run(rt, alloc, lines, false, sink)
}
