ghost use Rattle.std.specs.Prelude.{◌≡◌, ◌+◌, ◌≤◌, length, IfErr, IfOk, OnErr, OnOk};
ghost use Rattle.rp_io.specs.Bytes.{AppendsPrefix};
ghost use Rattle.rp_reports.specs.Output.{most_script_bytes};
ghost use Rattle.rp_model.specs.states.State.{opening, state_of_parts};
ghost use Rattle.rp_model.specs.states.Sound.{IsLaterThan};
ghost use Rattle.rp_reports.specs.Machine.{after_line, step_answer};
ghost use Rattle.rp_reports.specs.Report.{script_version};
ghost use Rattle.rp_reports.specs.Text.{answer_lines, text_of_lines};
ghost use Rattle.rp_scripts.specs.Output.{PutsAnswer, PutsFront, PutsOutput, HasOutputCause, report_task};

use rp_io::Sink;
use rp_machine::Machine;
use rp_scripts::{OutputFault, next_line, put_answer, put_mark, split_mark};
use rp_text::REPORT_MARK;
use std::alloc::Global;
use std::thread::Threads;

/// Puts the report lines of one line of the script, by way of a buffer for their text, where the report is brief
/// without the proof lines. Answers whether one is a refusal. The number of the line is above those of all lines before
/// it.
fn run_line<R: Threads + Sync, K: Sink>(
    rt: &R,
    alloc: Global,
    machine: &mut Machine,
    number: u32,
    line: &[u8],
    brief: bool,
    text: &mut Vec<u8>,
    sink: &mut K,
) -> Result<bool, OutputFault>
    requires { IsLaterThan number (state_of_parts machine.old.state) }
    ensures counts { K.faults sink.old ≤ K.faults sink.new }
    ensures answer { IfOk result (λ refused.
        PutsAnswer brief machine.old number line.now (K.said sink.old) (K.said sink.new) refused) }
    ensures front { OnErr result (AppendsPrefix (K.said sink.old) (K.said sink.new)
        (text_of_lines (answer_lines brief (step_answer machine.old.version machine.old.state number line.now)))) }
    ensures state { OnOk result (machine.new ≡ after_line machine.old number line.now) }
    ensures later { OnOk result (IsLaterThan (number + 1) (state_of_parts machine.new.state)) }
    ensures cause { IfErr result (HasOutputCause (K.faults sink.old) (K.faults sink.new)) }
{
    let answer = machine.step(rt, alloc, number, line)?;
    put_answer(&answer, brief, text, sink)
}

/// Puts the report of a script by a machine of its version that has answered no line yet.
fn put_report<R: Threads + Sync, K: Sink>(
    rt: &R,
    alloc: Global,
    machine: &mut Machine,
    script: &[u8],
    brief: bool,
    sink: &mut K,
) -> Result<bool, OutputFault>
    requires short { length script.now ≤ most_script_bytes }
    requires opened { machine.old ≡ record { version = script_version script.now; state = opening } }
    ensures counts { K.faults sink.old ≤ K.faults sink.new }
    ensures report { IfOk result (λ refused.
        PutsOutput (report_task brief) script.now (K.said sink.old) (K.said sink.new) refused) }
    ensures front { OnErr result (PutsFront (report_task brief) script.now (K.said sink.old) (K.said sink.new)) }
    ensures cause { IfErr result (HasOutputCause (K.faults sink.old) (K.faults sink.new)) }
{
    let (version, body) = split_mark(script);
    put_mark(version, REPORT_MARK, sink)?;
    let mut text = Vec::new(alloc);
    let mut rest = body;
    let mut number = 1;
    let mut refused = false;
    while let Some((line, behind)) = next_line(rest) {
        refused |= run_line(rt, alloc, machine, number, line, brief, &mut text, sink)?;
        rest = behind;
        number += 1;
    }
    Ok(refused)
}

/// Puts the report of `script`, of at most 16,777,216 bytes, to `sink`, answer by answer, and where `brief` without the
/// proof lines: one machine answers the lines of its body in order. The report of a script of version 2 begins with the
/// line `> 0 rp 2`. Answers whether something was refused; `Put` only where a put failed, `Memory` only for want of
/// memory, and then a front of the report was put.
pub fn run<R: Threads + Sync, K: Sink>(
    rt: &R,
    alloc: Global,
    script: &[u8],
    brief: bool,
    sink: &mut K,
) -> Result<bool, OutputFault>
    requires { length script.now ≤ most_script_bytes }
    ensures counts { K.faults sink.old ≤ K.faults sink.new }
    ensures report { IfOk result (λ refused.
        PutsOutput (report_task brief) script.now (K.said sink.old) (K.said sink.new) refused) }
    ensures front { OnErr result (PutsFront (report_task brief) script.now (K.said sink.old) (K.said sink.new)) }
    ensures cause { IfErr result (HasOutputCause (K.faults sink.old) (K.faults sink.new)) }
{
    let (version, _) = split_mark(script);
    let mut machine = Machine::new(alloc, version)?;
    put_report(rt, alloc, &mut machine, script, brief, sink)
}
