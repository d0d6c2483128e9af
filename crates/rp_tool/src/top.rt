ghost use Rattle.std.specs.Prelude.{◌≡◌, ◌≢◌, ◌⊎◌, ◌↔◌, ◌<◌, ◌≤◌, [], false, length, map, string_bytes, IfErr, IfOk, IfSome, IsTrue, List, OnErr, OnOk, ℕ};
ghost use Rattle.rp_io.specs.Bytes.{Appends};
ghost use Rattle.rp_io.specs.Faults.{HasRisen};
ghost use Rattle.rp_io.specs.Intake.{IsPastLimit};
ghost use Rattle.rp_reports.specs.Output.{check_report, most_report_bytes, most_script_bytes, report_lines, task_of, try_script};
ghost use Rattle.rp_reports.specs.TrueReport.{IsTrueReport};
ghost use Rattle.rp_scripts.specs.Output.{PutsFront, PutsOutput, HasOutputCause};
ghost use Rattle.rp_scripts.specs.Task.{meaning_of_given, meaning_of_made};
ghost use Rattle.rp_scripts.specs.TrialReport.{PutsTrial};
ghost use Rattle.rp_tool.specs.Check.{IsWrittenReport};
ghost use Rattle.rp_tool.specs.Status.{IsFrontOf, IsOutputOf, most_input_bytes, reads_input, status_of_fault, status_of_intake, status_of_made, status_of_output};

use crate::check::check;
use crate::status::{DONE, OUT_OF_MEMORY, PUT_FAILED, READ_FAILED, REFUSED, TOO_LONG, UNLISTED};
use rp_io::{IntakeFault, Sink, Source, read_whole};
use rp_runner::run::run;
use rp_runner::trial::trial;
use rp_scripts::make::make;
use rp_scripts::spell::spell;
use rp_scripts::upgrade::upgrade;
use rp_scripts::{Building, GivenTask, MadeTask, OutputFault, Task, listed_task};
use std::alloc::Global;
use std::thread::Threads;

/// The most bytes of a script.
const MOST_SCRIPT_BYTES: usize = 16_777_216;

/// The most bytes of a report that is checked.
const MOST_REPORT_BYTES: usize = 67_108_864;

/// Does what `words`, those of a command line, ask for: reads `source` to its end, writes the output to `sink`, and
/// answers a status.
///
/// These words are listed. The input is a script of at most 16,777,216 bytes, with `check` a report of at most
/// 67,108,864 bytes. The output has one put for each line.
///
/// A script whose first line is `rp 2` is of version 2, and every other one of version 1; the lines behind that line
/// are its body, and are numbered from 1.
///
/// - `run`: the output is the report of the script, which begins with the line `> 0 rp 2` in version 2. Refused is what
///   a verdict line says is refused.
/// - `run brief`: the output is the report without its proof lines.
/// - `check`: the output is `accepted`, or `wrong n` with the number of the first line at which no accepted report goes
///   on. Refused is a report that is not accepted.
/// - `script`: the output is each command of the script in its one spelling of the script's version, behind the line
///   `rp 2` in version 2. Blank and bad lines are left out. Refused are the bad lines of the body: those that are
///   neither blank nor a command.
/// - `upgrade`: the output is the script as one of version 2: the line `rp 2`, and then for each line of the body one
///   line, which is the same where it is blank, the spelling of version 2 where it is a command, and empty where it is
///   bad. Refused are the bad lines.
/// - `make N SEED`, N from 1 to 1,000 and SEED from 0 to 18,446,744,073,709,551,615, in the spelling of a script:
///   nothing is read, and the output is the script of a building of N storeys, drawn from the seed. Nothing is refused.
/// - `trial N SEED`, with the same numbers: nothing is read, and the output is what is counted in the report of that
///   script. Nothing is refused.
///
/// What each status says stands in [`crate::status`].
pub fn tool<R: Threads + Sync, S: Source, K: Sink>(
    rt: &R,
    alloc: Global,
    words: &[String],
    source: &mut S,
    sink: &mut K,
) -> u8
    ensures status { result ≤ TOO_LONG }
    ensures counts { (S.faults source.old ≤ S.faults source.new) × (K.faults sink.old ≤ K.faults sink.new) }

    // The whole output was written, and the input was read to its end.
    ensures whole { result ≤ REFUSED → IfSome (S.left source.old) (λ input.
        IsOutputOf (map string_bytes words.now) input (K.said sink.old) (K.said sink.new) result) }
    ensures at_end { result ≤ REFUSED → IsTrue (reads_input (map string_bytes words.now))
        → IfSome (S.left source.old) (λ _. S.left source.new ≡ Some []) }

    // Words that read no input: whatever the source has, nothing is read, and the output is the same.
    ensures unread { reads_input (map string_bytes words.now) ≡ false → source.new ≡ source.old }
    ensures made { result ≤ REFUSED → reads_input (map string_bytes words.now) ≡ false
        → IsOutputOf (map string_bytes words.now) [] (K.said sink.old) (K.said sink.new) result }
    ensures makes { task_of (map string_bytes words.now) ≢ None → reads_input (map string_bytes words.now) ≡ false
        → (result ≡ DONE) ⊎ (result ≡ PUT_FAILED) ⊎ (result ≡ OUT_OF_MEMORY) }

    // What `trial` writes are counts over the one report of the made script, and over the last state of its run.
    ensures trial { (n seed : ℕ) → task_of (map string_bytes words.now) ≡ Some (try_script n seed) → result ≡ DONE
        → PutsTrial n seed (K.said sink.old) (K.said sink.new) }

    // Where a put failed or memory ran out, nothing was written, or a front of the output.
    ensures front { (result ≡ PUT_FAILED) ⊎ (result ≡ OUT_OF_MEMORY) → IfSome (S.left source.old) (λ input.
        Appends (K.said sink.old) (K.said sink.new) [] ⊎ IsFrontOf (map string_bytes words.now) input (K.said sink.old) (K.said sink.new)) }
    ensures made_front { (result ≡ PUT_FAILED) ⊎ (result ≡ OUT_OF_MEMORY) → reads_input (map string_bytes words.now) ≡ false
        → IsFrontOf (map string_bytes words.now) [] (K.said sink.old) (K.said sink.new) }

    // Nothing is read or written for words that are not listed.
    ensures unlisted { (result ≡ UNLISTED) ↔ (task_of (map string_bytes words.now) ≡ None) }
    ensures untouched { result ≡ UNLISTED → (source.new ≡ source.old) × (sink.new ≡ sink.old) }

    // What each other status says.
    ensures read_failed { result ≡ READ_FAILED → HasRisen (S.faults source.old) (S.faults source.new) }
    ensures put_failed { result ≡ PUT_FAILED → HasRisen (K.faults sink.old) (K.faults sink.new) }
    ensures too_long { result ≡ TOO_LONG → (S.faults source.new ≡ S.faults source.old) × IsPastLimit (S.left source.old) (most_input_bytes (map string_bytes words.now)) }
    ensures nothing_written { (result ≡ READ_FAILED) ⊎ (result ≡ TOO_LONG) → sink.new ≡ sink.old }

    // When an input past the limit of its task is refused, and when one within it is done.
    ensures refuses { IsTrue (reads_input (map string_bytes words.now))
        → (¬ HasRisen (S.faults source.old) (S.faults source.new))
        → IfSome (S.left source.old) (λ input. most_input_bytes (map string_bytes words.now) < length input → (result ≡ TOO_LONG) ⊎ (result ≡ OUT_OF_MEMORY)) }
    ensures completes { task_of (map string_bytes words.now) ≢ None
        → (¬ HasRisen (S.faults source.old) (S.faults source.new)) → (¬ HasRisen (K.faults sink.old) (K.faults sink.new))
        → IfSome (S.left source.old) (λ input. length input ≤ most_input_bytes (map string_bytes words.now) → (result ≤ REFUSED) ⊎ (result ≡ OUT_OF_MEMORY)) }

    // A report that is accepted is true, whoever wrote it, and one that was written whole is accepted.
    ensures is_true { result ≡ DONE → task_of (map string_bytes words.now) ≡ Some check_report
        → IfSome (S.left source.old) (λ input. IsTrueReport (report_lines input)) }
    ensures accepts { task_of (map string_bytes words.now) ≡ Some check_report
        → (¬ HasRisen (S.faults source.old) (S.faults source.new)) → (¬ HasRisen (K.faults sink.old) (K.faults sink.new))
        → IfSome (S.left source.old) (λ input. length input ≤ most_report_bytes → IsWrittenReport input → (result ≡ DONE) ⊎ (result ≡ OUT_OF_MEMORY)) }
{
    let Some(task) = listed_task(words) else {
        return UNLISTED;
    };
    match task {
        Task::Given(task) => match read_whole(alloc, source, MOST_SCRIPT_BYTES) {
            Ok(script) => output_status(put_given(rt, alloc, task, &script, sink)),
            Err(fault) => intake_status(fault),
        },
        Task::Check => match read_whole(alloc, source, MOST_REPORT_BYTES) {
            Ok(report) => output_status(check(alloc, &report, sink)),
            Err(fault) => intake_status(fault),
        },
        Task::Made(task, building) => made_status(put_made(rt, alloc, task, building, sink)),
    }
}

/// Puts the output of a task on a script that was read. Answers whether something was refused.
fn put_given<R: Threads + Sync, K: Sink>(
    rt: &R,
    alloc: Global,
    task: GivenTask,
    script: &[u8],
    sink: &mut K,
) -> Result<bool, OutputFault>
    requires { length script.now ≤ most_script_bytes }
    ensures counts { K.faults sink.old ≤ K.faults sink.new }
    ensures output { IfOk result (λ refused.
        PutsOutput (meaning_of_given task) script.now (K.said sink.old) (K.said sink.new) refused) }
    ensures front { OnErr result (PutsFront (meaning_of_given task) script.now (K.said sink.old) (K.said sink.new)) }
    ensures cause { IfErr result (HasOutputCause (K.faults sink.old) (K.faults sink.new)) }
{
    match task {
        GivenTask::Run => run(rt, alloc, script, false, sink),
        GivenTask::RunBrief => run(rt, alloc, script, true, sink),
        GivenTask::Spell => spell(alloc, script, sink),
        GivenTask::Upgrade => upgrade(alloc, script, sink),
    }
}

/// Puts the output of a task on the script of a building. Nothing can be refused.
fn put_made<R: Threads + Sync, K: Sink>(
    rt: &R,
    alloc: Global,
    task: MadeTask,
    building: Building,
    sink: &mut K,
) -> Result<(), OutputFault>
    ensures counts { K.faults sink.old ≤ K.faults sink.new }
    ensures output { OnOk result ((input : List ℕ) →
        PutsOutput (meaning_of_made task building.storeys building.seed) input (K.said sink.old) (K.said sink.new) false) }
    ensures front { OnErr result ((input : List ℕ) →
        PutsFront (meaning_of_made task building.storeys building.seed) input (K.said sink.old) (K.said sink.new)) }
    ensures cause { IfErr result (HasOutputCause (K.faults sink.old) (K.faults sink.new)) }
{
    match task {
        MadeTask::Write => make(alloc, building, sink),
        MadeTask::Try => trial(rt, alloc, building, sink),
    }
}

/// Returns the status of an output.
fn output_status(outcome: Result<bool, OutputFault>) -> u8
    ensures { result ≡ status_of_output outcome }
{
    match outcome {
        Ok(false) => DONE,
        Ok(true) => REFUSED,
        Err(fault) => fault_status(fault),
    }
}

/// Returns the status of an output in which nothing can be refused.
fn made_status(outcome: Result<(), OutputFault>) -> u8
    ensures { result ≡ status_of_made outcome }
{
    match outcome {
        Ok(()) => DONE,
        Err(fault) => fault_status(fault),
    }
}

/// Returns the status where an output was not put whole.
fn fault_status(fault: OutputFault) -> u8
    ensures { result ≡ status_of_fault fault }
{
    match fault {
        OutputFault::Put => PUT_FAILED,
        OutputFault::Memory(_) => OUT_OF_MEMORY,
    }
}

/// Returns the status where the input was not read whole.
fn intake_status(fault: IntakeFault) -> u8
    ensures { result ≡ status_of_intake fault }
{
    match fault {
        IntakeFault::Failed => READ_FAILED,
        IntakeFault::TooLong => TOO_LONG,
        IntakeFault::Memory(_) => OUT_OF_MEMORY,
    }
}
