//! What is counted in the report of a made script.
ghost use Rattle.std.specs.Prelude.{◌≡◌, ◌+◌, ◌^◌, ◌<◌, IfOk, OnOk};
ghost use Rattle.rp_language.specs.Grammar.{one};
ghost use Rattle.rp_model.specs.states.State.{opening, state_of_parts};
ghost use Rattle.rp_model.specs.states.Sound.{IsLaterThan};
ghost use Rattle.rp_reports.specs.Machine.{after_line, step_answer};
ghost use Rattle.rp_reports.specs.Made.{made_script, run_from};
ghost use Rattle.rp_scripts.specs.Made.{made_line};
ghost use Rattle.rp_scripts.specs.Trial.{AreBounded, counted, summary_of};

use rp_command::Version;
use rp_machine::Machine;
use rp_scripts::{Building, Counts, MadeLine, MadeScript, Summary};
use std::alloc::{AllocError, Global};
use std::thread::Threads;

/// Has the machine answer the next line of a script, and counts the answer.
fn count_line<R: Threads + Sync>(
    rt: &R,
    alloc: Global,
    machine: &mut Machine,
    line: &[u8],
    counts: &mut Counts,
) -> Result<(), AllocError>
    requires few { counts.old.lines + 1 < 2 ^ 32 }
    requires bounded { AreBounded counts.old }
    requires later { IsLaterThan (counts.old.lines + 1) (state_of_parts machine.old.state) }
    ensures counted { OnOk result (counts.new ≡ counted counts.old (step_answer machine.old.version machine.old.state (counts.old.lines + 1) line.now)) }
    ensures bounded { OnOk result (AreBounded counts.new) }
    ensures state { OnOk result (machine.new ≡ after_line machine.old (counts.old.lines + 1) line.now) }
    ensures later { OnOk result (IsLaterThan (counts.new.lines + 1) (state_of_parts machine.new.state)) }
{
    let answer = machine.step(rt, alloc, counts.lines + 1, line)?;
    counts.add(&answer);
    Ok(())
}

/// Has the machine answer a line of the script of a building, by way of a buffer for its text, and counts the answer.
fn count_made<R: Threads + Sync>(
    rt: &R,
    alloc: Global,
    machine: &mut Machine,
    line: MadeLine,
    text: &mut Vec<u8>,
    counts: &mut Counts,
) -> Result<(), AllocError>
    requires few { counts.old.lines + 1 < 2 ^ 32 }
    requires bounded { AreBounded counts.old }
    requires later { IsLaterThan (counts.old.lines + 1) (state_of_parts machine.old.state) }
    ensures counted { OnOk result (counts.new ≡ counted counts.old (step_answer machine.old.version machine.old.state (counts.old.lines + 1) (made_line line))) }
    ensures bounded { OnOk result (AreBounded counts.new) }
    ensures state { OnOk result (machine.new ≡ after_line machine.old (counts.old.lines + 1) (made_line line)) }
    ensures later { OnOk result (IsLaterThan (counts.new.lines + 1) (state_of_parts machine.new.state)) }
{
    text.clear();
    line.write(text)?;
    count_line(rt, alloc, machine, text, counts)
}

/// Has a machine that answered no line yet answer the script of a building, and counts its answers. Neither the script
/// nor the report is held whole.
fn count_script<R: Threads + Sync>(
    rt: &R,
    alloc: Global,
    building: Building,
    machine: &mut Machine,
) -> Result<Counts, AllocError>
    requires { machine.old ≡ record { version = one; state = opening } }
    ensures counts { let script = made_script building.storeys building.seed in
        IfOk result (λ counts. counts ≡ (summary_of script (run_from opening 1 script)).counts) }
    ensures state { OnOk result (machine.new.state ≡ (run_from opening 1 (made_script building.storeys building.seed)).state) }
{
    let mut script = MadeScript::new(building);
    let mut text = Vec::new(alloc);
    let mut counts = Counts {
        lines: 0,
        refused: 0,
        proofs: 0,
    };
    while let Some(line) = script.next_line() {
        count_made(rt, alloc, machine, line, &mut text, &mut counts)?;
    }
    Ok(counts)
}

/// Returns the summary of the report of a building's script, by a machine that answered no line yet.
fn summary_by<R: Threads + Sync>(
    rt: &R,
    alloc: Global,
    building: Building,
    machine: &mut Machine,
) -> Result<Summary, AllocError>
    requires { machine.old ≡ record { version = one; state = opening } }
    ensures { let script = made_script building.storeys building.seed in IfOk result (λ s. s ≡ summary_of script (run_from opening 1 script)) }
{
    let counts = count_script(rt, alloc, building, machine)?;
    let live = machine.count_live();
    Ok(Summary { counts, live })
}

/// Returns the summary of the report of the script of `building`, which is of version 1.
pub fn summary_of<R: Threads + Sync>(
    rt: &R,
    alloc: Global,
    building: Building,
) -> Result<Summary, AllocError>
    ensures { let script = made_script building.storeys building.seed in IfOk result (λ s. s ≡ summary_of script (run_from opening 1 script)) }
{
    let mut machine = Machine::new(alloc, Version::One)?;
    summary_by(rt, alloc, building, &mut machine)
}
