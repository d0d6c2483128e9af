ghost use Rattle.std.specs.Prelude.{◌≤◌, IfErr, OnErr, OnOk};
ghost use Rattle.rp_io.specs.Bytes.{Appends, AppendsPrefix};
ghost use Rattle.rp_reports.specs.Made.{trial_lines};
ghost use Rattle.rp_reports.specs.Text.{text_of_lines};
ghost use Rattle.rp_scripts.specs.Output.{HasOutputCause};

use crate::summary::summary_of;
use rp_io::Sink;
use rp_scripts::{Building, OutputFault, put_lines, write_summary};
use std::alloc::Global;
use std::thread::Threads;

/// Runs the script of `building`, and puts the summary of its report to `sink`, one put for each line. Answers `Put`
/// only where a put failed, `Memory` only for want of memory, and then a front of the summary was put.
pub fn trial<R: Threads + Sync, K: Sink>(
    rt: &R,
    alloc: Global,
    building: Building,
    sink: &mut K,
) -> Result<(), OutputFault>
    ensures counts { K.faults sink.old ≤ K.faults sink.new }
    ensures summary { OnOk result (Appends (K.said sink.old) (K.said sink.new)
        (text_of_lines (trial_lines building.storeys building.seed))) }
    ensures front { OnErr result (AppendsPrefix (K.said sink.old) (K.said sink.new)
        (text_of_lines (trial_lines building.storeys building.seed))) }
    ensures cause { IfErr result (HasOutputCause (K.faults sink.old) (K.faults sink.new)) }
{
    let summary = summary_of(rt, alloc, building)?;
    let mut text = Vec::new(alloc);
    write_summary(&summary, &mut text)?;
    put_lines(sink, &text)?;
    Ok(())
}
