//! The script of a building, put line by line.
ghost use Rattle.std.specs.Prelude.{◌≤◌, IfErr, OnErr, OnOk};
ghost use Rattle.rp_io.specs.Bytes.{Appends, AppendsPrefix};
ghost use Rattle.rp_reports.specs.Made.{made_script};
ghost use Rattle.rp_reports.specs.Text.{text_of_lines};
ghost use Rattle.rp_scripts.specs.Output.{HasOutputCause};

use crate::building::Building;
use crate::fault::OutputFault;
use crate::made::MadeScript;
use rp_io::Sink;
use std::alloc::Global;

/// Puts the script of `building` to `sink`, one put for each line. It is not held whole. Answers `Put` only where a put
/// failed, `Memory` only for want of memory, and then a front of the script was put.
pub fn make<K: Sink>(alloc: Global, building: Building, sink: &mut K) -> Result<(), OutputFault>
    ensures counts { K.faults sink.old ≤ K.faults sink.new }
    ensures script { OnOk result (Appends (K.said sink.old) (K.said sink.new)
        (text_of_lines (made_script building.storeys building.seed))) }
    ensures front { OnErr result (AppendsPrefix (K.said sink.old) (K.said sink.new)
        (text_of_lines (made_script building.storeys building.seed))) }
    ensures cause { IfErr result (HasOutputCause (K.faults sink.old) (K.faults sink.new)) }
{
    let mut script = MadeScript::new(building);
    let mut text = Vec::new(alloc);
    while let Some(line) = script.next_line() {
        text.clear();
        line.write(&mut text)?;
        text.extend_from_slice(b"\n")?;
        sink.put(&text)?;
    }
    Ok(())
}
