ghost use Rattle.std.specs.Prelude.{◌≡◌, ◌⊎◌, ◌≤◌, ◌∷◌, ◌++◌, [], length, IfErr, IfOk, OnErr, OnOk};
ghost use Rattle.rp_io.specs.Bytes.{Appends, AppendsPrefix};
ghost use Rattle.rp_reports.specs.Output.{check_report, most_report_bytes};
ghost use Rattle.rp_reports.specs.Text.{line_end};
ghost use Rattle.rp_scripts.specs.Output.{PutsFront, PutsOutput, HasOutputCause};
ghost use Rattle.rp_tool.specs.Check.{found_line, is_wrong, JudgesReport};

use rp_checker::{Found, check_report};
use rp_io::Sink;
use rp_scripts::{OutputFault, write_count};
use std::alloc::{AllocError, Global};

/// Returns whether what was found refuses the report.
fn is_wrong(found: Found) -> bool
    ensures { result ≡ is_wrong found }
{
    matches!(found, Found::Wrong(_))
}

/// Appends the line of what was found. Answers `AllocError` only for want of memory.
fn write_found(found: Found, text: &mut Vec<u8>) -> Result<(), AllocError>
    ensures { OnOk result (text.new.items ≡ text.old.items ++ (found_line found ++ line_end ∷ [])) }
{
    match found {
        Found::Accepted => text.extend_from_slice(b"accepted\n"),
        Found::Wrong(line) => write_count(b"wrong ", line, text),
    }
}

/// Puts the line of what was found.
fn put_found<K: Sink>(alloc: Global, found: Found, sink: &mut K) -> Result<(), OutputFault>
    ensures counts { K.faults sink.old ≤ K.faults sink.new }
    ensures text { OnOk result (Appends (K.said sink.old) (K.said sink.new) (found_line found ++ line_end ∷ [])) }
    ensures front { OnErr result (AppendsPrefix (K.said sink.old) (K.said sink.new) (found_line found ++ line_end ∷ [])) }
    ensures cause { IfErr result (HasOutputCause (K.faults sink.old) (K.faults sink.new)) }
{
    let mut text = Vec::new(alloc);
    write_found(found, &mut text)?;
    sink.put(&text)?;
    Ok(())
}

/// Checks `report`, of at most 67,108,864 bytes, and puts to `sink` the line that says whether it is accepted, or else
/// which line is the first wrong one. Answers whether the report is refused; `Put` only where a put failed, `Memory`
/// only for want of memory, and then a front of that line was put.
pub fn check<K: Sink>(alloc: Global, report: &[u8], sink: &mut K) -> Result<bool, OutputFault>
    requires { length report.now ≤ most_report_bytes }
    ensures counts { K.faults sink.old ≤ K.faults sink.new }
    ensures finding { IfOk result (λ refused.
        PutsOutput check_report report.now (K.said sink.old) (K.said sink.new) refused) }
    ensures front { OnErr result (Appends (K.said sink.old) (K.said sink.new) []
        ⊎ PutsFront check_report report.now (K.said sink.old) (K.said sink.new)) }
    ensures judges { IfOk result (λ refused. JudgesReport report.now refused) }
    ensures cause { IfErr result (HasOutputCause (K.faults sink.old) (K.faults sink.new)) }
{
    let found = check_report(alloc, report)?;
    put_found(alloc, found, sink)?;
    Ok(is_wrong(found))
}
