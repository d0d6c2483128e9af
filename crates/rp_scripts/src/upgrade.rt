//! A script as one of version 2.
ghost use Rattle.std.specs.Prelude.{◌≤◌, ◌∷◌, [], IfErr, IfOk, OnErr};
ghost use Rattle.rp_command.specs.Versions.{version_of};
ghost use Rattle.rp_io.specs.Bytes.{AppendsPrefix};
ghost use Rattle.rp_language.specs.Grammar.{reading};
ghost use Rattle.rp_reports.specs.Output.{upgrade_script};
ghost use Rattle.rp_reports.specs.Text.{text_of_lines};
ghost use Rattle.rp_reports.specs.Upgrade.{upgraded_line};
ghost use Rattle.rp_scripts.specs.Output.{PutsFront, PutsLines, PutsOutput, HasOutputCause};

use crate::fault::OutputFault;
use crate::lines::next_line;
use crate::mark::{put_mark, split_mark};
use crate::upgraded::upgrade_line;
use rp_command::Version;
use rp_io::Sink;
use rp_text::SCRIPT_MARK;
use std::alloc::Global;

/// Puts the line that takes the place of one line of a script of a version, by way of a buffer for its text. Answers
/// whether the line of the script is bad.
fn put_upgraded<K: Sink>(
    alloc: Global,
    version: Version,
    line: &[u8],
    text: &mut Vec<u8>,
    sink: &mut K,
) -> Result<bool, OutputFault>
    ensures counts { K.faults sink.old ≤ K.faults sink.new }
    ensures text { let r = reading (version_of version) line.now in IfOk result (λ bad.
        PutsLines (upgraded_line line.now r ∷ []) r (K.said sink.old) (K.said sink.new) bad) }
    ensures front { OnErr result (AppendsPrefix (K.said sink.old) (K.said sink.new)
        (text_of_lines (upgraded_line line.now (reading (version_of version) line.now) ∷ []))) }
    ensures cause { IfErr result (HasOutputCause (K.faults sink.old) (K.faults sink.new)) }
{
    text.clear();
    let is_good = upgrade_line(alloc, version, line, text)?;
    sink.put(text)?;
    Ok(!is_good)
}

/// Puts `script` to `sink` as one of version 2, one put for each line: the line `rp 2`, and then one line for each of
/// the body. Answers whether some line is bad; `Put` only where a put failed, `Memory` only for want of memory, and
/// then a front of the whole was put.
pub fn upgrade<K: Sink>(alloc: Global, script: &[u8], sink: &mut K) -> Result<bool, OutputFault>
    ensures counts { K.faults sink.old ≤ K.faults sink.new }
    ensures script { IfOk result (λ bad.
        PutsOutput upgrade_script script.now (K.said sink.old) (K.said sink.new) bad) }
    ensures front { OnErr result (PutsFront upgrade_script script.now (K.said sink.old) (K.said sink.new)) }
    ensures cause { IfErr result (HasOutputCause (K.faults sink.old) (K.faults sink.new)) }
{
    let (version, body) = split_mark(script);
    put_mark(Version::Two, SCRIPT_MARK, sink)?;
    let mut text = Vec::new(alloc);
    let mut rest = body;
    let mut has_bad_line = false;
    while let Some((line, behind)) = next_line(rest) {
        has_bad_line |= put_upgraded(alloc, version, line, &mut text, sink)?;
        rest = behind;
    }
    Ok(has_bad_line)
}
