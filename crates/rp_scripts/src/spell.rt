//! A script with each command in its one spelling.
ghost use Rattle.std.specs.Prelude.{◌≤◌, ◌∷◌, ◌++◌, [], IfErr, IfOk, OnErr, OnOk};
ghost use Rattle.rp_command.specs.Versions.{version_of};
ghost use Rattle.rp_command.specs.Views.{command_of, line_of};
ghost use Rattle.rp_io.specs.Bytes.{Appends, AppendsPrefix};
ghost use Rattle.rp_language.specs.Grammar.{reading, spelling};
ghost use Rattle.rp_reports.specs.Output.{spell_script, spelled_lines};
ghost use Rattle.rp_reports.specs.Text.{line_end, text_of_lines};
ghost use Rattle.rp_scripts.specs.Output.{PutsFront, PutsLines, PutsOutput, HasOutputCause};

use crate::fault::OutputFault;
use crate::lines::next_line;
use crate::mark::{put_mark, split_mark};
use rp_command::{Command, Line, Version};
use rp_io::Sink;
use rp_spelling::write_command;
use rp_syntax::read_line;
use rp_text::SCRIPT_MARK;
use std::alloc::Global;

/// Puts a command in its one spelling of a version, with a line end.
fn put_command<K: Sink>(
    alloc: Global,
    version: Version,
    command: &Command,
    sink: &mut K,
) -> Result<(), OutputFault>
    ensures counts { K.faults sink.old ≤ K.faults sink.new }
    ensures text { OnOk result (Appends (K.said sink.old) (K.said sink.new)
        (spelling (version_of version) (command_of command.now) ++ line_end ∷ [])) }
    ensures front { OnErr result (AppendsPrefix (K.said sink.old) (K.said sink.new)
        (spelling (version_of version) (command_of command.now) ++ line_end ∷ [])) }
    ensures cause { IfErr result (HasOutputCause (K.faults sink.old) (K.faults sink.new)) }
{
    let mut text = Vec::new(alloc);
    write_command(version, command, &mut text)?;
    text.extend_from_slice(b"\n")?;
    sink.put(&text)?;
    Ok(())
}

/// Puts the command of a line that was read so in its one spelling of a version, or nothing where there is none.
/// Answers whether the line is bad.
fn put_read<K: Sink>(
    alloc: Global,
    version: Version,
    read: &Line,
    sink: &mut K,
) -> Result<bool, OutputFault>
    ensures counts { K.faults sink.old ≤ K.faults sink.new }
    ensures text { IfOk result (λ bad.
        PutsLines (spelled_lines (version_of version) (line_of read.now)) (line_of read.now) (K.said sink.old) (K.said sink.new) bad) }
    ensures front { OnErr result (AppendsPrefix (K.said sink.old) (K.said sink.new)
        (text_of_lines (spelled_lines (version_of version) (line_of read.now)))) }
    ensures cause { IfErr result (HasOutputCause (K.faults sink.old) (K.faults sink.new)) }
{
    match read {
        Line::Blank => Ok(false),
        Line::Bad(_) => Ok(true),
        Line::Cmd(command) => {
            put_command(alloc, version, command, sink)?;
            Ok(false)
        }
    }
}

/// Puts the command of one line of a script of a version in its one spelling, or nothing where there is none. Answers
/// whether the line is bad.
fn spell_line<K: Sink>(
    alloc: Global,
    version: Version,
    line: &[u8],
    sink: &mut K,
) -> Result<bool, OutputFault>
    ensures counts { K.faults sink.old ≤ K.faults sink.new }
    ensures text { let r = reading (version_of version) line.now in IfOk result (λ bad.
        PutsLines (spelled_lines (version_of version) r) r (K.said sink.old) (K.said sink.new) bad) }
    ensures front { OnErr result (AppendsPrefix (K.said sink.old) (K.said sink.new)
        (text_of_lines (spelled_lines (version_of version) (reading (version_of version) line.now)))) }
    ensures cause { IfErr result (HasOutputCause (K.faults sink.old) (K.faults sink.new)) }
{
    let read = read_line(alloc, version, line)?;
    let bad = put_read(alloc, version, &read, sink);
    drop(read);
    bad
}

/// Puts every command of `script` to `sink` in its one spelling of the script's version, one put for each, behind the
/// line `rp 2` in version 2. Answers whether some line is bad; `Put` only where a put failed, `Memory` only for want of
/// memory, and then a front of the whole was put.
pub fn spell<K: Sink>(alloc: Global, script: &[u8], sink: &mut K) -> Result<bool, OutputFault>
    ensures counts { K.faults sink.old ≤ K.faults sink.new }
    ensures spellings { IfOk result (λ bad.
        PutsOutput spell_script script.now (K.said sink.old) (K.said sink.new) bad) }
    ensures front { OnErr result (PutsFront spell_script script.now (K.said sink.old) (K.said sink.new)) }
    ensures cause { IfErr result (HasOutputCause (K.faults sink.old) (K.faults sink.new)) }
{
    let (version, body) = split_mark(script);
    put_mark(version, SCRIPT_MARK, sink)?;
    let mut rest = body;
    let mut has_bad_line = false;
    while let Some((line, behind)) = next_line(rest) {
        has_bad_line |= spell_line(alloc, version, line, sink)?;
        rest = behind;
    }
    Ok(has_bad_line)
}
