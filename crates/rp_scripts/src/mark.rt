//! The line that marks a script of version 2.
ghost use Rattle.std.specs.Prelude.{◌≡◌, ◌≤◌, length, OnErr, OnOk};
ghost use Rattle.rp_command.specs.Versions.{version_of};
ghost use Rattle.rp_io.specs.Bytes.{Appends, AppendsPrefix};
ghost use Rattle.rp_io.specs.Faults.{HasRisen};
ghost use Rattle.rp_reports.specs.Report.{script_body, script_lines, script_version};
ghost use Rattle.rp_scripts.specs.Lines.{mark_text};

use crate::lines::next_line;
use rp_command::Version;
use rp_io::{Failed, Sink};
use rp_text::SCRIPT_MARK;

/// Returns the version of a script, and what stands behind the line that marks it: a script whose first line is `rp 2`
/// is of version 2, and every other one of version 1.
pub fn split_mark(script: &[u8]) -> (Version, &[u8])
    ensures version { version_of result.0 ≡ script_version script.now }
    ensures body { script_lines result.1.now ≡ script_body script.now }
    ensures within { length result.1.now ≤ length script.now }
{
    let Some((first, body)) = next_line(script) else {
        return (Version::One, script);
    };
    if first == &SCRIPT_MARK[..SCRIPT_MARK.len() - 1] {
        (Version::Two, body)
    } else {
        (Version::One, script)
    }
}

/// Puts `mark`, the line that marks version 2, with its line feed, to `sink`, where `version` is that one, and nothing
/// in version 1. Answers `Failed` only where a put failed, and then a front of the line was put.
pub fn put_mark<K: Sink>(version: Version, mark: &[u8], sink: &mut K) -> Result<(), Failed>
    ensures counts { K.faults sink.old ≤ K.faults sink.new }
    ensures failed { OnErr result (HasRisen (K.faults sink.old) (K.faults sink.new)) }
    ensures ok { OnOk result (Appends (K.said sink.old) (K.said sink.new) (mark_text mark.now (version_of version))) }
    ensures front { OnErr result (AppendsPrefix (K.said sink.old) (K.said sink.new) (mark_text mark.now (version_of version))) }
{
    match version {
        Version::One => Ok(()),
        Version::Two => sink.put(mark),
    }
}
