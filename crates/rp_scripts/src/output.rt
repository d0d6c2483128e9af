//! A text, put line by line.
ghost use Rattle.std.specs.Prelude.{◌≤◌, OnErr, OnOk};
ghost use Rattle.rp_io.specs.Bytes.{Appends, AppendsPrefix};
ghost use Rattle.rp_io.specs.Faults.{HasRisen};

use crate::lines::split_line;
use rp_io::{Failed, Sink};

/// Puts `text` to `sink` line by line, one put for each line with its line end.
///
/// Answers [`Failed`] where a put did. A front of the text was put then.
pub fn put_lines<K: Sink>(sink: &mut K, text: &[u8]) -> Result<(), Failed>
    ensures counts { K.faults sink.old ≤ K.faults sink.new }
    ensures failed { OnErr result (HasRisen (K.faults sink.old) (K.faults sink.new)) }
    ensures ok { OnOk result (Appends (K.said sink.old) (K.said sink.new) text.now) }
    ensures front { OnErr result (AppendsPrefix (K.said sink.old) (K.said sink.new) text.now) }
{
    let mut rest = text;
    while !rest.is_empty() {
        let (line, behind) = split_line(rest);
        sink.put(line)?;
        rest = behind;
    }
    Ok(())
}
