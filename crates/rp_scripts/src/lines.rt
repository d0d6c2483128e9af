//! The lines of a script, and those of a text with their line ends.
ghost use Rattle.std.specs.Prelude.{◌≡◌, ◌<◌, ◌∷◌, ◌++◌, [], length, IfNone, IfSome};
ghost use Rattle.rp_reports.specs.Report.{script_lines, without_return};
ghost use Rattle.std.specs.List.{position};
ghost use Rattle.rp_scripts.specs.Lines.{first_line, behind_first_line, is_line_end};

use memchr::memchr;

/// Returns the place of the first line end.
fn line_end(text: &[u8]) -> Option<usize>
    ensures { result ≡ position is_line_end text.now }
{
    memchr(b'\n', text)
}

/// Returns a line without the one carriage return at its end.
fn strip_return(line: &[u8]) -> &[u8]
    ensures { result.now ≡ without_return line.now }
{
    match line {
        [front @ .., b'\r'] => front,
        _ => line,
    }
}

/// Returns the next line of a script, without its ending, and what stands behind it.
pub fn next_line(script: &[u8]) -> Option<(&[u8], &[u8])>
    ensures end { IfNone result (script_lines script.now ≡ []) }
    ensures next { IfSome result (λ found. script_lines script.now ≡ found.0.now ∷ script_lines found.1.now) }
    ensures shorter { IfSome result (λ found. length found.1.now < length script.now) }
{
    if script.is_empty() {
        return None;
    }
    match line_end(script) {
        Some(end) => Some((strip_return(&script[..end]), &script[end + 1..])),
        None => Some((script, &[])),
    }
}

/// Returns the first line of a text, with its line end, and what stands behind it.
pub fn split_line(text: &[u8]) -> (&[u8], &[u8])
    ensures line { result.0.now ≡ first_line text.now }
    ensures behind { result.1.now ≡ behind_first_line text.now }
    ensures whole { result.0.now ++ result.1.now ≡ text.now }
    ensures shorter { 0 < length text.now → length result.1.now < length text.now }
{
    match line_end(text) {
        Some(end) => text.split_at(end + 1),
        None => (text, &[]),
    }
}
