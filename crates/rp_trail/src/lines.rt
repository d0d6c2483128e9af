//! The lines of a report, from its front.
ghost use Rattle.std.specs.Prelude.{◌≡◌, ◌+◌, ◌≤◌, length};
ghost use Rattle.std.specs.List.{position};
ghost use Rattle.rp_reports.specs.Output.{report_lines};
ghost use Rattle.rp_trail.specs.Lines.{lines_left, count_next, is_line_end};

/// Returns the index of the first line end.
fn line_end(text: &[u8]) -> Option<usize>
    ensures { result ≡ position is_line_end text.now }
{
    text.iter().position(|b| *b == b'\n')
}

/// Splits a text after its first line end. Returns the line, without its line end, and the rest. There is no line iff
/// the text is empty.
pub(crate) fn split_line(text: &[u8]) -> (Option<&[u8]>, &[u8])
    ensures lines { lines_left result.0 result.1.now ≡ report_lines text.now }
    ensures room { count_next result.0 + length result.1.now ≤ length text.now }
{
    if text.is_empty() {
        return (None, &[]);
    }
    match line_end(text) {
        Some(end) => (Some(&text[..end]), &text[end + 1..]),
        None => (Some(text), &[]),
    }
}
