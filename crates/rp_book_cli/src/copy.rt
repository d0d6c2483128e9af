//! Acts that are appended as they are: the mark of version 2, and the acts of a copy.
ghost use Rattle.std.specs.Prelude.{◌≡◌, IfSome, OnOk};

use crate::limits::MOST_SCRIPT_BYTES;
use rp_book::{Act, Book, BookFault, Entry, act_lines, has_end};
use rp_text::SCRIPT_MARK;
use std::alloc::Global;

/// Appends `lines` to `book` under `entry`, without running them.
///
/// # Errors
/// `Disk` also if `lines` do not end a line, or if the script would be too long: no lines of a sound book do so.
fn append<B: Book>(
    alloc: Global,
    book: &mut B,
    lines: &[u8],
    entry: Entry<'_>,
) -> Result<(), BookFault> {
    if !has_end(lines) || lines.len() > MOST_SCRIPT_BYTES - book.text().len() {
        return Err(BookFault::Disk);
    }
    book.add(alloc, lines, entry)
}

/// Appends the mark of version 2 to `book`, which is empty, at `time`.
pub fn append_mark<B: Book>(alloc: Global, book: &mut B, time: &str) -> Result<(), BookFault> {
    let entry = Entry {
        added: time,
        who: None,
        deed: None,
    };
    append(alloc, book, SCRIPT_MARK, entry)
}

/// Returns the text that `text` owns.
fn borrowed(text: &Option<String>) -> Option<&str> {
    match text {
        Some(text) => Some(text.as_str()),
        None => None,
    }
}

/// Returns when an act was added, by whom and under which deed.
fn entry_of(act: &Act) -> Entry<'_> {
    Entry {
        added: act.added.as_str(),
        who: borrowed(&act.who),
        deed: borrowed(&act.deed),
    }
}

/// Appends the acts of `book` to `copy`, each with its lines, time, who and deed.
///
/// # Errors
/// `Disk` also if an act has no lines of the script, which no act of a sound book does.
fn append_acts<B: Book, C: Book>(alloc: Global, book: &B, copy: &mut C) -> Result<(), BookFault> {
    let acts = book.acts();
    for (place, act) in acts.iter().enumerate() {
        let Some(lines) = act_lines(book.text(), acts, place) else {
            return Err(BookFault::Disk);
        };
        append(alloc, copy, lines, entry_of(act))?;
    }
    Ok(())
}

/// Appends the acts of `book` to `copy`, a new book, each with its lines, time, who and deed.
///
/// # Errors
/// `Disk` also if the script of the copy is then another, which no sound book leads to.
pub fn copy_acts<B: Book, C: Book>(alloc: Global, book: &B, copy: &mut C) -> Result<(), BookFault>
    ensures { OnOk result (IfSome (B.script book.now) (λ script. IfSome (C.script copy.new) (λ copied. copied ≡ script))) }
{
    append_acts(alloc, book, copy)?;
    if copy.text() != book.text() {
        return Err(BookFault::Disk);
    }
    Ok(())
}
