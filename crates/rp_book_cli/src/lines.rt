//! Lines that are added to a book.

use crate::act::Options;
use crate::answers::AnswerSink;
use crate::layers::{name_of, tell_addition};
use crate::version::{are_of_other, unmarked, version_after};
use rp_book::{Book, Entry};
use rp_book_service::Stop;
use rp_book_service::add::{Outcome, add};
use rp_command::Version;
use rp_io::{QuietSource, StdSink};
use std::io;
use std::thread::Threads;

/// Says on standard error that a line is refused, and which version the book has if `lines` look like the other one.
/// Leaves the latter out if there is not enough memory to read `lines` once more.
fn tell_refused(rt: &HostRuntime, version: Version, lines: &[u8]) -> io::Result<()> {
    if !are_of_other(rt.alloc(), version, lines).unwrap_or(false) {
        return eprintln!(rt;
            "rpstore-book: a line is refused; nothing was added: correct the line whose answer is '= refused', and add all lines again"
        );
    }
    let versions = match version {
        Version::One =>
            "version 1, and a line looks like version 2: write whole numbers, as 20000, or make a book with 'new'",
        Version::Two =>
            "version 2, and a line looks like version 1: write three decimals, as 20.000",
    };
    eprintln!(rt; "rpstore-book: a line is refused; nothing was added: the book has {versions}")
}

/// Says on standard error what came of `lines`, if their answers do not say it.
fn tell_outcome<B: Book>(
    rt: &HostRuntime,
    book: &B,
    lines: &[u8],
    outcome: &Outcome,
) -> io::Result<()> {
    match outcome {
        Outcome::Refused => tell_refused(rt, version_after(book.text(), lines), lines),
        Outcome::Empty => eprintln!(rt;
            "rpstore-book: the input has no lines, so nothing was added: give lines on standard input"
        ),
        Outcome::Added(addition) => tell_addition(rt, book, addition),
    }
}

/// Adds the lines of `input` to `book` at a time, and writes their answers. Returns whether a line is refused.
pub fn add_lines<T: Threads + Sync, B: Book>(
    rt: &HostRuntime,
    threads: &T,
    book: &mut B,
    input: &[u8],
    options: Options<'_>,
    time: &str,
) -> Result<bool, Stop> {
    let lines = unmarked(book.text(), input);
    let entry = Entry {
        added: time,
        who: options.who,
        deed: options.deed,
    };
    let layer = name_of(options.layer);
    let mut source = QuietSource::new(lines);
    let mut sink = AnswerSink::new(StdSink::new(rt.stdout()), options.brief);
    let outcome = add(
        threads,
        rt.alloc(),
        book,
        entry,
        layer,
        &mut source,
        &mut sink,
    )?;
    let _ = tell_outcome(rt, book, lines, &outcome);
    Ok(matches!(outcome, Outcome::Refused))
}
