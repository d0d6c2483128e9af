//! How full a book is.
ghost use Rattle.std.specs.Prelude.{None};

use crate::limits::{MOST_NAMES, MOST_REPORT_BYTES, MOST_SCRIPT_BYTES};
use rp_book::Book;
use rp_book_service::{Stop, put_report};
use rp_command::{Command, Line, Version};
use rp_io::{Failed, Sink};
use rp_scripts::{next_line, split_mark};
use rp_syntax::read_line;
use std::alloc::{AllocError, Global};
use std::fmt;
use std::marker::Model;
use std::thread::Threads;

/// Counts bytes, and drops them.
#[derive(Drop)]
struct ByteCounter {
    bytes: usize,
}

impl Sink for ByteCounter {
    ghost said = { λ _. None };

    ghost faults = { λ _. 0 };

    /// Never fails.
    fn put(&mut self, piece: &[u8]) -> Result<(), Failed> {
        self.bytes = self.bytes.saturating_add(piece.len());
        Ok(())
    }
}

/// How many lots the lines of a script made and ended, and how many names they gave.
#[derive(Clone, Copy)]
struct Tally {
    lots: usize,
    ended: usize,
    names: usize,
}

impl Tally {
    /// Adds what a command makes, ends and names. It is not refused.
    fn count(&mut self, command: &Command) {
        let (lots, ended, names) = match command {
            Command::Let(..) => (0, 0, 1),
            Command::Register(..) => (1, 0, 0),
            Command::Cut(..) => (2, 1, 0),
            Command::Subdivide(_, children) => (children.items().len(), 1, 0),
            Command::Consolidate(_, ids) => (1, ids.items().len(), 0),
            Command::Retire(_) => (0, 1, 0),
            _ => (0, 0, 0),
        };
        self.lots = self.lots.saturating_add(lots);
        self.ended = self.ended.saturating_add(ended);
        self.names = self.names.saturating_add(names);
    }
}

/// Adds what a line of a script makes, ends and names.
fn count_line(
    alloc: Global,
    version: Version,
    line: &[u8],
    tally: &mut Tally,
) -> Result<(), AllocError> {
    let read = read_line(alloc, version, line)?;
    if let Line::Cmd(command) = &read {
        tally.count(command);
    }
    drop(read);
    Ok(())
}

/// Counts what the lines of a script make, end and name. None of them is refused.
fn tally_of(alloc: Global, script: &[u8]) -> Result<Tally, AllocError> {
    let (version, body) = split_mark(script);
    let mut tally = Tally {
        lots: 0,
        ended: 0,
        names: 0,
    };
    let mut rest = body;
    while let Some((line, behind)) = next_line(rest) {
        count_line(alloc, version, line, &mut tally)?;
        rest = behind;
    }
    Ok(tally)
}

/// Returns how many bytes the report of `book` has.
fn report_length<T: Threads + Sync, B: Book>(
    threads: &T,
    alloc: Global,
    book: &B,
) -> Result<usize, Stop> {
    let mut counter = ByteCounter { bytes: 0 };
    put_report(threads, alloc, book, &mut counter)?;
    Ok(counter.bytes)
}

/// How full a book is, as it is written.
#[derive(Clone, Copy)]
struct Size {
    script: usize,
    report: usize,
    acts: usize,
    tally: Tally,
}

impl fmt::Display for Size {
    fn fmt<W: fmt::Write>(&self, f: &mut fmt::Formatter<W>) -> fmt::Result {
        let Tally { lots, ended, names } = self.tally;
        let live = lots.saturating_sub(ended);
        let script = self.script;
        let report = self.report;
        let acts = self.acts;
        write!(
            f,
            "script {script} of {MOST_SCRIPT_BYTES}\nreport {report} of {MOST_REPORT_BYTES}\nacts {acts}\nlots {lots}\nlive {live}\nnames {names} of {MOST_NAMES}"
        )
    }
}

/// Writes how full `book` is, with the limits.
pub fn write_size<T: Threads + Sync, B: Book>(
    rt: &HostRuntime,
    threads: &T,
    book: &B,
) -> Result<(), Stop> {
    let size = Size {
        script: book.text().len(),
        report: report_length(threads, rt.alloc(), book)?,
        acts: book.acts().len(),
        tally: tally_of(rt.alloc(), book.text())?,
    };
    println!(rt; "{size}").map_err(|_| Stop::Put)
}
