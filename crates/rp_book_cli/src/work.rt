//! What is done with a book in a file.
ghost use Rattle.std.specs.Thread.{IsSync};

use crate::act::{Act, Query, act_of};
use crate::copies::copy_book;
use crate::copy::append_mark;
use crate::fault::Fault;
use crate::file::{FileFault, Task, connect, make_now, open, run_and_close};
use crate::input::read_input;
use crate::lines::add_lines;
use crate::path::{is_there, path_fault};
use crate::queries::write_query;
use crate::questions::write_answers;
use crate::standby::add_acts;
use rp_book::Book;
use rp_command::Version;
use rp_disk_book::DiskBook;
use sqlite::{Alter, Connection};
use std::thread::Threads;

/// What came of an act: true if a line is refused, and the connection if something was written through it.
type Done<S> = (bool, Option<Connection<S>>);

/// Makes a database a book of `version`: one of version 2 has the mark as its first act.
fn make_book<S: Alter + Drop>(
    rt: &HostRuntime,
    conn: Connection<S>,
    version: Version,
) -> Result<Done<S>, Fault> {
    let (mut book, time) = make_now(rt.alloc(), conn)?;
    if matches!(version, Version::Two) {
        if let Err(fault) = append_mark(rt.alloc(), &mut book, time.as_str()) {
            return Err(Fault::Unmarked(FileFault::from(fault)));
        }
    }
    Ok((false, Some(book.into_connection())))
}

/// Copies the acts of `book` to a new book at `path`.
fn copy_to<B: Book>(rt: &HostRuntime, book: &B, path: &str) -> Result<(), Fault> {
    if let Err(fault) = copy_book(rt, book, path) {
        return Err(Fault::Copy(fault));
    }
    let count = book.acts().len();
    let _ = eprintln!(rt; "rpstore-book: {count} acts were copied");
    Ok(())
}

/// Does what is asked of `book`, which was opened at `time`; nothing for an act that opens no book. Returns whether a line is
/// refused.
fn work_on<T: Threads + Sync, B: Book>(
    rt: &HostRuntime,
    threads: &T,
    book: &mut B,
    time: &str,
    act: Act<'_>,
    input: &[u8],
) -> Result<bool, Fault> {
    match act {
        Act::Add(options) => Ok(add_lines(rt, threads, book, input, options, time)?),
        Act::Replay => add_acts(rt, threads, book, input),
        Act::Copy(path) => {
            copy_to(rt, book, path)?;
            Ok(false)
        }
        Act::Read(query) => write_query(rt, threads, book, input, query),
        Act::New(_) => Ok(false),
    }
}

/// Returns the connection of a book if `act` writes to it.
fn written<S: Alter + Drop>(book: DiskBook<S>, act: Act<'_>) -> Option<Connection<S>> {
    if matches!(act, Act::Add(_) | Act::Replay) {
        return Some(book.into_connection());
    }
    drop(book);
    None
}

/// Opens the book in a database, and does what is asked of it.
fn open_and_work<T: Threads + Sync, S: Alter + Drop>(
    rt: &HostRuntime,
    threads: &T,
    conn: Connection<S>,
    act: Act<'_>,
    input: &[u8],
) -> Result<Done<S>, Fault> {
    let (mut book, time) = open(rt.alloc(), conn)?;
    let refused = work_on(rt, threads, &mut book, time.as_str(), act, input)?;
    Ok((refused, written(book, act)))
}

/// Does what is asked of a database.
fn work_in<T: Threads + Sync, S: Alter + Drop>(
    rt: &HostRuntime,
    threads: &T,
    conn: Connection<S>,
    act: Act<'_>,
    input: &[u8],
) -> Result<Done<S>, Fault> {
    match act {
        Act::New(version) => make_book(rt, conn, version),
        Act::Read(Query::Ask) => {
            let refused = write_answers(rt, threads, conn)?;
            Ok((refused, None))
        }
        _ => open_and_work(rt, threads, conn, act, input),
    }
}

/// The task that the words ask for, with what is read for it.
struct Asked<'a, T: Threads + Sync> {
    threads: &'a T,
    act: Act<'a>,
    input: &'a [u8],
}

impl<T: Threads + Sync> Task for Asked<'_, T> {
    type Outcome = Result<bool, Fault>;

    ghost may_run = { λ _. IsSync T.row };

    fn run<S: Alter + Drop>(
        self,
        rt: &HostRuntime,
        conn: Connection<S>,
    ) -> (Result<bool, Fault>, Option<Connection<S>>) {
        let Asked {
            threads,
            act,
            input,
        } = self;
        match work_in(rt, threads, conn, act, input) {
            Ok((refused, conn)) => (Ok(refused), conn),
            Err(fault) => (Err(fault), None),
        }
    }
}

/// Does what `words` ask for; lots are judged by `threads`. Returns whether a line is refused. Unless the file is to be
/// made a book, it is there. Standard input is read to its end before the book is opened, so that a slow input keeps
/// nobody out.
pub fn work<T: Threads + Sync>(
    rt: &HostRuntime,
    threads: &T,
    words: &[String],
) -> Result<bool, Fault> {
    let (path, act) = act_of(words)?;
    if !matches!(act, Act::New(_)) && !is_there(rt, path) {
        return Err(Fault::File(FileFault::CannotOpen(path_fault(rt, path))));
    }
    let input = read_input(rt, act)?;
    let conn = connect(rt, path)?;
    let input = input.as_slice();
    // What the disk does not let into the file stays in the log.
    let (outcome, _) = run_and_close(
        rt,
        Asked {
            threads,
            act,
            input,
        },
        conn,
    );
    outcome
}
