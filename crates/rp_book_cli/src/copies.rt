//! A copy of a book in a new file. Until it has all acts the file has another name, so that no copy that was cut off is
//! taken for the book.

use crate::copy::copy_acts;
use crate::file::{FileFault, Task, connect, make, run_and_close};
use crate::path::{is_there, log_of};
use rp_book::Book;
use sqlite::{Alter, Connection};
use std::alloc::{AllocError, Global};
use std::fs;

/// The names of a copy, and of the file that it is until it has all acts, with their logs.
#[derive(Drop)]
struct Names {
    log: String,
    part: String,
    part_log: String,
}

impl Names {
    /// Returns the names of the copy at `path`.
    fn new(alloc: Global, path: &str) -> Result<Names, AllocError> {
        let log = log_of(alloc, path)?;
        let part = format!(in alloc; "{path}-part")?;
        let part_log = log_of(alloc, part.as_str())?;
        Ok(Names {
            log,
            part,
            part_log,
        })
    }
}

/// Makes a database a book with the acts of `book`. It names no store, so that nothing of one is dropped here.
fn fill<B: Book, S: Alter + Drop>(
    rt: &HostRuntime,
    book: &B,
    conn: Connection<S>,
) -> Result<Connection<S>, FileFault> {
    let mut copy = make(rt.alloc(), conn)?;
    copy_acts(rt.alloc(), book, &mut copy)?;
    Ok(copy.into_connection())
}

/// The task to make a database a book with the acts of another one.
struct Filling<'a, B> {
    book: &'a B,
}

impl<B: Book> Task for Filling<'_, B> {
    type Outcome = Result<(), FileFault>;

    ghost may_run = { λ _. Unit {0} };

    fn run<S: Alter + Drop>(
        self,
        rt: &HostRuntime,
        conn: Connection<S>,
    ) -> (Result<(), FileFault>, Option<Connection<S>>) {
        let Filling { book } = self;
        match fill(rt, book, conn) {
            Ok(conn) => (Ok(()), Some(conn)),
            Err(fault) => (Err(fault), None),
        }
    }
}

/// Makes a new database at `path` a book with the acts of `book`, and closes it: all of it is then in the one file. Returns whether
/// that failed, or why the database was not made.
fn fill_new<B: Book>(
    rt: &HostRuntime,
    book: &B,
    path: &str,
) -> Result<Result<(), FileFault>, FileFault> {
    let conn = connect(rt, path)?;
    match run_and_close(rt, Filling { book }, conn) {
        (Ok(()), closed) => Ok(closed),
        (Err(fault), _) => Ok(Err(fault)),
    }
}

/// Gives the file that has all acts the name of the copy, `path`, unless there is such a file by now.
fn finish(rt: &HostRuntime, names: &Names, path: &str) -> Result<(), FileFault> {
    if is_there(rt, path) {
        return Err(FileFault::There);
    }
    let log = names.part_log.as_str();
    if is_there(rt, log) && fs::remove_file(rt, log).is_err() {
        return Err(FileFault::Disk);
    }
    if fs::rename(rt, names.part.as_str(), path).is_err() {
        return Err(FileFault::Disk);
    }
    Ok(())
}

/// Makes a new book at `path` with the acts of `book`. If that fails no file is left.
pub fn copy_book<B: Book>(rt: &HostRuntime, book: &B, path: &str) -> Result<(), FileFault> {
    let names = Names::new(rt.alloc(), path)?;
    if is_there(rt, path) || is_there(rt, names.log.as_str()) {
        return Err(FileFault::There);
    }
    if is_there(rt, names.part.as_str()) || is_there(rt, names.part_log.as_str()) {
        return Err(FileFault::CutOff);
    }
    let mut done = fill_new(rt, book, names.part.as_str())?;
    if done.is_ok() {
        done = finish(rt, &names, path);
    }
    if done.is_err() {
        let _ = fs::remove_file(rt, names.part.as_str());
        let _ = fs::remove_file(rt, names.part_log.as_str());
    }
    done
}
