//! A file that is made a book, or opened as one.

use crate::path::{PathFault, begins_as_database, making_fault};
use rp_book::BookFault;
use rp_disk_book::{DiskBook, OpenFault};
use sqlite::{Alter, Connection, Error, ErrorCode, FileStore, Wary};
use sqlite_disk::Disk;
use sqlite_std_file::FileFrom;
use std::alloc::{AllocError, Global};

/// Why a file was not made a book, or not opened as one.
#[derive(Clone, Copy)]
pub enum FileFault {
    /// The file is no book.
    NoBook,
    /// The file is a database that cannot be read.
    Damaged,
    /// The file is a book of another layout.
    Layout,
    /// The database that is to be made a book has tables already.
    Taken,
    /// The file that is to be made a copy is there already, or its log is.
    There,
    /// What an earlier copy left that was cut off is there.
    CutOff,
    /// The file cannot be opened for reading and writing.
    CannotOpen(PathFault),
    /// Another process has the file open.
    Busy,
    /// Memory ran out.
    Memory,
    /// The disk is full.
    Full,
    /// The disk failed.
    Disk,
}

impl From<Error> for FileFault {
    fn from(error: Error) -> Self {
        let Error::SqliteFailure(code) = error else {
            return FileFault::Disk;
        };
        match code {
            ErrorCode::OutOfMemory => FileFault::Memory,
            ErrorCode::DatabaseBusy => FileFault::Busy,
            ErrorCode::DiskFull => FileFault::Full,
            ErrorCode::CannotOpen => FileFault::CannotOpen(PathFault::Denied),
            ErrorCode::NotADatabase | ErrorCode::DatabaseCorrupt => FileFault::Damaged,
            _ => FileFault::Disk,
        }
    }
}

impl From<OpenFault> for FileFault {
    fn from(fault: OpenFault) -> Self {
        match fault {
            OpenFault::NoBook => FileFault::NoBook,
            OpenFault::Layout => FileFault::Layout,
            OpenFault::Taken => FileFault::Taken,
            OpenFault::Sqlite(error) => FileFault::from(error),
        }
    }
}

impl From<BookFault> for FileFault {
    fn from(fault: BookFault) -> Self {
        match fault {
            BookFault::Memory(_) => FileFault::Memory,
            BookFault::Full => FileFault::Full,
            BookFault::Disk => FileFault::Disk,
        }
    }
}

impl From<AllocError> for FileFault {
    fn from(_error: AllocError) -> Self {
        FileFault::Memory
    }
}

/// Returns why the database at `path` was not opened or made, from what SQLite says and from the file itself.
fn fault_at(rt: &HostRuntime, path: &str, error: Error) -> FileFault {
    match FileFault::from(error) {
        FileFault::Damaged if !begins_as_database(rt, path) => FileFault::NoBook,
        FileFault::CannotOpen(_) => FileFault::CannotOpen(making_fault(rt, path)),
        fault => fault,
    }
}

/// Opens the database in the file at `path` and the log next to it. Of a write that the power cut off nothing is
/// supposed, and pages of a new file end in sums. No other process may open it until it is let go. This alone names
/// what SQLite keeps in a file.
pub fn connect(
    rt: &HostRuntime,
    path: &str,
) -> Result<Connection<FileStore<FileFrom<Wary>>>, FileFault> {
    match Connection::open_from(rt, path, true, Wary) {
        Ok(conn) => Ok(conn),
        Err((error, left)) => {
            drop(left);
            Err(fault_at(rt, path, error))
        }
    }
}

/// Closes a connection. What its log has comes into the file; where the disk does not let it, it stays in the log, and
/// the next one who opens the file finds it there.
fn close<D: Disk + Drop>(conn: Connection<FileStore<D>>) -> Result<(), FileFault> {
    conn.close()?;
    Ok(())
}

/// What is done with a database. It names no store of SQLite.
pub trait Task {
    /// What came of the task.
    type Outcome: Drop;

    // What a task has to know before it is done, as that other threads may be handed what it holds.
    ghost may_run: { Self → Type 0 };

    /// Does the task with `conn`. Also returns `conn` if something was written through it.
    fn run<S: Alter + Drop>(
        self,
        rt: &HostRuntime,
        conn: Connection<S>,
    ) -> (Self::Outcome, Option<Connection<S>>)
        requires { may_run self };
}

/// Does `task` with a database in files, and closes it if something was written. Also returns what came of closing it. This alone
/// shows that files are a store of SQLite.
pub fn run_and_close<K: Task, D: Disk + Drop>(
    rt: &HostRuntime,
    task: K,
    conn: Connection<FileStore<D>>,
) -> (K::Outcome, Result<(), FileFault>)
    requires { K.may_run task }
{
    let (outcome, conn) = task.run(rt, conn);
    let closed = match conn {
        Some(conn) => close(conn),
        None => Ok(()),
    };
    (outcome, closed)
}

/// Returns the time, in UTC, as 2026-11-30 12:00:00.
fn time_of<S: Alter>(conn: &mut Connection<S>) -> Result<String, FileFault> {
    let time = conn.query_row("SELECT CURRENT_TIMESTAMP", &[])?.get(0)?;
    Ok(time)
}

/// Makes a database that has no tables yet an empty book.
pub fn make<S: Alter + Drop>(alloc: Global, conn: Connection<S>) -> Result<DiskBook<S>, FileFault> {
    let book = DiskBook::create(alloc, conn)?;
    Ok(book)
}

/// Makes a database that has no tables yet an empty book. Also returns the time, in UTC, as 2026-11-30 12:00:00.
pub fn make_now<S: Alter + Drop>(
    alloc: Global,
    mut conn: Connection<S>,
) -> Result<(DiskBook<S>, String), FileFault> {
    let time = time_of(&mut conn)?;
    let book = make(alloc, conn)?;
    Ok((book, time))
}

/// Opens the book in a database. Also returns the time, in UTC, as 2026-11-30 12:00:00.
pub fn open<S: Alter + Drop>(
    alloc: Global,
    mut conn: Connection<S>,
) -> Result<(DiskBook<S>, String), FileFault> {
    let time = time_of(&mut conn)?;
    let book = DiskBook::open(alloc, conn)?;
    Ok((book, time))
}
