//! Why nothing was done.

use crate::file::FileFault;
use crate::limits::MOST_SCRIPT_BYTES;
use crate::path::PathFault;
use crate::seal_fault::{SealFault, seal_message, seal_status};
use rp_book::BookFault;
use rp_book_service::{Length, Stop};
use std::fmt;

/// Why nothing was done. The book is as it was.
#[derive(Clone, Copy)]
pub enum Fault {
    /// The words are none of the listed ones.
    Unlisted,
    /// The words cannot be read.
    Words,
    /// The word does not have the form of a date.
    NoDate,
    /// The calendar does not have the date.
    NoDay,
    /// The word is no layer.
    NoLayer,
    /// The file was not opened as a book, or not made one.
    File(FileFault),
    /// The file was made a book, and got no mark of version 2.
    Unmarked(FileFault),
    /// The file that is to be a copy was not made one.
    Copy(FileFault),
    /// The work on the book stopped.
    Stopped(Stop),
    /// A seal, or a text that goes with one, does not show what is asked.
    Seal(SealFault),
}

impl From<FileFault> for Fault {
    fn from(fault: FileFault) -> Self {
        Fault::File(fault)
    }
}

impl From<Stop> for Fault {
    fn from(stop: Stop) -> Self {
        Fault::Stopped(stop)
    }
}

impl From<SealFault> for Fault {
    fn from(fault: SealFault) -> Self {
        Fault::Seal(fault)
    }
}

/// Returns what is said of a file that cannot be opened.
fn path_message(fault: PathFault) -> &'static str {
    match fault {
        PathFault::Missing => {
            "no such file or folder, and nothing was read or written: correct the path, or make a book with 'new' in a folder that is there"
        }
        PathFault::NoFile =>
            "the path names a folder or a device, and nothing was read or written: name the file of the book",
        PathFault::Linked => {
            "the file or its log (FILE-wal) has a second name by a link; the book was not opened: remove that name, or copy both with cp and use the copy"
        }
        PathFault::Journal => {
            "SQLite left a journal next to the file (FILE-journal), so the book was not opened: open the file with sqlite3 once, or restore a backup"
        }
        PathFault::Denied => {
            "you may not read and write the file, its log (FILE-wal) or its folder; the book was not opened: ask their owner, or copy both with cp and ask the copy"
        }
    }
}

/// Returns what is said of a fault of the file.
fn file_message(fault: FileFault) -> &'static str {
    match fault {
        FileFault::NoBook => {
            "the file is no book; it is as it was: name a book, or make one with 'new'"
        }
        FileFault::Damaged => {
            "the file is a database that cannot be read; it is as it was: a page is damaged, or sqlite3 wrote it without sums (.backup, VACUUM INTO). Restore a backup (docs/office.md, Back up and restore)"
        }
        FileFault::Layout => {
            "the file is a book of another layout, which this release does not read; it is as it was: take the release that made it"
        }
        FileFault::Taken =>
            "the file is already a book, or another database with tables; it is as it was: give 'new' another name",
        FileFault::There => {
            "the file TO or its log (TO-wal) is there already, and is as it was: give another name"
        }
        FileFault::CutOff => {
            "an earlier copy was cut off, and what it left is as it was: remove TO-part and TO-part-wal, and copy again"
        }
        FileFault::CannotOpen(fault) => path_message(fault),
        FileFault::Busy => {
            "another process has the book open: try again later, or wait longer with --wait SECONDS; the book is as it was"
        }
        FileFault::Memory => "out of memory; the book is as it was: free memory, and try again",
        FileFault::Full => "the disk is full; the book is as it was: make room, and try again",
        FileFault::Disk =>
            "the disk failed; the book is as it was: copy the file and its log (FILE-wal) to another disk, and try again there",
    }
}

/// Returns what is said of a stop, without how many bytes there are.
fn stop_message(stop: Stop) -> &'static str {
    match stop {
        Stop::Read =>
            "the input could not be read; the book is as it was: name a file that you may read after '<'",
        Stop::Put =>
            "the output could not be written to its end; the book is as it was: make room for the output, and run again",
        Stop::Memory(_) | Stop::Book(BookFault::Memory(_)) => {
            "out of memory; the book is as it was: free memory, and try again"
        }
        Stop::TooLong(_) => "the script of the book would be too long; the book is as it was",
        Stop::Change =>
            "a line changes the register, and 'ask' answers questions alone; the book is as it was: give this line to 'add'",
        Stop::Book(BookFault::Full) =>
            "the disk is full; the book is as it was: make room, and try again",
        Stop::Book(BookFault::Disk) =>
            "the disk failed; the book is as it was: copy the file and its log (FILE-wal) to another disk, and try again there",
    }
}

/// Returns what is said of a fault, without what it was of and how many bytes there are.
fn message(fault: Fault) -> &'static str {
    match fault {
        Fault::Unlisted => {
            "no command has these words; nothing was read or written. After the name of the file come: new [1], add [--brief] [--layer LAYER] [WHO [DEED]], ask, history ID, asof DATE [LAYER] X Y Z W, script, report, size, line DATE, copy TO, seal ORIGIN, verify SEAL, prove ACT, link SEAL, acts [FROM], replay. Without a book: check-act PROOF SEAL, check-link OLD NEW LINK"
        }
        Fault::Words => {
            "a word of the command line is not UTF-8, or has a control character, as a line feed; nothing was read or written: type it again"
        }
        Fault::NoDate =>
            "a date is a year, a month and a day, as 2026-11-30; nothing was read or written",
        Fault::NoDay => {
            "the calendar does not have this date (year-month-day, as 2026-11-30); nothing was read or written"
        }
        Fault::NoLayer => {
            "a layer is a name of 1 to 32 letters, digits, '_', '-' and '.', a letter first; nothing was read or written"
        }
        Fault::File(fault) | Fault::Unmarked(fault) | Fault::Copy(fault) => file_message(fault),
        Fault::Stopped(stop) => stop_message(stop),
        Fault::Seal(fault) => seal_message(fault),
    }
}

/// Returns what a message begins with if it is not of a book that was there.
fn subject(fault: Fault) -> &'static str {
    match fault {
        Fault::Copy(_) => "the copy was not made: ",
        Fault::Unmarked(_) => {
            "the book was made without its first line, 'rp 2': remove the file and its log (FILE-wal), and make it again: "
        }
        _ => "",
    }
}

impl fmt::Display for Fault {
    fn fmt<W: fmt::Write>(&self, f: &mut fmt::Formatter<W>) -> fmt::Result {
        f.write_str(subject(*self))?;
        let Fault::Stopped(Stop::TooLong(length)) = *self else {
            return f.write_str(message(*self));
        };
        let (than, bytes) = match length {
            Length::Exactly(bytes) => ("", bytes),
            Length::MoreThan(bytes) => ("more than ", bytes),
        };
        write!(
            f,
            "the script of the book, with these lines, would have {than}{bytes} bytes, and may have {MOST_SCRIPT_BYTES}; the book is as it was: begin another book (docs/office.md)"
        )
    }
}

/// Returns the status of a fault of the file.
fn file_status(fault: FileFault) -> u8 {
    match fault {
        FileFault::Memory => 5,
        FileFault::NoBook
        | FileFault::Damaged
        | FileFault::Layout
        | FileFault::Taken
        | FileFault::There
        | FileFault::CutOff
        | FileFault::CannotOpen(_) => 8,
        FileFault::Busy => 9,
        FileFault::Full | FileFault::Disk => 10,
    }
}

/// Returns the status of a stop.
fn stop_status(stop: Stop) -> u8 {
    match stop {
        Stop::Read => 3,
        Stop::Put => 4,
        Stop::Memory(_) | Stop::Book(BookFault::Memory(_)) => 5,
        Stop::TooLong(_) => 6,
        Stop::Book(BookFault::Full | BookFault::Disk) => 10,
        Stop::Change => 11,
    }
}

/// Returns the status of a fault.
pub fn status_of(fault: Fault) -> u8 {
    match fault {
        Fault::Unlisted | Fault::NoDate | Fault::NoDay | Fault::NoLayer => 2,
        Fault::Words => 7,
        Fault::File(fault) | Fault::Unmarked(fault) | Fault::Copy(fault) => file_status(fault),
        Fault::Stopped(stop) => stop_status(stop),
        Fault::Seal(fault) => seal_status(fault),
    }
}
