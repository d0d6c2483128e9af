//! Questions, which are answered as they come, by a copy of the script.

ghost use Rattle.std.specs.Prelude.{◌≤◌, None, length, IfOk};
ghost use Rattle.rp_book.specs.Lines.{IsEnded};

use crate::fault::Fault;
use crate::file::{FileFault, open};
use base64::engine::general_purpose::STANDARD;
use rp_book::Book;
use rp_book_service::Stop;
use rp_book_service::ask::ask;
use rp_command::Version;
use rp_io::{Failed, Source, StdSink, StdSource};
use rp_scripts::split_mark;
use rp_sealed_book::root;
use sqlite::{Alter, Connection};
use std::alloc::AllocError;
use std::marker::Model;
use std::thread::Threads;

/// How many bytes the mark of version 2 has at most, with its line end: `rp 2`, a carriage return and a line feed.
const MOST_MARK_BYTES: usize = 6;

/// Passes on the bytes of a source, without the mark of version 2 if they begin with it.
#[derive(Drop)]
struct Unmarked<S: Source> {
    source: S,
    /// Nothing was read yet, and a mark is left out.
    begins: bool,
    faults: u64,
}

impl<S: Source> Unmarked<S> {
    /// Returns what passes on the bytes of `source`, without a mark if `is_marked`.
    fn new(source: S, is_marked: bool) -> Unmarked<S> {
        Unmarked {
            source,
            begins: is_marked,
            faults: 0,
        }
    }

    /// Reads bytes to the front of `buf` until a mark would be whole. Returns how many they are.
    fn read_front(&mut self, buf: &mut [u8]) -> Result<usize, Failed>
        ensures { IfOk result (λ count. count ≤ length buf.new) }
    {
        let mut count = self.source.read(buf)?;
        for _ in 0..MOST_MARK_BYTES {
            if count == 0 || count >= MOST_MARK_BYTES || buf[..count].contains(&b'\n') {
                break;
            }
            let more = self.source.read(&mut buf[count..])?;
            if more == 0 {
                break;
            }
            count += more;
        }
        Ok(count)
    }

    /// Reads the first bytes without the mark.
    fn read_first(&mut self, buf: &mut [u8]) -> Result<usize, Failed>
        ensures { IfOk result (λ count. count ≤ length buf.new) }
    {
        let count = self.read_front(buf)?;
        let (Version::Two, body) = split_mark(&buf[..count]) else {
            return Ok(count);
        };
        let length = body.len();
        if length == 0 {
            return self.source.read(buf);
        }
        buf.copy_within(count - length..count, 0);
        Ok(length)
    }

    /// Reads the next bytes.
    fn read_next(&mut self, buf: &mut [u8]) -> Result<usize, Failed>
        ensures { IfOk result (λ count. count ≤ length buf.new) }
    {
        if self.begins {
            self.begins = false;
            return self.read_first(buf);
        }
        self.source.read(buf)
    }
}

impl<S: Source> Source for Unmarked<S> {
    ghost left = { λ _. None };

    ghost faults = { λ s. s.faults };

    /// Fails if a read of the other source does.
    fn read(&mut self, buf: &mut [u8]) -> Result<usize, Failed> {
        let faults = self.faults;
        match self.read_next(buf) {
            Ok(count) => {
                self.faults = faults;
                Ok(count)
            }
            Err(failed) => {
                self.faults = faults.saturating_add(1);
                Err(failed)
            }
        }
    }
}

/// Says on standard error after which act and which line the answers are, with the root hash that a seal of `book` has.
fn tell_state<T: Threads + Sync, B: Book>(
    rt: &HostRuntime,
    threads: &T,
    book: &B,
) -> Result<(), AllocError> {
    let count = book.acts().len();
    let last = book.acts().last().map_or(0, |act| act.last);
    let hash = root(threads, rt.alloc(), book)?;
    let text = STANDARD.encode(rt.alloc(), hash.bytes.as_slice())?;
    let _ = eprintln!(rt; "rpstore-book: asked after act {count}, line {last}, root hash {text}");
    Ok(())
}

/// Copies the script of `book`. Says on standard error of which state of the book the answers are.
fn copied<T: Threads + Sync, B: Book>(
    rt: &HostRuntime,
    threads: &T,
    book: &B,
) -> Result<Vec<u8>, AllocError>
    ensures end { IfOk result (λ script. IsEnded script.items) }
    ensures short { IfOk result (λ script. length script.items ≤ 16777216) }
{
    tell_state(rt, threads, book)?;
    Vec::from_slice(rt.alloc(), book.text())
}

/// Copies the script of the book in a database, and lets the book go.
fn script_of<T: Threads + Sync, S: Alter + Drop>(
    rt: &HostRuntime,
    threads: &T,
    conn: Connection<S>,
) -> Result<Vec<u8>, FileFault>
    ensures end { IfOk result (λ script. IsEnded script.items) }
    ensures short { IfOk result (λ script. length script.items ≤ 16777216) }
{
    let (book, _) = open(rt.alloc(), conn)?;
    let script = copied(rt, threads, &book)?;
    Ok(script)
}

/// Writes the answers to the questions of standard input after the lines of the book in the database of `conn`. Lets
/// `conn` go before the first question is read, so that others may open the book. Returns whether a line is refused.
pub fn write_answers<T: Threads + Sync, S: Alter + Drop>(
    rt: &HostRuntime,
    threads: &T,
    conn: Connection<S>,
) -> Result<bool, Fault> {
    let script = script_of(rt, threads, conn)?;
    let (version, _) = split_mark(&script);
    let mut source = Unmarked::new(StdSource::new(rt.stdin()), matches!(version, Version::Two));
    let mut sink = StdSink::new(rt.stdout());
    let refused = ask(threads, rt.alloc(), &script, &mut source, &mut sink)?;
    Ok(refused)
}
