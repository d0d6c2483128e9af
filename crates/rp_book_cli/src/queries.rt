//! What is read from a book.

use crate::act::Query;
use crate::date::beginning_after;
use crate::fault::Fault;
use crate::layers::{name_of, tell_asked};
use crate::seals::{write_acts, write_link, write_proof, write_seal, write_verified};
use crate::size::write_size;
use rp_book::Book;
use rp_book_service::date::{as_of, last_line_by};
use rp_book_service::history::history;
use rp_book_service::{Stop, put_report, put_script};
use rp_io::{BufferedSink, StdSink};
use std::thread::Threads;

/// Says on standard error on which day `book` begins, if that is after `date`.
fn tell_beginning<B: Book>(rt: &HostRuntime, book: &B, date: &str) {
    if let Some(day) = beginning_after(book.acts(), date) {
        let _ = eprintln!(rt;
            "rpstore-book: the book begins on {day} (UTC); nothing was added before"
        );
    }
}

/// Writes whose a place was on a date. Returns whether the question is refused.
fn write_as_of<T: Threads + Sync, B: Book>(
    rt: &HostRuntime,
    threads: &T,
    book: &B,
    date: &str,
    layer: Option<&str>,
    place: &[String],
) -> Result<bool, Stop> {
    tell_beginning(rt, book, date);
    let name = name_of(layer);
    let mut sink = StdSink::new(rt.stdout());
    let refused = as_of(threads, rt.alloc(), book, date, name, place, &mut sink)?;
    let _ = tell_asked(rt, book, layer);
    Ok(refused)
}

/// Writes the number of the last line that was added on a date or before.
fn write_line<B: Book>(rt: &HostRuntime, book: &B, date: &str) -> Result<(), Stop> {
    tell_beginning(rt, book, date);
    let line = last_line_by(book.acts(), date);
    println!(rt; "{line}").map_err(|_| Stop::Put)
}

/// Writes the history of `id`, or the report of `book` if it is `None`, in pieces of up to 65,536 bytes. Returns
/// whether a line is refused.
fn write_report<T: Threads + Sync, B: Book>(
    rt: &HostRuntime,
    threads: &T,
    book: &B,
    id: Option<&str>,
) -> Result<bool, Stop> {
    let mut sink = BufferedSink::new(rt.alloc(), StdSink::new(rt.stdout()))?;
    let outcome = match id {
        Some(id) => history(threads, rt.alloc(), book, id, &mut sink),
        None => put_report(threads, rt.alloc(), book, &mut sink),
    };
    let written = sink.finish();
    let refused = outcome?;
    written.map_err(|_| Stop::Put)?;
    Ok(refused)
}

/// Writes what is asked about the seals of `book`; nothing for another query. `input` has the seal that the query
/// names.
fn write_seals<T: Threads + Sync, B: Book>(
    rt: &HostRuntime,
    threads: &T,
    book: &B,
    input: &[u8],
    query: Query<'_>,
) -> Result<(), Fault> {
    match query {
        Query::Seal(origin) => write_seal(rt, threads, book, origin),
        Query::Verify(_) => write_verified(rt, threads, book, input),
        Query::Prove(number) => write_proof(rt, threads, book, number),
        Query::Link(_) => write_link(rt, threads, book, input),
        Query::Acts(from) => write_acts(rt, book, from),
        _ => Ok(()),
    }
}

/// Writes what is read from `book`; nothing for `ask`, for which the book is let go first. Returns whether a line of it
/// is a refusal.
pub fn write_query<T: Threads + Sync, B: Book>(
    rt: &HostRuntime,
    threads: &T,
    book: &B,
    input: &[u8],
    query: Query<'_>,
) -> Result<bool, Fault> {
    let refused = match query {
        Query::History(id) => write_report(rt, threads, book, Some(id))?,
        Query::AsOf { date, layer, place } => write_as_of(rt, threads, book, date, layer, place)?,
        Query::Report => write_report(rt, threads, book, None)?,
        Query::Script => put_script(book, &mut StdSink::new(rt.stdout())).map(|_| false)?,
        Query::Size => write_size(rt, threads, book).map(|_| false)?,
        Query::Line(date) => write_line(rt, book, date).map(|_| false)?,
        Query::Seal(_) | Query::Verify(_) | Query::Prove(_) | Query::Link(_) | Query::Acts(_) => {
            write_seals(rt, threads, book, input, query)?;
            false
        }
        Query::Ask => false,
    };
    Ok(refused)
}
