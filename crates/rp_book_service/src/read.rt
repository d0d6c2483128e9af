//! The script of a book, and its report.
ghost use Rattle.std.specs.Prelude.{◌≤◌, IfErr, IfOk, IfSome, OnOk};
ghost use Rattle.rp_io.specs.Bytes.{Appends};
ghost use Rattle.rp_reports.specs.Output.{run_script};
ghost use Rattle.rp_book_service.specs.Cause.{HasPutCause};
ghost use Rattle.rp_scripts.specs.Output.{PutsOutput};

use crate::stop::Stop;
use rp_book::Book;
use rp_io::Sink;
use rp_runner::run::run;
use rp_scripts::put_lines;
use std::alloc::Global;
use std::thread::Threads;

/// Puts the script of `book` into `sink`.
pub fn put_script<B: Book, K: Sink>(book: &B, sink: &mut K) -> Result<(), Stop>
    ensures counts { K.faults sink.old ≤ K.faults sink.new }
    ensures text { OnOk result (IfSome (B.script book.now) (λ kept. Appends (K.said sink.old) (K.said sink.new) kept)) }
    ensures cause { IfErr result (HasPutCause (K.faults sink.old) (K.faults sink.new)) }
{
    put_lines(sink, book.text())?;
    Ok(())
}

/// Puts the report of the script of `book` into `sink`. Returns whether a line is refused.
pub fn put_report<R: Threads + Sync, B: Book, K: Sink>(
    rt: &R,
    alloc: Global,
    book: &B,
    sink: &mut K,
) -> Result<bool, Stop>
    ensures counts { K.faults sink.old ≤ K.faults sink.new }
    ensures report { IfOk result (λ refused. IfSome (B.script book.now) (λ kept.
        PutsOutput run_script kept (K.said sink.old) (K.said sink.new) refused)) }
    ensures cause { IfErr result (HasPutCause (K.faults sink.old) (K.faults sink.new)) }
{
    let refused = run(rt, alloc, book.text(), false, sink)?;
    Ok(refused)
}
