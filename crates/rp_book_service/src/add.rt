//! Lines that are added to a book.
ghost use Rattle.std.specs.Prelude.{◌≡◌, ◌+◌, ◌≤◌, ◌++◌, false, length, true, IfErr, IfOk, IfSome, OnErr, OnOk};
ghost use Rattle.rp_io.specs.Bytes.{Appends};
ghost use Rattle.rp_book.specs.Act.{GainsAct, added_act};
ghost use Rattle.rp_book.specs.Kept.{IsCrashAtomic, RecoversNoOther, RecoversOnly, HasBookCause, MayRecover, Stays};
ghost use Rattle.rp_book.specs.Lines.{IsEnded};
ghost use Rattle.rp_reports.specs.Output.{most_script_bytes};
ghost use Rattle.rp_book_service.specs.Added.{HasRefusal, MatchOutcome, PutsBehind, ended, is_refused};
ghost use Rattle.rp_book_service.specs.Cause.{HasStopCause, IfSpared};
ghost use Rattle.rp_book_service.specs.Layers.{HasAddition, IsAdded, lines_in};

use crate::answers::put_behind;
use crate::layers::{Addition, describe};
use crate::lines::read_lines;
use crate::stop::Stop;
use rp_book::{Book, BookFault, Entry};
use rp_io::{Sink, Source};
use rp_lists::Name;
use std::alloc::Global;
use std::thread::Threads;

/// What came of lines that were to be added.
#[derive(Drop)]
pub enum Outcome {
    /// A line is refused, and nothing was added.
    Refused,
    /// There were no lines, and nothing was added.
    Empty,
    /// The lines were added.
    Added(Addition),
}

/// Adds `lines` to `book` under `entry`, unless there are none. `addition` is what the lines do with layers, and is
/// returned if they are added.
fn keep<B: Book>(
    alloc: Global,
    book: &mut B,
    lines: &[u8],
    entry: Entry<'_>,
    addition: Addition,
) -> Result<Outcome, BookFault>
    requires end { IsEnded lines.now }
    requires short { IfSome (B.script book.old) (λ kept. length kept + length lines.now ≤ most_script_bytes) }
    ensures kept { IfOk result (λ done. is_refused done ≡ false) }
    ensures addition { IfOk result (IsAdded lines.now addition) }
    ensures counts { B.faults book.old ≤ B.faults book.new }
    ensures ok { OnOk result (Appends (B.script book.old) (B.script book.new) lines.now) }
    ensures err { OnErr result (Stays (B.script book.old) (B.script book.new)) }
    ensures cause { IfErr result (HasBookCause (B.faults book.old) (B.faults book.new)) }
    ensures crash { IsCrashAtomic (B.recoverable book.old) (B.recoverable book.new) (B.script book.old) lines.now }
    ensures acts { IfOk result (λ done. MatchOutcome done
        (IfSome (B.script book.old) (λ script. GainsAct (B.acts book.old) (B.acts book.new) (added_act script lines.now entry.entry)))
        (Stays (B.acts book.old) (B.acts book.new))) }
    ensures finds { IfOk result (λ done. MatchOutcome done (RecoversOnly (B.recoverable book.new) (B.script book.new)) (RecoversNoOther (B.recoverable book.old) (B.recoverable book.new))) }
    ensures found { IfOk result (λ done. MatchOutcome done (B.has_honest_disk book.new → MayRecover (B.recoverable book.new) (B.script book.new)) (Unit {0})) }
    ensures unchanged { OnErr result (Stays (B.acts book.old) (B.acts book.new)) }
    ensures spared { B.faults book.new ≡ B.faults book.old → OnErr result (RecoversNoOther (B.recoverable book.old) (B.recoverable book.new)) }
{
    if lines.is_empty() {
        return Ok(Outcome::Empty);
    }
    book.add(alloc, lines, entry)?;
    Ok(Outcome::Added(addition))
}

/// Adds the lines of `source` to `book`, under `entry`, if none of them is refused, and puts their answers into `sink`.
/// If `layer` is named, a line that chooses it is added before them. Nothing is added if a line is refused, if there
/// are no lines, and if the call stops.
///
/// Once lines were added, the next one who opens the book finds the new script and no other. If a line is refused, if
/// there are no lines, or if the call stops before it comes to the book, no script is found that was not found before.
/// If the book fails, all the lines are found, or none.
pub fn add<R: Threads + Sync, B: Book, S: Source, K: Sink>(
    rt: &R,
    alloc: Global,
    book: &mut B,
    entry: Entry<'_>,
    layer: Option<Name>,
    source: &mut S,
    sink: &mut K,
) -> Result<Outcome, Stop>
    ensures counts { (S.faults source.old ≤ S.faults source.new) × (K.faults sink.old ≤ K.faults sink.new) × (B.faults book.old ≤ B.faults book.new) }
    ensures added { IfOk result (λ done. is_refused done ≡ false → IfSome (S.left source.old) (λ lines.
        Appends (B.script book.old) (B.script book.new) (lines_in layer (ended lines)))) }
    ensures good { IfOk result (λ done. is_refused done ≡ false → IfSome (B.script book.new) (λ script. HasRefusal script false)) }
    ensures bad { IfOk result (λ done. is_refused done ≡ true → IfSome (S.left source.old) (λ lines. IfSome (B.script book.new) (λ script.
        HasRefusal (script ++ lines_in layer (ended lines)) true))) }
    ensures answers { IfOk result (λ done. IfSome (S.left source.old) (λ lines. IfSome (B.script book.new) (λ _. IfSome (B.script book.old) (λ script.
        PutsBehind script (lines_in layer (ended lines)) (K.said sink.old) (K.said sink.new) (is_refused done))))) }
    ensures addition { IfOk result (λ done. IfSome (S.left source.old) (λ lines. HasAddition (B.script book.old) (lines_in layer (ended lines)) done)) }
    ensures refused { IfOk result (λ done. is_refused done ≡ true → Stays (B.script book.old) (B.script book.new)) }
    ensures stopped { OnErr result (Stays (B.script book.old) (B.script book.new)) }
    ensures cause { IfErr result (HasStopCause
        (record { reads = S.faults source.old; puts = K.faults sink.old; book = B.faults book.old })
        (record { reads = S.faults source.new; puts = K.faults sink.new; book = B.faults book.new }) layer (B.script book.old) (S.left source.old)) }
    ensures crash { IfSome (S.left source.old) (λ lines.
        IsCrashAtomic (B.recoverable book.old) (B.recoverable book.new) (B.script book.old) (lines_in layer (ended lines))) }
    ensures acts { IfOk result (λ done. MatchOutcome done
        (IfSome (S.left source.old) (λ lines. IfSome (B.script book.old) (λ script.
        GainsAct (B.acts book.old) (B.acts book.new) (added_act script (lines_in layer (ended lines)) entry.entry))))
        (Stays (B.acts book.old) (B.acts book.new))) }
    ensures finds { IfOk result (λ done. MatchOutcome done (RecoversOnly (B.recoverable book.new) (B.script book.new)) (RecoversNoOther (B.recoverable book.old) (B.recoverable book.new))) }
    ensures found { IfOk result (λ done. MatchOutcome done (B.has_honest_disk book.new → MayRecover (B.recoverable book.new) (B.script book.new)) (Unit {0})) }
    ensures unchanged { OnErr result (Stays (B.acts book.old) (B.acts book.new)) }
    ensures spared { IfErr result (λ stop. IfSpared (B.faults book.old) (B.faults book.new) stop (RecoversNoOther (B.recoverable book.old) (B.recoverable book.new))) }
{
    let script = book.text();
    let lines = read_lines(alloc, script, layer, source)?;
    if put_behind(rt, alloc, script, &lines, sink)? {
        return Ok(Outcome::Refused);
    }
    let addition = describe(alloc, script, &lines)?;
    let done = keep(alloc, book, &lines, entry, addition)?;
    Ok(done)
}
