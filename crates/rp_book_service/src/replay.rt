//! Acts of another book, taken into a book.
ghost use Rattle.std.specs.Prelude.{◌≡◌, ◌+◌, ◌<◌, ◌≤◌, ◌^◌, ◌++◌, ◌↔◌, ℕ, false, length, map, take, true, IfOk, IfSome, IsTrue, OnErr, OnOk};
ghost use Rattle.rp_io.specs.Bytes.{Appends};
ghost use Rattle.rp_book.specs.Kept.{RecoversNoOther, RecoversOnly, MayRecover, Stays};
ghost use Rattle.rp_book.specs.Lines.{HasEnd, IsEnded, last_number};
ghost use Rattle.rp_reports.specs.Output.{most_script_bytes};
ghost use Rattle.rp_seal.specs.Act.{entry_of};
ghost use Rattle.rp_book_service.specs.Added.{HasRefusal};
ghost use Rattle.rp_book_service.specs.Replayed.{RecoversBeginning, GainsEntries, IsFirstUnlike, IsNext, MatchReplayed, entry_lines};
ghost use Rattle.rp_book_service.specs.Joined.{MatchJoined, MayTake};

use crate::answers::put_behind;
use crate::lines::MOST_BYTES;
use crate::stop::Stop;
use rp_book::{Book, BookFault, Entry, line_numbers};
use rp_io::QuietSink;
use rp_scripts::OutputFault;
use rp_seal::SealedAct;
use std::alloc::{AllocError, Global};
use std::thread::Threads;

/// What came of acts that were to be taken into a book.
#[derive(Clone, Copy)]
pub enum Replayed {
    /// All acts were added.
    Whole,
    /// A line of the script with the lines of the acts is refused, and nothing was added.
    Refused,
    /// An act cannot come after the script and the acts before it, and nothing was added.
    Unlike {
        /// The number of the act, as the act gives it.
        number: u32,
    },
}

/// A script with the lines of acts.
#[derive(Drop)]
enum Joined {
    /// The script and the lines.
    Script(Vec<u8>),
    /// An act cannot come after the script and the acts before it.
    Unlike(u32),
}

/// Returns the number of the last line of `script`.
fn last_line(script: &[u8]) -> u32
    requires { length script.now ≤ most_script_bytes }
    ensures last { result ≡ last_number script.now }
    ensures fits { result ≤ length script.now }
{
    line_numbers(b"", 0, script).1
}

/// Returns whether `text` has a line end at its end.
fn ends_line(text: &[u8]) -> bool
    ensures { IsTrue result ↔ HasEnd text.now }
{
    matches!(text, [.., b'\n'])
}

/// Returns whether `act` can come after `script`, which has `count` acts and whose last line has the number `before`.
fn is_next(script: &[u8], before: u32, count: u64, act: &SealedAct<'_>) -> bool
    requires end { IsEnded script.now }
    requires short { length script.now ≤ most_script_bytes }
    requires before { before ≡ last_number script.now }
    requires fits { before ≤ length script.now }
    requires count { count < 2 ^ 63 }
    ensures next { IsTrue result ↔ IsNext script.now count (entry_of act.now) }
    ensures fits { IsTrue result → act.now.last ≤ length script.now + length act.now.lines.now }
    ensures small { IsTrue result → count + 1 < 2 ^ 32 }
{
    if !ends_line(act.lines) || act.lines.len() > MOST_BYTES - script.len() {
        return false;
    }
    let (first, last) = line_numbers(script, before, act.lines);
    act.first == first && act.last == last && u64::from(act.number) == count + 1
}

/// Joins the lines of `acts` to `script`, which has `count` acts. If an act cannot come after the script and the acts
/// before it, the number of the first such act is returned.
///
/// # Errors
///
/// `AllocError` if there is no memory for the script and the lines.
fn join(
    alloc: Global,
    script: &[u8],
    count: u64,
    acts: &[SealedAct<'_>],
) -> Result<Joined, AllocError>
    requires end { IsEnded script.now }
    requires short { length script.now ≤ most_script_bytes }
    requires count { count < 2 ^ 63 }
    ensures { IfOk result (MatchJoined script.now count (map entry_of acts.now)) }
{
    let mut whole = Vec::from_slice(alloc, script)?;
    let mut before = last_line(script);
    let mut count = count;
    for act in acts {
        if !is_next(&whole, before, count, act) {
            return Ok(Joined::Unlike(act.number));
        }
        whole.extend_from_slice(act.lines)?;
        before = act.last;
        count += 1;
    }
    Ok(Joined::Script(whole))
}

/// Returns whether a line of the report of `script` with `lines` after it is a refusal.
///
/// # Errors
///
/// `Memory` if there is not enough memory.
fn is_refused<R: Threads + Sync>(
    rt: &R,
    alloc: Global,
    script: &[u8],
    lines: &[u8],
) -> Result<bool, OutputFault>
    requires end { IsEnded script.now }
    requires short { length script.now + length lines.now ≤ most_script_bytes }
    ensures { IfOk result (HasRefusal (script.now ++ lines.now)) }
{
    let mut nowhere = QuietSink::new(alloc, 0)?;
    put_behind(rt, alloc, script, lines, &mut nowhere)
}

/// Adds `acts` to `book` in order, each as its own act.
///
/// # Errors
///
/// The fault of the book; the acts before the one that failed are added.
fn add_all<B: Book>(alloc: Global, book: &mut B, acts: &[SealedAct<'_>]) -> Result<(), BookFault>
    requires { MayTake (B.script book.old) (B.acts book.old) (map entry_of acts.now) }
    ensures counts { B.faults book.old ≤ B.faults book.new }
    ensures script { OnOk result (Appends (B.script book.old) (B.script book.new) (entry_lines (map entry_of acts.now))) }
    ensures log { OnOk result (GainsEntries (B.script book.old) (B.acts book.old) (B.script book.new) (B.acts book.new) (map entry_of acts.now)) }
    ensures part { OnErr result ((n : ℕ) × GainsEntries (B.script book.old) (B.acts book.old) (B.script book.new) (B.acts book.new) (take n (map entry_of acts.now))) }
    ensures crash { RecoversBeginning (B.recoverable book.old) (B.recoverable book.new) (B.script book.old) (map entry_of acts.now) }
    ensures only { OnOk result (0 < length acts.now → RecoversOnly (B.recoverable book.new) (B.script book.new)) }
    ensures found { OnOk result (0 < length acts.now → B.has_honest_disk book.new → MayRecover (B.recoverable book.new) (B.script book.new)) }
{
    for act in acts {
        let entry = Entry {
            added: act.added,
            who: act.who,
            deed: act.deed,
        };
        book.add(alloc, act.lines, entry)?;
    }
    Ok(())
}

/// Takes `acts`, which come after the acts of `book` in another book, into `book`: each with its time, who and deed.
/// All acts are looked at before the first is added. A crash in the call leaves a beginning of the acts, each whole.
///
/// # Errors
///
/// - `Memory` if there is not enough memory. Nothing was added.
/// - `Book` if the book failed. The acts before the one that failed are added.
pub fn replay<R: Threads + Sync, B: Book>(
    rt: &R,
    alloc: Global,
    book: &mut B,
    acts: &[SealedAct<'_>],
) -> Result<Replayed, Stop>
    ensures counts { B.faults book.old ≤ B.faults book.new }
    // The acts come to the end of the log, as they are. So seals of the other book hold for this one.
    ensures whole { IfOk result (λ done. MatchReplayed done
        (GainsEntries (B.script book.old) (B.acts book.old) (B.script book.new) (B.acts book.new) (map entry_of acts.now)) (Unit {0}) (λ _. Unit {0})) }
    ensures good { IfOk result (λ done. MatchReplayed done (IfSome (B.script book.new) (λ script. HasRefusal script false)) (Unit {0}) (λ _. Unit {0})) }
    ensures bad { IfOk result (λ done. MatchReplayed done (Unit {0}) (IfSome (B.script book.new) (λ script. HasRefusal (script ++ entry_lines (map entry_of acts.now)) true)) (λ _. Unit {0})) }
    ensures nothing { IfOk result (λ done. MatchReplayed done (Unit {0})
        (Stays (B.script book.old) (B.script book.new) × Stays (B.acts book.old) (B.acts book.new))
        (λ _. Stays (B.script book.old) (B.script book.new) × Stays (B.acts book.old) (B.acts book.new))) }
    ensures unlike { IfOk result (λ done. MatchReplayed done (Unit {0}) (Unit {0})
        (λ number. IfSome (B.script book.new) (λ script. IfSome (B.acts book.new) (λ found. IsFirstUnlike script (length found) (map entry_of acts.now) number)))) }
    ensures part { OnErr result ((n : ℕ) × GainsEntries (B.script book.old) (B.acts book.old) (B.script book.new) (B.acts book.new) (take n (map entry_of acts.now))) }
    // Whoever opens the book next, after a crash too, finds what was to be found before or a beginning of the acts after it.
    ensures crash { RecoversBeginning (B.recoverable book.old) (B.recoverable book.new) (B.script book.old) (map entry_of acts.now) }
    ensures only { IfOk result (λ done. MatchReplayed done (0 < length acts.now → RecoversOnly (B.recoverable book.new) (B.script book.new))
        (RecoversNoOther (B.recoverable book.old) (B.recoverable book.new)) (λ _. RecoversNoOther (B.recoverable book.old) (B.recoverable book.new))) }
    ensures found { IfOk result (λ done. MatchReplayed done
        (0 < length acts.now → B.has_honest_disk book.new → MayRecover (B.recoverable book.new) (B.script book.new)) (Unit {0}) (λ _. Unit {0})) }
{
    let script = book.text();
    let whole = match join(alloc, script, book.acts().len() as u64, acts)? {
        Joined::Script(whole) => whole,
        Joined::Unlike(number) => return Ok(Replayed::Unlike { number }),
    };
    if is_refused(rt, alloc, script, &whole[script.len()..])? {
        return Ok(Replayed::Refused);
    }
    add_all(alloc, book, acts)?;
    Ok(Replayed::Whole)
}
