//! What is asked as of a date.
ghost use Rattle.std.specs.Prelude.{◌≡◌, ◌≤◌, IfErr, IfOk, IfSome, map, max, string_bytes};
ghost use Rattle.rp_book.specs.Act.{act_of};
ghost use Rattle.rp_book_service.specs.Acts.{HasAsOfLength, PutsAsOf, as_of_line, is_by, last_by, line_by};
ghost use Rattle.rp_book_service.specs.Cause.{HasQuestionCause};

use crate::ask::answer;
use crate::layers::put_in_layer;
use crate::stop::Stop;
use itoa::Buffer;
use rp_book::{Act, Book};
use rp_io::Sink;
use rp_lists::Name;
use std::alloc::{AllocError, Global};
use std::thread::Threads;

/// How many bytes of a time are its date.
const DATE_LENGTH: usize = 10;

/// Returns whether what was added at `time` was added on `date` or before.
fn is_by(date: &str, time: &str) -> bool
    ensures { result ≡ is_by date.now time.now }
{
    let time = time.as_bytes();
    let day = &time[..time.len().min(DATE_LENGTH)];
    day.cmp(date.as_bytes()).is_le()
}

/// Returns the number of the last line of `act` if `act` was added on `date` or before, otherwise 0.
fn line_by(date: &str, act: &Act) -> u32
    ensures { result ≡ line_by date.now (act_of act.now) }
{
    if is_by(date, act.added.as_str()) {
        act.last
    } else {
        0
    }
}

/// Returns the greater of `a` and `b`.
fn greater(a: u32, b: u32) -> u32
    ensures { result ≡ max a b }
{
    if a < b { b } else { a }
}

/// Returns the number of the last line that was added on `date`, as 2026-11-30, or before; 0 if there is none. The
/// times of `acts` and `date` are UTC.
pub fn last_line_by(acts: &[Act], date: &str) -> u32
    ensures { result ≡ last_by date.now (map act_of acts.now) }
{
    let mut last = 0;
    let mut rest = acts;
    while let Some((act, more)) = rest.split_first() {
        last = greater(last, line_by(date, act));
        rest = more;
    }
    last
}

/// Returns the line that asks for the point that `words` spell, as of `line`.
fn question(alloc: Global, line: u32, words: &[String]) -> Result<Vec<u8>, AllocError>
    ensures { IfOk result (λ text. text.items ≡ as_of_line line (map string_bytes words.now)) }
{
    let mut buffer = Buffer::new();
    let mut text = Vec::from_slice(alloc, b"asof ")?;
    text.extend_from_slice(buffer.format(line).as_bytes())?;
    let mut rest = words;
    while let Some((word, more)) = rest.split_first() {
        text.push(b' ')?;
        text.extend_from_slice(word.as_bytes())?;
        rest = more;
    }
    text.push(b'\n')?;
    Ok(text)
}

/// Puts into `sink` the answer to `asof` for the point that `words` spell, as of the last line that was added on
/// `date`, as 2026-11-30, or before: whose the place was then. If `layer` is named, the place is looked for in that
/// layer: the question comes after a line that chooses `layer`, whose answer is put too. Otherwise the place is looked
/// for in the layer that the book ends in ([`crate::last_choice`]). Returns whether a line is refused.
pub fn as_of<R: Threads + Sync, B: Book, K: Sink>(
    rt: &R,
    alloc: Global,
    book: &B,
    date: &str,
    layer: Option<Name>,
    words: &[String],
    sink: &mut K,
) -> Result<bool, Stop>
    ensures counts { K.faults sink.old ≤ K.faults sink.new }
    ensures answer { IfOk result (λ refused. IfSome (B.script book.now) (λ script. IfSome (B.acts book.now) (λ acts.
        PutsAsOf script acts date.now layer (map string_bytes words.now) refused (K.said sink.old) (K.said sink.new)))) }
    ensures cause { IfErr result (HasQuestionCause (K.faults sink.old) (K.faults sink.new) (λ n. IfSome (B.script book.now) (λ script. IfSome (B.acts book.now) (λ acts.
        HasAsOfLength acts date.now layer (map string_bytes words.now) n script)))) }
{
    let line = last_line_by(book.acts(), date);
    let question = question(alloc, line, words)?;
    let questions = put_in_layer(alloc, layer, question)?;
    answer(rt, alloc, book.text(), &questions, sink)
}
