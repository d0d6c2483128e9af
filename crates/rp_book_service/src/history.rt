//! What became of a lot, with the acts in which it and its kin were born and ended.
ghost use Rattle.std.specs.Prelude.{◌≡◌, ◌+◌, ◌≤◌, [], Some, length, IfErr, IfOk, IfSome};
ghost use Rattle.rp_book.specs.Lines.{IsEnded};
ghost use Rattle.rp_reports.specs.Output.{most_script_bytes};
ghost use Rattle.rp_book_service.specs.Acts.{PutsHistory, history_line};
ghost use Rattle.rp_book_service.specs.Added.{PutsBehind};
ghost use Rattle.rp_book_service.specs.Cause.{HasQuestionCause};

use crate::ask::answer;
use crate::children::children_text;
pub use crate::events::act_of_line;
use crate::events::events_text;
use crate::stop::Stop;
use rp_book::Book;
use rp_io::{Failed, Sink};
use rp_scripts::put_lines;
use std::alloc::{AllocError, Global};
use std::marker::Model;
use std::thread::Threads;

/// A sink that keeps all that it is given.
#[derive(Drop)]
struct TextSink {
    text: Vec<u8>,
    faults: u64,
}

impl Sink for TextSink {
    ghost said = { λ s. Some s.text.items };

    ghost faults = { λ s. s.faults };

    /// Fails for want of memory alone.
    fn put(&mut self, piece: &[u8]) -> Result<(), Failed> {
        let faults = self.faults;
        if self.text.extend_from_slice(piece).is_err() {
            self.faults = faults.saturating_add(1);
            return Err(Failed);
        }
        Ok(())
    }
}

/// Returns the line that asks for the lot `id`.
fn question(alloc: Global, id: &str) -> Result<Vec<u8>, AllocError>
    ensures { IfOk result (λ text. text.items ≡ history_line id.now) }
{
    let mut text = Vec::from_slice(alloc, b"history ")?;
    text.extend_from_slice(id.as_bytes())?;
    text.push(b'\n')?;
    Ok(text)
}

/// Returns the answer to `history` for the lot `id` after `script`, and whether a line of either is refused.
///
/// # Errors
///
/// - `TooLong` if `script` and the question have more than 16,777,216 bytes together.
/// - `Memory` if memory ran out.
fn answer_text<R: Threads + Sync>(
    rt: &R,
    alloc: Global,
    script: &[u8],
    id: &str,
) -> Result<(Vec<u8>, bool), Stop>
    requires end { IsEnded script.now }
    requires short { length script.now ≤ most_script_bytes }
    ensures answers { IfOk result (λ done. PutsBehind script.now (history_line id.now) (Some []) (Some done.0.items) done.1) }
    ensures cause { IfErr result (HasQuestionCause 0 0 (λ n. n ≡ length script.now + length (history_line id.now))) }
{
    let question = question(alloc, id)?;
    let mut sink = TextSink {
        text: Vec::new(alloc),
        faults: 0,
    };
    let refused = match answer(rt, alloc, script, &question, &mut sink) {
        Ok(refused) => refused,
        Err(Stop::Put) => return Err(Stop::Memory(AllocError)),
        Err(stop) => return Err(stop),
    };
    Ok((sink.text, refused))
}

/// Puts into `sink` the answer to `history` for the lot `id` after the lines of `book`. After the answer come, for each
/// lot in it, the acts in which the lot was born and ended: when that was, by whom and under which deed. Then come the
/// lots that each ended lot became. Returns whether the question is refused.
pub fn history<R: Threads + Sync, B: Book, K: Sink>(
    rt: &R,
    alloc: Global,
    book: &B,
    id: &str,
    sink: &mut K,
) -> Result<bool, Stop>
    ensures counts { K.faults sink.old ≤ K.faults sink.new }
    ensures answer { IfOk result (λ refused. IfSome (B.script book.now) (λ script. IfSome (B.acts book.now) (λ acts.
        PutsHistory script acts id.now refused (K.said sink.old) (K.said sink.new)))) }
    ensures cause { IfErr result (HasQuestionCause (K.faults sink.old) (K.faults sink.new) (λ n. IfSome (B.script book.now) (λ script. n ≡ length script + length (history_line id.now)))) }
{
    let script = book.text();
    let (told, refused) = answer_text(rt, alloc, script, id)?;
    put_lines(sink, &told)?;
    let events = events_text(alloc, &told, book.acts())?;
    put_lines(sink, &events)?;
    let children = children_text(alloc, script, &told)?;
    put_lines(sink, &children)?;
    Ok(refused)
}
