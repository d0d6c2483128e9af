//! The acts of a book, as a stream.
ghost use Rattle.std.specs.Prelude.{◌≡◌, ◌-◌, ◌≤◌, ◌++◌, All, drop, flat_map, map, IfOk, IfSome, OnOk};
ghost use Rattle.rp_book.specs.Act.{act_of};
ghost use Rattle.rp_io.specs.Bytes.{Appends};
ghost use Rattle.rp_seal_text.specs.ActStream.{acts_text};
ghost use Rattle.rp_seal_text.specs.ActText.{IsActText, act_text};
ghost use Rattle.rp_sealed_book.specs.Log.{entries_from, log_of};

use crate::log::entry_at;
use rp_book::{Act, Book, start_of};
use rp_io::Sink;
use rp_scripts::{OutputFault, put_lines};
use rp_seal_text::{ACTS_MARK, write_act, write_end};
use std::alloc::{AllocError, Global};

/// Appends the texts of `acts`, acts of `script`. The first of them is the act `number`, and its lines begin at the
/// byte `start`.
///
/// # Errors
///
/// `AllocError` if there is no memory for the texts, or if an act would have a number above 4,294,967,294; `text` then has a part
/// of them.
fn write_acts(
    text: &mut Vec<u8>,
    script: &[u8],
    number: u32,
    start: usize,
    acts: &[Act],
) -> Result<(), AllocError>
    ensures text { OnOk result (text.new.items ≡ text.old.items ++ flat_map act_text (entries_from script.now number start (map act_of acts.now))) }
    ensures valid { OnOk result (All IsActText (entries_from script.now number start (map act_of acts.now))) }
{
    let mut number = number;
    let mut start = start;
    let mut rest = acts;
    while let Some((act, more)) = rest.split_first() {
        let Some(next) = number.checked_add(1) else {
            return Err(AllocError);
        };
        write_act(text, &entry_at(number, script, start, act))?;
        number = next;
        start = act.end;
        rest = more;
    }
    Ok(())
}

/// Returns the text of the stream of `acts`, the acts of `script`, from the act `from` on. From 0 on it is all acts,
/// and none if `from` is above their number.
///
/// # Errors
///
/// `AllocError` if there is no memory for the text, or if there are more than 4,294,967,294 acts.
fn stream_of(alloc: Global, script: &[u8], acts: &[Act], from: u32) -> Result<Vec<u8>, AllocError>
    ensures text { IfOk result (λ text. text.items ≡ acts_text (drop (from - 1) (log_of script.now (map act_of acts.now)))) }
    ensures valid { IfOk result (λ _. All IsActText (drop (from - 1) (log_of script.now (map act_of acts.now)))) }
{
    let number = from.max(1);
    let place = (number as usize - 1).min(acts.len());
    let rest = &acts[place..];
    let mut text = Vec::from_slice(alloc, ACTS_MARK)?;
    write_acts(&mut text, script, number, start_of(acts, place), rest)?;
    write_end(&mut text, rest.len() as u64)?;
    Ok(text)
}

/// Puts into `sink` the acts of `book` from the act `from` on, as a stream that `rp_seal_text::read_acts` reads. From 0
/// on it is all acts, and none if `from` is above their number.
///
/// # Errors
///
/// - `Put` if a put fails.
/// - `Memory` if there is not enough memory, or if there are more than 4,294,967,294 acts.
pub fn put_acts<B: Book, K: Sink>(
    alloc: Global,
    book: &B,
    from: u32,
    sink: &mut K,
) -> Result<(), OutputFault>
    ensures counts { K.faults sink.old ≤ K.faults sink.new }
    ensures text { OnOk result (IfSome (B.script book.now) (λ script. IfSome (B.acts book.now) (λ acts.
        Appends (K.said sink.old) (K.said sink.new) (acts_text (drop (from - 1) (log_of script acts)))))) }
    // So the text is read again, and as these acts.
    ensures valid { OnOk result (IfSome (B.script book.now) (λ script. IfSome (B.acts book.now) (λ acts.
        All IsActText (drop (from - 1) (log_of script acts))))) }
{
    let text = stream_of(alloc, book.text(), book.acts(), from)?;
    put_lines(sink, &text)?;
    Ok(())
}
