//! The acts in which the lots of a history were born and ended.
ghost use Rattle.std.specs.Prelude.{◌≡◌, ◌↔◌, ◌++◌, IfOk, IfSome, IsTrue, List, OnOk, map, option_map, string_bytes, ℕ};
ghost use denote.Ref.{Bor};
ghost use Rattle.rp_book.specs.Act.{AreInOrder, act_of};
ghost use Rattle.rp_book_service.specs.Acts.{HasLine};
ghost use Rattle.rp_book_service.specs.Events.{act_with, event_in, event_line, event_of, event_time, events_by, events_text, told_after};

use crate::lot_line::{born_lot, ended_lot};
use itoa::Buffer;
use rp_book::Act;
use rp_scripts::next_line;
use std::alloc::{AllocError, Global};

/// Returns whether `act` has `line`.
fn has_line(act: &Act, line: u32) -> bool
    ensures { IsTrue result ↔ HasLine line act.now }
{
    act.first <= line && line <= act.last
}

/// Returns the act that has `line`, by a binary search. `acts` are in the order of their lines.
pub fn act_of_line(acts: &[Act], line: u32) -> Option<&Act>
    ensures has { IfSome result (λ act. HasLine line act.now) }
    ensures found { AreInOrder 0 (map act_of acts.now) → option_map (λ act. act_of act.now) result ≡ act_with line (map act_of acts.now) }
{
    let place = acts.partition_point(|act| act.last < line);
    let act = acts.get(place)?;
    if has_line(act, line) { Some(act) } else { None }
}

/// Writes `words` and then `told`, if it is told.
fn write_told(words: &[u8], told: &Option<String>, text: &mut Vec<u8>) -> Result<(), AllocError>
    ensures { OnOk result (text.new.items ≡ text.old.items ++ told_after words.now (option_map string_bytes told.now)) }
{
    let Some(told) = told else {
        return Ok(());
    };
    text.extend_from_slice(words)?;
    text.extend_from_slice(told.as_bytes())
}

/// Writes that the lot `id` was born or ended, as `word` says, in `line`, and when the line was `added`.
fn write_time(
    id: &[u8],
    word: &[u8],
    line: u32,
    added: &[u8],
    text: &mut Vec<u8>,
) -> Result<(), AllocError>
    ensures { OnOk result (text.new.items ≡ text.old.items ++ event_time id.now word.now line added.now) }
{
    let mut buffer = Buffer::new();
    text.extend_from_slice(b"  ")?;
    text.extend_from_slice(id)?;
    text.extend_from_slice(word)?;
    text.extend_from_slice(buffer.format(line).as_bytes())?;
    text.extend_from_slice(b": added ")?;
    text.extend_from_slice(added)?;
    text.extend_from_slice(b" UTC")
}

/// Writes that the lot `id` was born or ended, as `word` says, in `line`, which came with `act`.
fn write_event(
    id: &[u8],
    word: &[u8],
    line: u32,
    act: &Act,
    text: &mut Vec<u8>,
) -> Result<(), AllocError>
    ensures { OnOk result (text.new.items ≡ text.old.items ++ event_line id.now word.now line (act_of act.now)) }
{
    write_time(id, word, line, act.added.as_bytes(), text)?;
    write_told(b" by ", &act.who, text)?;
    write_told(b" under ", &act.deed, text)?;
    text.push(b'\n')?;
    Ok(())
}

/// Writes the act of the line of `lot`, a lot with the number of a line in which it was born or ended, as `word` says.
/// Writes nothing if there is no lot, or if no act has the line.
fn write_act(
    lot: Option<(&[u8], u32)>,
    word: &[u8],
    acts: &[Act],
    text: &mut Vec<u8>,
) -> Result<(), AllocError>
    ensures { AreInOrder 0 (map act_of acts.now) → OnOk result (text.new.items ≡ text.old.items
        ++ event_of (map act_of acts.now) word.now (option_map (λ (lot : Bor (List ℕ) × ℕ). (lot.0.now, lot.1)) lot.entry)) }
{
    let Some((id, line)) = lot else {
        return Ok(());
    };
    let Some(act) = act_of_line(acts, line) else {
        return Ok(());
    };
    write_event(id, word, line, act, text)
}

/// Writes the act in which the lot of `told` was born, and the one in which it ended. `told` is a line of an answer.
fn write_acts(told: &[u8], acts: &[Act], text: &mut Vec<u8>) -> Result<(), AllocError>
    ensures { AreInOrder 0 (map act_of acts.now) → OnOk result (text.new.items ≡ text.old.items ++ events_by (map act_of acts.now) told.now) }
{
    write_act(born_lot(told), b" born ", acts, text)?;
    write_act(ended_lot(told), b" ended ", acts, text)
}

/// Returns the acts in which the lots of `answer` were born and ended. `answer` is the answer to `history`, and `acts`
/// are in the order of their lines.
pub(crate) fn events_text(alloc: Global, answer: &[u8], acts: &[Act]) -> Result<Vec<u8>, AllocError>
    ensures { AreInOrder 0 (map act_of acts.now) → IfOk result (λ text. text.items ≡ events_text (map act_of acts.now) answer.now) }
{
    let mut text = Vec::new(alloc);
    let mut rest = answer;
    while let Some((told, behind)) = next_line(rest) {
        write_acts(told, acts, &mut text)?;
        rest = behind;
    }
    Ok(text)
}
