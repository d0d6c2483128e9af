//! Numbers behind pieces of a text.
ghost use Rattle.std.specs.Prelude.{◌≡◌, ◌∷◌, ◌++◌, [], OnOk};
ghost use Rattle.rp_reports.specs.Text.{line_end};

use itoa::{Buffer, Integer};
use std::alloc::AllocError;

/// Appends a piece of a text.
fn append(piece: &[u8], text: &mut Vec<u8>) -> Result<(), AllocError>
    ensures { OnOk result (text.new.items ≡ text.old.items ++ piece.now) }
{
    text.extend_from_slice(piece)
}

/// Appends the text of a number.
fn append_spelled<I: Integer>(number: I, text: &mut Vec<u8>) -> Result<(), AllocError>
    ensures { OnOk result (text.new.items ≡ text.old.items ++ I.text number) }
{
    let mut buffer = Buffer::new();
    append(buffer.format(number).as_bytes(), text)
}

/// Appends a piece of a text, and a number behind it.
pub(crate) fn append_number<I: Integer>(
    piece: &[u8],
    number: I,
    text: &mut Vec<u8>,
) -> Result<(), AllocError>
    ensures { OnOk result (text.new.items ≡ text.old.items ++ piece.now ++ I.text number) }
{
    append(piece, text)?;
    append_spelled(number, text)
}

/// Appends a line to `text`: `word`, which has its space behind it, and `number`.
pub fn write_count<I: Integer>(word: &[u8], number: I, text: &mut Vec<u8>) -> Result<(), AllocError>
    ensures { OnOk result (text.new.items ≡ text.old.items ++ word.now ++ I.text number ++ line_end ∷ []) }
{
    append_number(word, number, text)?;
    append(b"\n", text)
}
