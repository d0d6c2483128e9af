//! Writing a thing's text, and a list of things one after another.
ghost use Rattle.std.specs.Prelude.{[], ◌∷◌, ◌++◌, ℕ, List};
ghost use Rattle.rp_language.specs.Grammar.{space};
ghost use Rattle.rp_reports.specs.Text.{items_text, line_end};
ghost use Rattle.rp_text.specs.Fronts.{Writes};
ghost use Rattle.rp_text.specs.LineTexts.{lines_text};

use crate::pieces::{append, append_byte};
use std::alloc::AllocError;

/// A thing that has a text in a report: a line, or a part of a line.
pub trait WriteText {
    ghost text: { Self → List ℕ };

    /// Appends the text to `out`.
    ///
    /// # Errors
    ///
    /// `AllocError` if memory runs out. `out` then has what it had, and a prefix of the text.
    fn write_text(&self, out: &mut Vec<u8>) -> Result<(), AllocError>
        ensures { Writes result out.old.items out.new.items (text self.now) };
}

/// Appends a space and the text of `item`.
pub(crate) fn write_item<T: WriteText>(item: &T, out: &mut Vec<u8>) -> Result<(), AllocError>
    ensures { Writes result out.old.items out.new.items (space ∷ T.text item.now) }
{
    append_byte(b' ', out)?;
    item.write_text(out)
}

/// Appends the texts of `items`, each after a space.
pub(crate) fn write_items<T: WriteText>(items: &[T], out: &mut Vec<u8>) -> Result<(), AllocError>
    ensures { Writes result out.old.items out.new.items (items_text T.text items.now) }
{
    for item in items {
        write_item(item, out)?;
    }
    Ok(())
}

/// Appends the text of `line` to `out`, with a line end.
///
/// # Errors
///
/// `AllocError` if memory runs out. `out` then has what it had, and a prefix of the text.
pub fn write_line<T: WriteText>(line: &T, out: &mut Vec<u8>) -> Result<(), AllocError>
    ensures { Writes result out.old.items out.new.items (T.text line.now ++ line_end ∷ []) }
{
    line.write_text(out)?;
    append_byte(b'\n', out)
}

/// Appends the texts of `items`, each with a line end.
pub(crate) fn write_lines<T: WriteText>(items: &[T], out: &mut Vec<u8>) -> Result<(), AllocError>
    ensures { Writes result out.old.items out.new.items (lines_text T.text items.now) }
{
    for item in items {
        write_line(item, out)?;
    }
    Ok(())
}

/// Appends `word`, a space and the text of `operand`.
pub(crate) fn write_operand<T: WriteText>(
    word: &[u8],
    operand: &T,
    out: &mut Vec<u8>,
) -> Result<(), AllocError>
    ensures { Writes result out.old.items out.new.items (word.now ++ space ∷ T.text operand.now) }
{
    append(word, out)?;
    write_item(operand, out)
}

/// Appends `word` and the texts of `operands`, each after a space.
pub(crate) fn write_operands<T: WriteText>(
    word: &[u8],
    operands: &[T],
    out: &mut Vec<u8>,
) -> Result<(), AllocError>
    ensures { Writes result out.old.items out.new.items (word.now ++ items_text T.text operands.now) }
{
    append(word, out)?;
    write_items(operands, out)
}
