//! The text of whole numbers.
ghost use Rattle.std.specs.Prelude.{◌∷◌, map, decimal};
ghost use Rattle.std.specs.Fmt.{signed_decimal};
ghost use Rattle.rp_language.specs.Grammar.{spaced};
ghost use Rattle.rp_reports.specs.Text.{in_parentheses};
ghost use Rattle.rp_text.specs.Fronts.{Writes};

use crate::items::{WriteText, write_items};
use crate::pieces::{append, append_byte};
use itoa::{Buffer, Integer};
use std::alloc::AllocError;

/// Appends the decimal digits of `number`, with a minus sign if it is negative.
fn write_number<I: Integer>(number: I, out: &mut Vec<u8>) -> Result<(), AllocError>
    ensures { Writes result out.old.items out.new.items (I.text number) }
{
    let mut buffer = Buffer::new();
    append(buffer.format(number).as_bytes(), out)
}

impl WriteText for u32 {
    ghost text = { decimal };

    fn write_text(&self, out: &mut Vec<u8>) -> Result<(), AllocError> {
        write_number(*self, out)
    }
}

impl WriteText for i32 {
    ghost text = { signed_decimal };

    fn write_text(&self, out: &mut Vec<u8>) -> Result<(), AllocError> {
        write_number(*self, out)
    }
}

impl WriteText for i64 {
    ghost text = { signed_decimal };

    fn write_text(&self, out: &mut Vec<u8>) -> Result<(), AllocError> {
        write_number(*self, out)
    }
}

impl WriteText for i128 {
    ghost text = { signed_decimal };

    fn write_text(&self, out: &mut Vec<u8>) -> Result<(), AllocError> {
        write_number(*self, out)
    }
}

/// Appends a number and others, with one space between each two.
pub(crate) fn write_spaced<N: WriteText>(
    first: &N,
    others: &[N],
    out: &mut Vec<u8>,
) -> Result<(), AllocError>
    ensures { Writes result out.old.items out.new.items (spaced (N.text first.now ∷ map N.text others.now)) }
{
    first.write_text(out)?;
    write_items(others, out)
}

/// Appends a number and others in parentheses, with one space between each two.
pub(crate) fn write_in_parentheses<N: WriteText>(
    first: &N,
    others: &[N],
    out: &mut Vec<u8>,
) -> Result<(), AllocError>
    ensures { Writes result out.old.items out.new.items (in_parentheses (N.text first.now ∷ map N.text others.now)) }
{
    append_byte(b'(', out)?;
    write_spaced(first, others, out)?;
    append_byte(b')', out)
}
