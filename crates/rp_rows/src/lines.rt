//! The verdict lines of parts, of pieces and of slices.
ghost use Rattle.std.specs.Prelude.{◌≡◌, ◌≤◌, IfOk, length, map};
ghost use Rattle.rp_geometry.specs.parts.Parts.{most_parts};
ghost use Rattle.rp_model.specs.commands.Verdict.{part_lines_of, piece_lines, section_lines};
ghost use Rattle.rp_cert.specs.Section.{slice_shown};
ghost use Rattle.rp_unionfind.specs.Lists.{numbers_of};
ghost use Rattle.rp_answer.specs.Views.{verdict_of};

use rp_answer::{Verdict, Verdicts, one_line};
use rp_cert::Slice;
use rp_eval::PieceList;
use rp_lists::Listed;
use rp_oracle::Oracle;
use std::alloc::{AllocError, Global};

/// Returns the verdict lines of the parts of `form`, whose half-spaces are moved into them.
pub(crate) fn part_lines<T: Oracle>(alloc: Global, form: T::Form) -> Result<Verdicts, AllocError>
    requires { length (T.parts_of form) ≤ most_parts }
    ensures { IfOk result (λ lines. map verdict_of lines.items ≡ part_lines_of (T.parts_of form)) }
{
    let mut lines = Verdicts::new(alloc);
    lines.push(Verdict::Parts(T::parts(&form).len() as u32))?;
    for part in T::into_parts(form) {
        lines.push(Verdict::Part(T::into_halves(part)))?;
    }
    Ok(lines)
}

/// Returns the verdict lines of `pieces`, whose numbers are moved into them.
pub(crate) fn piece_lines(alloc: Global, pieces: PieceList) -> Result<Verdicts, AllocError>
    requires { length pieces.items ≤ most_parts }
    ensures { IfOk result (λ lines. map verdict_of lines.items ≡ piece_lines (numbers_of pieces)) }
{
    let mut lines = Verdicts::new(alloc);
    lines.push(Verdict::Pieces(pieces.items().len() as u32))?;
    for numbers in pieces.into_items() {
        lines.push(Verdict::Piece(numbers))?;
    }
    Ok(lines)
}

/// Returns the verdict lines of `slices`, which are moved into them.
///
/// # Errors
///
/// `AllocError` if memory runs out.
pub fn slice_lines(alloc: Global, slices: Listed<Slice>) -> Result<Verdicts, AllocError>
    requires { length slices.items ≤ most_parts }
    ensures { IfOk result (λ lines. map verdict_of lines.items ≡ section_lines (map slice_shown slices.items)) }
{
    let mut lines = one_line(alloc, Verdict::Sections(slices.items().len() as u32))?;
    for slice in slices.into_items() {
        lines.push(Verdict::Slice(Box::new(alloc, slice)?))?;
    }
    Ok(lines)
}
