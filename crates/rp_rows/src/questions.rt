//! The rows of questions about points and forms.
ghost use Rattle.rp_command.specs.Views.{expression_of};
ghost use Rattle.rp_language.specs.Expression.{IsKeptExpression};
ghost use Rattle.rp_model.specs.commands.Empty.{row_empty};
ghost use Rattle.rp_model.specs.commands.Pieces.{row_pieces};
ghost use Rattle.rp_model.specs.commands.Rcc.{row_relation};
ghost use Rattle.rp_rows.specs.Asked.{row_asking, row_of_member, row_show};
ghost use Rattle.rp_answer.specs.Replies.{Tells, row_of_form, row_of_forms};

use crate::lines::{part_lines, piece_lines};
use crate::operand::row_operands;
use crate::relation::relation;
use rp_answer::{Refusal, RowEnd, Verdicts, row_form, yes_or_no};
use rp_command::Expr;
use rp_eval::{Question, first_unknown, is_empty, is_member, pieces};
use rp_oracle::{Named, Oracle};
use rp_space::Point;
use std::alloc::Global;

/// Answers `member`: returns whether `point` is a member of `region`, by signs. No test is made, and no limit applies.
///
/// # Errors
///
/// `Refused(Unknown)` iff `named` does not know a name or lot of `region`; it gives the first in reading order.
/// Otherwise only want of memory.
pub fn membership<T: Oracle, N: Named<T>>(
    alloc: Global,
    named: &N,
    region: &Expr,
    point: &Point,
) -> Result<Verdicts, RowEnd>
    requires { IsKeptExpression (expression_of region.now) }
    ensures { (w : T) → Tells result w (row_of_member (N.meaning named.now) (expression_of region.now) point.now w) }
{
    if let Some(name) = first_unknown::<T, N>(named, region) {
        return Err(RowEnd::Refused(Refusal::Unknown(name)));
    }
    Ok(yes_or_no(alloc, is_member::<T, N>(named, region, point))?)
}

/// Answers `empty`: returns whether the form of `region`, which `tests` makes, has no part.
///
/// # Errors
///
/// `Refused(Unknown)` iff `named` does not know a name or lot of `region`; it gives the first in reading order, before
/// any test. Otherwise a stop of `tests`.
pub fn emptiness<T: Oracle, N: Named<T>>(
    alloc: Global,
    named: &N,
    region: &Expr,
    tests: &mut T,
) -> Result<Verdicts, RowEnd>
    requires { IsKeptExpression (expression_of region.now) }
    ensures { Tells result tests.new (row_of_form T.tester (N.meaning named.now) (expression_of region.now) (row_empty T.tester) tests.old) }
{
    let form = row_form(alloc, named, region, tests)?;
    let is_so = is_empty(alloc, &form, tests)?;
    Ok(yes_or_no(alloc, is_so)?)
}

/// Answers `pieces`: returns the connected pieces of `region`, by the numbers of the parts of its form. `tests` makes
/// the form and tests which parts are in contact.
///
/// # Errors
///
/// `Refused(Unknown)` iff `named` does not know a name or lot of `region`; it gives the first in reading order, before
/// any test. Otherwise a stop of `tests`.
pub fn piece_numbers<T: Oracle, N: Named<T>>(
    alloc: Global,
    named: &N,
    region: &Expr,
    tests: &mut T,
) -> Result<Verdicts, RowEnd>
    requires { IsKeptExpression (expression_of region.now) }
    ensures { Tells result tests.new (row_of_form T.tester (N.meaning named.now) (expression_of region.now) (row_pieces T.tester) tests.old) }
{
    let form = row_form(alloc, named, region, tests)?;
    let pieces = pieces(alloc, &form, tests)?;
    Ok(piece_lines(alloc, pieces)?)
}

/// Answers `show`: returns the parts of the form of `region`, which `tests` makes.
///
/// # Errors
///
/// `Refused(Unknown)` iff `named` does not know a name or lot of `region`; it gives the first in reading order, before
/// any test. Otherwise a stop of `tests`.
pub fn shown_parts<T: Oracle, N: Named<T>>(
    alloc: Global,
    named: &N,
    region: &Expr,
    tests: &mut T,
) -> Result<Verdicts, RowEnd>
    requires { IsKeptExpression (expression_of region.now) }
    ensures { Tells result tests.new (row_of_form T.tester (N.meaning named.now) (expression_of region.now) row_show tests.old) }
{
    let form = row_form(alloc, named, region, tests)?;
    Ok(part_lines::<T>(alloc, form)?)
}

/// Answers `equal`, `within`, `overlap` or `contact`: returns the answer to `question` about the forms of `first` and
/// `second`, by `tests`.
///
/// # Errors
///
/// `Refused(Unknown)` iff `named` does not know a name or lot of the two; it gives the first in reading order, before
/// any test. Otherwise a stop of `tests`.
pub fn comparison<T: Oracle, N: Named<T>>(
    alloc: Global,
    named: &N,
    question: Question,
    first: &Expr,
    second: &Expr,
    tests: &mut T,
) -> Result<Verdicts, RowEnd>
    requires first { IsKeptExpression (expression_of first.now) }
    requires second { IsKeptExpression (expression_of second.now) }
    ensures { Tells result tests.new (row_of_forms T.tester (N.meaning named.now) (expression_of first.now) (expression_of second.now) (row_asking T.tester question) tests.old) }
{
    let (first, second) = row_operands(alloc, named, first, second, tests)?;
    compared(alloc, question, first.form(), second.form(), tests)
}

/// Returns the verdict line of the answer to `question` about two forms.
fn compared<T: Oracle>(
    alloc: Global,
    question: Question,
    a: &T::Form,
    b: &T::Form,
    tests: &mut T,
) -> Result<Verdicts, RowEnd>
    ensures { Tells result tests.new (row_asking T.tester question (T.parts_of a.now) (T.parts_of b.now) tests.old) }
{
    let is_so = question.answer(alloc, a, b, tests)?;
    Ok(yes_or_no(alloc, is_so)?)
}

/// Answers `rcc`: returns which of the eight relations `first` has to `second`, by `tests`.
///
/// # Errors
///
/// `Refused(Unknown)` iff `named` does not know a name or lot of the two; it gives the first in reading order, before
/// any test. `Refused(EmptyRegion)` if, once both forms are made, `first` has no point, or else `second`. Otherwise a
/// stop of `tests`.
pub fn related<T: Oracle, N: Named<T>>(
    alloc: Global,
    named: &N,
    first: &Expr,
    second: &Expr,
    tests: &mut T,
) -> Result<Verdicts, RowEnd>
    requires first { IsKeptExpression (expression_of first.now) }
    requires second { IsKeptExpression (expression_of second.now) }
    ensures { Tells result tests.new (row_of_forms T.tester (N.meaning named.now) (expression_of first.now) (expression_of second.now) (row_relation T.tester) tests.old) }
{
    let (first, second) = row_operands(alloc, named, first, second, tests)?;
    relation(alloc, first.form(), second.form(), tests)
}
