//! The form of the one expression of a command.
ghost use Rattle.std.specs.Prelude.{◌≡◌, ◌≤◌, List, IfOk, length};
ghost use Rattle.rp_command.specs.Views.{expression_of};
ghost use Rattle.rp_geometry.specs.sets.Shape.{Part};
ghost use Rattle.rp_geometry.specs.parts.Parts.{most_parts};
ghost use Rattle.rp_language.specs.Expression.{IsKeptExpression};
ghost use Rattle.rp_semantics.specs.Walk.{Walk};
ghost use Rattle.rp_semantics.specs.Form.{form};
ghost use Rattle.rp_model.specs.commands.Reply.{Reply};
ghost use Rattle.rp_oracle.specs.Refines.{Refines};
ghost use Rattle.rp_answer.specs.Replies.{GoesOn, row_of_form};

use crate::answer::Refusal;
use crate::reply::RowEnd;
use rp_command::Expr;
use rp_eval::{first_unknown, formed};
use rp_oracle::{Named, Oracle, Stopped};
use std::alloc::Global;

/// Returns the form of `region`, whose names and lots have the forms that `named` gives. `tests` makes its parts, at
/// most 1,024, in reading order. An unknown name or lot has no part.
///
/// # Errors
///
/// `Limit` iff an operation on forms returns it. Another `Stopped` with the reason if a test is stopped.
pub fn short_form<T: Oracle, N: Named<T>>(
    alloc: Global,
    named: &N,
    region: &Expr,
    tests: &mut T,
) -> Result<T::Form, Stopped>
    requires { IsKeptExpression (expression_of region.now) }
    ensures comes { Refines T.parts_of result tests.new (form T.tester (N.meaning named.now) (expression_of region.now) tests.old) }
    ensures few { IfOk result (λ form. length (T.parts_of form) ≤ most_parts) }
{
    named.keep_short();
    formed(alloc, named, region, tests)
}

/// Returns the form of `region`, the one expression of a command. `tests` makes it.
///
/// # Errors
///
/// `Refused(Unknown)` iff `named` does not know a name or lot of `region`; it gives the first in reading order, before
/// any test. Otherwise a stop of `tests`.
pub fn row_form<T: Oracle, N: Named<T>>(
    alloc: Global,
    named: &N,
    region: &Expr,
    tests: &mut T,
) -> Result<T::Form, RowEnd>
    requires { IsKeptExpression (expression_of region.now) }
    ensures goes_on { (next : List Part → Walk T Reply) → GoesOn T.parts_of result tests.new next (row_of_form T.tester (N.meaning named.now) (expression_of region.now) next tests.old) }
    ensures few { IfOk result (λ form. length (T.parts_of form) ≤ most_parts) }
{
    if let Some(name) = first_unknown::<T, N>(named, region) {
        return Err(RowEnd::Refused(Refusal::Unknown(name)));
    }
    Ok(short_form(alloc, named, region, tests)?)
}
