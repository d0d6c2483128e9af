//! The operands of a command that compares two forms.
ghost use Rattle.std.specs.Prelude.{◌≡◌, ◌∷◌, [], List};
ghost use Rattle.rp_command.specs.Views.{expression_of};
ghost use Rattle.rp_geometry.specs.sets.Shape.{Part};
ghost use Rattle.rp_language.specs.Expression.{IsKeptExpression, first_unknown_among};
ghost use Rattle.rp_semantics.specs.Walk.{Walk};
ghost use Rattle.rp_model.specs.commands.Reply.{Reply};
ghost use Rattle.rp_rows.specs.Asked.{both_of};
ghost use Rattle.rp_answer.specs.Replies.{GoesOn, row_of_forms};

use rp_answer::{Refusal, RowEnd};
use rp_command::Expr;
use rp_eval::{Operand, first_unknown, operand_of};
use rp_lists::Name;
use rp_oracle::{Named, Oracle};
use std::alloc::Global;

/// Returns the first name or lot of two expressions, in reading order, that `named` does not know.
fn first_unknown_of<T: Oracle, N: Named<T>>(named: &N, first: &Expr, second: &Expr) -> Option<Name>
    ensures { result ≡ first_unknown_among (N.meaning named.now) (expression_of first.now ∷ expression_of second.now ∷ []) }
{
    match first_unknown::<T, N>(named, first) {
        Some(name) => Some(name),
        None => first_unknown::<T, N>(named, second),
    }
}

/// Returns the forms of `first` and `second`, the two expressions of a command. `tests` makes the form of `first` and
/// then that of `second`.
///
/// # Errors
///
/// `Refused(Unknown)` iff `named` does not know a name or lot of the two; it gives the first in reading order, before
/// any test. Otherwise a stop of `tests`.
pub fn row_operands<'a, T: Oracle, N: Named<T>>(
    alloc: Global,
    named: &'a N,
    first: &Expr,
    second: &Expr,
    tests: &mut T,
) -> Result<(Operand<'a, T::Form>, Operand<'a, T::Form>), RowEnd>
    requires first { IsKeptExpression (expression_of first.now) }
    requires second { IsKeptExpression (expression_of second.now) }
    ensures { (next : List Part → List Part → Walk T Reply) → GoesOn (both_of T.parts_of) result tests.new (λ both. next both.0 both.1) (row_of_forms T.tester (N.meaning named.now) (expression_of first.now) (expression_of second.now) next tests.old) }
{
    if let Some(name) = first_unknown_of::<T, N>(named, first, second) {
        return Err(RowEnd::Refused(Refusal::Unknown(name)));
    }
    let first = operand_of(alloc, named, first, tests)?;
    let second = operand_of(alloc, named, second, tests)?;
    Ok((first, second))
}
