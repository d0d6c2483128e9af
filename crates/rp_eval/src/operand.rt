//! The operands of a command that compares two forms.
ghost use Rattle.std.specs.Prelude.{◌≡◌, IfSome, option_copied};
ghost use Rattle.rp_command.specs.Views.{expression_of};
ghost use Rattle.rp_language.specs.Expression.{IsKeptExpression};
ghost use Rattle.rp_semantics.specs.Walk.{pass};
ghost use Rattle.rp_semantics.specs.Form.{form};
ghost use Rattle.rp_oracle.specs.Refines.{Refines};
ghost use Rattle.rp_eval.specs.Operands.{form_of};

use crate::form::formed;
use rp_command::Expr;
use rp_oracle::{Named, Oracle, Stopped};
use std::alloc::Global;

/// The form of an operand.
#[derive(Drop)]
pub enum Operand<'a, F: Drop> {
    /// The stored form of a name, which is read in place.
    Kept(&'a F),
    /// A form that was made for the command.
    Made(F),
}

impl<F: Drop> Operand<'_, F> {
    /// Returns the form.
    pub fn form(&self) -> &F
        ensures { result.now ≡ form_of self.now }
    {
        match self {
            Operand::Kept(form) => form,
            Operand::Made(form) => form,
        }
    }
}

/// Returns the stored form of `region`, if this is a name or a lot that `named` knows.
fn kept_form<'a, T: Oracle, N: Named<T>>(named: &'a N, region: &Expr) -> Option<&'a T::Form>
    ensures { IfSome (option_copied result) (λ kept. (w : T) → form T.tester (N.meaning named.now) (expression_of region.now) w ≡ pass (T.parts_of kept) w) }
{
    match region {
        Expr::Name(name) => named.form_named(name),
        Expr::Lot(name) => named.form_of_lot(name),
        _ => None,
    }
}

/// Returns the form of `region`. If this is a name or a lot that `named` knows, the stored form is read in place;
/// otherwise `tests` makes the form.
///
/// # Errors
///
/// `Limit` iff an operation on forms returns it. Another `Stopped` with the reason if a test is stopped.
pub fn operand_of<'a, T: Oracle, N: Named<T>>(
    alloc: Global,
    named: &'a N,
    region: &Expr,
    tests: &mut T,
) -> Result<Operand<'a, T::Form>, Stopped>
    requires { IsKeptExpression (expression_of region.now) }
    ensures { Refines (λ operand. T.parts_of (form_of operand)) result tests.new (form T.tester (N.meaning named.now) (expression_of region.now) tests.old) }
{
    if let Some(kept) = kept_form::<T, N>(named, region) {
        return Ok(Operand::Kept(kept));
    }
    Ok(Operand::Made(formed(alloc, named, region, tests)?))
}
