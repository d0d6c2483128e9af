//! The form of an expression.
ghost use Rattle.std.specs.Prelude.{◌≡◌, [], ◌∷◌, option_copied, option_map};
ghost use Rattle.rp_command.specs.Views.{expression_of};
ghost use Rattle.rp_language.specs.Expression.{IsKeptExpression, first_unknown, if_missing};
ghost use Rattle.rp_geometry.specs.parts.PartTest.{whole_part};
ghost use Rattle.rp_semantics.specs.Walk.{pass};
ghost use Rattle.rp_semantics.specs.Form.{form, parts_or_none};
ghost use Rattle.rp_eval.specs.Pairs.{paired, pair_form};
ghost use Rattle.rp_oracle.specs.Refines.{Refines};

use crate::compare::outside;
use rp_command::Expr;
use rp_lists::Name;
use rp_oracle::{Named, Oracle, Stopped};
use rp_space::box_halves;
use std::alloc::Global;

/// Returns `name` if no form is known for it.
fn if_missing<T: Oracle>(name: &Name, form: Option<&T::Form>) -> Option<Name>
    ensures { result ≡ if_missing name.now (option_map T.parts_of (option_copied form.entry)) }
{
    match form {
        Some(_) => None,
        None => Some(*name),
    }
}

/// Returns a copy of `form`; the form without parts if it is `None`. `Memory` if memory runs out.
fn copy_or_none<T: Oracle>(alloc: Global, form: Option<&T::Form>) -> Result<T::Form, Stopped>
    ensures { (w : T) → Refines T.parts_of result w (pass (parts_or_none (option_map T.parts_of (option_copied form.entry))) w) }
{
    match form {
        Some(form) => Ok(T::copy(alloc, form)?),
        None => Ok(T::none(alloc)),
    }
}

/// Returns the form of the whole cube. `Memory` if memory runs out.
fn whole<T: Oracle>(alloc: Global) -> Result<T::Form, Stopped>
    ensures { (w : T) → Refines T.parts_of result w (pass (whole_part ∷ []) w) }
{
    Ok(T::whole(alloc)?)
}

/// Returns the first name or lot of `region`, in reading order, that `named` does not know; `None` iff it knows all.
pub fn first_unknown<T: Oracle, N: Named<T>>(named: &N, region: &Expr) -> Option<Name>
    ensures { result ≡ first_unknown (N.meaning named.now) (expression_of region.now) }
{
    match region {
        Expr::Half(_) => None,
        Expr::Block(_) => None,
        Expr::Prism(_, _, _) => None,
        Expr::All => None,
        Expr::Nothing => None,
        Expr::Name(name) => if_missing::<T>(name, named.form_named(name)),
        Expr::Lot(name) => if_missing::<T>(name, named.form_of_lot(name)),
        Expr::And(first, second) => match first_unknown::<T, N>(named, first) {
            Some(name) => Some(name),
            None => first_unknown::<T, N>(named, second),
        },
        Expr::Or(first, second) => match first_unknown::<T, N>(named, first) {
            Some(name) => Some(name),
            None => first_unknown::<T, N>(named, second),
        },
        Expr::Minus(first, second) => match first_unknown::<T, N>(named, first) {
            Some(name) => Some(name),
            None => first_unknown::<T, N>(named, second),
        },
        Expr::Not(operand) => first_unknown::<T, N>(named, operand),
    }
}

/// An operation on two forms.
#[derive(Clone, Copy)]
enum Pairing {
    Both,
    Either,
    Minus,
}

/// Returns the form of `region`, whose names and lots have the forms that `named` gives. `tests` makes its parts, at
/// most 1,024, in reading order. An unknown name or lot has no part.
///
/// # Errors
///
/// `Limit` iff an operation on forms returns it. Another `Stopped` with the reason if a test is stopped.
#[cycle(forms)]
pub fn formed<T: Oracle, N: Named<T>>(
    alloc: Global,
    named: &N,
    region: &Expr,
    tests: &mut T,
) -> Result<T::Form, Stopped>
    requires { IsKeptExpression (expression_of region.now) }
    ensures { Refines T.parts_of result tests.new (form T.tester (N.meaning named.now) (expression_of region.now) tests.old) }
{
    match region {
        Expr::Half(half) => tests.of_cell(alloc, &[*half]),
        Expr::Block(bounds) => tests.of_cell(alloc, &box_halves(bounds)),
        Expr::Prism(low, high, corners) => tests.of_prism(alloc, *low, *high, corners.items()),
        Expr::All => whole::<T>(alloc),
        Expr::Nothing => Ok(T::none(alloc)),
        Expr::Name(name) => copy_or_none::<T>(alloc, named.form_named(name)),
        Expr::Lot(name) => copy_or_none::<T>(alloc, named.form_of_lot(name)),
        Expr::And(first, second) => pair_formed(alloc, named, Pairing::Both, first, second, tests),
        Expr::Or(first, second) => pair_formed(alloc, named, Pairing::Either, first, second, tests),
        Expr::Minus(first, second) => {
            pair_formed(alloc, named, Pairing::Minus, first, second, tests)
        }
        Expr::Not(operand) => {
            let operand = formed(alloc, named, operand, tests)?;
            outside(alloc, &operand, tests)
        }
    }
}

/// Returns the form of the operation `how` on two expressions.
#[cycle(forms)]
fn pair_formed<T: Oracle, N: Named<T>>(
    alloc: Global,
    named: &N,
    how: Pairing,
    first: &Expr,
    second: &Expr,
    tests: &mut T,
) -> Result<T::Form, Stopped>
    requires first { IsKeptExpression (expression_of first.now) }
    requires second { IsKeptExpression (expression_of second.now) }
    ensures { Refines T.parts_of result tests.new (pair_form T.tester (N.meaning named.now) how (expression_of first.now) (expression_of second.now) tests.old) }
{
    let first = formed(alloc, named, first, tests)?;
    let second = formed(alloc, named, second, tests)?;
    paired(alloc, how, first, second, tests)
}

/// Returns the form of the operation `how` on two forms.
fn paired<T: Oracle>(
    alloc: Global,
    how: Pairing,
    first: T::Form,
    second: T::Form,
    tests: &mut T,
) -> Result<T::Form, Stopped>
    ensures { Refines T.parts_of result tests.new (paired T.tester how (T.parts_of first) (T.parts_of second) tests.old) }
{
    match how {
        Pairing::Both => tests.both(alloc, &first, &second),
        Pairing::Either => tests.either(first, second),
        Pairing::Minus => tests.into_minus(alloc, first, &second),
    }
}
