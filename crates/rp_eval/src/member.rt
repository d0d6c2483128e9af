//! Membership of points in expressions, by signs.
ghost use Rattle.std.specs.Prelude.{◌≡◌, true, option_copied, option_map};
ghost use Rattle.rp_command.specs.Views.{expression_of};
ghost use Rattle.rp_language.specs.Expression.{IsKeptExpression, resolve_names, shape_or_nothing};
ghost use Rattle.rp_geometry.specs.Geometry.{is_cube_point};
ghost use Rattle.rp_geometry.specs.sets.Shape.{passes, is_member, shape_of_parts};
ghost use Rattle.rp_model.specs.commands.Parts.{shapes_of_parts};

use rp_command::Expr;
use rp_footprint::prism_holds;
use rp_oracle::{Named, Oracle};
use rp_space::Point;

/// Returns whether `point`, which is in the cube, is in `form`; false if there is no form.
fn is_held<T: Oracle>(form: Option<&T::Form>, point: &Point) -> bool
    requires { is_cube_point point.now ≡ true }
    ensures { result ≡ passes (shape_or_nothing (option_map (λ f. shape_of_parts (T.parts_of f)) (option_copied form.entry))) point.now }
{
    match form {
        Some(form) => T::holds(form, point),
        None => false,
    }
}

/// Returns whether `point`, which is in the cube, passes the test of `region`, in which each name and lot has its form.
fn passes<T: Oracle, N: Named<T>>(named: &N, region: &Expr, point: &Point) -> bool
    requires kept { IsKeptExpression (expression_of region.now) }
    requires cube { is_cube_point point.now ≡ true }
    ensures { result ≡ passes (resolve_names (shapes_of_parts (N.meaning named.now)) (expression_of region.now)) point.now }
{
    match region {
        Expr::Half(half) => half.holds(point),
        Expr::Block(bounds) => bounds.holds(point),
        Expr::Prism(low, high, corners) => prism_holds(*low, *high, corners.items(), point),
        Expr::All => true,
        Expr::Nothing => false,
        Expr::Name(name) => is_held::<T>(named.form_named(name), point),
        Expr::Lot(name) => is_held::<T>(named.form_of_lot(name), point),
        Expr::And(first, second) => {
            passes::<T, N>(named, first, point) && passes::<T, N>(named, second, point)
        }
        Expr::Or(first, second) => {
            passes::<T, N>(named, first, point) || passes::<T, N>(named, second, point)
        }
        Expr::Minus(first, second) => {
            passes::<T, N>(named, first, point) && !passes::<T, N>(named, second, point)
        }
        Expr::Not(operand) => !passes::<T, N>(named, operand, point),
    }
}

/// Returns whether `point` is in the cube and passes the test of `region`, whose names and lots have the forms that
/// `named` gives.
pub fn is_member<T: Oracle, N: Named<T>>(named: &N, region: &Expr, point: &Point) -> bool
    requires { IsKeptExpression (expression_of region.now) }
    ensures { result ≡ is_member (resolve_names (shapes_of_parts (N.meaning named.now)) (expression_of region.now)) point.now }
{
    point.is_in_cube() && passes::<T, N>(named, region, point)
}
