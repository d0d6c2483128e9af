//! The rows of commands that change something: first the form of an expression is made, then the rest is walked.
ghost use Rattle.std.specs.Prelude.{◌≡◌, ◌≤◌, List, IfOk, length};
ghost use Rattle.rp_command.specs.Views.{expression_of};
ghost use Rattle.rp_geometry.specs.sets.Shape.{Part};
ghost use Rattle.rp_geometry.specs.parts.Parts.{most_parts};
ghost use Rattle.rp_language.specs.Expression.{IsKeptExpression, define, register as register_lot, cut, consolidate, retire};
ghost use Rattle.rp_semantics.specs.Walk.{Walk};
ghost use Rattle.rp_model.specs.states.State.{parts_in};
ghost use Rattle.rp_model.specs.commands.Reply.{Reply};
ghost use Rattle.rp_model.specs.commands.Row.{row};
ghost use Rattle.rp_answer.specs.Replies.{GoesOn, row_of_form};
ghost use Rattle.rp_lots.specs.Changes.{Changes, change_of};

use crate::dividing::cut;
use crate::joining::{consolidate, define, retire};
use crate::making::make_lot;
use rp_answer::{RowEnd, row_form};
use rp_command::Expr;
use rp_lists::Name;
use rp_lots::{Change, Registry, replacing};
use rp_oracle::Oracle;
use std::alloc::Global;

/// Returns the change of `let`: the form of `region`, by `tests`, under the new name `name`.
pub fn definition<T: Oracle, K: Registry<T>>(
    alloc: Global,
    keeper: &K,
    name: Name,
    region: &Expr,
    tests: &mut T,
) -> Result<Change<T::Form>, RowEnd>
    requires { IsKeptExpression (expression_of region.now) }
    ensures { Changes (change_of T.parts_of) result tests.new (row T.tester (K.state keeper.now) (define name (expression_of region.now)) tests.old) }
{
    let form = formed_by(alloc, keeper, region, tests)?;
    define::<T, K>(keeper, name, form)
}

/// Returns the change of `register`: the form of `region`, by `tests`, as the new lot `id` of the present layer.
pub fn registration<T: Oracle, K: Registry<T>>(
    alloc: Global,
    keeper: &K,
    id: Name,
    region: &Expr,
    tests: &mut T,
) -> Result<Change<T::Form>, RowEnd>
    requires { IsKeptExpression (expression_of region.now) }
    ensures { Changes (change_of T.parts_of) result tests.new (row T.tester (K.state keeper.now) (register_lot id (expression_of region.now)) tests.old) }
{
    let form = formed_by(alloc, keeper, region, tests)?;
    replacing(make_lot(alloc, keeper, keeper.layer(), id, form, tests))
}

/// Returns the change of `cut`: the lot `id` in two, by the form of `region`: `first` has what is in the form, `second`
/// the rest.
pub fn cutting<T: Oracle, K: Registry<T>>(
    alloc: Global,
    keeper: &K,
    id: Name,
    region: &Expr,
    first: Name,
    second: Name,
    tests: &mut T,
) -> Result<Change<T::Form>, RowEnd>
    requires { IsKeptExpression (expression_of region.now) }
    ensures { Changes (change_of T.parts_of) result tests.new (row T.tester (K.state keeper.now) (cut id (expression_of region.now) first second) tests.old) }
{
    let form = formed_by(alloc, keeper, region, tests)?;
    replacing(cut(alloc, keeper, id, &form, first, second, tests))
}

/// Returns the change of `consolidate`: the lots `ids`, all of one layer, become the lot `new`.
pub fn consolidation<T: Oracle, K: Registry<T>>(
    alloc: Global,
    keeper: &K,
    new: Name,
    ids: &[Name],
    tests: &mut T,
) -> Result<Change<T::Form>, RowEnd>
    ensures { Changes (change_of T.parts_of) result tests.new (row T.tester (K.state keeper.now) (consolidate new ids.now) tests.old) }
{
    replacing(consolidate(alloc, keeper, new, ids, tests))
}

/// Returns the change of `retire`: the lot `id` ends.
pub fn retirement<T: Oracle, K: Registry<T>>(
    alloc: Global,
    keeper: &K,
    id: Name,
) -> Result<Change<T::Form>, RowEnd>
    ensures { (w : T) → Changes (change_of T.parts_of) result w (row T.tester (K.state keeper.now) (retire id) w) }
{
    replacing(retire::<T, K>(alloc, keeper, id))
}

/// Returns the form of the one expression of a command, behind which its row goes on. `Refused` exactly for the first
/// name or lot, in reading order, that isn't there; it comes before any test.
fn formed_by<T: Oracle, K: Registry<T>>(
    alloc: Global,
    keeper: &K,
    region: &Expr,
    tests: &mut T,
) -> Result<T::Form, RowEnd>
    requires { IsKeptExpression (expression_of region.now) }
    ensures goes_on { (next : List Part → Walk T Reply) → GoesOn T.parts_of result tests.new next (row_of_form T.tester (parts_in (K.state keeper.now)) (expression_of region.now) next tests.old) }
    ensures few { IfOk result (λ form. length (T.parts_of form) ≤ most_parts) }
{
    keeper.keep_meaning();
    row_form(alloc, keeper, region, tests)
}
