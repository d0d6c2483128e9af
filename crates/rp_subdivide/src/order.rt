//! The row of a subdivision: the forms of its children are made first, and the checks follow.
ghost use Rattle.std.specs.Prelude.{◌≡◌, ◌≤◌, [], IfOk, length, map};
ghost use Rattle.std.specs.List.{AllByRecursion};
ghost use Rattle.rp_command.specs.Views.{child_of, shapes_of};
ghost use Rattle.rp_language.specs.Expression.{IsKeptExpression, first_unknown_among, subdivide};
ghost use Rattle.rp_model.specs.states.State.{parts_in};
ghost use Rattle.rp_model.specs.commands.Row.{row};
ghost use Rattle.rp_model.specs.commands.Subdivide.{form_children};
ghost use Rattle.rp_oracle.specs.Refines.{Refines};
ghost use Rattle.rp_lots.specs.Changes.{Changes, change_of};
ghost use Rattle.rp_subdivide.specs.Children.{formed_children, IsShort};

use crate::child::Child;
use crate::subdividing::subdivide;
use rp_answer::{Refusal, RowEnd, short_form};
use rp_command::Expr;
use rp_eval::first_unknown;
use rp_lists::{Listed, Name};
use rp_lots::{Change, Registry, replacing};
use rp_oracle::{Oracle, Stopped};
use std::alloc::Global;

/// Returns the change of `subdivide`: it divides the lot `id` into a lot for each of `entries`, which have the new ids
/// and the expressions of their forms.
///
/// # Errors
///
/// `Refused` or `Stopped`, as the definition of the row says.
pub fn subdivision<T: Oracle, K: Registry<T>>(
    alloc: Global,
    keeper: &K,
    id: Name,
    entries: &[(Name, Expr)],
    tests: &mut T,
) -> Result<Change<T::Form>, RowEnd>
    requires kept { AllByRecursion IsKeptExpression (shapes_of entries.now) }
    requires few { length entries.now ≤ 1024 }
    ensures { Changes (change_of T.parts_of) result tests.new (row T.tester (K.state keeper.now) (subdivide id (map child_of entries.now)) tests.old) }
{
    if let Some(name) = first_unknown_shape::<T, K>(keeper, entries) {
        return Err(RowEnd::Refused(Refusal::Unknown(name)));
    }
    let children = children(alloc, keeper, entries, tests)?;
    replacing(subdivide(alloc, keeper, id, children, tests))
}

/// Returns the first name or lot of the expressions, in reading order, that is not there.
fn first_unknown_shape<T: Oracle, K: Registry<T>>(
    keeper: &K,
    entries: &[(Name, Expr)],
) -> Option<Name>
    ensures { result ≡ first_unknown_among (parts_in (K.state keeper.now)) (shapes_of entries.now) }
{
    keeper.keep_meaning();
    for entry in entries {
        let unknown = first_unknown::<T, K>(keeper, &entry.1);
        if unknown.is_some() {
            return unknown;
        }
    }
    None
}

/// Returns the children of `entries`, all of whose names are there. The forms are made in order.
fn children<T: Oracle, K: Registry<T>>(
    alloc: Global,
    keeper: &K,
    entries: &[(Name, Expr)],
    tests: &mut T,
) -> Result<Listed<Child<T::Form>>, Stopped>
    requires { AllByRecursion IsKeptExpression (shapes_of entries.now) }
    ensures comes { Refines (formed_children T.parts_of) result tests.new (form_children T.tester (parts_in (K.state keeper.now)) [] (map child_of entries.now) tests.old) }
    ensures each { IfOk result (λ children. length children.items ≡ length entries.now) }
    ensures short { IfOk result (λ children. AllByRecursion (IsShort T.parts_of) children.items) }
{
    keeper.keep_meaning();
    let mut children = Listed::new(alloc);
    for entry in entries {
        let form = short_form(alloc, keeper, &entry.1, tests)?;
        children.push(Child { id: entry.0, form })?;
    }
    Ok(children)
}
