//! Names that are defined, and lots that become one or end.
ghost use Rattle.std.specs.Prelude.{◌≡◌, ◌∷◌, [], List, IfOk, map, option_copied, option_map};
ghost use Rattle.rp_geometry.specs.sets.Shape.{Part};
ghost use Rattle.rp_geometry.specs.parts.Parts.{most_parts};
ghost use Rattle.rp_semantics.specs.Form.{if_at_most};
ghost use Rattle.rp_model.specs.states.State.{live_lot, lots_replaced, parts_of_lot};
ghost use Rattle.rp_model.specs.commands.Parts.{joined_parts, new_lot, parts_with_id};
ghost use Rattle.rp_model.specs.commands.Consolidate.{row_consolidate};
ghost use Rattle.rp_model.specs.commands.Let.{row_define};
ghost use Rattle.rp_model.specs.commands.Retire.{row_retire};
ghost use Rattle.rp_oracle.specs.Refines.{Refines};
ghost use Rattle.rp_lots.specs.Changes.{Changes, change_of, replaced_of};

use crate::making::one_born;
use rp_answer::{Refusal, RowEnd};
use rp_history::Birth;
use rp_lists::{Listed, Name, Names};
use rp_lots::{Change, Keeper, Registry, Replaced, check_room, count_parts, form_at};
use rp_oracle::{Oracle, Stopped};
use std::alloc::{AllocError, Global};

/// Returns the change that keeps a form under `name`, which must be new; there must be room for both.
pub fn define<T: Oracle, K: Registry<T>>(
    keeper: &K,
    name: Name,
    form: T::Form,
) -> Result<Change<T::Form>, RowEnd>
    ensures { (w : T) → Changes (change_of T.parts_of) result w (row_define (K.state keeper.now) name (T.parts_of form) w) }
{
    keeper.keep_meaning();
    if keeper.form_named(&name).is_some() {
        return Err(RowEnd::Refused(Refusal::Known(name)));
    }
    if !keeper.have_room_for_name(&form) {
        return Err(RowEnd::Stopped(Stopped::Limit));
    }
    Ok(Change::Named(name, form))
}

/// Returns the change that ends the live lot `id`.
pub fn retire<T: Oracle, K: Keeper<T>>(
    alloc: Global,
    keeper: &K,
    id: Name,
) -> Result<Replaced<T::Form>, RowEnd>
    ensures { (w : T) → Changes (replaced_of T.parts_of) result w (row_retire (K.state keeper.now) id w) }
{
    keeper.history().check_live(id)?;
    Ok(Replaced {
        ends: Names::copy_of(alloc, &[id])?,
        births: Listed::new(alloc),
        forms: Listed::new(alloc),
    })
}

/// Returns the change that makes the live lots of `ids`, all of one layer, the lot `new`. Its parts are theirs, in the
/// order given. No test is made.
pub fn consolidate<T: Oracle, K: Keeper<T>>(
    alloc: Global,
    keeper: &K,
    new: Name,
    ids: &[Name],
    tests: &mut T,
) -> Result<Replaced<T::Form>, RowEnd>
    ensures { Changes (replaced_of T.parts_of) result tests.new (row_consolidate (K.state keeper.now) new ids.now tests.old) }
{
    let layer = keeper.history().check_consolidate(alloc, new, ids)?;
    let form = united(alloc, keeper, ids, tests)?;
    check_room::<T, K>(keeper, count_parts::<T>(&form))?;
    Ok(consolidated(alloc, layer, new, ids, form)?)
}

/// Returns the parts of some live lots, in the order given. `Limit` exactly where these are more than 1,024. No test is
/// made.
fn united<T: Oracle, K: Keeper<T>>(
    alloc: Global,
    keeper: &K,
    ids: &[Name],
    tests: &mut T,
) -> Result<T::Form, Stopped>
    ensures { Refines T.parts_of result tests.new (if_at_most most_parts (joined_parts (map (λ x. parts_with_id (K.state keeper.now) x) ids.now)) tests.old) }
{
    let mut form = T::none(alloc);
    for id in ids {
        if let Some(more) = form_of::<T, K>(keeper, id) {
            form = tests.either(form, T::copy(alloc, more)?)?;
        }
    }
    Ok(form)
}

/// Returns the form of the live lot `id`. `None` exactly where it isn't live.
fn form_of<'a, T: Oracle, K: Keeper<T>>(keeper: &'a K, id: &Name) -> Option<&'a T::Form>
    ensures { option_map T.parts_of (option_copied result) ≡ parts_of_lot (live_lot id.now (K.state keeper.now).lots) }
{
    let place = keeper.history().live_place(id)?;
    Some(form_at::<T, K>(keeper, place))
}

/// Returns the change that makes the lots of some ids one in their layer.
fn consolidated<F: Drop>(
    alloc: Global,
    layer: Name,
    id: Name,
    ids: &[Name],
    form: F,
) -> Result<Replaced<F>, AllocError>
    ensures { (view : F → List Part) → IfOk result (λ change. replaced_of view change ≡ lots_replaced ids.now (new_lot layer id (view form) ids.now ∷ [])) }
{
    let ends = Names::copy_of(alloc, ids)?;
    let origins = Names::copy_of(alloc, ids)?;
    one_born(alloc, ends, Birth { id, layer, origins }, form)
}
