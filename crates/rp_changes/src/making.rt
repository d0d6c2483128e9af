//! The registration of a form as a lot.
ghost use Rattle.std.specs.Prelude.{◌≡◌, ◌≤◌, ◌∷◌, [], List, IfOk, false, length};
ghost use Rattle.rp_geometry.specs.sets.Shape.{Part};
ghost use Rattle.rp_geometry.specs.parts.Parts.{most_parts};
ghost use Rattle.rp_language.specs.Name.{is_among};
ghost use Rattle.rp_semantics.specs.Walk.{Walk};
ghost use Rattle.rp_model.specs.states.State.{ids_of, lots_replaced, present_lots};
ghost use Rattle.rp_model.specs.commands.Reply.{Reply};
ghost use Rattle.rp_model.specs.commands.Register.{first_overlapped, row_register};
ghost use Rattle.rp_model.specs.commands.Parts.{new_lot};
ghost use Rattle.rp_answer.specs.Replies.{GoesOn};
ghost use Rattle.rp_history.specs.Lots.{lots_in};
ghost use Rattle.rp_proximity.specs.Near.{lots_at, AreWithin};
ghost use Rattle.rp_oracle.specs.Refines.{Refines};
ghost use Rattle.rp_lots.specs.Changes.{Changes, replaced_of};
ghost use Rattle.rp_changes.specs.Steps.{lot_checked, lots_tested};

use rp_answer::{Refusal, RowEnd};
use rp_history::Birth;
use rp_lists::{Listed, Name, Names};
use rp_lots::{
    Keeper, Overlaps, Replaced, check_room, count_parts, count_tests, form_at, lots_near,
};
use rp_oracle::{Oracle, Stopped};
use rp_proximity::Reach;
use std::alloc::{AllocError, Global};

/// Returns the change that makes `form` the lot `id` of `layer`, the present layer. As many tests are counted as there
/// are pairs of its parts and parts of live lots of the layer whose boxes share more than boundary.
///
/// # Errors
///
/// `Refused` or `Stopped`, as the definition of the row says.
pub fn make_lot<T: Oracle, K: Overlaps<T>>(
    alloc: Global,
    keeper: &K,
    layer: Name,
    id: Name,
    form: T::Form,
    tests: &mut T,
) -> Result<Replaced<T::Form>, RowEnd>
    requires { length (T.parts_of form) ≤ most_parts }
    ensures { Changes (replaced_of T.parts_of) result tests.new (row_register T.tester (lots_in layer (K.state keeper.now).lots) id (T.parts_of form) tests.old) }
{
    check_lot::<T, K>(keeper, id, &form)?;
    check_alone(alloc, keeper, &layer, &id, &form, tests)?;
    Ok(registered(alloc, layer, id, form)?)
}

/// Checks a registration, in this order: `id` is new, `form` has a part, and there is room for its parts.
fn check_lot<T: Oracle, K: Keeper<T>>(keeper: &K, id: Name, form: &T::Form) -> Result<(), RowEnd>
    ensures row { (w : T) (rest : Walk T Reply) → GoesOn (λ x. x) result w (λ _. rest) (lot_checked (K.state keeper.now) id (T.parts_of form.now) rest w) }
    ensures new { IfOk result (λ _. is_among id (ids_of (K.state keeper.now).lots) ≡ false) }
{
    keeper.history().check_new(id)?;
    let parts = count_parts::<T>(form);
    if parts == 0 {
        return Err(RowEnd::Refused(Refusal::Empty));
    }
    Ok(check_room::<T, K>(keeper, parts)?)
}

/// Checks that no live lot of `layer` shares a point with `form`, which is to be the lot `id`. The pairs of their parts
/// whose boxes share more than boundary are counted first.
fn check_alone<T: Oracle, K: Overlaps<T>>(
    alloc: Global,
    keeper: &K,
    layer: &Name,
    id: &Name,
    form: &T::Form,
    tests: &mut T,
) -> Result<(), RowEnd>
    requires few { length (T.parts_of form.now) ≤ most_parts }
    requires new { is_among id.now (ids_of (K.state keeper.now).lots) ≡ false }
    ensures { (rest : Walk T Reply) → GoesOn (λ x. x) result tests.new (λ _. rest) (lots_tested T.tester (T.parts_of form.now) (present_lots (lots_in layer.now (K.state keeper.now).lots)) rest tests.old) }
{
    keeper.keep_limit();
    let near = lots_near::<T, K>(alloc, keeper, form, layer, id, 0, Reach::Overlap)?;
    count_tests(tests, near.pairs)?;
    if let Some(other) = first_overlapped(alloc, keeper, form, near.places.items(), tests)? {
        return Err(RowEnd::Refused(Refusal::Overlaps(other)));
    }
    Ok(())
}

/// Returns the id of the first lot, of those at `places`, that shares a point with `form`. Only pairs of parts whose
/// boxes share more than boundary are tested, and no test is counted.
fn first_overlapped<T: Oracle, K: Overlaps<T>>(
    alloc: Global,
    keeper: &K,
    form: &T::Form,
    places: &[usize],
    tests: &mut T,
) -> Result<Option<Name>, Stopped>
    requires { AreWithin (K.state keeper.now).lots places.now }
    ensures { Refines (λ id. id) result tests.new (first_overlapped T.tester (T.parts_of form.now) (lots_at (K.state keeper.now).lots places.now) tests.old) }
{
    for place in places {
        let other = form_at::<T, K>(keeper, *place);
        if K::overlap(alloc, form, other, tests)? {
            return Ok(Some(keeper.history().lots()[*place].id));
        }
    }
    Ok(None)
}

/// Returns the change by which a lot without an origin is born.
fn registered<F: Drop>(
    alloc: Global,
    layer: Name,
    id: Name,
    form: F,
) -> Result<Replaced<F>, AllocError>
    ensures { (view : F → List Part) → IfOk result (λ change. replaced_of view change ≡ lots_replaced [] (new_lot layer id (view form) [] ∷ [])) }
{
    let origins = Names::new(alloc);
    one_born(alloc, Names::new(alloc), Birth { id, layer, origins }, form)
}

/// Lots end, and another is born in their place, with its form.
pub(crate) fn one_born<F: Drop>(
    alloc: Global,
    ends: Names,
    birth: Birth,
    form: F,
) -> Result<Replaced<F>, AllocError>
    ensures { (view : F → List Part) → IfOk result (λ change. replaced_of view change ≡ lots_replaced ends.items (new_lot birth.layer birth.id (view form) birth.origins.items ∷ [])) }
{
    let mut births = Listed::new(alloc);
    births.push(birth)?;
    let mut forms = Listed::new(alloc);
    forms.push(form)?;
    Ok(Replaced {
        ends,
        births,
        forms,
    })
}
