//! The division of a lot into children.
ghost use Rattle.std.specs.Prelude.{◌≡◌, ◌<◌, ◌≤◌, ◌∷◌, [], List, None, IfOk, length, map, slice_get};
ghost use Rattle.std.specs.List.{AllByRecursion};
ghost use Rattle.rp_geometry.specs.sets.Shape.{Part};
ghost use Rattle.rp_semantics.specs.Walk.{Walk};
ghost use Rattle.rp_model.specs.states.State.{bare_lot, live_lot, lots_replaced};
ghost use Rattle.rp_model.specs.commands.Checks.{check_live};
ghost use Rattle.rp_model.specs.commands.Reply.{Reply};
ghost use Rattle.rp_model.specs.commands.Parts.{new_lot};
ghost use Rattle.rp_model.specs.commands.Subdivide.{row_subdivide};
ghost use Rattle.rp_answer.specs.Replies.{GoesOn};
ghost use Rattle.rp_history.specs.Checks.{InEach};
ghost use Rattle.rp_lots.specs.Changes.{Changes, replaced_of};
ghost use Rattle.rp_subdivide.specs.Children.{formed_child, formed_children, IsShort};
ghost use Rattle.rp_subdivide.specs.Steps.{children_checked, inside_tested, apart_tested, cover_tested};

use crate::child::Child;
use crate::children::{
    check_apart, check_covered, check_inside, child_ids, count_all, first_empty,
};
use rp_answer::{Refusal, RowEnd};
use rp_lists::{Listed, Name, Names};
use rp_lots::{Keeper, Overlaps, Replaced, add_born, check_room, form_at};
use rp_oracle::Oracle;
use std::alloc::{AllocError, Global};

/// Returns the change that divides the live lot `id` into `children`, which are in it, share no point and leave no gap.
/// As many tests are counted as there are pairs of parts of two children whose boxes share more than boundary.
///
/// # Errors
///
/// `Refused` or `Stopped`, as the definition of the row says.
pub fn subdivide<T: Oracle, K: Overlaps<T>>(
    alloc: Global,
    keeper: &K,
    id: Name,
    children: Listed<Child<T::Form>>,
    tests: &mut T,
) -> Result<Replaced<T::Form>, RowEnd>
    requires few { length children.items ≤ 1024 }
    requires short { AllByRecursion (IsShort T.parts_of) children.items }
    ensures { Changes (replaced_of T.parts_of) result tests.new (row_subdivide T.tester (K.state keeper.now) id (formed_children T.parts_of children) tests.old) }
{
    let list = children.items();
    let place = check_children::<T, K>(alloc, keeper, id, list)?;
    let whole = form_at::<T, K>(keeper, place);
    check_division::<T, K>(alloc, whole, list, tests)?;
    let layer = keeper.history().layer_of(&id);
    Ok(children_born(alloc, layer, id, children)?)
}

/// Checks a subdivision as far as no test is needed: names, a part in each child, and room for their parts. Returns the
/// index of the lot.
fn check_children<T: Oracle, K: Keeper<T>>(
    alloc: Global,
    keeper: &K,
    id: Name,
    children: &[Child<T::Form>],
) -> Result<usize, RowEnd>
    requires few { length children.now ≤ 1024 }
    requires short { AllByRecursion (IsShort T.parts_of) children.now }
    ensures row { (w : T) (rest : Walk T Reply) → GoesOn (λ _. tt {0}) result w (λ _. rest) (children_checked (K.state keeper.now) id (map (formed_child T.parts_of) children.now) rest w) }
    ensures live { IfOk result (λ _. InEach (map bare_lot (K.state keeper.now).lots) (λ s. check_live s id ≡ None)) }
    ensures lot { IfOk result (λ place. slice_get (K.state keeper.now).lots place ≡ live_lot id (K.state keeper.now).lots) }
    ensures within { IfOk result (λ place. place < length (K.state keeper.now).lots) }
{
    let ids = child_ids::<T>(alloc, children)?;
    let place = keeper.history().check_subdivide(alloc, id, ids.items())?;
    if let Some(number) = first_empty::<T>(children) {
        return Err(RowEnd::Refused(Refusal::EmptyChild(number)));
    }
    check_room::<T, K>(keeper, count_all::<T>(children))?;
    Ok(place)
}

/// Checks that the children are within `whole`, share no point and leave no gap.
fn check_division<T: Oracle, K: Overlaps<T>>(
    alloc: Global,
    whole: &T::Form,
    children: &[Child<T::Form>],
    tests: &mut T,
) -> Result<(), RowEnd>
    requires few { length children.now ≤ 1024 }
    requires short { AllByRecursion (IsShort T.parts_of) children.now }
    ensures { (rest : Walk T Reply) → GoesOn (λ x. x) result tests.new (λ _. rest) (let cs = map (formed_child T.parts_of) children.now in inside_tested T.tester (T.parts_of whole.now) cs (apart_tested T.tester cs (cover_tested T.tester (T.parts_of whole.now) cs rest)) tests.old) }
{
    check_inside(alloc, whole, children, tests)?;
    check_apart::<T, K>(alloc, children, tests)?;
    check_covered(alloc, whole, children, tests)
}

/// Returns the change that ends `origin` and adds `children` as lots of `layer`, in order.
fn children_born<F: Drop>(
    alloc: Global,
    layer: Name,
    origin: Name,
    children: Listed<Child<F>>,
) -> Result<Replaced<F>, AllocError>
    ensures { (view : F → List Part) → IfOk result (λ change. replaced_of view change ≡ lots_replaced (origin ∷ []) (map (λ c. new_lot layer c.id c.parts (origin ∷ [])) (formed_children view children))) }
{
    let mut births = Listed::new(alloc);
    let mut forms = Listed::new(alloc);
    for Child { id, form } in children.into_items() {
        add_born(alloc, layer, origin, id, form, &mut births, &mut forms)?;
    }
    let ends = Names::copy_of(alloc, &[origin])?;
    Ok(Replaced {
        ends,
        births,
        forms,
    })
}
