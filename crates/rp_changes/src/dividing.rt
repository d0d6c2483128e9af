//! A lot is cut in two.
ghost use Rattle.std.specs.Prelude.{◌≡◌, ◌==◌, ◌+◌, ◌∷◌, [], List, IfOk, length};
ghost use Rattle.rp_geometry.specs.sets.Shape.{Part};
ghost use Rattle.rp_model.specs.states.State.{lots_replaced, parts_under_lots, most_kept_parts};
ghost use Rattle.rp_model.specs.commands.Verdict.{empty_side};
ghost use Rattle.rp_model.specs.commands.Checks.{refuse_if};
ghost use Rattle.rp_model.specs.commands.Reply.{Reply, check, check_size};
ghost use Rattle.rp_model.specs.commands.Parts.{new_lot};
ghost use Rattle.rp_model.specs.commands.Cut.{row_cut};
ghost use Rattle.rp_semantics.specs.Walk.{Walk};
ghost use Rattle.rp_semantics.specs.Form.{join, subtract};
ghost use Rattle.rp_answer.specs.Replies.{GoesOn};
ghost use Rattle.rp_changes.specs.Steps.{with_side};
ghost use Rattle.rp_oracle.specs.Refines.{Refines};
ghost use Rattle.rp_lots.specs.Changes.{Changes, replaced_of};

use rp_answer::{Refusal, RowEnd};
use rp_lists::{Listed, Name, Names};
use rp_lots::{Keeper, Replaced, add_born, count_parts, form_at};
use rp_oracle::{MAX_KEPT_PARTS, Oracle, Stopped};
use std::alloc::{AllocError, Global};

/// Returns the change that cuts the live lot `id` in two: `first` gets its points in the form `by`, `second` the
/// others.
pub fn cut<T: Oracle, K: Keeper<T>>(
    alloc: Global,
    keeper: &K,
    id: Name,
    by: &T::Form,
    first: Name,
    second: Name,
    tests: &mut T,
) -> Result<Replaced<T::Form>, RowEnd>
    ensures { Changes (replaced_of T.parts_of) result tests.new (row_cut T.tester (K.state keeper.now) id (T.parts_of by.now) first second tests.old) }
{
    let history = keeper.history();
    let place = history.check_cut(id, first, second)?;
    let whole = form_at::<T, K>(keeper, place);
    let inner = inner_side::<T>(alloc, whole, by, tests)?;
    let outer = outer_side::<T>(alloc, whole, by, tests)?;
    check_room_for_both::<T, K>(keeper, &inner, &outer)?;
    let layer = history.layer_of(&id);
    Ok(in_two(alloc, layer, id, first, second, inner, outer)?)
}

/// Returns what a form has inside the form `by`, refused where that is no part.
fn inner_side<T: Oracle>(
    alloc: Global,
    whole: &T::Form,
    by: &T::Form,
    tests: &mut T,
) -> Result<T::Form, RowEnd>
    ensures { (next : List Part → Walk T Reply) → GoesOn T.parts_of result tests.new next (with_side 1 (join T.tester (T.parts_of whole.now) (T.parts_of by.now)) next tests.old) }
{
    filled::<T>(1, tests.both(alloc, whole, by)?)
}

/// Returns what a form has outside the form `by`, refused where that is no part.
fn outer_side<T: Oracle>(
    alloc: Global,
    whole: &T::Form,
    by: &T::Form,
    tests: &mut T,
) -> Result<T::Form, RowEnd>
    ensures { (next : List Part → Walk T Reply) → GoesOn T.parts_of result tests.new next (with_side 2 (subtract T.tester (T.parts_of whole.now) (T.parts_of by.now)) next tests.old) }
{
    filled::<T>(2, tests.minus(alloc, whole, by)?)
}

/// Returns a side of a cut, refused by its number where it has no part.
fn filled<T: Oracle>(number: u8, form: T::Form) -> Result<T::Form, RowEnd>
    ensures { (next : List Part → Walk T Reply) (w : T) → GoesOn T.parts_of result w next (check (refuse_if (length (T.parts_of form) == 0) (empty_side number)) (next (T.parts_of form)) w) }
{
    if count_parts::<T>(&form) == 0 {
        return Err(RowEnd::Refused(Refusal::EmptySide(number)));
    }
    Ok(form)
}

/// Refuses with `Limit` iff all lots together would keep more than 65,536 parts with those of two forms.
fn check_room_for_both<T: Oracle, K: Keeper<T>>(
    keeper: &K,
    first: &T::Form,
    second: &T::Form,
) -> Result<(), Stopped>
    ensures { (w : T) → Refines (λ x. x) result w (check_size (parts_under_lots (K.state keeper.now).lots + (length (T.parts_of first.now) + length (T.parts_of second.now))) most_kept_parts w) }
{
    let first = count_parts::<T>(first);
    let second = count_parts::<T>(second);
    if first > MAX_KEPT_PARTS || second > MAX_KEPT_PARTS {
        return Err(Stopped::Limit);
    }
    if !keeper.have_room_for(first + second) {
        return Err(Stopped::Limit);
    }
    Ok(())
}

/// Returns the change by which the lot `origin` of `layer` ends and two others are born in its place, with their forms.
fn in_two<F: Drop>(
    alloc: Global,
    layer: Name,
    origin: Name,
    first: Name,
    second: Name,
    inner: F,
    outer: F,
) -> Result<Replaced<F>, AllocError>
    ensures { (view : F → List Part) → IfOk result (λ change. replaced_of view change ≡ lots_replaced (origin ∷ []) (new_lot layer first (view inner) (origin ∷ []) ∷ new_lot layer second (view outer) (origin ∷ []) ∷ [])) }
{
    let mut births = Listed::new(alloc);
    let mut forms = Listed::new(alloc);
    add_born(alloc, layer, origin, first, inner, &mut births, &mut forms)?;
    add_born(alloc, layer, origin, second, outer, &mut births, &mut forms)?;
    let ends = Names::copy_of(alloc, &[origin])?;
    Ok(Replaced {
        ends,
        births,
        forms,
    })
}
