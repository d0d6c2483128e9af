//! The lots that may meet a form, and the number of pairs of parts that may meet. Only this module finds lots by their
//! boxes.
ghost use Rattle.std.specs.Prelude.{◌≡◌, ◌<◌, ◌≤◌, ◌*◌, IfOk, Some, count_by, length, map, drop, filter, slice_get, option_map};
ghost use Rattle.rp_geometry.specs.parts.Parts.{most_parts};
ghost use Rattle.rp_model.specs.commands.Parts.{count_pairs};
ghost use Rattle.rp_proximity.specs.Near.{may_meet, others_in, pairs_with, is_near, lots_at, AreWithin};
ghost use Rattle.rp_space.specs.Boxes.{integer_box};
ghost use Rattle.rp_oracle.specs.Refines.{Refines};
ghost use Rattle.rp_lots.specs.Boxes.{boxes_let, IsAround};
ghost use Rattle.rp_lots.specs.Counted.{CountsUpTo};

use crate::keeper::Keeper;
use rp_lists::{Listed, Name};
use rp_oracle::{MAX_TESTS, Oracle, Stopped};
use rp_proximity::Reach;
use rp_space::IntBox;
use std::alloc::Global;

/// How many parts have one box around them while pairs of parts are counted. Each part of the other list is compared
/// with each such box, and with the parts in the boxes that it meets. Blocks of fewer parts have more boxes, blocks of
/// more have wider ones: 32 parts made the fewest comparisons for lots of 1,024 boxes in rows and in a chessboard.
const BLOCK: usize = 32;

/// The lots that may meet a form: their places among all lots, and the number of pairs of parts that may meet.
#[derive(Drop)]
pub struct Near {
    pub pairs: u64,
    pub places: Listed<usize>,
}

/// Returns the number of pairs of a part of `form` and one of `other` that may meet.
pub fn count_pairs<T: Oracle, K: Keeper<T>>(form: &T::Form, other: &T::Form, reach: Reach) -> u64
    requires first { length (T.parts_of form.now) ≤ most_parts }
    requires second { length (T.parts_of other.now) ≤ most_parts }
    ensures value { result ≡ count_pairs (may_meet reach) (T.parts_of form.now) (T.parts_of other.now) }
    ensures few { result ≤ most_parts * most_parts }
{
    count_among::<T, K>(T::parts(form), T::parts(other), reach)
}

/// Returns the number of pairs of a part of `parts` and one of `others` that may meet. The count goes by blocks of
/// `parts`: most of `others` are compared with the box around a block, and not with each part in the block.
fn count_among<T: Oracle, K: Keeper<T>>(parts: &[T::Part], others: &[T::Part], reach: Reach) -> u64
    requires first { length parts.now ≤ most_parts }
    requires second { length others.now ≤ most_parts }
    ensures value { result ≡ count_pairs (may_meet reach) (map T.seen parts.now) (map T.seen others.now) }
    ensures few { result ≤ most_parts * most_parts }
{
    let mut count = 0;
    let mut rest = parts;
    while rest.len() > BLOCK {
        let (block, behind) = rest.split_at(BLOCK);
        count += count_with_block::<T, K>(block, others, reach);
        rest = behind;
    }
    count + count_with_block::<T, K>(rest, others, reach)
}

/// Returns the number of pairs of a part of `block` and one of `others` that may meet.
fn count_with_block<T: Oracle, K: Keeper<T>>(
    block: &[T::Part],
    others: &[T::Part],
    reach: Reach,
) -> u64
    requires first { length block.now ≤ most_parts }
    requires second { length others.now ≤ most_parts }
    ensures { result ≡ count_pairs (may_meet reach) (map T.seen block.now) (map T.seen others.now) }
{
    match block.first() {
        Some(first) => {
            let hull = hull_around::<T, K>(first, block);
            count_within::<T, K>(&hull, block, others, reach)
        }
        None => 0,
    }
}

/// Returns a box that contains the boxes of `parts`: the least box around these and the box of `first`.
fn hull_around<T: Oracle, K: Keeper<T>>(first: &T::Part, parts: &[T::Part]) -> IntBox
    ensures { IsAround (integer_box result) (map T.seen parts.now) }
{
    let mut hull = *K::bounds(first);
    for part in parts {
        hull = hull.union(K::bounds(part));
    }
    hull
}

/// Returns the number of pairs of a part of `block` and one of `others` that may meet. `hull` contains the boxes of the
/// block.
fn count_within<T: Oracle, K: Keeper<T>>(
    hull: &IntBox,
    block: &[T::Part],
    others: &[T::Part],
    reach: Reach,
) -> u64
    requires around { IsAround (integer_box hull.now) (map T.seen block.now) }
    requires first { length block.now ≤ most_parts }
    requires second { length others.now ≤ most_parts }
    ensures { result ≡ count_pairs (may_meet reach) (map T.seen block.now) (map T.seen others.now) }
{
    let mut count = 0;
    for other in others {
        count += count_near_part::<T, K>(hull, block, other, reach);
    }
    count
}

/// Returns the number of parts of `block` that may meet `other`. `hull` contains the boxes of the block.
fn count_near_part<T: Oracle, K: Keeper<T>>(
    hull: &IntBox,
    block: &[T::Part],
    other: &T::Part,
    reach: Reach,
) -> u64
    requires around { IsAround (integer_box hull.now) (map T.seen block.now) }
    requires few { length block.now ≤ most_parts }
    ensures value { result ≡ count_by (λ p. may_meet reach p (T.seen other.now)) (map T.seen block.now) }
    ensures few { result ≤ most_parts }
{
    if do_boxes_meet(hull, K::bounds(other), reach) {
        count_with_part::<T, K>(block, other, reach)
    } else {
        0
    }
}

/// Returns the number of `parts` that may meet `other`.
fn count_with_part<T: Oracle, K: Keeper<T>>(parts: &[T::Part], other: &T::Part, reach: Reach) -> u64
    requires { length parts.now ≤ most_parts }
    ensures value { result ≡ count_by (λ p. may_meet reach p (T.seen other.now)) (map T.seen parts.now) }
    ensures few { result ≤ length parts.now }
{
    let mut count = 0;
    for part in parts {
        if may_meet::<T, K>(part, other, reach) {
            count += 1;
        }
    }
    count
}

/// Returns whether the boxes of two parts let them meet.
fn may_meet<T: Oracle, K: Keeper<T>>(first: &T::Part, second: &T::Part, reach: Reach) -> bool
    ensures { result ≡ may_meet reach (T.seen first.now) (T.seen second.now) }
{
    do_boxes_meet(K::bounds(first), K::bounds(second), reach)
}

/// Returns the live lots of `layer`, from the place `from` on and other than `id`, that have a part that may meet one
/// of `form`'s, in the order of registration.
///
/// # Errors
///
/// `Limit` iff there are more pairs of such parts than a command may test. `Memory` if memory runs out.
pub fn lots_near<T: Oracle, K: Keeper<T>>(
    alloc: Global,
    keeper: &K,
    form: &T::Form,
    layer: &Name,
    id: &Name,
    from: usize,
    reach: Reach,
) -> Result<Near, Stopped>
    requires from { from ≤ length (K.state keeper.now).lots }
    requires few { length (T.parts_of form.now) ≤ most_parts }
    ensures pairs { CountsUpTo (λ near. near.pairs) result (pairs_with reach (T.parts_of form.now) (others_in layer.now id.now (drop from (K.state keeper.now).lots))) }
    ensures lots { IfOk result (λ near. lots_at (K.state keeper.now).lots near.places.items ≡ filter (is_near reach (T.parts_of form.now)) (others_in layer.now id.now (drop from (K.state keeper.now).lots))) }
    ensures within { IfOk result (λ near. AreWithin (K.state keeper.now).lots near.places.items) }
    ensures few { IfOk result (λ near. length near.places.items ≤ near.pairs) }
{
    let places = keeper.near(alloc, form, layer, id, from, reach)?;
    count_at::<T, K>(alloc, keeper, form, places.items(), reach)
}

/// Returns those of `places` whose lots have a part that may meet one of `form`'s, in order, and the number of pairs of
/// such parts.
///
/// # Errors
///
/// `Limit` iff there are more of these pairs than a command may test. `Memory` if memory runs out.
fn count_at<T: Oracle, K: Keeper<T>>(
    alloc: Global,
    keeper: &K,
    form: &T::Form,
    places: &[usize],
    reach: Reach,
) -> Result<Near, Stopped>
    requires within { AreWithin (K.state keeper.now).lots places.now }
    requires few { length (T.parts_of form.now) ≤ most_parts }
    ensures pairs { CountsUpTo (λ near. near.pairs) result (pairs_with reach (T.parts_of form.now) (lots_at (K.state keeper.now).lots places.now)) }
    ensures lots { IfOk result (λ near. lots_at (K.state keeper.now).lots near.places.items ≡ filter (is_near reach (T.parts_of form.now)) (lots_at (K.state keeper.now).lots places.now)) }
    ensures within { IfOk result (λ near. AreWithin (K.state keeper.now).lots near.places.items) }
    ensures few { IfOk result (λ near. length near.places.items ≤ near.pairs) }
{
    // Only so that it is known that each lot has few parts.
    let _ = keeper.history();
    let mut near = Near {
        pairs: 0,
        places: Listed::new(alloc),
    };
    for place in places {
        let pairs = count_pairs::<T, K>(form, form_at::<T, K>(keeper, *place), reach);
        if pairs > MAX_TESTS as u64 - near.pairs {
            return Err(Stopped::Limit);
        }
        if pairs > 0 {
            near.pairs += pairs;
            near.places.push(*place)?;
        }
    }
    Ok(near)
}

/// Returns whether two boxes let parts within them meet.
fn do_boxes_meet(first: &IntBox, second: &IntBox, reach: Reach) -> bool
    ensures { result ≡ boxes_let reach (integer_box first.now) (integer_box second.now) }
{
    match reach {
        Reach::Overlap => first.meets(second),
        Reach::Touch => first.meets_closed(second),
    }
}

/// Returns the form of the lot at a place, ended or not.
pub fn form_at<T: Oracle, K: Keeper<T>>(keeper: &K, place: usize) -> &T::Form
    requires { place < length (K.state keeper.now).lots }
    ensures { option_map (λ l. l.parts) (slice_get (K.state keeper.now).lots place) ≡ Some (T.parts_of result.now) }
{
    &keeper.forms()[place]
}

/// Counts so many tests. `Limit` exactly where these are too many.
pub fn count_tests<T: Oracle>(tests: &mut T, n: u64) -> Result<(), Stopped>
    ensures { Refines (λ x. x) result tests.new (T.tester.count n tests.old) }
{
    if !tests.count(n) {
        return Err(Stopped::Limit);
    }
    Ok(())
}
