//! The difference of two lists of parts, test by test.
ghost use Rattle.std.specs.Prelude.{◌≡◌, ◌≤◌, ◌<◌, [], ◌++◌, true, length, List, IfOk};
ghost use Rattle.rp_geometry.specs.Geometry.{HalfSpace};
ghost use Rattle.rp_geometry.specs.parts.Parts.{most_half_spaces};
ghost use Rattle.rp_semantics.specs.Walk.{count_tests, first_tester};
ghost use Rattle.rp_semantics.specs.Form.{carve_one, carve, carve_or_keep, subtract_pair, subtract_part, subtract};
ghost use Rattle.rp_region.specs.Makes.{Makes};
ghost use Rattle.rp_region.specs.Pairs.{meet_if_near};

use crate::fault::OpFault;
use crate::front::Front;
use crate::part::Part;
use crate::work::Work;
use rp_lists::Listed;
use rp_oracle::MAX_PARTS;
use rp_space::Half;
use std::alloc::Global;

/// Returns `parts` without `others`, which are subtracted one after the other by tests of `work`.
pub(crate) fn subtract(
    alloc: Global,
    parts: Listed<Part>,
    others: &[Part],
    work: &mut Work,
) -> Result<Listed<Part>, OpFault>
    ensures { Makes (λ left. left.items) result work.old work.new (subtract first_tester parts.items others.now) }
{
    let mut room = work.take_room()?;
    let left = subtract_each(alloc, parts, others, &mut room, work)?;
    work.keep_room(room);
    Ok(left)
}

/// Returns `parts` without `others`, which are subtracted one after the other. `front` stores each part that is carved
/// in turn, in place of its content before.
///
/// # Errors
///
/// - `Limit` if more than 1,024 parts are left after one of `others`, or a step has it.
/// - `Memory` for want of memory.
fn subtract_each(
    alloc: Global,
    parts: Listed<Part>,
    others: &[Part],
    front: &mut Front,
    work: &mut Work,
) -> Result<Listed<Part>, OpFault>
    ensures { Makes (λ left. left.items) result work.old work.new (subtract first_tester parts.items others.now) }
{
    let mut current = parts;
    for other in others {
        current = subtract_part(alloc, current, other, front, work)?;
        if current.items().len() > MAX_PARTS {
            return Err(OpFault::Limit);
        }
    }
    Ok(current)
}

/// Returns `parts` without the part `other`.
fn subtract_part(
    alloc: Global,
    parts: Listed<Part>,
    other: &Part,
    front: &mut Front,
    work: &mut Work,
) -> Result<Listed<Part>, OpFault>
    ensures { Makes (λ left. left.items) result work.old work.new (subtract_part first_tester [] parts.items other.now) }
{
    let mut left = Listed::new(alloc);
    for part in parts.into_items() {
        subtract_pair(alloc, &mut left, part, other, front, work)?;
    }
    Ok(left)
}

/// Appends to `left` the rest of `part` outside `other`. If their boxes do not meet, it is `part` itself, without a
/// test.
fn subtract_pair(
    alloc: Global,
    left: &mut Listed<Part>,
    part: Part,
    other: &Part,
    front: &mut Front,
    work: &mut Work,
) -> Result<(), OpFault>
    ensures { Makes (λ _. left.new.items) result work.old work.new (subtract_pair first_tester left.old.items part other.now) }
{
    if meet_if_near(&part, other, front, work)? {
        return carve(alloc, left, other.halves(), front, work);
    }
    left.push(part)?;
    Ok(())
}

/// Returns whether `part` and `other` share a point; if so, `front` then stores the cell of `part`. One test is made,
/// and counted, if their boxes meet.
fn meet_if_near(
    part: &Part,
    other: &Part,
    front: &mut Front,
    work: &mut Work,
) -> Result<bool, OpFault>
    ensures makes { Makes (λ has_one. has_one) result work.old work.new (meet_if_near part.now other.now) }
    ensures held { IfOk result (λ has_one. has_one ≡ true → front.new ≡ part.now.cell) }
{
    if !part.may_overlap(other) {
        return Ok(false);
    }
    count_test(work)?;
    Ok(front.meets(part, other, work)?)
}

/// Appends to `left` the rest of the cell of `front` outside `halves`, piece by piece: outside each of `halves`, inside
/// those before it.
fn carve(
    alloc: Global,
    left: &mut Listed<Part>,
    halves: &[Half],
    front: &mut Front,
    work: &mut Work,
) -> Result<(), OpFault>
    requires cell { length front.old ≤ most_half_spaces }
    requires halves { length halves.now ≤ most_half_spaces }
    ensures { Makes (λ _. left.new.items) result work.old work.new (carve first_tester left.old.items front.old [] halves.now) }
{
    for half in halves {
        carve_one(alloc, left, half, front, work)?;
        front.push(*half);
    }
    Ok(())
}

/// Appends to `left` the rest of the cell of `front` outside `half`, if it has a point.
fn carve_one(
    alloc: Global,
    left: &mut Listed<Part>,
    half: &Half,
    front: &mut Front,
    work: &mut Work,
) -> Result<(), OpFault>
    requires { length front.old < 64 }
    ensures same { front.new ≡ front.old }
    ensures makes { (cell before : List HalfSpace) → front.old ≡ cell ++ before
        → Makes (λ _. left.new.items) result work.old work.new (carve_one first_tester left.old.items cell before half.now) }
{
    count_test(work)?;
    if let Some(part) = front.part_behind(alloc, &half.not(), work)? {
        left.push(part)?;
    }
    Ok(())
}

/// Counts one test.
///
/// # Errors
///
/// `Limit` if the count would be above 65,536.
fn count_test(work: &mut Work) -> Result<(), OpFault>
    ensures { Makes (λ x. x) result work.old work.new (count_tests 1) }
{
    if !work.count(1) {
        return Err(OpFault::Limit);
    }
    Ok(())
}
