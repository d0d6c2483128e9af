//! The intersection of two lists of parts, test by test.
ghost use Rattle.std.specs.Prelude.{◌≡◌, ◌≤◌, length};
ghost use Rattle.rp_geometry.specs.sets.Shape.{Part as ModelPart};
ghost use Rattle.rp_geometry.specs.parts.Parts.{most_half_spaces};
ghost use Rattle.rp_semantics.specs.Walk.{first_tester};
ghost use Rattle.rp_semantics.specs.Form.{join_pair, join_with_part, join_each};
ghost use Rattle.rp_region.specs.Makes.{Makes};

use crate::fault::OpFault;
use crate::front::Front;
use crate::part::Part;
use crate::work::Work;
use rp_lists::Listed;
use rp_oracle::MAX_PARTS;
use std::alloc::Global;

/// Appends to `made` the intersection of each of `parts` with each of `others` that has a point.
pub(crate) fn join_each(
    alloc: Global,
    made: &mut Listed<Part>,
    parts: &[Part],
    others: &[Part],
    work: &mut Work,
) -> Result<(), OpFault>
    ensures { Makes (λ _. made.new.items) result work.old work.new (join_each first_tester made.old.items parts.now others.now) }
{
    let mut room = work.take_room()?;
    join_in_turn(alloc, made, parts, others, &mut room, work)?;
    work.keep_room(room);
    Ok(())
}

/// Appends to `made` the intersection of each of `parts` with each of `others` that has a point. `front` stores each of
/// `parts` in turn, in place of its content before.
fn join_in_turn(
    alloc: Global,
    made: &mut Listed<Part>,
    parts: &[Part],
    others: &[Part],
    front: &mut Front,
    work: &mut Work,
) -> Result<(), OpFault>
    ensures { Makes (λ _. made.new.items) result work.old work.new (join_each first_tester made.old.items parts.now others.now) }
{
    for part in parts {
        join_with_part(alloc, made, part, others, front, work)?;
    }
    Ok(())
}

/// Appends to `made` the intersection of `part` with each of `others` that has a point.
fn join_with_part(
    alloc: Global,
    made: &mut Listed<Part>,
    part: &Part,
    others: &[Part],
    front: &mut Front,
    work: &mut Work,
) -> Result<(), OpFault>
    ensures { Makes (λ _. made.new.items) result work.old work.new (join_with_part first_tester made.old.items part.now others.now) }
{
    front.hold(part.halves());
    for other in others {
        join_pair(alloc, made, front, other, work)?;
    }
    Ok(())
}

/// Appends to `made` the intersection of the part in `front` with `other` if it has a point, by one part test.
///
/// # Errors
///
/// `Limit` if `made` then has more than 1,024 parts, or the new part more than 32 half-spaces.
fn join_pair(
    alloc: Global,
    made: &mut Listed<Part>,
    front: &mut Front,
    other: &Part,
    work: &mut Work,
) -> Result<(), OpFault>
    requires { length front.old ≤ most_half_spaces }
    ensures same { front.new ≡ front.old }
    ensures makes { (p : ModelPart) → p.cell ≡ front.old
        → Makes (λ _. made.new.items) result work.old work.new (join_pair first_tester made.old.items p other.now) }
{
    if let Some(common) = front.part_with(alloc, other.halves(), work)? {
        made.push(common)?;
    }
    if made.items().len() > MAX_PARTS {
        return Err(OpFault::Limit);
    }
    Ok(())
}
