//! The difference of two lists of parts, test by test.
ghost use Rattle.std.specs.Prelude.{◌+◌, ◌≤◌, ◌<◌, ◌++◌, ◌∷◌, [], length};
ghost use Rattle.rp_geometry.specs.Geometry.{complement};
ghost use Rattle.rp_geometry.specs.parts.Parts.{most_half_spaces};
ghost use Rattle.rp_reports.specs.Check.{follow_count, follow_part, line_tester};
ghost use Rattle.rp_semantics.specs.Form.{carve_one, carve, subtract_pair, subtract_part, subtract};
ghost use Rattle.rp_oracle.specs.Refines.{Refines};

use crate::few::{self, Few, MOST_FEW};
use crate::form::{Form, put};
use crate::kept::Kept;
use crate::meeting::Meeting;
use crate::part::made;
use crate::trail::Trail;
use rp_oracle::{MAX_PARTS, Stopped};
use rp_space::{Half, joined};
use std::alloc::Global;

/// Returns the rest of `parts` after each of `others` is subtracted in turn.
pub(crate) fn subtract(
    alloc: Global,
    parts: Form,
    others: &[Kept],
    trail: &mut Trail<'_>,
) -> Result<Form, Stopped>
    ensures { Refines (λ form. form.items) result trail.new (subtract line_tester parts.items others.now trail.old) }
{
    let mut current = parts;
    for other in others {
        current = subtract_part(alloc, current, other, trail)?;
        if current.items().len() > MAX_PARTS {
            return Err(Stopped::Limit);
        }
    }
    Ok(current)
}

/// Returns the rest of `parts` after `other` is subtracted.
fn subtract_part(
    alloc: Global,
    parts: Form,
    other: &Kept,
    trail: &mut Trail<'_>,
) -> Result<Form, Stopped>
    ensures { Refines (λ form. form.items) result trail.new (subtract_part line_tester [] parts.items other.now trail.old) }
{
    let mut left = Form::new(alloc);
    for part in parts.into_items() {
        subtract_pair(alloc, &mut left, part, other, trail)?;
    }
    Ok(left)
}

/// Appends to `left` the rest of `part` outside `other`. If their boxes do not meet, the rest is `part` itself, without
/// a test.
fn subtract_pair(
    alloc: Global,
    left: &mut Form,
    part: Kept,
    other: &Kept,
    trail: &mut Trail<'_>,
) -> Result<(), Stopped>
    ensures { Refines (λ _. left.new.items) result trail.new (subtract_pair line_tester left.old.items part other.now trail.old) }
{
    if !Meeting::Common.may_be(&part, other) {
        left.push(part)?;
        return Ok(());
    }
    count_test(trail)?;
    let cell = part.cell();
    let halves = other.cell();
    let meets = trail.strict(cell, halves)?;
    if meets {
        return carve(alloc, left, cell, halves, trail);
    }
    left.push(part)?;
    Ok(())
}

/// Appends to `left` the rest of `cell` outside `halves`, piece by piece: outside each half-space, inside those before.
fn carve(
    alloc: Global,
    left: &mut Form,
    cell: &[Half],
    halves: &[Half],
    trail: &mut Trail<'_>,
) -> Result<(), Stopped>
    requires cell { length cell.now ≤ most_half_spaces }
    requires halves { length halves.now ≤ most_half_spaces }
    ensures { Refines (λ _. left.new.items) result trail.new (carve line_tester left.old.items cell.now [] halves.now trail.old) }
{
    for (i, half) in halves.iter().enumerate() {
        carve_one(alloc, left, cell, &halves[..i], half, trail)?;
    }
    Ok(())
}

/// Appends to `left` the piece of `cell` outside `half` and inside all of `before`.
fn carve_one(
    alloc: Global,
    left: &mut Form,
    cell: &[Half],
    before: &[Half],
    half: &Half,
    trail: &mut Trail<'_>,
) -> Result<(), Stopped>
    requires { length cell.now + length before.now < 64 }
    ensures { Refines (λ _. left.new.items) result trail.new (carve_one line_tester left.old.items cell.now before.now half.now trail.old) }
{
    count_test(trail)?;
    let part = made_outside(alloc, cell, before, half, trail)?;
    put(left, part)?;
    Ok(())
}

/// Makes the part test of what is in `cell` and in all of `before`, and outside `half`.
fn made_outside(
    alloc: Global,
    cell: &[Half],
    before: &[Half],
    half: &Half,
    trail: &mut Trail<'_>,
) -> Result<Option<Kept>, Stopped>
    requires { length cell.now + length before.now < 64 }
    ensures { Refines (λ part. part) result trail.new (follow_part ((cell.now ++ before.now) ++ complement half.now ∷ []) trail.old) }
{
    if cell.len() + before.len() >= MOST_FEW {
        let mut piece = joined(cell, before);
        piece.push(half.not());
        return made(alloc, piece.as_slice(), trail);
    }
    let mut piece = Few::new();
    few::put(&mut piece, cell);
    few::put(&mut piece, before);
    piece.push(half.not());
    made(alloc, piece.as_slice(), trail)
}

/// Counts one test.
fn count_test(trail: &mut Trail<'_>) -> Result<(), Stopped>
    ensures { Refines (λ x. x) result trail.new (follow_count 1 trail.old) }
{
    if !trail.count(1) {
        return Err(Stopped::Limit);
    }
    Ok(())
}
