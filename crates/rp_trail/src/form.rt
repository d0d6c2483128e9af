//! Lists of parts as a report shows them, and their algebra, followed line by line.
ghost use Rattle.std.specs.Prelude.{◌++◌, ◌≤◌, ◌↔◌, ◌≡◌, ◌*◌, length, IsTrue, IfOk, IfErr};
ghost use Rattle.rp_geometry.specs.sets.Shape.{Shape, shape_of_parts};
ghost use Rattle.rp_geometry.specs.sets.Sets.{Overlaps};
ghost use Rattle.rp_geometry.specs.sets.Contact.{IsInContact};
ghost use Rattle.rp_geometry.specs.parts.Parts.{AreOf, IsCheckedPart, most_parts};
ghost use Rattle.rp_reports.specs.Check.{follow_count, line_tester};
ghost use Rattle.rp_semantics.specs.Form.{join, made_part, subtract};
ghost use Rattle.rp_oracle.specs.Refines.{Refines};
ghost use Rattle.rp_trail.specs.Stops.{IsNotMemory};
ghost use Rattle.rp_trail.specs.Pairs.{common_by, touch_by, meet_by};

use crate::difference::subtract;
use crate::join::join_each;
use crate::kept::{Kept, keep_parts};
use crate::meeting::Meeting;
use crate::pairs::first_pair;
use crate::trail::Trail;
use rp_lists::Listed;
use rp_oracle::Stopped;
use std::alloc::{AllocError, Global};

/// A list of parts. A point is a member iff it is in a part.
pub type Form = Listed<Kept>;

/// Returns the join of `a` and `b`, on the next lines of `trail`: a part test of each part of `a` with each part of
/// `b`. As many tests are counted as there are pairs.
///
/// # Errors
///
/// * `Limit` iff too many tests are counted, a part would have more than 32 half-spaces, or more than 1,024 parts are
///   made;
/// * `LimitReported` or `Wrong` if the next line is not the one that is due;
/// * `Memory` if memory runs out.
pub fn joined(alloc: Global, a: &Form, b: &Form, trail: &mut Trail<'_>) -> Result<Form, Stopped>
    ensures comes { Refines (λ form. form.items) result trail.new (join line_tester a.now.items b.now.items trail.old) }
    ensures members { length a.now.items ≤ most_parts → length b.now.items ≤ most_parts →
        IfOk result (λ form. AreOf IsCheckedPart (Shape.intersection (shape_of_parts a.now.items) (shape_of_parts b.now.items)) form.items) }
{
    keep_parts(a.items());
    keep_parts(b.items());
    count_pairs(a, b, trail)?;
    let mut form = Form::new(alloc);
    join_each(alloc, &mut form, a.items(), b.items(), trail)?;
    Ok(form)
}

/// Returns the difference of `a` and `b`, on the next lines of `trail`: each part of `b` is subtracted in turn.
///
/// # Errors
///
/// * `Limit` iff too many tests are counted, a part would have more than 32 half-spaces, or more than 1,024 parts are
///   left after a part of `b`;
/// * `LimitReported` or `Wrong` if the next line is not the one that is due;
/// * `Memory` if memory runs out.
pub fn differed(alloc: Global, a: &Form, b: &Form, trail: &mut Trail<'_>) -> Result<Form, Stopped>
    ensures comes { Refines (λ form. form.items) result trail.new (subtract line_tester a.now.items b.now.items trail.old) }
    ensures members { length a.now.items ≤ most_parts → length b.now.items ≤ most_parts →
        IfOk result (λ form. AreOf IsCheckedPart (Shape.difference (shape_of_parts a.now.items) (shape_of_parts b.now.items)) form.items) }
{
    keep_parts(a.items());
    keep_parts(b.items());
    let first = copy(alloc, a)?;
    subtract(alloc, first, b.items(), trail)
}

/// Returns whether `a` and `b` share a member, on the next lines of `trail`: a strict test of each part of `a` with
/// each part of `b`, up to the first pair that does. If `near`, only pairs are tested whose boxes share more than
/// boundary, and no test is counted. Otherwise as many tests are counted as there are pairs.
///
/// # Errors
///
/// `Limit` iff too many tests are counted. `LimitReported` or `Wrong` if the next line is not the one that is due. `Memory`
/// never.
pub fn common(a: &Form, b: &Form, near: bool, trail: &mut Trail<'_>) -> Result<bool, Stopped>
    ensures comes { Refines (λ found. found) result trail.new (common_by near a.now.items b.now.items trail.old) }
    ensures right { length a.now.items ≤ most_parts → length b.now.items ≤ most_parts →
        IfOk result (λ found. IsTrue found ↔ Overlaps (shape_of_parts a.now.items) (shape_of_parts b.now.items)) }
    ensures memory { IfErr result IsNotMemory }
{
    keep_parts(a.items());
    keep_parts(b.items());
    meet(Meeting::Common, a, b, near, trail)
}

/// Returns whether `a` and `b` are in contact, on the next lines of `trail`: a weak test of each part of `a` with each
/// part of `b`, up to the first pair that is. If `near`, only pairs are tested whose boxes share a point, the boundary
/// included, and no test is counted. Otherwise as many tests are counted as there are pairs.
///
/// # Errors
///
/// `Limit` iff too many tests are counted. `LimitReported` or `Wrong` if the next line is not the one that is due. `Memory`
/// never.
pub fn touching(a: &Form, b: &Form, near: bool, trail: &mut Trail<'_>) -> Result<bool, Stopped>
    ensures comes { Refines (λ found. found) result trail.new (touch_by near a.now.items b.now.items trail.old) }
    ensures right { length a.now.items ≤ most_parts → length b.now.items ≤ most_parts →
        IfOk result (λ found. IsTrue found ↔ IsInContact (shape_of_parts a.now.items) (shape_of_parts b.now.items)) }
    ensures memory { IfErr result IsNotMemory }
{
    keep_parts(a.items());
    keep_parts(b.items());
    meet(Meeting::Touch, a, b, near, trail)
}

/// Returns whether a part of `a` and a part of `b` meet.
fn meet(
    meeting: Meeting,
    a: &Form,
    b: &Form,
    near: bool,
    trail: &mut Trail<'_>,
) -> Result<bool, Stopped>
    ensures comes { Refines (λ found. found) result trail.new (meet_by meeting near a.now.items b.now.items trail.old) }
    ensures memory { IfErr result IsNotMemory }
{
    if !near {
        count_pairs(a, b, trail)?;
    }
    first_pair(meeting, a.items(), b.items(), near, trail)
}

/// Counts as many tests as there are pairs of parts. `Limit` iff these are too many.
fn count_pairs(a: &Form, b: &Form, trail: &mut Trail<'_>) -> Result<(), Stopped>
    ensures comes { Refines (λ x. x) result trail.new (follow_count (length a.now.items * length b.now.items) trail.old) }
    ensures memory { IfErr result IsNotMemory }
{
    let pairs = (a.items().len() as u64).saturating_mul(b.items().len() as u64);
    if !trail.count(pairs) {
        return Err(Stopped::Limit);
    }
    Ok(())
}

/// Appends `part` to `form`, if there is one.
pub(crate) fn put(form: &mut Form, part: Option<Kept>) -> Result<(), AllocError>
    ensures { IfOk result (λ _. form.new.items ≡ form.old.items ++ made_part part) }
{
    match part {
        Some(part) => form.push(part),
        None => Ok(()),
    }
}

/// Returns a copy of `form`: the same parts in the same order.
pub fn copy(alloc: Global, form: &Form) -> Result<Form, AllocError>
    ensures { IfOk result (λ copied. copied.items ≡ form.now.items) }
{
    let mut copied = Form::new(alloc);
    for part in form.items() {
        copied.push(part.copy(alloc)?)?;
    }
    Ok(copied)
}
