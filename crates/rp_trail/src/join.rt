//! The join of two lists of parts, test by test.
ghost use Rattle.rp_reports.specs.Check.{line_tester};
ghost use Rattle.rp_semantics.specs.Form.{join_pair, join_with_part, join_each};
ghost use Rattle.rp_oracle.specs.Refines.{Refines};

use crate::form::{Form, put};
use crate::kept::Kept;
use crate::part::made_of_both;
use crate::trail::Trail;
use rp_oracle::{MAX_PARTS, Stopped};
use std::alloc::Global;

/// Appends to `form` the common part of each of `parts` with each of `others`, if it has a point.
pub(crate) fn join_each(
    alloc: Global,
    form: &mut Form,
    parts: &[Kept],
    others: &[Kept],
    trail: &mut Trail<'_>,
) -> Result<(), Stopped>
    ensures { Refines (λ _. form.new.items) result trail.new (join_each line_tester form.old.items parts.now others.now trail.old) }
{
    for part in parts {
        join_with_part(alloc, form, part, others, trail)?;
    }
    Ok(())
}

/// Appends to `form` the common part of `part` with each of `others`, if it has a point.
fn join_with_part(
    alloc: Global,
    form: &mut Form,
    part: &Kept,
    others: &[Kept],
    trail: &mut Trail<'_>,
) -> Result<(), Stopped>
    ensures { Refines (λ _. form.new.items) result trail.new (join_with_part line_tester form.old.items part.now others.now trail.old) }
{
    for other in others {
        join_pair(alloc, form, part, other, trail)?;
    }
    Ok(())
}

/// Appends to `form` the part that a part test makes of `part` and `other` together, if it has a point.
fn join_pair(
    alloc: Global,
    form: &mut Form,
    part: &Kept,
    other: &Kept,
    trail: &mut Trail<'_>,
) -> Result<(), Stopped>
    ensures { Refines (λ _. form.new.items) result trail.new (join_pair line_tester form.old.items part.now other.now trail.old) }
{
    let common = made_of_both(alloc, part.cell(), other.cell(), trail)?;
    put(form, common)?;
    if form.items().len() > MAX_PARTS {
        return Err(Stopped::Limit);
    }
    Ok(())
}
