//! Slices of parts at a height, each on a line of its own. The check searches for none: a line that shows no slice that
//! passes for its part is not the line of the slice that a search finds either, so it is wrong.
ghost use Rattle.std.specs.Prelude.{◌≡◌, IfOk, IfErr, OnOk, map};
ghost use Rattle.rp_geometry.specs.sections.Trace.{IsHeight};
ghost use Rattle.rp_reports.specs.Check.{next_slice, taken, slice_told, slices_told};
ghost use Rattle.rp_cert.specs.Section.{slice_shown};
ghost use Rattle.rp_oracle.specs.Refines.{Refines};
ghost use Rattle.rp_trail.specs.Stops.{IsWrongOrMemory};
ghost use Rattle.rp_trail.specs.Slices.{follow_slice_line, follow_slice_lines};

use crate::form::Form;
use crate::kept::{Kept, keep_part, keep_parts};
use crate::trail::Trail;
use rp_cert::{Slice, check_slice};
use rp_lists::Listed;
use rp_oracle::Stopped;
use std::alloc::Global;

/// Slices, one for each part of a form.
pub type Slices = Listed<Slice>;

/// Returns the slices of the parts of `form` at `z`, a height of the cube, on the next lines of `trail`. One line for
/// each part, in order, shows a ring or a flat certificate that passes for its cell.
///
/// # Errors
///
/// `Wrong` iff a line shows no slice that passes, or is missing. `Memory` if memory runs out. `LimitReported` and `Limit` never.
pub fn slices(alloc: Global, form: &Form, z: i32, trail: &mut Trail<'_>) -> Result<Slices, Stopped>
    requires { IsHeight z }
    ensures comes { Refines (λ _. tt) result trail.new (follow_slice_lines z form.now.items trail.old) }
    ensures told { IfOk result (λ list. map slice_shown list.items ≡ slices_told z form.now.items trail.old.lines) }
    ensures ends { IfErr result IsWrongOrMemory }
{
    keep_parts(form.items());
    let mut slices = Slices::new(alloc);
    for part in form.items() {
        slices.push(follow_slice(part, z, trail)?)?;
    }
    Ok(slices)
}

/// Returns the slice of `part` at the height `z`, on the next line.
fn follow_slice(part: &Kept, z: i32, trail: &mut Trail<'_>) -> Result<Slice, Stopped>
    requires { IsHeight z }
    ensures comes { Refines (λ _. tt) result trail.new (follow_slice_line z part.now trail.old) }
    ensures told { IfOk result (λ s. slice_shown s ≡ slice_told z part.now.cell (next_slice trail.old.lines)) }
    ensures takes { OnOk result (trail.new ≡ taken trail.old) }
    ensures ends { IfErr result IsWrongOrMemory }
{
    keep_part(part);
    let Some(slice) = trail.next_slice() else {
        return Err(Stopped::Wrong);
    };
    if !check_slice(part.cell(), z, &slice) {
        return Err(Stopped::Wrong);
    }
    trail.take();
    Ok(slice)
}
