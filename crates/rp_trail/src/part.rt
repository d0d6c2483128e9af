//! Part tests.
ghost use Rattle.std.specs.Prelude.{◌≡◌, ◌+◌, ◌≤◌, ◌++◌, length, Some, IfOk};
ghost use Rattle.rp_geometry.specs.parts.Parts.{IsCheckedPart};
ghost use Rattle.rp_semantics.specs.FormLaws.{IsMadeOf};
ghost use Rattle.rp_reports.specs.Check.{follow_made, follow_part};
ghost use Rattle.rp_oracle.specs.Refines.{Refines};
ghost use Rattle.rp_trail.specs.Stops.{IsShown};

use crate::drops::follow_drops;
use crate::few::{Few, MOST_FEW, put};
use crate::kept::{Kept, keep_halves};
use crate::sides::{follow_box, follow_sides};
use crate::trail::Trail;
use arrayvec::ArrayVec;
use rp_oracle::{MAX_HALVES, Stopped};
use rp_space::{Half, Halves, joined};
use std::alloc::Global;

/// Takes a part test of `cell`, of at most 64 half-spaces, on the next lines of `trail`. Returns the part that they
/// make, or `None` if the strict test shows that the cell has no point. Lines may drop half-spaces that add nothing.
/// Then a line gives a box. Further lines show its sides that are neither in the cell nor the cube's.
///
/// # Errors
///
/// * `Limit` iff more than 32 half-spaces are left and the next line drops none;
/// * `LimitReported` or `Wrong` if the next line is not the one that is due;
/// * `Memory` if memory runs out.
pub fn made(alloc: Global, cell: &[Half], trail: &mut Trail<'_>) -> Result<Option<Kept>, Stopped>
    requires { length cell.now ≤ 64 }
    ensures comes { Refines (λ part. part) result trail.new (follow_part cell.now trail.old) }
    ensures made { IfOk result (λ part. IsMadeOf IsCheckedPart cell.now part) }
{
    keep_halves(cell);
    let inside = trail.strict_test(cell)?;
    if !inside {
        return Ok(None);
    }
    let part = made_inside(alloc, cell, trail)?;
    Ok(Some(part))
}

/// Makes the part test of the cell of `first` followed by `second`, at most 64 half-spaces together ([`made`]).
pub(crate) fn made_of_both(
    alloc: Global,
    first: &[Half],
    second: &[Half],
    trail: &mut Trail<'_>,
) -> Result<Option<Kept>, Stopped>
    requires { length first.now + length second.now ≤ 64 }
    ensures { Refines (λ part. part) result trail.new (follow_part (first.now ++ second.now) trail.old) }
{
    if first.len() + second.len() > MOST_FEW {
        return made(alloc, joined(first, second).as_slice(), trail);
    }
    let mut cell = Few::new();
    put(&mut cell, first);
    put(&mut cell, second);
    made(alloc, cell.as_slice(), trail)
}

/// Returns the part of a cell of which a strict test has just shown that it has a point.
fn made_inside(alloc: Global, cell: &[Half], trail: &mut Trail<'_>) -> Result<Kept, Stopped>
    requires few { length cell.now ≤ 64 }
    requires shown { IsShown cell.now trail.old }
    ensures { Refines Some result trail.new (follow_made cell.now trail.old) }
{
    if cell.len() > MOST_FEW {
        return made_from(alloc, cell, &mut joined(cell, &[]), trail);
    }
    let mut kept = Few::new();
    put(&mut kept, cell);
    made_from(alloc, cell, &mut kept, trail)
}

/// Returns the part of `cell`, of which a strict test has just shown that it has a point. `kept` has the half-spaces of
/// `cell`; the half-spaces that lines drop are removed from it.
fn made_from<const N: usize>(
    alloc: Global,
    cell: &[Half],
    kept: &mut ArrayVec<Half, N>,
    trail: &mut Trail<'_>,
) -> Result<Kept, Stopped>
    requires few { length cell.now ≤ 64 }
    requires same { kept.old.items ≡ cell.now }
    requires shown { IsShown cell.now trail.old }
    ensures { Refines Some result trail.new (follow_made cell.now trail.old) }
{
    keep_halves(cell);
    let next = follow_drops(kept, trail);
    if kept.len() > MAX_HALVES {
        return Err(Stopped::Limit);
    }
    let bounds = follow_box(next, trail)?;
    let slim = kept.as_slice();
    follow_sides(slim, &bounds, trail)?;
    let halves = Halves::copy_of(alloc, slim)?;
    Ok(Kept { halves, bounds })
}
