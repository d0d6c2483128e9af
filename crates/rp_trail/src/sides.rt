//! The box that the lines of a part test give, and the proofs of its sides.
ghost use Rattle.std.specs.Prelude.{◌≡◌, ◌≤◌, ◌++◌, ◌∷◌, [], true, length, IfOk};
ghost use Rattle.std.specs.Option.{option_map};
ghost use Rattle.rp_geometry.specs.Geometry.{box_half_spaces, complement, is_box_in_bounds};
ghost use Rattle.rp_geometry.specs.searches.Certificate.{is_outside_certificate};
ghost use Rattle.rp_reports.specs.Check.{next_proof, is_proper_box, box_by_line, follow_side, follow_sides};
ghost use Rattle.rp_space.specs.Boxes.{integer_box};
ghost use Rattle.rp_cert.specs.Lines.{line_of};
ghost use Rattle.rp_oracle.specs.Refines.{Refines};

use crate::drops::is_listed;
use crate::few::{Few, MOST_FEW, put};
use crate::trail::Trail;
use rp_cert::{Proof, check_outside};
use rp_oracle::Stopped;
use rp_space::{Half, IntBox, Term, box_halves, cube, joined};

/// Returns the box that the next line gives. `next` is this line as a proof line.
pub(crate) fn follow_box(next: Option<Proof>, trail: &mut Trail<'_>) -> Result<IntBox, Stopped>
    requires { option_map line_of next ≡ next_proof trail.old.lines }
    ensures comes { Refines integer_box result trail.new (box_by_line (next_proof trail.old.lines) trail.old) }
    ensures bounds { IfOk result (λ bounds. is_box_in_bounds (integer_box bounds) ≡ true) }
{
    match next {
        Some(Proof::Bounds(bounds)) => trail.take_if(is_proper(&bounds), bounds),
        _ => Err(trail.nothing_due()),
    }
}

/// Returns whether the lower corner of a box is below the upper one on each axis.
fn is_proper(bounds: &IntBox) -> bool
    ensures { result ≡ is_proper_box (integer_box bounds.now) }
{
    let [x1, y1, z1] = bounds.lo;
    let [x2, y2, z2] = bounds.hi;
    x1 < x2 && y1 < y2 && z1 < z2
}

/// Takes the lines that show that a box contains all members of a cell, one for each side that needs it.
pub(crate) fn follow_sides(
    kept: &[Half],
    bounds: &IntBox,
    trail: &mut Trail<'_>,
) -> Result<(), Stopped>
    requires few { length kept.now ≤ 64 }
    requires bounds { is_box_in_bounds (integer_box bounds.now) ≡ true }
    ensures { Refines (λ _. tt) result trail.new (follow_sides kept.now (box_half_spaces (integer_box bounds.now)) trail.old) }
{
    let sides = box_halves(bounds);
    for side in &sides {
        follow_side(kept, side, trail)?;
    }
    Ok(())
}

/// Takes the line that shows `side`, unless the side is in the cell or the cube's.
fn follow_side(kept: &[Half], side: &Half, trail: &mut Trail<'_>) -> Result<(), Stopped>
    requires { length kept.now ≤ 64 }
    ensures { Refines (λ _. tt) result trail.new (follow_side kept.now side.now trail.old) }
{
    if is_listed(side, kept) || is_listed(side, &cube()) {
        return Ok(());
    }
    match trail.next_proof() {
        Some(Proof::Out(terms)) => { trail.take_if(is_shown(kept, side, terms.items()), ()) }
        _ => Err(trail.nothing_due()),
    }
}

/// Returns whether the multiples `terms` show that no point of the cell `kept` is outside `side`.
fn is_shown(kept: &[Half], side: &Half, terms: &[Term]) -> bool
    requires { length kept.now ≤ 64 }
    ensures { result ≡ is_outside_certificate true (kept.now ++ complement side.now ∷ []) terms.now }
{
    if kept.len() >= MOST_FEW {
        return check_outside(joined(kept, &[side.not()]).as_slice(), terms, true);
    }
    let mut cell = Few::new();
    put(&mut cell, kept);
    cell.push(side.not());
    check_outside(cell.as_slice(), terms, true)
}
