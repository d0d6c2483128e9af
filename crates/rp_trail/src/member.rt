//! Membership of points in parts and in lists of parts, by signs.
ghost use Rattle.std.specs.Prelude.{◌≡◌};
ghost use Rattle.std.specs.List.{list_any};
ghost use Rattle.rp_geometry.specs.Geometry.{all_hold};
ghost use Rattle.rp_geometry.specs.sets.Shape.{passes, is_member, shape_of_parts};
ghost use Rattle.rp_model.specs.commands.Parts.{is_in_parts};

use crate::form::Form;
use crate::kept::Kept;
use rp_space::{Half, Point};

/// Returns whether all half-spaces hold the point.
fn all_hold(halves: &[Half], point: &Point) -> bool
    ensures { result ≡ all_hold halves.now point.now }
{
    halves.iter().all(|half| half.holds(point))
}

/// Returns whether the half-spaces of a part all hold the point.
fn is_in_part(part: &Kept, point: &Point) -> bool
    ensures { result ≡ all_hold part.now.cell point.now }
{
    all_hold(part.halves.items(), point)
}

/// Returns whether the half-spaces of one of the parts all hold the point.
fn is_in_some(parts: &[Kept], point: &Point) -> bool
    ensures { result ≡ list_any (λ part. all_hold part.cell point.now) parts.now }
{
    parts.iter().any(|part| is_in_part(part, point))
}

/// Returns whether the point passes the test of a form: the half-spaces of one of its parts all hold it.
pub(crate) fn passes_form(form: &Form, point: &Point) -> bool
    ensures { result ≡ passes (shape_of_parts form.now.items) point.now }
{
    is_in_some(form.items(), point)
}

/// Returns whether `point` is in `form`: it is in the cube and in a part.
pub fn holds(form: &Form, point: &Point) -> bool
    ensures member { result ≡ is_member (shape_of_parts form.now.items) point.now }
    ensures in_parts { result ≡ is_in_parts form.now.items point.now }
{
    point.is_in_cube() && passes_form(form, point)
}
