//! Rings: the steps along the sides of a section.
ghost use Rattle.std.specs.Prelude.{◌≡◌, ◌<◌, ◌≤◌, List, length};
ghost use Rattle.rp_geometry.specs.Geometry.{RationalPoint};
ghost use Rattle.rp_geometry.specs.sections.Trace.{IsHeight};
ghost use Rattle.rp_geometry.specs.sections.Ring.{RingStep};
ghost use Rattle.rp_geometry.specs.laws.SectionLaws.{IsRing, level_plane};
ghost use Rattle.rp_section.specs.Sides.{side_step, side_steps, end_of};

use crate::side::{Side, bounds_of, sides_of};
use rp_cert::{RingStep, RingSteps};
use rp_space::{Half, IntBox, Point, box_halves, meet};

/// Returns the ring of `cell` at the height `z`, if it has one. A cell without a point there gets some steps. `cell`
/// has at most 32 half-spaces.
pub fn ring(cell: &[Half], z: i32) -> RingSteps
    requires height { IsHeight z }
    requires few { length cell.now ≤ 32 }
    ensures { (steps : List RingStep) → IsRing z cell.now steps → result ≡ steps }
{
    let level = level_plane(z);
    let sides = sides_of(cell, z);
    let bounds = bounds_of(&level, sides.as_slice());
    steps_along(&level, bounds.as_slice())
}

/// Returns the half-space above the height `z`, whose plane is that of the height.
pub fn level_plane(z: i32) -> Half
    requires { IsHeight z }
    ensures { result ≡ level_plane z }
{
    let [_, _, _, _, level, _] = box_halves(&IntBox {
        lo: [0, 0, z],
        hi: [0, 0, z],
    });
    level
}

/// Returns a step along each of `sides`, at most 36, to the next one; after the last comes the first.
fn steps_along(level: &Half, sides: &[Side]) -> RingSteps
    requires { length sides.now ≤ 36 }
    ensures { (other : RationalPoint) × (result ≡ side_steps level.now other sides.now) }
{
    steps_by(level, &Point::default(), sides)
}

/// Returns a step along each of `sides`, at most 36, to the next one; after the last comes the first. If two sides in a
/// row are parallel, as in no ring, the end is `other`.
fn steps_by(level: &Half, other: &Point, sides: &[Side]) -> RingSteps
    requires { length sides.now ≤ 36 }
    ensures { result ≡ side_steps level.now other.now sides.now }
{
    let mut steps = RingSteps::new();
    if sides.is_empty() {
        return steps;
    }
    let last = sides.len() - 1;
    for i in 0..last {
        steps.push(step(level, other, &sides[i], &sides[i + 1]));
    }
    steps.push(step(level, other, &sides[last], &sides[0]));
    steps
}

/// Returns a step along the edge of `side` to that of `next`.
fn step(level: &Half, other: &Point, side: &Side, next: &Side) -> RingStep
    ensures { result ≡ side_step level.now other.now side.now next.now }
{
    RingStep {
        edge: side.edge,
        end: end_of(level, other, side, next),
    }
}

/// Returns the point of the plane of `level` on `side` and `next`; `other` if they are parallel.
fn end_of(level: &Half, other: &Point, side: &Side, next: &Side) -> Point
    ensures { result ≡ end_of level.now other.now side.now next.now }
{
    match meet(&side.half, &next.half, level) {
        Some(end) => end,
        None => *other,
    }
}
