//! Cubes of the index of a layer, in a grid of 64 by 64 by 64.
//!
//! The boxes of live lots are in one cube. The boxes of lots that ended are in further cubes, one for each stretch of
//! lines ([`Stretch`]). A box is turned so that an axis on which it is thin comes first. Each of the three turns has
//! cubes of its own.
//!
//! Two stretches share a cube of a turn iff their numbers are equal modulo 262,144. A script of 16 MB has at most 2^24
//! lines, so at most 67 stretches share a cube. Lots of one layer that lived in one stretch all lived at its middle
//! line, so at most one of them has any given point. So no more than 67 lots that ended have one point in one cube of a
//! turn.
ghost use Rattle.std.specs.Prelude.{◌≡◌, ◌<◌, ◌+◌, ◌%◌, ◌/◌, ◌+ℤ◌};
ghost use Rattle.rp_algebra.specs.Within.{IsWithin};
ghost use Rattle.rp_space.specs.Boxes.{integer_box};
ghost use Rattle.rp_lotindex.specs.Cubes.{live_number, past_number, turn_number, step_of, is_near_domain, moved_low, moved_high, moved_to, moved_in, moved_own, moved, moved_past};

use crate::axis::{Axis, axis_of, turned};
use crate::stretch::Stretch;
use rp_space::IntBox;

/// The number of cubes.
const CUBES: u64 = 262_144;

/// The edge of a cube of the grid, four times half the edge of the domain.
const EDGE: i32 = 67_108_864;

/// The greatest size of a coordinate that is moved with its cube: half the edge of the domain, plus one.
const FAR: i32 = 16_777_217;

/// The number of the cube of live lots.
pub(crate) const LIVE: u64 = 0;

/// Returns `bounds`, in its own turn, moved into the cube of live lots. A side outside the domain is moved to the end
/// of the range of `i32`, so boxes that meet before the move meet after it.
pub(crate) fn moved(bounds: &IntBox) -> IntBox
    ensures { integer_box result ≡ moved (integer_box bounds.now) }
{
    moved_own(LIVE, bounds)
}

/// Returns `bounds`, in its own turn, moved into the cube of lots that ended and whose least stretch is `stretch`.
pub(crate) fn moved_past(stretch: &Stretch, bounds: &IntBox) -> IntBox
    ensures { integer_box result ≡ moved_past stretch.now (integer_box bounds.now) }
{
    moved_own(past_number(stretch), bounds)
}

/// Returns the number of the cube for a stretch of lines.
pub(crate) fn past_number(stretch: &Stretch) -> u64
    ensures { result ≡ past_number stretch.now }
{
    // The first stretches of a level have other cubes than those of the next levels, and than live lots.
    1 + stretch.level as u64 * 70_001 + stretch.mark as u64
}

/// Returns `bounds`, in its own turn, moved into the cube of `number`.
fn moved_own(number: u64, bounds: &IntBox) -> IntBox
    ensures { integer_box result ≡ moved_own number (integer_box bounds.now) }
{
    moved_in(axis_of(bounds), number, bounds)
}

/// Returns `bounds`, turned so that `axis` comes first, and moved into the cube of `number` for this turn.
pub(crate) fn moved_in(axis: Axis, number: u64, bounds: &IntBox) -> IntBox
    ensures { integer_box result ≡ moved_in axis number (integer_box bounds.now) }
{
    moved_to(number % CUBES + turn_number(axis), &turned(axis, bounds))
}

/// Returns the distance between the cubes of a turn and those of the first turn. It is chosen so that they differ along
/// x too.
fn turn_number(axis: Axis) -> u64
    ensures value { result ≡ turn_number axis }
    ensures small { result < 262144 }
{
    match axis {
        Axis::X => 0,
        Axis::Y => 87_403,
        Axis::Z => 174_806,
    }
}

/// Returns `bounds`, moved into the cube of `number`.
fn moved_to(number: u64, bounds: &IntBox) -> IntBox
    ensures { integer_box result ≡ moved_to number (integer_box bounds.now) }
{
    let x = step_of((number % 64) as u32);
    let y = step_of((number / 64 % 64) as u32);
    let z = step_of((number / 4096 % 64) as u32);
    let [x1, y1, z1] = bounds.lo;
    let [x2, y2, z2] = bounds.hi;
    IntBox {
        lo: [moved_low(x, x1), moved_low(y, y1), moved_low(z, z1)],
        hi: [moved_high(x, x2), moved_high(y, y2), moved_high(z, z2)],
    }
}

/// Returns how far the cube with the index `number` on an axis is from the middle, along this axis.
fn step_of(number: u32) -> i32
    requires { number < 64 }
    ensures value { result ≡ step_of number }
    ensures within { IsWithin 2113929216 result }
{
    (number as i32 - 32) * EDGE + EDGE / 2
}

/// Returns whether `coordinate` is in the domain, or next to it.
fn is_near_domain(coordinate: i32) -> bool
    ensures { result ≡ is_near_domain coordinate }
{
    -FAR <= coordinate && coordinate <= FAR
}

/// Returns a lower side, moved by `step`; the least `i32` if `side` is far outside the domain.
fn moved_low(step: i32, side: i32) -> i32
    requires { IsWithin 2113929216 step }
    ensures { result ≡ moved_low step side }
{
    if is_near_domain(side) {
        step + side
    } else {
        i32::MIN
    }
}

/// Returns an upper side, moved by `step`; the greatest `i32` if `side` is far outside the domain.
fn moved_high(step: i32, side: i32) -> i32
    requires { IsWithin 2113929216 step }
    ensures { result ≡ moved_high step side }
{
    if is_near_domain(side) {
        step + side
    } else {
        i32::MAX
    }
}
