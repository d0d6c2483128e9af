//! Which axis of a box comes first in the index: one on which the box is thin. The first tree of the index is sorted by
//! the least x of boxes, and does not separate boxes that are long on the first axis. The second tree, by cells of
//! space, does, but a search begins with the first tree alone.
ghost use Rattle.std.specs.Prelude.{◌≡◌, ◌-ℤ◌};
ghost use Rattle.rp_algebra.specs.Within.{IsWithin};
ghost use Rattle.rp_space.specs.Boxes.{integer_box};
ghost use Rattle.rp_lotindex.specs.Turns.{is_plate, axis_by, axis_of, turned};

use rp_space::IntBox;

/// An axis of space.
#[derive(Clone, Copy)]
pub(crate) enum Axis {
    X,
    Y,
    Z,
}

/// Returns the axis of `bounds` that comes first.
pub(crate) fn axis_of(bounds: &IntBox) -> Axis
    ensures { result ≡ axis_of (integer_box bounds.now) }
{
    let [x1, y1, z1] = bounds.lo;
    let [x2, y2, z2] = bounds.hi;
    axis_by(extent(x1, x2), extent(y1, y2), extent(z1, z2))
}

/// Returns the axis that comes first for a box of the lengths `x`, `y` and `z`. Heights differ little from lot to lot,
/// even if the lots are flat; so z comes first only for flat plates.
fn axis_by(x: i64, y: i64, z: i64) -> Axis
    requires z { IsWithin 4294967296 z }
    ensures { result ≡ axis_by x y z }
{
    if is_plate(x, y, z) {
        Axis::Z
    } else if y < x {
        Axis::Y
    } else {
        Axis::X
    }
}

/// Returns whether a box of the lengths `x`, `y` and `z` is a plate that lies flat: 64 times its height is less than
/// both other lengths.
fn is_plate(x: i64, y: i64, z: i64) -> bool
    requires { IsWithin 4294967296 z }
    ensures { result ≡ is_plate x y z }
{
    64 * z < x && 64 * z < y
}

/// Returns the length from the lower side `low` to the upper side `high`.
fn extent(low: i32, high: i32) -> i64
    ensures value { result ≡ high -ℤ low }
    ensures within { IsWithin 4294967296 result }
{
    high as i64 - low as i64
}

/// Returns `bounds` with the numbers of x and of `axis` exchanged.
pub(crate) fn turned(axis: Axis, bounds: &IntBox) -> IntBox
    ensures { integer_box result ≡ turned axis (integer_box bounds.now) }
{
    let [x1, y1, z1] = bounds.lo;
    let [x2, y2, z2] = bounds.hi;
    match axis {
        Axis::X => *bounds,
        Axis::Y => IntBox {
            lo: [y1, x1, z1],
            hi: [y2, x2, z2],
        },
        Axis::Z => IntBox {
            lo: [z1, y1, x1],
            hi: [z2, y2, x2],
        },
    }
}
