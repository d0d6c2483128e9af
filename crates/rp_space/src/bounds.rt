//! Boxes with whole corners, and the domain cube.
ghost use Rattle.std.specs.Prelude.{◌≡◌, ◌<◌, ◌^◌, ◌*ℤ◌, true, unsigned_abs};
ghost use Rattle.rp_geometry.specs.Geometry.{all_hold, box_half_spaces, boxes_meet, closed_boxes_meet, cube_box, cube_half_spaces, is_between, is_box_in_bounds, is_in_box};
ghost use Rattle.rp_geometry.specs.parts.LeastBox.{box_union};
ghost use Rattle.rp_space.specs.Boxes.{integer_box};

use crate::half::Half;
use crate::point::Point;

/// Half the edge of the domain cube, 2^24 units.
pub const HALF_EDGE: i32 = 16777216;

/// A box with whole corners, in the units of coordinates. It contains the points from `lo` to below `hi` on each axis.
#[derive(Clone, Copy, Debug, PartialEq, Eq)]
pub struct IntBox {
    /// The lower corner.
    pub lo: [i32; 3],
    /// The upper corner.
    pub hi: [i32; 3],
}

impl IntBox {
    /// Returns the box of the domain cube, from -16777216 to below 16777216 on each axis.
    pub fn cube() -> IntBox
        ensures { integer_box result ≡ cube_box }
    {
        IntBox {
            lo: [-HALF_EDGE; 3],
            hi: [HALF_EDGE; 3],
        }
    }

    /// Returns whether each coordinate of `p` is from the lower side of the box to below the upper side. That is the
    /// case iff `p` is in all six half-spaces of the box.
    pub fn holds(&self, p: &Point) -> bool
        ensures sides { result ≡ is_in_box (integer_box self.now) p.now }
        ensures half_spaces { result ≡ all_hold (box_half_spaces (integer_box self.now)) p.now }
    {
        let [x1, y1, z1] = self.lo;
        let [x2, y2, z2] = self.hi;
        let (x, y, z, w) = p.numbers();
        let on_x = is_between(x1, x2, x, w);
        let on_y = is_between(y1, y2, y, w);
        let on_z = is_between(z1, z2, z, w);
        on_x & on_y & on_z
    }

    /// Returns whether the box and `other` each begin before the other ends, on each axis.
    pub fn meets(&self, other: &IntBox) -> bool
        ensures { result ≡ boxes_meet (integer_box self.now) (integer_box other.now) }
    {
        let [x1, y1, z1] = self.lo;
        let [x2, y2, z2] = self.hi;
        let [u1, v1, w1] = other.lo;
        let [u2, v2, w2] = other.hi;
        (x1 < u2) & (u1 < x2) & (y1 < v2) & (v1 < y2) & (z1 < w2) & (w1 < z2)
    }

    /// Returns whether the box and `other` each begin no later than the other ends, on each axis: whether they share a
    /// point, the boundaries included.
    pub fn meets_closed(&self, other: &IntBox) -> bool
        ensures { result ≡ closed_boxes_meet (integer_box self.now) (integer_box other.now) }
    {
        let [x1, y1, z1] = self.lo;
        let [x2, y2, z2] = self.hi;
        let [u1, v1, w1] = other.lo;
        let [u2, v2, w2] = other.hi;
        (x1 <= u2) & (u1 <= x2) & (y1 <= v2) & (v1 <= y2) & (z1 <= w2) & (w1 <= z2)
    }

    /// Returns the least box that contains the box and `other`.
    pub fn union(&self, other: &IntBox) -> IntBox
        ensures { integer_box result ≡ box_union (integer_box self.now) (integer_box other.now) }
    {
        let [x1, y1, z1] = self.lo;
        let [x2, y2, z2] = self.hi;
        let [u1, v1, w1] = other.lo;
        let [u2, v2, w2] = other.hi;
        IntBox {
            lo: [x1.min(u1), y1.min(v1), z1.min(w1)],
            hi: [x2.max(u2), y2.max(v2), z2.max(w2)],
        }
    }
}

/// Returns whether the coordinate `v / w` is from `lo` to below `hi`.
fn is_between(lo: i32, hi: i32, v: i128, w: i128) -> bool
    requires { unsigned_abs w < 2 ^ 75 }
    ensures { result ≡ is_between lo hi v w }
{
    let least = scaled(lo, w);
    let limit = scaled(hi, w);
    least <= v && v < limit
}

/// Returns the numerator of the coordinate `units` over the weight `w`: their product.
fn scaled(units: i32, w: i128) -> i128
    requires { unsigned_abs w < 2 ^ 75 }
    ensures { result ≡ units *ℤ w }
{
    units as i128 * w
}

/// Returns the six half-spaces of the box `b`: the lower and the upper side of x, then of y, then of z. All six numbers
/// of `b` are from -16777216 to 16777216.
pub fn box_halves(b: &IntBox) -> [Half; 6]
    requires { is_box_in_bounds (integer_box b.now) ≡ true }
    ensures { result ≡ box_half_spaces (integer_box b.now) }
{
    let [x1, y1, z1] = b.lo;
    let [x2, y2, z2] = b.hi;
    [
        Half::of_side(1, 0, 0, -(x1 as i64)),
        Half::of_side(-1, 0, 0, x2 as i64),
        Half::of_side(0, 1, 0, -(y1 as i64)),
        Half::of_side(0, -1, 0, y2 as i64),
        Half::of_side(0, 0, 1, -(z1 as i64)),
        Half::of_side(0, 0, -1, z2 as i64),
    ]
}

/// Returns the six half-spaces of the domain cube.
pub fn cube() -> [Half; 6]
    ensures { result ≡ cube_half_spaces }
{
    box_halves(&IntBox::cube())
}
