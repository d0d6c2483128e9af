//! The half-space below a line.
ghost use Rattle.std.specs.Prelude.{◌≡◌, ◌≤◌, Some, IsTrue, ◌-ℤ◌, ◌*ℤ◌, neg_ℤ, unsigned_abs};
ghost use Rattle.rp_geometry.specs.Geometry.{reduced_half_space};
ghost use Rattle.rp_geometry.specs.sets.Prism.{below_line};
ghost use Rattle.rp_space.specs.Corners.{polygon_corner};
ghost use Rattle.rp_footprint.specs.Cells.{AreInOrder};

use rp_space::{Corner, Half};

/// Returns `u - v`, the difference of two coordinates.
fn difference(u: i32, v: i32) -> i64
    requires u_small { unsigned_abs u ≤ 8388608 }
    requires v_small { unsigned_abs v ≤ 8388608 }
    ensures value { result ≡ u -ℤ v }
    ensures small { unsigned_abs result ≤ 16777216 }
{
    u as i64 - v as i64
}

/// Returns `d * v`, the product of a difference and a coordinate.
fn product(d: i64, v: i32) -> i64
    requires d_small { unsigned_abs d ≤ 16777216 }
    requires v_small { unsigned_abs v ≤ 8388608 }
    ensures value { result ≡ d *ℤ v }
    ensures small { unsigned_abs result ≤ 140737488355328 }
{
    d * v as i64
}

/// Returns `u - v`, the difference of two products.
fn offset(u: i64, v: i64) -> i64
    requires u_small { unsigned_abs u ≤ 140737488355328 }
    requires v_small { unsigned_abs v ≤ 140737488355328 }
    ensures { result ≡ u -ℤ v }
{
    u - v
}

/// Returns `-d`, the opposite of a difference.
fn opposite(d: i64) -> i64
    requires { unsigned_abs d ≤ 16777216 }
    ensures { result ≡ neg_ℤ d }
{
    -d
}

/// Returns the half-space below the line from `left` to `right`, a corner with a greater x, in lowest terms.
pub(crate) fn below_line(left: Corner, right: Corner) -> Option<Half>
    requires { AreInOrder (polygon_corner left) (polygon_corner right) }
    ensures { result ≡ Some (reduced_half_space (below_line (polygon_corner left) (polygon_corner right))) }
{
    let dx = difference(right.x, left.x);
    let dy = difference(right.y, left.y);
    let first = product(dx, left.y);
    let second = product(dy, left.x);
    Half::new(dy, opposite(dx), 0, offset(first, second)).ok()
}
